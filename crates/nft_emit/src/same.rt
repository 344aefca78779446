//! Equality of rules.

ghost use Rattle.std.specs.Prelude.{◌≡◌, IsTrue};

use nft_rules::{End, MatchRule, PortMatch, ServiceMatch, Verdict};

/// Whether two rules are equal. A caller knows the values to be equal, which a derived `==` does
/// not say.
pub(crate) fn is_same_rule(a: MatchRule, b: MatchRule) -> bool
    ensures { IsTrue result → a ≡ b }
{
    if a.established != b.established {
        return false;
    }
    is_same_service(a.service, b.service) && is_same_verdict(a.verdict, b.verdict)
}

fn is_same_service(a: Option<ServiceMatch>, b: Option<ServiceMatch>) -> bool
    ensures { IsTrue result → a ≡ b }
{
    match (a, b) {
        (Some(a), Some(b)) => a.proto == b.proto && is_same_ports(a.ports, b.ports),
        (None, None) => true,
        _ => false,
    }
}

fn is_same_ports(a: Option<PortMatch>, b: Option<PortMatch>) -> bool
    ensures { IsTrue result → a ≡ b }
{
    match (a, b) {
        (Some(a), Some(b)) => is_same_end(a.end, b.end) && a.low == b.low && a.high == b.high,
        (None, None) => true,
        _ => false,
    }
}

fn is_same_end(a: End, b: End) -> bool
    ensures { IsTrue result → a ≡ b }
{
    match (a, b) {
        (End::Source, End::Source) => true,
        (End::Destination, End::Destination) => true,
        _ => false,
    }
}

fn is_same_verdict(a: Verdict, b: Verdict) -> bool
    ensures { IsTrue result → a ≡ b }
{
    match (a, b) {
        (Verdict::Accept, Verdict::Accept) => true,
        (Verdict::Drop, Verdict::Drop) => true,
        (Verdict::Goto(a), Verdict::Goto(b)) => a == b,
        _ => false,
    }
}
