//! Intervals of addresses: an address, a prefix, or the first and the last address.

ghost use Rattle.std.specs.Prelude.{◌≡◌, ◌<◌, ◌^◌, IfSome, Some};
ghost use Rattle.header_space.specs.declared.address_range.AddressRange.{AddressRange};
ghost use Rattle.nft_text.specs.Text.{range_text};
ghost use Rattle.nft_read.specs.inner.IntervalSteps.{between, block_of, candidate, interval_of};

use header_space::AddressRange;
use host_net::{read_address, read_prefix};
use nft_text::is_range_text;
use text_core::split_once;

/// Parses an interval in the form that nft prints: each interval has one text.
#[tactic(auto, using(crate::proofs::IntervalLaws::interval_said, crate::proofs::IntervalLaws::interval_read))]
pub fn read_interval(text: &[u8]) -> Option<AddressRange>
    ensures said { IfSome result (λ range. text.now ≡ range_text range) }
    ensures read { (range : AddressRange) → range.first < 2 ^ 32 → range.last < 2 ^ 32 → text.now ≡ range_text range → result ≡ Some range }
{
    read_exact(text)
}

pub(crate) fn read_exact(text: &[u8]) -> Option<AddressRange>
    ensures { result ≡ interval_of text.now }
{
    match candidate(text) {
        Some(range) if is_range_text(text, range) => Some(range),
        _ => None,
    }
}

/// Returns the only interval that may have this text.
fn candidate(text: &[u8]) -> Option<AddressRange>
    ensures { result ≡ candidate text.now }
{
    match split_once(text, b'-') {
        None => block_of(text),
        Some((first, last)) => between(first, last),
    }
}

fn block_of(text: &[u8]) -> Option<AddressRange>
    ensures { result ≡ block_of text.now }
{
    match read_prefix(text) {
        None => None,
        Some(prefix) => Some(AddressRange {
            first: prefix.first(),
            last: prefix.last(),
        }),
    }
}

fn between(first: &[u8], last: &[u8]) -> Option<AddressRange>
    ensures { result ≡ between first.now last.now }
{
    match (read_address(first), read_address(last)) {
        (Some(first), Some(last)) => Some(AddressRange { first, last }),
        _ => None,
    }
}
