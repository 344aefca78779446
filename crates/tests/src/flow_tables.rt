//! A table of three entries, with frames that occur in no trace.

ghost use Rattle.std.specs.Prelude.{IsTrue};
ghost use Rattle.ofp_rules.specs.Matching.{asks_of_ip};

use host_net::{Prefix, Verdict, read_prefix};
use ofp_rules::{Action, Entry, Frame, FrameKind, Table, TableRefusal};
use std::alloc::Global;
use std::process::Abort;

fn ip(priority: u16, src: Option<Prefix>, dst: Option<Prefix>, action: Action) -> Entry
    ensures { IsTrue (asks_of_ip result) }
{
    Entry {
        priority,
        kind: FrameKind::Ip,
        src,
        dst,
        proto: None,
        tp_src: None,
        tp_dst: None,
        action,
    }
}

fn of(priority: u16, kind: FrameKind, action: Action) -> Entry
    ensures { IsTrue (asks_of_ip result) }
{
    Entry {
        priority,
        kind,
        src: None,
        dst: None,
        proto: None,
        tp_src: None,
        tp_dst: None,
        action,
    }
}

// Returns a table of three entries, in this order.
#[tactic(auto, using(std::proofs::lemmas::Bool::and_from))]
fn three(
    rt: &impl Abort,
    alloc: Global,
    a: Entry,
    b: Entry,
    c: Entry,
) -> Result<Table, TableRefusal>
    requires a { IsTrue (asks_of_ip a) }
    requires b { IsTrue (asks_of_ip b) }
    requires c { IsTrue (asks_of_ip c) }
{
    Table::build(alloc, vec![in alloc; a, b, c].expect(rt, "memory"))
}

#[test]
fn frames_of_other_kinds(rt: HostRuntime) {
    let pair = ip(
        40,
        read_prefix(b"10.0.0.1"),
        read_prefix(b"10.0.0.2"),
        Action::Normal,
    );
    let arp = of(20, FrameKind::Arp, Action::Normal);
    let rest = of(0, FrameKind::Any, Action::Drop);
    let Ok(table) = three(&rt, rt.alloc(), pair, arp, rest) else {
        panic!(rt; "a table");
    };
    assert_eq!(rt; table.verdict(&Frame::Arp), Verdict::Forward);
    assert_eq!(rt; table.verdict(&Frame::Other), Verdict::Drop);
}
