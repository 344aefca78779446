//! Ranges of services that pass, in ascending order.

ghost use Rattle.std.specs.Prelude.{◌≡◌, ◌↔◌, IsTrue, IfOk, is_none};
ghost use Rattle.pass_core.specs.Passing.{GoesOn};
ghost use Rattle.pass_core.specs.inner.Joining.{Joins};

use host_net::Packet;
use std::alloc::AllocError;

/// The services from `low` to `high`, inclusive. The number of a service is `65536 * protocol + port`.
#[derive(Clone, Copy, Debug, PartialEq, Eq)]
pub struct PassingRange {
    pub low: u32,
    pub high: u32,
    /// A packet that passes.
    pub passes: Packet,
    /// A packet that does not pass, if the services pass in part. `None` if they pass wholly.
    pub stays: Option<Packet>,
}

/// Whether a range follows another range without a gap, and both pass wholly or both pass in part.
fn goes_on(last: &PassingRange, range: &PassingRange) -> bool
    ensures { IsTrue result ↔ GoesOn last.now range.now }
{
    if last.stays.is_none() != range.stays.is_none() {
        return false;
    }
    last.high < range.low && range.low - last.high == 1
}

/// Appends a range, or extends the last range to its end.
pub(crate) fn join(ranges: &mut Vec<PassingRange>, range: PassingRange) -> Result<(), AllocError>
    ensures { IfOk result (λ _. Joins ranges.old.items range ranges.new.items) }
{
    let Some(last) = ranges.pop() else {
        ranges.push(range)?;
        return Ok(());
    };
    if goes_on(&last, &range) {
        ranges.push(PassingRange {
            high: range.high,
            ..last
        })?;
        return Ok(());
    }
    ranges.push(last)?;
    ranges.push(range)?;
    Ok(())
}
