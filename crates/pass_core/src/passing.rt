//! The services that pass between two sets of addresses.

ghost use Rattle.std.specs.Prelude.{IfOk};
ghost use Rattle.header_space.specs.Owners.{GoesBetween};
ghost use Rattle.pass_core.specs.Passing.{ArePassing, AreRanges};
ghost use Rattle.pass_core.specs.inner.Joining.{Appends};

use crate::area::areas_between;
use crate::asked_area::ask_areas;
use crate::passing_range::{PassingRange, join};
use crate::service::Service;
use crate::survey::{Survey, survey_areas};
use header_space::{AddressRange, Question};
use std::alloc::{AllocError, Global};

/// Returns the services that pass from one set of addresses to another, wholly or in part, as ranges in
/// ascending order. A packet passes if the question holds for it.
pub fn services_between<Q: Question>(
    alloc: Global,
    question: &Q,
    from: &[AddressRange],
    to: &[AddressRange],
) -> Result<Vec<PassingRange>, AllocError>
    requires from { AreRanges from.now }
    requires to { AreRanges to.now }
    ensures { IfOk result (λ ranges. ArePassing (Q.holds_of question.now) (GoesBetween from.now to.now) ranges.items) }
{
    let areas = areas_between(alloc, from, to)?;
    let asked = ask_areas(alloc, question, &areas)?;
    let mut ranges = Vec::new(alloc);
    let mut next = Some(Service::first());
    while let Some(first) = next {
        let found = survey_areas(alloc, question, &asked, first)?;
        append(&mut ranges, &found)?;
        next = found.last.next();
    }
    Ok(ranges)
}

/// Appends the range of a survey, if packets of its services pass.
pub(crate) fn append(ranges: &mut Vec<PassingRange>, found: &Survey) -> Result<(), AllocError>
    ensures { IfOk result (λ _. Appends found.now ranges.old.items ranges.new.items) }
{
    let Some(passes) = found.passes else {
        return Ok(());
    };
    join(
        ranges,
        PassingRange {
            low: found.first.number(),
            high: found.last.number(),
            passes,
            stays: found.stays,
        },
    )
}
