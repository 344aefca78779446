//! Areas with a question restricted to their packets, if this lowers the cost.

ghost use Rattle.std.specs.Prelude.{◌≡◌, IfOk, map};
ghost use Rattle.std.specs.List.{All};
ghost use Rattle.pass_core.specs.inner.Areas.{IsArea};
ghost use Rattle.pass_core.specs.inner.Asking.{IsAsked, part_or};

use crate::area::Area;
use header_space::{Question, box_between};
use std::alloc::{AllocError, Global};

/// The greatest number of areas with a restricted question: each restricted question uses memory.
const PART_LIMIT: usize = 64;

/// An area, with the question restricted to its packets if this is worth the cost.
#[derive(Drop)]
pub(crate) struct AskedArea<Q> {
    pub(crate) area: Area,
    part: Option<Q>,
}

impl<Q> AskedArea<Q> {
    /// Returns the question for the packets of the area: the restricted question if there is one, else
    /// `whole`.
    pub(crate) fn question<'a>(&'a self, whole: &'a Q) -> &'a Q
        ensures { result.now ≡ part_or whole.now self.now.part }
    {
        match &self.part {
            None => whole,
            Some(part) => part,
        }
    }
}

/// Pairs each area with its question, which is restricted for at most `PART_LIMIT` areas.
pub(crate) fn ask_areas<Q: Question>(
    alloc: Global,
    question: &Q,
    areas: &[Area],
) -> Result<Vec<AskedArea<Q>>, AllocError>
    requires { All IsArea areas.now }
    ensures areas { IfOk result (λ asked. map (λ a. a.area) asked.items ≡ areas.now) }
    ensures asked { IfOk result (λ asked. All (λ a. IsAsked (Q.holds_of question.now) a.area (Q.holds_of (part_or question.now a.part))) asked.items) }
{
    let mut asked = Vec::new(alloc);
    for area in areas {
        let next = ask_area(alloc, question, *area, asked.len() < PART_LIMIT)?;
        asked.push(next)?;
    }
    Ok(asked)
}

/// Restricts the question to an area, if `is_wanted` and if this is worth the cost.
fn ask_area<Q: Question>(
    alloc: Global,
    question: &Q,
    area: Area,
    is_wanted: bool,
) -> Result<AskedArea<Q>, AllocError>
    requires { IsArea area }
    ensures area { IfOk result (λ asked. asked.area ≡ area) }
    ensures asked { IfOk result (λ asked. IsAsked (Q.holds_of question.now) asked.area (Q.holds_of (part_or question.now asked.part))) }
{
    if !is_wanted {
        return Ok(AskedArea { area, part: None });
    }
    let part = question.restrict(alloc, &box_between(area.from, area.to))?;
    Ok(AskedArea { area, part })
}
