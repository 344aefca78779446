//! Edits in sequence.

ghost use Rattle.std.specs.Prelude.{◌≡◌, IfErr, IfOk, OnErr, OnOk, Ok, map};
ghost use Rattle.std.specs.Result.{result_map_both};
ghost use Rattle.edit_core.specs.Edited.{after_edit};
ghost use Rattle.edit_core.specs.inner.Kept.{table_of};
ghost use Rattle.edit_core.specs.Runs.{AreSummaries, StopsAt, after_edits};
ghost use Rattle.edit_core.specs.inner.Runs.{IsCause};
ghost use Rattle.edit_core.specs.Summaries.{IsSummary};
ghost use Rattle.edit_core.specs.inner.EditView.{edit_view};

use crate::edit::Edit;
use crate::fault::{ChangeFault, EditWhy};
use crate::session::Session;
use crate::summary::Summary;
use std::alloc::Global;

/// The first edit that is refused: its line, and the reason.
#[derive(Clone, Copy, Debug, PartialEq, Eq)]
pub enum EditRefusal {
    Refused { line: u32, why: EditWhy },
    /// Memory allocation failed.
    Memory,
}

impl Session {
    /// Changes the table by the edits in order, up to the first that is refused, and summarizes the
    /// description after each. After a refusal the table is the one after the edits before it.
    pub fn apply_all(&mut self, alloc: Global, edits: &[Edit]) -> Result<Vec<Summary>, EditRefusal>
        ensures table { OnOk result (after_edits (map edit_view edits.now) (table_of self.old) ≡ Ok (table_of self.new)) }
        ensures summaries { IfOk result (λ told. AreSummaries (map edit_view edits.now) (table_of self.old) told.items) }
        ensures refused { IfErr result (IsCause (after_edits (map edit_view edits.now) (table_of self.old))) }
        ensures stopped { IfErr result (StopsAt (map edit_view edits.now) (table_of self.old) (table_of self.new)) }
    {
        let mut told = Vec::new(alloc);
        for edit in edits {
            let summary = self.step(edit)?;
            if told.push(summary).is_err() {
                return Err(EditRefusal::Memory);
            }
        }
        Ok(told)
    }

    /// Applies one more edit.
    fn step(&mut self, edit: &Edit) -> Result<Summary, EditRefusal>
        ensures table { OnOk result (after_edit (edit_view edit.now).change (table_of self.old) ≡ Ok (table_of self.new)) }
        ensures summary { IfOk result (IsSummary (table_of self.new)) }
        ensures refused { IfErr result (IsCause (result_map_both (λ next. next) (λ why. ((edit_view edit.now).line, why)) (after_edit (edit_view edit.now).change (table_of self.old)))) }
        ensures kept { OnErr result (table_of self.new ≡ table_of self.old) }
    {
        match self.apply_change(edit) {
            Ok(summary) => Ok(summary),
            Err(ChangeFault::Refused(why)) => Err(EditRefusal::Refused {
                line: edit.line(),
                why,
            }),
            Err(ChangeFault::Memory) => Err(EditRefusal::Memory),
        }
    }
}
