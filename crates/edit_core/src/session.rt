//! A description that is edited. The session maintains its table, its network and the policy.

ghost use Rattle.std.specs.Prelude.{◌≡◌, IfErr, IfOk, Ok, OnErr};
ghost use Rattle.std.specs.Result.{result_map_both};
ghost use Rattle.desc_core.specs.Description.{described_by_table};
ghost use Rattle.edit_core.specs.inner.Kept.{IsDescription, Refuses, entries_of, table_of};
ghost use Rattle.edit_core.specs.Summaries.{IsStarted};
ghost use Rattle.edit_core.specs.inner.Summaries.{HasPolicy, IsApplied, IsEdited};
ghost use Rattle.edit_core.specs.inner.EditView.{change_view, edit_view};
ghost use Rattle.toml.specs.View.{table_view};

use crate::edit::{Change, Edit};
use crate::fault::{ChangeFault, EditFault};
use crate::in_place::edit_in_place;
use crate::summary::{Summary, summary_of};
use crate::table::edited;
use desc_core::{DescFault, describe_table, read_table};
use flow_set::FlowSet;
use net_core::{Description, NetworkWithPolicy};
use std::alloc::Global;
use std::marker::Model;
use toml::Table;

/// A description that is edited, with its policy. Its model is the list of entries of its table.
#[derive(Drop)]
pub struct Session {
    alloc: Global,
    table: Table,
    network: NetworkWithPolicy,
}

impl Model for Session {
    ghost use Rattle.std.specs.Prelude.{ℕ, List};
    ghost use Rattle.std.specs.Coded.{codes};
    ghost use Rattle.toml.specs.declared.value.Value.{Value as TomlValue};
    ghost use Rattle.toml.specs.contracts.value.Value as value;

    ghost Value = { List (List ℕ × TomlValue) };

    ghost coded = { Prim.hlevel (codes, value.the_row.coded) };

    ghost use Rattle.std.specs.Prelude.{◌≡◌, Ok};
    ghost use Rattle.toml.specs.View.{table_view};
    ghost use Rattle.desc_core.specs.Description.{described_by_table};
    ghost use Rattle.edit_core.specs.inner.Kept.{entries_of};

    ghost view = { λ s. entries_of s.table };

    ghost invariant = { λ s. described_by_table (table_view s.table) ≡ Ok s.network.network };
}

impl Session {
    /// Starts a session of a description, or returns the first condition that refuses it.
    pub fn start(alloc: Global, bytes: &[u8]) -> Result<Session, DescFault>
        ensures { IsStarted bytes.now (result_map_both table_of (λ fault. fault) result) }
    {
        let table = read_table(alloc, bytes)?;
        Session::of_table(alloc, table)
    }

    /// Starts a session of a table that is a description, or returns the first condition on tables
    /// that refuses it.
    fn of_table(alloc: Global, table: Table) -> Result<Session, DescFault>
        ensures table { IfOk result (λ session. session ≡ entries_of table) }
        ensures described { IfOk result (λ session. IsDescription (table_of session)) }
        ensures refused { IfErr result (Refuses (table_view table)) }
    {
        let description = describe_table(alloc, &table)?;
        let network = NetworkWithPolicy::new(alloc, description)?;
        Ok(Session {
            alloc,
            table,
            network,
        })
    }

    /// Changes the table by an edit, and summarizes the resulting description. After a refusal, and
    /// if memory runs out, the table is unchanged.
    pub fn apply(&mut self, edit: &Edit) -> Result<Summary, EditFault>
        ensures applied { IsEdited (edit_view edit.now).change (table_of self.old) (table_of self.new) result }
        ensures unchanged { OnErr result (self.new ≡ self.old) }
    {
        match self.apply_change(edit) {
            Ok(summary) => Ok(summary),
            Err(fault) => Err(EditFault::of(fault)),
        }
    }

    /// Does the same, and returns the reason of a refusal as one value.
    pub(crate) fn apply_change(&mut self, edit: &Edit) -> Result<Summary, ChangeFault>
        ensures applied { IsApplied (edit_view edit.now).change (table_of self.old) (table_of self.new) result }
        ensures unchanged { OnErr result (self.new ≡ self.old) }
    {
        let change = edit.change();
        match edit_in_place(self.alloc, &mut self.table, &mut self.network, change) {
            Some(summary) => Ok(summary),
            None => self.apply_from_scratch(change),
        }
    }

    /// Changes the table by an edit, and evaluates it from scratch.
    fn apply_from_scratch(&mut self, change: &Change) -> Result<Summary, ChangeFault>
        ensures applied { IsApplied (change_view change.now) (table_of self.old) (table_of self.new) result }
        ensures unchanged { OnErr result (self.new ≡ self.old) }
    {
        let table = edited(self.alloc, &self.table, change)?;
        let next = Session::of_table(self.alloc, table)?;
        let summary = summary_of(&next.network);
        *self = next;
        Ok(summary)
    }

    /// Returns the current description.
    pub fn description(&self) -> &Description
        ensures { described_by_table (table_of self.now) ≡ Ok result.now }
    {
        self.network.description()
    }

    /// Returns the permitted flows of the current description.
    pub fn permitted(&self) -> &FlowSet
        ensures { HasPolicy (table_of self.now) (λ policy. result.now ≡ policy.permitted) }
    {
        self.network.permitted()
    }

    /// Returns the permitted flows whose answers may pass.
    pub fn stateful(&self) -> &FlowSet
        ensures { HasPolicy (table_of self.now) (λ policy. result.now ≡ policy.stateful) }
    {
        self.network.stateful()
    }
}
