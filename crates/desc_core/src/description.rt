//! The description of a network: its hosts, the requested flows between them, their services, and
//! its invariants.
ghost use Rattle.std.specs.Prelude.{◌≡◌, ◌≢◌, IfOk};
ghost use Rattle.desc_core.specs.inner.AllConditions.{conditions};
ghost use Rattle.desc_core.specs.Conditions.{table_conditions};
ghost use Rattle.desc_core.specs.Description.{described, described_by_table};
ghost use Rattle.desc_core.specs.inner.Reads.{Reads};
ghost use Rattle.desc_core.specs.inner.Order.{IsLeast, NoneHolds};
ghost use Rattle.desc_core.specs.inner.TableFacts.{IsRight};
ghost use Rattle.desc_core.specs.inner.Whole.{IsDescribed, IsDescribedByTable};
ghost use Rattle.desc_core.specs.declared.fault.DescFault.TheVariants.{Refused};
ghost use Rattle.desc_form.specs.declared.refusal.Refusal.{Refusal};
ghost use Rattle.toml.specs.View.{table_view};

use crate::document::read_table;
use crate::fault::DescFault;
use crate::network::read_network;
use desc_form::{form_refusal, read_raw};
use net_core::Description;
use std::alloc::Global;
use toml::Table;

/// Parses a description, or returns the first condition that refuses it.
pub fn describe(alloc: Global, bytes: &[u8]) -> Result<Description, DescFault>
    ensures given { Reads result (described bytes.now) }

    // The result contains everything of the document: nothing is ignored.
    ensures whole { IfOk result (λ d. IsDescribed bytes.now d) }

    // A description is accepted only if none of the conditions applies.
    ensures none { IfOk result (λ _. NoneHolds (conditions bytes.now)) }

    // The reported condition has the least number of those that apply.
    ensures least { (refusal : Refusal) → result ≡ Err (Refused refusal) → IsLeast 1 (conditions bytes.now) refusal }
{
    let table = read_table(alloc, bytes)?;
    describe_table(alloc, &table)
}

/// Reads a description from its TOML table, or returns the first condition on tables that refuses
/// it. These are the conditions of `describe` from the third on.
pub fn describe_table(alloc: Global, table: &Table) -> Result<Description, DescFault>
    ensures given { Reads result (described_by_table (table_view table.now)) }

    // The result contains everything of the table: nothing is ignored.
    ensures whole { IfOk result (λ d. IsDescribedByTable (table_view table.now) d) }

    // A table is accepted only if none of the conditions on tables applies.
    ensures none { IfOk result (λ _. NoneHolds (table_conditions (table_view table.now))) }

    // The reported condition has the least number of those that apply.
    ensures least { (refusal : Refusal) → result ≡ Err (Refused refusal) → IsLeast 3 (table_conditions (table_view table.now)) refusal }

    // A table is accepted only if it is valid, and a valid table is never refused: only an
    // allocation failure can prevent the result.
    ensures right { IfOk result (λ _. IsRight (table_view table.now)) }
    ensures accepted { IsRight (table_view table.now) → (refusal : Refusal) → result ≢ Err (Refused refusal) }
{
    read_described(alloc, table)
}

fn read_described(alloc: Global, table: &Table) -> Result<Description, DescFault>
    ensures { Reads result (described_by_table (table_view table.now)) }
{
    if let Some(refusal) = form_refusal(table) {
        return Err(DescFault::Refused(refusal));
    }
    let written = read_raw(alloc, table)?;
    read_network(alloc, &written)
}
