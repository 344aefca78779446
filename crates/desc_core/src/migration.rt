//! Migration of a description to version 2.
ghost use Rattle.std.specs.Prelude.{◌≡◌, ◌≤◌, true, false, Some, Ok, Err, IfOk, IfErr, OnOk};
ghost use Rattle.std.specs.Result.{result_map_both};
ghost use Rattle.desc_core.specs.Description.{described_by_table};
ghost use Rattle.desc_core.specs.Document.{document};
ghost use Rattle.desc_core.specs.Migrated.{migrated};
ghost use Rattle.desc_core.specs.inner.Migrated.{Migrates};
ghost use Rattle.desc_core.specs.inner.Reads.{Reads};
ghost use Rattle.net_core.specs.Network.{Network};
ghost use Rattle.toml.specs.Data.{members_depth, members_have_valid_dates};
ghost use Rattle.toml.specs.Text.{IsDocumentText};
ghost use Rattle.toml.specs.View.{table_view};

use crate::description::describe_table;
use crate::document::read_table;
use crate::fault::DescFault;
use std::alloc::{AllocError, Global};
use toml::ser::Error as PrintError;
use toml::{Table, Value};

/// Writes a description in version 2: its table with another version, as `toml` prints it. Comments
/// and the layout of the text are lost. A description that `describe` refuses is refused for the
/// same reason.
pub fn migrate(alloc: Global, bytes: &[u8]) -> Result<Vec<u8>, DescFault>
    ensures { Migrates bytes.now (result_map_both (λ text. text.items) (λ fault. fault) result) }
{
    let mut table = read_table(alloc, bytes)?;
    accept(alloc, &table)?;
    set_version(alloc, &mut table)?;
    Ok(print(alloc, &table)?)
}

/// Refuses a table that describes no network. The network itself is dropped.
fn accept(alloc: Global, table: &Table) -> Result<(), DescFault>
    ensures accepted { IfOk result (λ _. (network : Network) × (described_by_table (table_view table.now) ≡ Ok network)) }
    ensures refused { IfErr result (λ fault. Reads {A = Network} (Err fault) (described_by_table (table_view table.now))) }
{
    describe_table(alloc, table)?;
    Ok(())
}

fn set_version(alloc: Global, table: &mut Table) -> Result<(), AllocError>
    ensures { OnOk result (table_view table.new ≡ migrated (table_view table.old)) }
{
    let key = String::from_str(alloc, "topos")?;
    table.insert(key, Value::Integer(2))?;
    Ok(())
}

/// Returns the text of a table without dates, which `toml` parses back.
fn print(alloc: Global, table: &Table) -> Result<Vec<u8>, AllocError>
    requires depth { members_depth (table_view table.now) ≤ 5 }
    requires dates { members_have_valid_dates (table_view table.now) ≡ true }
    ensures read_back { IfOk result (λ text. document text.items ≡ Some (table_view table.now)) }
    ensures printed { IfOk result (λ text. IsDocumentText false (table_view table.now) text.items) }
{
    match toml::table_to_string(alloc, table) {
        Ok(text) => Ok(text.into_bytes()),
        Err(PrintError::OutOfMemory) => Err(AllocError),
        Err(PrintError::DateInvalid) => unreachable!(),
    }
}
