//! Parsing the TOML table of a description.
ghost use Rattle.std.specs.Prelude.{◌≡◌};
ghost use Rattle.std.specs.Result.{result_map_both};
ghost use Rattle.desc_core.specs.inner.Parts.{table_of};
ghost use Rattle.desc_core.specs.inner.Reads.{Reads};
ghost use Rattle.desc_core.specs.declared.fault.DescFault.TheVariants.{Refused};
ghost use Rattle.desc_form.specs.Refusals.{refused};
ghost use Rattle.desc_form.specs.declared.refusal.Place.TheVariants.{Document};
ghost use Rattle.toml.specs.View.{table_view};

use crate::fault::{BYTE_LIMIT, DescFault};
use desc_form::{Place, Refusal, Why};
use std::alloc::Global;
use toml::Table;

/// Returns the table of a description's bytes, or the first of the two conditions on bytes.
pub fn read_table(alloc: Global, bytes: &[u8]) -> Result<Table, DescFault>
    ensures { Reads (result_map_both table_view (λ fault. fault) result) (table_of bytes.now) }
{
    if bytes.len() > BYTE_LIMIT {
        return Err(of_document(Why::TooLong));
    }
    match toml::table_from_slice(alloc, bytes) {
        Ok(table) => Ok(table),
        Err(error) => Err(if error.is_memory() {
            DescFault::Memory
        } else {
            of_document(Why::NotToml)
        }),
    }
}

/// Returns the refusal of the document as a whole.
fn of_document(why: Why) -> DescFault
    ensures { result ≡ Refused (refused why Document) }
{
    DescFault::Refused(Refusal::at(why, Place::Document))
}
