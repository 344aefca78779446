//! The description of the sample.

ghost use Rattle.std.specs.Prelude.{◌≡◌, ◌≤◌, IfOk, Ok, [], length};
ghost use Rattle.desc_core.specs.Description.{described_by_table};
ghost use Rattle.host_net.specs.Limits.{host_limit};
ghost use Rattle.sample_core.specs.SampleTable.{sample_table};

use crate::table::sample_table;
use desc_core::{DescFault, Description, describe_table};
use std::alloc::{AllocError, Global};

/// Returns the description of `count` hosts, which is never refused.
pub fn sample_description(alloc: Global, count: u16) -> Result<Description, AllocError>
    requires { count ≤ host_limit }
    ensures described { IfOk result (λ d. described_by_table (sample_table count) ≡ Ok d) }
    ensures hosts { IfOk result (λ d. length d.hosts ≡ count) }
    ensures whole { IfOk result (λ d. d.services ≡ []) }
{
    let table = sample_table(alloc, count)?;
    match describe_table(alloc, &table) {
        Ok(description) => Ok(description),
        Err(DescFault::Memory) => Err(AllocError),
        Err(DescFault::Refused(_)) => unreachable!(),
    }
}
