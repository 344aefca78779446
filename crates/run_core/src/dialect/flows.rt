//! Flow tables of OpenFlow: their parse, and the table of a policy.

ghost use Rattle.std.specs.Prelude.{IfOk};
ghost use Rattle.run_core.specs.declared.dialect.Dialect.TheVariants.{OpenFlow};
ghost use Rattle.run_core.specs.inner.DialectCalls.{IsRead, IsWritten};

use crate::dialect::{Rules, RulesFault};
use crate::hindrance::{count_line, flow_line};
use crate::text::Text;
use emit_core::{NoTable, flow_table_layout, needs_state};
use ofp_read::OfpFault;
use pkt_core::FlowPolicy;
use std::alloc::{AllocError, Global};

/// Parses a flow table.
pub fn read(alloc: Global, bytes: &[u8]) -> Result<Rules, RulesFault>
    ensures { IsRead OpenFlow bytes.now result }
{
    match ofp_read::read(alloc, bytes) {
        Ok(table) => Ok(Rules::Table(table)),
        Err(OfpFault::Refused { line, why }) => Err(RulesFault::Refused(line, why.name())),
        Err(OfpFault::Memory) => Err(RulesFault::Memory),
    }
}

/// Returns the flow table of a policy, or the line with the reason why there is none: a table is
/// stateless, matches one port at a time, and has an entry limit.
pub fn layout<'a>(
    alloc: Global,
    policy: &FlowPolicy<'_>,
) -> Result<Result<Text<'a>, Vec<u8>>, AllocError>
    ensures { IfOk result (IsWritten OpenFlow policy.now) }
{
    let hosts = policy.hosts();
    if let Some(flow) = needs_state(policy) {
        let line = flow_line(alloc, hosts, b"answers of ", flow, b" need state\n")?;
        return Ok(Err(line));
    }
    match flow_table_layout(alloc, policy) {
        Ok(table) => Ok(Ok(Text::Rules(Rules::Table(table)))),
        Err(NoTable::RangeOfPorts { flow }) => {
            // The call establishes that the ends of each permitted flow are hosts.
            let _hosts = policy.permitted().size();
            let line = flow_line(alloc, hosts, b"ports of ", flow, b" are a range\n")?;
            Ok(Err(line))
        }
        Err(NoTable::TooManyEntries { count }) => {
            Ok(Err(count_line(alloc, count, b" flows exceed 8192\n")?))
        }
        Err(NoTable::Memory) => Err(AllocError),
    }
}
