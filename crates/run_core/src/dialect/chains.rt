//! Chains of iptables: their parse, and the chains of a policy.

ghost use Rattle.std.specs.Prelude.{IfOk};
ghost use Rattle.run_core.specs.declared.dialect.Dialect.TheVariants.{Iptables};
ghost use Rattle.run_core.specs.inner.DialectCalls.{IsRead, IsWritten};

use crate::dialect::{Rules, RulesFault};
use crate::hindrance::count_line;
use crate::text::Text;
use emit_core::{NoChains, iptables_layout};
use ipt_read::IptFault;
use pkt_core::FlowPolicy;
use std::alloc::{AllocError, Global};

/// Parses chains.
pub fn read(alloc: Global, bytes: &[u8]) -> Result<Rules, RulesFault>
    ensures { IsRead Iptables bytes.now result }
{
    match ipt_read::read(alloc, bytes) {
        Ok(chains) => Ok(Rules::Chains(chains)),
        Err(IptFault::Refused { line, why }) => Err(RulesFault::Refused(line, why.name())),
        Err(IptFault::Memory) => Err(RulesFault::Memory),
    }
}

/// Returns the chains of a policy, or the line that reports that there are too many rules.
pub fn layout<'a>(
    alloc: Global,
    policy: &FlowPolicy<'_>,
) -> Result<Result<Text<'a>, Vec<u8>>, AllocError>
    ensures { IfOk result (IsWritten Iptables policy.now) }
{
    match iptables_layout(alloc, policy) {
        Ok(chains) => Ok(Ok(Text::Rules(Rules::Chains(chains)))),
        Err(NoChains::TooManyRules { count }) => {
            Ok(Err(count_line(alloc, count, b" rules exceed 600000\n")?))
        }
        Err(NoChains::Memory) => Err(AllocError),
    }
}
