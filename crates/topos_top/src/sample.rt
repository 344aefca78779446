//! `sample N`: the sizes of the policy, the rules and the offending sets of the sample of N hosts, and the
//! number of packets that its rules forward.

ghost use Rattle.std.specs.Prelude.{◌≤◌, IfOk, false};
ghost use Rattle.host_net.specs.Limits.{host_limit};
ghost use Rattle.run_core.specs.Outcomes.{Answers};
ghost use Rattle.topos_top.specs.Sample.{sample_outcomes};
ghost use Rattle.run_core.specs.inner.Views.{reply_view};

use run_core::{Answer, Text};
use sample_core::sample_text;
use std::alloc::{AllocError, Global};

/// Returns the numbers of the sample.
pub fn answer<'a>(alloc: Global, hosts: u16) -> Result<Answer<'a>, AllocError>
    requires { hosts ≤ host_limit }
    ensures { IfOk result (λ answer. Answers false (sample_outcomes hosts) (reply_view answer)) }
{
    Ok(Answer::done(Text::Bytes(sample_text(alloc, hosts)?)))
}
