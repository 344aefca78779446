//! The check of a listed policy, before rules are emitted for it.

ghost use Rattle.std.specs.Prelude.{◌≡◌, ◌↔◌, All, IfOk, IsTrue, MatchOption};
ghost use Rattle.inv_any.specs.Templates.{meaning_of};
ghost use Rattle.net_core.specs.Policies.{holds_on};
ghost use Rattle.report_core.specs.CheckReport.{IsCheckReport};
ghost use Rattle.topos_top.specs.Rules.{ListedHolds};

use desc_core::Description;
use flow_set::FlowSet;
use inv_any::AnyInv;
use inv_law::Invariant;
use report_core::{Report, check_report};
use std::alloc::{AllocError, Global};

/// Returns the report of the policy of a description, if it is listed and some invariant fails on
/// it.
pub fn listed_offences(
    alloc: Global,
    description: &Description,
) -> Result<Option<Report>, AllocError>
    ensures { IfOk result (λ offences. MatchOption offences (ListedHolds description.now)
        (λ report. (ListedHolds description.now → ⊥) × IsCheckReport description.now report)) }
{
    if !description.given() {
        return Ok(None);
    }
    if all_hold(alloc, description.invariants(), description.asked())? {
        return Ok(None);
    }
    let (report, _) = check_report(alloc, description)?;
    Ok(Some(report))
}

/// Whether every invariant holds on the flows.
fn all_hold(alloc: Global, invariants: &[AnyInv], flows: &FlowSet) -> Result<bool, AllocError>
    requires { All (λ inv. (meaning_of inv).size ≡ flows.now.size) invariants.now }
    ensures { IfOk result (λ yes. IsTrue yes ↔ All (λ inv. holds_on inv flows.now.flows) invariants.now) }
{
    for inv in invariants {
        if !inv.holds(alloc, flows)? {
            return Ok(false);
        }
    }
    Ok(true)
}
