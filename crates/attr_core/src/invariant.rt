//! The invariant of a template, made of its assigns.
ghost use Rattle.std.specs.Prelude.{◌≡◌, ◌<◌, ℕ, map, length, All, IfOk, Some, None, Err};
ghost use Rattle.attr_core.specs.inner.AssignView.{Reads, given_of};
ghost use Rattle.attr_core.specs.inner.FirstBad.{BlamesFirstBad, SaysNothing};
ghost use Rattle.attr_core.specs.inner.LabelBits.{HaveTheirLabels};
ghost use Rattle.attr_core.specs.inner.ReadIn.{bad_in, invariant_in, read_in};
ghost use Rattle.attr_core.specs.Templates.{form, template_named};
ghost use Rattle.attr_core.specs.declared.fault.AttrFault.TheVariants.{BadAttribute};
ghost use Rattle.inv_any.specs.Templates.{meaning_of, template_name};
ghost use Rattle.inv_any.specs.inner.Templates.{HostsMayHave};

use crate::assign::Assign;
use crate::attribute_table::read;
use crate::fault::AttrFault;
use crate::tainting::TaintedHosts;
use crate::template::Template;
use host_net::Hosts;
use inv_any::AnyInv;
use std::alloc::Global;
use tmpl_domains::Domains;
use tmpl_levels::Blp;
use tmpl_reach::{Dependability, NoReach, NonInterference};
use tmpl_zones::{Gateway, Partners, SinkRule, Subnets};

/// Returns the invariant of the template in which each host has the attribute of its assign, or the
/// default of the template if no assign is for it; or the first assign that specifies no attribute.
/// If two assigns are for the same host, the later one applies.
pub fn read_invariant(
    alloc: Global,
    hosts: &Hosts,
    template: Template,
    assigns: &[Assign<'_>],
) -> Result<AnyInv, AttrFault>
    requires { All (λ a. a.host < length hosts.now) assigns.now }
    ensures good { IfOk result (λ _. bad_in hosts.now template (map given_of assigns.now) ≡ None) }
    ensures first { (k : ℕ) → result ≡ Err (BadAttribute k) → bad_in hosts.now template (map given_of assigns.now) ≡ Some k }

    // Each assign before the reported one specifies an attribute, and the reported one specifies
    // none after these.
    ensures silent { BlamesFirstBad (SaysNothing (form template) hosts.now) (map given_of assigns.now) result }

    ensures within { (k : ℕ) → result ≡ Err (BadAttribute k) → k < length assigns.now }
    ensures invariant { IfOk result (λ any. any ≡ invariant_in hosts.now template (map given_of assigns.now)) }
    ensures size { IfOk result (λ any. (meaning_of any).size ≡ length hosts.now) }
    ensures named { IfOk result (λ any. template_named (template_name any) ≡ Some template) }
    ensures may_have { IfOk result (λ any. HostsMayHave any) }

    // For an invariant of labels: a host has exactly the labels that its last assign lists, and
    // removes exactly the labels that it lists.
    ensures labels { IfOk result (λ any. HaveTheirLabels (map given_of assigns.now) any) }
{
    by_template(alloc, hosts, template, assigns)
}

#[tactic(auto, unfolding(crate::specs::inner::ReadIn::read_in))]
fn by_template(
    alloc: Global,
    hosts: &Hosts,
    template: Template,
    assigns: &[Assign<'_>],
) -> Result<AnyInv, AttrFault>
    requires { All (λ a. a.host < length hosts.now) assigns.now }
    ensures { Reads result (read_in hosts.now template (map given_of assigns.now)) }
{
    match template {
        Template::Blp => read::<Blp>(alloc, hosts, assigns),
        Template::Tainting => read::<TaintedHosts>(alloc, hosts, assigns),
        Template::Sink => read::<SinkRule>(alloc, hosts, assigns),
        Template::Gateway => read::<Gateway>(alloc, hosts, assigns),
        Template::Subnets => read::<Subnets>(alloc, hosts, assigns),
        Template::Partners => read::<Partners>(alloc, hosts, assigns),
        Template::Domains => read::<Domains>(alloc, hosts, assigns),
        Template::Dependability => read::<Dependability>(alloc, hosts, assigns),
        Template::NonInterference => read::<NonInterference>(alloc, hosts, assigns),
        Template::NoReach => read::<NoReach>(alloc, hosts, assigns),
    }
}
