//! The invariants of a description: the first assign that specifies no attribute of its template,
//! and the invariants themselves, each made of its assigns.
ghost use Rattle.std.specs.Prelude.{◌≡◌, ◌<◌, ℕ, None, Some, length, map, All, IfErr, IfOk};
ghost use Rattle.attr_core.specs.inner.AssignView.{given_of};
ghost use Rattle.attr_core.specs.declared.fault.AttrFault.TheVariants.{BadAttribute};
ghost use Rattle.attr_core.specs.OwnTables.{table_form};
ghost use Rattle.attr_core.specs.Forms.{invariant_by};
ghost use Rattle.desc_core.specs.Choices.{bad_of, declared_by};
ghost use Rattle.desc_core.specs.declared.fault.DescFault.TheVariants.{Refused};
ghost use Rattle.desc_core.specs.inner.Judgement.{CanBeBuilt, IsJudgedOf, built_of};
ghost use Rattle.desc_core.specs.inner.Makeable.{CanBeMade, IsMakeable};
ghost use Rattle.desc_form.specs.declared.refusal.Refusal.{Refusal};
ghost use Rattle.desc_form.specs.inner.RawView.{template_view};
ghost use Rattle.desc_core.specs.inner.KnownView.{known_view};
ghost use Rattle.desc_core.specs.inner.Parts.{bad_known};
ghost use Rattle.desc_core.specs.UseConditions.{bad_at};
ghost use Rattle.desc_core.specs.RawNetwork.{made_of};

use crate::choice::Choice;
use crate::fault::DescFault;
use crate::known::KnownInvariant;
use crate::own_table::rule_of;
use attr_core::{Assign, AttrFault, bad_kind, read_invariant, read_kinds};
use desc_form::{Place, RawTemplate, Refusal, Why};
use host_net::Hosts;
use inv_any::AnyInv;
use std::alloc::{AllocError, Global};

/// An invariant whose assigns specify attributes of its template. That of a declared template is
/// built after all templates are judged.
#[derive(Drop)]
pub(crate) enum Judged<'k, 'w, 'a> {
    Built(AnyInv),
    Declared {
        template: &'w RawTemplate<'a>,
        assigns: &'k [Assign<'a>],
    },
}

/// Returns the invariants with their assigns judged, or the refusal of the first assign that
/// specifies no attribute of its template.
pub(crate) fn judged_invariants<'k, 'w, 'a>(
    alloc: Global,
    hosts: &Hosts,
    invariants: &'k [KnownInvariant<'w, 'a>],
) -> Result<Vec<Judged<'k, 'w, 'a>>, DescFault>
    requires { All (λ k. All (λ a. a.host < length hosts.now) k.assigns.items) invariants.now }
    ensures refused { IfErr result (λ fault. (r : Refusal) → fault ≡ Refused r → bad_known hosts.now (map known_view invariants.now) ≡ Some r) }
    ensures good { IfOk result (λ _. bad_known hosts.now (map known_view invariants.now) ≡ None) }
    ensures built { IfOk result (λ judged. map (built_of hosts.now) judged.items ≡ map (made_of hosts.now) (map known_view invariants.now)) }
    ensures buildable { IfOk result (λ judged. All (λ k. CanBeMade (known_view k).template) invariants.now → All (CanBeBuilt hosts.now) judged.items) }
{
    let mut judged = Vec::new(alloc);
    for (index, invariant) in invariants.iter().enumerate() {
        judged.push(judged_at(alloc, hosts, index as u64 + 1, invariant)?)?;
    }
    Ok(judged)
}

/// The same for the invariant with a number.
fn judged_at<'k, 'w, 'a>(
    alloc: Global,
    hosts: &Hosts,
    number: u64,
    invariant: &'k KnownInvariant<'w, 'a>,
) -> Result<Judged<'k, 'w, 'a>, DescFault>
    requires { All (λ a. a.host < length hosts.now) invariant.now.assigns.items }
    ensures refused { IfErr result (λ fault. (r : Refusal) → fault ≡ Refused r → bad_at hosts.now number (known_view invariant.now) ≡ Some r) }
    ensures good { IfOk result (λ _. bad_at hosts.now number (known_view invariant.now) ≡ None) }
    ensures judged { IfOk result (IsJudgedOf hosts.now (known_view invariant.now)) }
{
    match judged_by(alloc, hosts, invariant) {
        Ok(judged) => Ok(judged),
        Err(AttrFault::BadAttribute { assign }) => {
            let place = Place::Assign(number, assign as u64 + 1);
            Err(DescFault::Refused(Refusal::at(Why::BadAttribute, place)))
        }
        Err(AttrFault::Memory) => Err(DescFault::Memory),
    }
}

/// The same by the template: the invariant of one of the ten is built at once.
#[tactic(auto, unfolding(crate::specs::Choices::bad_of, crate::specs::Choices::made_by, attr_core::specs::inner::ReadIn::bad_in, attr_core::specs::inner::ReadIn::invariant_in))]
fn judged_by<'k, 'w, 'a>(
    alloc: Global,
    hosts: &Hosts,
    invariant: &'k KnownInvariant<'w, 'a>,
) -> Result<Judged<'k, 'w, 'a>, AttrFault>
    requires { All (λ a. a.host < length hosts.now) invariant.now.assigns.items }
    ensures bad { IfErr result (λ fault. (k : ℕ) → fault ≡ BadAttribute k → bad_of hosts.now (known_view invariant.now).template (known_view invariant.now).assigns ≡ Some k) }
    ensures judged { IfOk result (IsJudgedOf hosts.now (known_view invariant.now)) }
{
    let assigns = &invariant.assigns;
    match invariant.template {
        Choice::OneOfTen(template) => {
            let built = read_invariant(alloc, hosts, template, assigns)?;
            Ok(Judged::Built(built))
        }
        Choice::OwnTable(template) => match bad_kind(&template.kinds, assigns) {
            Some(assign) => Err(AttrFault::BadAttribute { assign }),
            None => Ok(Judged::Declared { template, assigns }),
        },
    }
}

/// Returns the invariants, in order, each of those of a declared template built now.
pub(crate) fn built_invariants(
    alloc: Global,
    hosts: &Hosts,
    judged: Vec<Judged<'_, '_, '_>>,
) -> Result<Vec<AnyInv>, AllocError>
    requires { All (CanBeBuilt hosts.now) judged.items }
    ensures { IfOk result (λ built. built.items ≡ map (built_of hosts.now) judged.entry.items) }
{
    let mut built = Vec::new(alloc);
    for one in judged {
        built.push(built_invariant(alloc, hosts, one)?)?;
    }
    Ok(built)
}

fn built_invariant(
    alloc: Global,
    hosts: &Hosts,
    judged: Judged<'_, '_, '_>,
) -> Result<AnyInv, AllocError>
    requires { CanBeBuilt hosts.now judged }
    ensures { IfOk result (λ built. built ≡ built_of hosts.now judged.entry) }
{
    match judged {
        Judged::Built(invariant) => Ok(invariant),
        Judged::Declared { template, assigns } => read_declared(alloc, hosts, template, assigns),
    }
}

/// Returns the invariant of a declared template.
fn read_declared(
    alloc: Global,
    hosts: &Hosts,
    template: &RawTemplate<'_>,
    assigns: &[Assign<'_>],
) -> Result<AnyInv, AllocError>
    requires hosts { All (λ a. a.host < length hosts.now) assigns.now }
    requires made { IsMakeable (template_view template.now) }
    ensures { IfOk result (λ made. made ≡ invariant_by (table_form (declared_by (template_view template.now))) hosts.now (map given_of assigns.now)) }
{
    let rule = rule_of(alloc, hosts.count(), template)?;
    Ok(read_kinds(rule, &template.kinds, assigns))
}
