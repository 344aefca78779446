//! The refusals for names: unknown templates, undeclared hosts, and hosts that an invariant has
//! twice.
ghost use Rattle.std.specs.Prelude.{◌≡◌, ◌≢◌, Some, find, is_none, map, option_map, IfOk, IsTrue, None};
ghost use Rattle.std.specs.List.{list_all};
ghost use Rattle.std.specs.Str.{bytes_eq};
ghost use Rattle.desc_core.specs.UseConditions.{duplicate_assign, name_conditions, undeclared_host, unknown_template};
ghost use Rattle.text_core.specs.FirstMatch.{first_of, first_conflict, numbered};
ghost use Rattle.text_core.specs.inner.FirstsView.{pair_seen};
ghost use Rattle.desc_form.specs.Refusals.{refused_by};
ghost use Rattle.desc_form.specs.inner.Refused.{refused_name};
ghost use Rattle.desc_form.specs.inner.RawView.{assign_view, invariant_view, template_view, raw_view};
ghost use Rattle.desc_form.specs.declared.refusal.Place.TheVariants.{Assign};
ghost use Rattle.desc_form.specs.declared.refusal.Why.TheVariants.{DuplicateAssign, UndeclaredHost};
ghost use Rattle.desc_form.specs.HostConditions.{host_conditions};
ghost use Rattle.desc_form.specs.inner.NameUseView.{mention_view};
ghost use Rattle.desc_form.specs.RawHosts.{network_hosts};
ghost use Rattle.host_net.specs.Host.{host_named};
ghost use Rattle.text_core.specs.Name.{is_name};

use crate::choice::chosen;
use desc_form::{
    NameUse, Place, RawAssign, RawDescription, RawInvariant, RawTemplate, Refusal, Why, used_names,
};
use host_net::{Hosts, Name};
use std::alloc::{AllocError, Global};
use text_core::{Conflict, first_conflict};

/// Returns the refusal of the unknown template or the undeclared host that the description names.
pub(crate) fn unknown_name(
    alloc: Global,
    hosts: &Hosts,
    written: &RawDescription<'_>,
) -> Result<Refusal, AllocError>
    requires hosts { hosts.now ≡ network_hosts (raw_view written.now) }
    requires no_refusal { first_of (host_conditions (raw_view written.now)) ≡ None }
    requires unknown { first_of (name_conditions (raw_view written.now)) ≢ None }
    ensures { IfOk result (λ refusal. first_of (name_conditions (raw_view written.now)) ≡ Some refusal) }
{
    match unknown_template(&written.templates, &written.invariants) {
        Some(refusal) => Ok(refusal),
        None => undeclared_host(alloc, hosts, written),
    }
}

/// Returns the refusal of a name that is neither that of a template nor that of a declared one.
fn unknown_template(
    templates: &[RawTemplate<'_>],
    invariants: &[RawInvariant<'_>],
) -> Option<Refusal>
    ensures { result ≡ unknown_template (map template_view templates.now) (map invariant_view invariants.now) }
{
    for (index, invariant) in invariants.iter().enumerate() {
        if chosen(templates, invariant.template).is_none() {
            let place = Place::Invariant(index as u64 + 1);
            return Some(Refusal::at(Why::UnknownTemplate, place));
        }
    }
    None
}

/// Returns the refusal of the first name, in an assign or in a flow, that is not the name of a host.
fn undeclared_host(
    alloc: Global,
    hosts: &Hosts,
    written: &RawDescription<'_>,
) -> Result<Refusal, AllocError>
    requires hosts { hosts.now ≡ network_hosts (raw_view written.now) }
    requires no_refusal { first_of (host_conditions (raw_view written.now)) ≡ None }
    requires some { undeclared_host (raw_view written.now) ≢ None }
    ensures { IfOk result (λ refusal. undeclared_host (raw_view written.now) ≡ Some refusal) }
{
    let names = used_names(alloc, written)?;
    Ok(first_undeclared(hosts, &names))
}

/// Returns the refusal of the first of the names that no host has.
fn first_undeclared(hosts: &Hosts, names: &[NameUse<'_>]) -> Refusal
    requires legal { IsTrue (list_all (λ m. is_name m.name) (map mention_view names.now)) }
    requires some { find (λ m. is_none (host_named hosts.now m.name)) (map mention_view names.now) ≢ None }
    ensures { option_map (λ m. refused_name UndeclaredHost m.place m.item m.name)
        (find (λ m. is_none (host_named hosts.now m.name)) (map mention_view names.now)) ≡ Some result }
{
    let mut index = 0;
    while hosts.find(names[index].name.as_bytes()).is_some() {
        index += 1;
    }
    no_host(&names[index])
}

/// Returns the refusal of a name that no host has.
fn no_host(mention: &NameUse<'_>) -> Refusal
    requires { IsTrue (is_name mention.now.name.now) }
    ensures { result ≡ refused_name UndeclaredHost mention.now.place mention.now.item mention.now.name.now }
{
    let name = Name::of(mention.name.as_bytes());
    let refusal = Refusal::at(Why::UndeclaredHost, mention.place);
    refusal.with_item(mention.item).with_name(name)
}

/// Returns the refusal of an assign with the host of an earlier one of the same invariant.
pub(crate) fn duplicate_assign(invariants: &[RawInvariant<'_>]) -> Option<Refusal>
    ensures { result ≡ duplicate_assign (map invariant_view invariants.now) }
{
    for (index, invariant) in invariants.iter().enumerate() {
        let found = duplicate_in(index as u64 + 1, &invariant.assigns);
        if found.is_some() {
            return found;
        }
    }
    None
}

/// The same among the assigns of the invariant with a number.
fn duplicate_in(invariant: u64, assigns: &[RawAssign<'_>]) -> Option<Refusal>
    ensures { result ≡ option_map (λ p. refused_by DuplicateAssign (Assign invariant p.later.number) p.earlier.number)
        (first_conflict (λ a b. bytes_eq a.what.host b.what.host) (numbered (map assign_view assigns.now))) }
{
    let pair = first_conflict(assigns, |later, earlier| later.host == earlier.host);
    duplicate_assign_refusal(invariant, pair)
}

/// Returns the refusal of an assign that duplicates an earlier one.
fn duplicate_assign_refusal(
    invariant: u64,
    pair: Option<Conflict<'_, RawAssign<'_>>>,
) -> Option<Refusal>
    ensures { result ≡ option_map (λ p. refused_by DuplicateAssign (Assign invariant p.later.number) p.earlier.number)
        (option_map pair_seen pair.entry) }
{
    let pair = pair?;
    let place = Place::Assign(invariant, pair.later.number);
    Some(Refusal::at(Why::DuplicateAssign, place).with_other(pair.earlier.number))
}
