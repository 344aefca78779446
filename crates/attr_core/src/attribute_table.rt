//! Building an invariant from assigns, in one way for all templates: each assign in order sets the
//! attribute of its host, until an assign specifies none.
ghost use Rattle.std.specs.Prelude.{◌≡◌, ◌<◌, ◌∷◌, [], ◌++◌, ℕ, ⊤, map, List, Some, None, Err, option_map, IfOk, IsTrue, All, if◌then◌else◌, length, slice_set};
ghost use Rattle.attr_core.specs.inner.AssignView.{given_of, Reads};
ghost use Rattle.attr_core.specs.Assigns.{Given};
ghost use Rattle.attr_core.specs.Forms.{Form, attributes_in, bad_assign, says};
ghost use Rattle.attr_core.specs.Shapes.{host_key, of_shape};
ghost use Rattle.attr_core.specs.declared.fault.AttrFault.TheVariants.{BadAttribute};
ghost use Rattle.toml.specs.View.{table_view};
ghost use Rattle.attr_core.specs.inner.ReadIn.{read_by};
ghost use Rattle.attr_core.specs.inner.Walks.{defaults};

use crate::assign::Assign;
use crate::fault::AttrFault;
use host_net::Hosts;
use inv_any::AnyInv;
use std::alloc::{AllocError, Global};
use toml::Table;

/// The attributes of all hosts in one template, after the assigns so far.
pub(crate) trait AttributeTable: Sized + Drop {
    // The template, and the attributes of the hosts so far.
    ghost form: { Form };

    ghost attributes: { Self → List form.template.Attribute };

    // An additional invariant of the assigns so far: trivial if each assign is independent.
    ghost keeps: { List Given → Self → Type 0 } = { λ _ _. ⊤ };

    /// Whether the table of an assign has the keys of the template, with values of their kinds.
    fn has_shape(table: &Table) -> bool
        ensures { result ≡ of_shape (table_view table.now) (host_key ∷ form.keys) };

    /// Returns the state in which each host has the default of the template.
    fn start(alloc: Global, hosts: &Hosts) -> Result<Self, AllocError>
        ensures attributes { IfOk result (λ new. attributes new ≡ defaults form (length hosts.now)) }
        ensures keeps { IfOk result (λ new. keeps [] new) };

    /// Sets the attribute of the host of the assign, whose table has the keys of the template; or
    /// returns false if the assign specifies none.
    fn take(
        &mut self,
        alloc: Global,
        hosts: &Hosts,
        assign: &Assign<'_>,
    ) -> Result<bool, AllocError>
        requires size { length (attributes self.old) ≡ length hosts.now }
        requires host { assign.now.host < length hosts.now }
        ensures taken { IfOk result (λ good. (earlier : List Given) → keeps earlier self.old
            → option_map (slice_set (attributes self.old) assign.now.host) (form.reads hosts.now earlier (given_of assign.now))
            ≡ (if good then Some (attributes self.new) else None)) }
        ensures keeps { IfOk result (λ good. (earlier : List Given) → keeps earlier self.old → IsTrue good
            → keeps (earlier ++ given_of assign.now ∷ []) self.new) };

    /// Returns the invariant of the current attributes.
    fn make(self) -> AnyInv
        ensures { result ≡ form.make (attributes self) };
}

/// Returns the invariant of the template of `T`, or the first assign that specifies no attribute.
pub(crate) fn read<T: AttributeTable>(
    alloc: Global,
    hosts: &Hosts,
    assigns: &[Assign<'_>],
) -> Result<AnyInv, AttrFault>
    requires { All (λ a. a.host < length hosts.now) assigns.now }
    ensures { Reads result (read_by T.form hosts.now (map given_of assigns.now)) }
{
    match take_all::<T>(alloc, hosts, assigns) {
        Ok(taken) => Ok(taken.make()),
        Err(fault) => Err(fault),
    }
}

fn take_all<T: AttributeTable>(
    alloc: Global,
    hosts: &Hosts,
    assigns: &[Assign<'_>],
) -> Result<T, AttrFault>
    requires { All (λ a. a.host < length hosts.now) assigns.now }
    ensures good { IfOk result (λ taken. bad_assign T.form hosts.now (map given_of assigns.now) ≡ None) }
    ensures attributes { IfOk result (λ taken. T.attributes taken ≡ attributes_in T.form hosts.now (map given_of assigns.now)) }
    ensures first { (k : ℕ) → result ≡ Err (BadAttribute k) → bad_assign T.form hosts.now (map given_of assigns.now) ≡ Some k }
{
    let mut taken = T::start(alloc, hosts)?;
    for (place, assign) in assigns.iter().enumerate() {
        if !take_one(&mut taken, alloc, hosts, assign)? {
            return Err(AttrFault::BadAttribute { assign: place });
        }
    }
    Ok(taken)
}

fn take_one<T: AttributeTable>(
    taken: &mut T,
    alloc: Global,
    hosts: &Hosts,
    assign: &Assign<'_>,
) -> Result<bool, AllocError>
    requires size { length (T.attributes taken.old) ≡ length hosts.now }
    requires host { assign.now.host < length hosts.now }
    ensures taken { IfOk result (λ good. (earlier : List Given) → T.keeps earlier taken.old
        → option_map (slice_set (T.attributes taken.old) assign.now.host) (says T.form hosts.now earlier (given_of assign.now))
        ≡ (if good then Some (T.attributes taken.new) else None)) }
    ensures keeps { IfOk result (λ good. (earlier : List Given) → T.keeps earlier taken.old → IsTrue good
        → T.keeps (earlier ++ given_of assign.now ∷ []) taken.new) }
{
    if !T::has_shape(assign.table) {
        return Ok(false);
    }
    taken.take(alloc, hosts, assign)
}
