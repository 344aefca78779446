//! The reasons for the defaults of the templates.

ghost use Rattle.std.specs.Prelude.{◌<◌};
ghost use Rattle.inv_any.specs.inner.Templates.{IfOneOfTheTen};
ghost use Rattle.inv_any.specs.declared.any_inv.AnyInv.{AnyInv};
ghost use Rattle.inv_law.specs.inner.Template.{MayHaveDefault, OnlyDefaultIsSecure};
ghost use Rattle.tmpl_table.specs.KindTable.{KindTable, declared};

/// The default is the only secure default of each of the ten templates: any other attribute that a
/// host may have, given to an offending host, hides the violation of some flow.
pub fn only_default_is_secure()
    ensures { (any : AnyInv) → IfOneOfTheTen OnlyDefaultIsSecure any }
{}

/// The default of a template is an attribute that each host may have. For a table, this holds if
/// the default is one of its kinds.
pub fn hosts_may_have_the_default()
    ensures ten { (any : AnyInv) → IfOneOfTheTen MayHaveDefault any }
    ensures table { (table : KindTable) → table.default < table.kinds → MayHaveDefault (declared table) }
{}
