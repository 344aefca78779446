//! An invariant of any template. It has the meaning of the invariant in it, and every call
//! delegates to that invariant.

ghost use Rattle.std.specs.Prelude.{◌≡◌};
ghost use Rattle.inv_any.specs.Templates.{meaning_of, template_name};
ghost use Rattle.inv_any.specs.inner.Resets.{with_default};
ghost use Rattle.inv_any.specs.laws.TemplateLaws.{lawful};

use flow_set::{Flow, FlowSet};
use inv_law::{EdgeWise, Invariant, Strategy};
use std::alloc::{AllocError, Global};
use tmpl_domains::Domains;
use tmpl_levels::{Blp, Tainting};
use tmpl_reach::{Dependability, NoReach, NonInterference};
use tmpl_table::TableRule;
use tmpl_zones::{Gateway, Partners, SinkRule, Subnets};

/// An invariant of one of the ten templates, or of a template that is declared as a table.
#[derive(Drop)]
pub enum AnyInv {
    Blp(EdgeWise<Blp>),
    Tainting(EdgeWise<Tainting>),
    Sink(EdgeWise<SinkRule>),
    Gateway(EdgeWise<Gateway>),
    Subnets(EdgeWise<Subnets>),
    Partners(EdgeWise<Partners>),
    Domains(EdgeWise<Domains>),
    Dependability(Dependability),
    NonInterference(NonInterference),
    NoReach(NoReach),
    Table(EdgeWise<TableRule>),
}

// The templates, for the macros below and those of `any_trial`: the edge-wise ones, and those on
// walks.
macro_rules! each {
    ($say:ident, $($args:tt)*) => {
        $say!($($args)*; Blp Tainting Sink Gateway Subnets Partners Domains Table; Dependability NonInterference NoReach)
    };
}

pub(crate) use each;

// The result of the invariant in `any`, here `inv`.
macro_rules! ask {
    ($any:expr, $inv:ident => $answer:expr; $($edge:ident)*; $($walk:ident)*) => {
        match $any {
            $(AnyInv::$edge($inv) => $answer,)*
            $(AnyInv::$walk($inv) => $answer,)*
        }
    };
}

// An invariant of the same template.
macro_rules! keep {
    ($any:expr, $inv:ident => $new:expr; $($edge:ident)*; $($walk:ident)*) => {
        match $any {
            $(AnyInv::$edge($inv) => AnyInv::$edge($new),)*
            $(AnyInv::$walk($inv) => AnyInv::$walk($new),)*
        }
    };
}

impl AnyInv {
    /// Returns the name of the template, as in a description.
    pub fn template_name(&self) -> &str
        ensures { result.now ≡ template_name self.now }
    {
        match self {
            AnyInv::Blp(_) => "blp",
            AnyInv::Tainting(_) => "tainting",
            AnyInv::Sink(_) => "sink",
            AnyInv::Gateway(_) => "gateway",
            AnyInv::Subnets(_) => "subnets",
            AnyInv::Partners(_) => "partners",
            AnyInv::Domains(_) => "domains",
            AnyInv::Dependability(_) => "dependability",
            AnyInv::NonInterference(_) => "noninterference",
            AnyInv::NoReach(_) => "noreach",
            AnyInv::Table(inv) => inv.rule().name().as_str(),
        }
    }
}

impl Invariant for AnyInv {
    ghost size_of = { λ any. (meaning_of any).size };

    ghost strategy_of = { λ any. (meaning_of any).strategy };

    ghost edge_mark = { λ any. (meaning_of any).edge_mark };

    ghost holds_on = { λ any. (meaning_of any).holds_on };

    ghost holds_after_reset = { λ any. (meaning_of any).holds_after_reset };

    ghost reset_gives = { λ any host new. new ≡ with_default any host };

    fn strategy(&self) -> Strategy {
        each!(ask, self, inv => inv.strategy())
    }

    fn edge_wise(&self) -> bool {
        each!(ask, self, inv => inv.edge_wise())
    }

    fn hosts(&self) -> u16 {
        each!(ask, self, inv => inv.hosts())
    }

    fn admits(&self, f: Flow) -> bool {
        each!(ask, self, inv => inv.admits(f))
    }

    fn holds(&self, alloc: Global, e: &FlowSet) -> Result<bool, AllocError> {
        Ok(each!(ask, self, inv => inv.holds(alloc, e)?))
    }

    fn with_default(&self, alloc: Global, host: u16) -> Result<Self, AllocError> {
        Ok(each!(keep, self, inv => inv.with_default(alloc, host)?))
    }

    ghost downward = { λ any. (lawful any).downward };

    ghost holds_on_none = { λ any. (lawful any).holds_on_none };

    ghost reset_preserves_violation = { λ any. (lawful any).reset_preserves_violation };

    ghost mark_is_right = { λ any. (lawful any).mark_is_right };
}
