//! The rule of a declared table: a flow passes if the pair of the kinds of its two hosts is not
//! denied.

ghost use Rattle.std.specs.Prelude.{◌≡◌, ◌<◌, All, IfOk, IfErr, IsTrue, None, length, replicate, slice_set};
ghost use Rattle.inv_law.specs.laws.AttributeLaws.{ResetPassesNoMore-attributes};
ghost use Rattle.inv_law.specs.Attributes.{PassesBetween};
ghost use Rattle.inv_law.specs.inner.Resets.{PassesAfterReset};
ghost use Rattle.tmpl_table.specs.KindTable.{TablePasses, declared, is_lawful};
ghost use Rattle.tmpl_table.specs.inner.KindTable.{HasSecureDefault, first_weaker};
ghost use Rattle.tmpl_table.specs.laws.KindTableLaws.{table_secure};
ghost use Rattle.tmpl_table.specs.inner.TableFaults.{IsRefused};

use crate::fault::TableFault;
use crate::pairs::{Pair, first_pair, first_place, lists};
use host_net::Name;
use inv_law::{EdgeRule, Strategy};
use std::alloc::{AllocError, Global};
use std::marker::Model;

/// A template that is declared as a table, and the kind of each host.
#[derive(Drop)]
pub struct TableRule {
    name: Name,
    strategy: Strategy,
    kinds: u8,
    default: u8,
    denied: Vec<Pair>,
    hosts: Vec<u8>,
}

impl Model for TableRule {
    ghost use Rattle.tmpl_table.specs.KindTable.{TableHosts};
    ghost use Rattle.tmpl_table.specs.inner.TableView.{IsTableRule};

    ghost Value = { TableHosts };

    ghost view = { λ rule. record {
      table = record { name = rule.name; strategy = rule.strategy; kinds = rule.kinds; default = rule.default; denied = rule.denied.items };
      hosts = rule.hosts.items;
    } };

    ghost invariant = { λ rule. IsTableRule (record {
      table = record { name = rule.name; strategy = rule.strategy; kinds = rule.kinds; default = rule.default; denied = rule.denied.items };
      hosts = rule.hosts.items;
    }) };
}

impl TableRule {
    /// Returns the rule for `n` hosts that have the default kind. A table whose default is not
    /// secure is refused, at its first denied pair without a partner.
    pub fn new(
        alloc: Global,
        n: u16,
        name: Name,
        strategy: Strategy,
        kinds: u8,
        default: u8,
        denied: &[(u8, u8)],
    ) -> Result<TableRule, TableFault>
        requires default { default < kinds }
        requires pairs { All (λ pair. (pair.0 < kinds) × (pair.1 < kinds)) denied.now }
        ensures made { IfOk result (λ rule. rule ≡ record {
          table = record { name = name; strategy = strategy; kinds = kinds; default = default; denied = denied.now };
          hosts = replicate n default;
        }) }
        ensures accepted { IfOk result (λ rule. IsTrue (is_lawful rule.table) × HasSecureDefault rule.table) }
        ensures refused { IfErr result
            (IsRefused (record { name = name; strategy = strategy; kinds = kinds; default = default; denied = denied.now })) }
    {
        if let Some(place) = first_place(strategy, denied, default) {
            return Err(TableFault::NotLawful { pair: place as u64 });
        }
        let rule = TableRule::of_lawful(alloc, n, name, strategy, kinds, default, denied)?;
        Ok(rule)
    }

    /// Returns the rule for `n` hosts that have the default kind, of a table whose default is known
    /// to be secure. Fails only if memory allocation fails.
    pub fn of_lawful(
        alloc: Global,
        n: u16,
        name: Name,
        strategy: Strategy,
        kinds: u8,
        default: u8,
        denied: &[(u8, u8)],
    ) -> Result<TableRule, AllocError>
        requires default { default < kinds }
        requires lawful { IsTrue (is_lawful (record { name = name; strategy = strategy; kinds = kinds; default = default; denied = denied.now })) }
        ensures { IfOk result (λ rule. rule ≡ record {
          table = record { name = name; strategy = strategy; kinds = kinds; default = default; denied = denied.now };
          hosts = replicate n default;
        }) }
    {
        let hosts = same_kind(alloc, n, default)?;
        Ok(TableRule {
            name,
            strategy,
            kinds,
            default,
            denied: Vec::from_slice(alloc, denied)?,
            hosts,
        })
    }

    /// Returns the name under which the template is declared.
    pub fn name(&self) -> &Name
        ensures { result.now ≡ self.now.table.name }
    {
        &self.name
    }

    /// Sets the kind of the host.
    pub fn set(&mut self, host: u16, kind: u8)
        requires host { host < length self.old.hosts }
        requires may { (declared self.old.table).MayHave (length self.old.hosts) host kind }
        ensures { self.new ≡ record self.old { hosts = slice_set self.old.hosts host kind } }
    {
        self.hosts[host as usize] = kind;
    }

    /// Returns the first denied pair that passes after its offending host is given this kind. If
    /// there is none, the kind would be as secure a default as the default is.
    pub fn weaker(&self, kind: u8) -> Option<(u8, u8)>
        requires { kind < self.now.table.kinds }
        ensures exact { result ≡ first_weaker self.now.table kind }
        ensures default { kind ≡ self.now.table.default → result ≡ None }
    {
        first_pair(self.strategy, &self.denied, kind)
    }
}

impl EdgeRule for TableRule {
    ghost size_of = { λ rule. length rule.hosts };

    ghost strategy_of = { λ rule. rule.table.strategy };

    ghost passes_from = { λ rule. PassesBetween rule.table.default (TablePasses rule.table) rule.hosts };

    ghost passes_after_reset = { λ rule. PassesAfterReset rule.table.default (TablePasses rule.table) rule.hosts };

    ghost reset_gives = { λ rule host new. new ≡ record rule { hosts = slice_set rule.hosts host rule.table.default } };

    fn strategy(&self) -> Strategy {
        self.strategy
    }

    fn hosts(&self) -> u16 {
        self.hosts.len() as u16
    }

    fn passes(&self, i: u16, j: u16) -> bool {
        !lists(
            &self.denied,
            (self.hosts[i as usize], self.hosts[j as usize]),
        )
    }

    fn with_default(&self, alloc: Global, host: u16) -> Result<Self, AllocError> {
        let mut hosts = Vec::from_slice(alloc, &self.hosts)?;
        hosts[host as usize] = self.default;
        Ok(TableRule {
            name: self.name,
            strategy: self.strategy,
            kinds: self.kinds,
            default: self.default,
            denied: Vec::from_slice(alloc, &self.denied)?,
            hosts,
        })
    }

    ghost reset_passes_no_more = { λ rule. ResetPassesNoMore-attributes rule.table.strategy rule.table.default (TablePasses rule.table) (table_secure rule.table) (length rule.hosts) rule.hosts };
}

// Returns the kinds of `n` hosts that all have the same kind.
fn same_kind(alloc: Global, n: u16, kind: u8) -> Result<Vec<u8>, AllocError>
    ensures { IfOk result (λ kinds. kinds.items ≡ replicate n kind) }
{
    let mut kinds = Vec::new(alloc);
    kinds.resize(n as usize, kind)?;
    Ok(kinds)
}
