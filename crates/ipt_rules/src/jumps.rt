//! The jumps of chains as a table: for each chain the chains that it jumps to.

ghost use Rattle.std.specs.Prelude.{◌≡◌, ◌<◌, length, IfOk};
ghost use Rattle.ipt_rules.specs.Loops.{jumps_of};
ghost use Rattle.ipt_rules.specs.inner.Ranks.{jump_table, row_of};

use crate::chain::Chain;
use crate::rule::{Rule, Target};
use std::alloc::{AllocError, Global};
use std::marker::Model;

#[derive(Drop)]
pub(crate) struct JumpTable {
    rows: Vec<Vec<u16>>,
}

impl Model for JumpTable {
    ghost use Rattle.std.specs.Prelude.{ℕ, List, map};

    ghost Value = { List (List ℕ) };

    ghost view = { λ t. map (λ row. row.items) t.rows.items };
}

impl JumpTable {
    pub(crate) fn of(alloc: Global, chains: &[Chain]) -> Result<JumpTable, AllocError>
        ensures { IfOk result (λ table. table ≡ jump_table chains.now) }
    {
        let mut rows = Vec::new(alloc);
        for chain in chains {
            rows.push(jumps_of(alloc, chain.rules())?)?;
        }
        Ok(JumpTable { rows })
    }

    pub(crate) fn len(&self) -> usize
        ensures { result ≡ length self.now }
    {
        self.rows.len()
    }

    /// Returns the chains that the chain with this number jumps to.
    pub(crate) fn row(&self, chain: usize) -> &[u16]
        requires { chain < length self.now }
        ensures { result.now ≡ row_of self.now chain }
    {
        &self.rows[chain]
    }
}

fn jumps_of(alloc: Global, rules: &[Rule]) -> Result<Vec<u16>, AllocError>
    ensures { IfOk result (λ jumps. jumps.items ≡ jumps_of rules.now) }
{
    let mut jumps = Vec::new(alloc);
    for rule in rules {
        if let Target::Jump(chain) = rule.target {
            jumps.push(chain)?;
        }
    }
    Ok(jumps)
}
