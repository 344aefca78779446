//! Chains that are filled with rules, and converted to a rule set.

ghost use Rattle.std.specs.Prelude.{◌≡◌, ◌+◌, ◌<◌, ◌^◌, ℕ, length, take, IfOk, OnErr, OnOk, IsTrue, None};
ghost use Rattle.std.specs.List.{list_all};
ghost use Rattle.ipt_rules.specs.inner.Build.{refusal_of};
ghost use Rattle.ipt_rules.specs.ChainTable.{rule_count};
ghost use Rattle.ipt_rules.specs.Loops.{IsAcyclic};
ghost use Rattle.ipt_rules.specs.inner.RuleParts.{is_rule};
ghost use Rattle.emit_core.specs.inner.Filling.{with_rules};

use ipt_rules::{Chains, Rule, Ruleset};
use std::alloc::{AllocError, Global};

/// Appends the rules to a chain. If memory runs out, the chain has some of the rules, from the
/// first on.
pub fn fill(chains: &mut Chains, chain: u16, rules: &[Rule]) -> Result<(), AllocError>
    requires there { chain < length chains.old }
    requires room { rule_count chains.old + length rules.now < 2 ^ 32 }
    requires parts { IsTrue (list_all is_rule rules.now) }
    ensures added { OnOk result (chains.new ≡ with_rules chains.old chain rules.now) }
    ensures part { OnErr result ((count : ℕ) × (chains.new ≡ with_rules chains.old chain (take count rules.now))) }
{
    chains.reserve(chain, rules.len())?;
    for rule in rules {
        chains.rule(chain, *rule)?;
    }
    Ok(())
}

/// Returns the rule set of chains that have no cause to be refused. So it fails only if memory
/// allocation fails.
pub fn build_accepted(alloc: Global, chains: Chains) -> Result<Ruleset, AllocError>
    requires accepted { refusal_of chains ≡ None }
    requires acyclic { IsAcyclic chains }
    ensures { IfOk result (λ rules. rules ≡ chains) }
{
    // The search finds no cycle, and so an order in which each jump goes back.
    let _none = chains.first_loop(alloc)?;
    Ruleset::new(alloc, chains)
}
