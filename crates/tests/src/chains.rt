//! A rule set that is refused: a chain jumps to a built-in chain, which no text can express.

ghost use Rattle.std.specs.Prelude.{◌≡◌, ◌+◌, ◌<◌, None, length, IsTrue};
ghost use Rattle.ipt_rules.specs.ChainTable.{rule_count};
ghost use Rattle.ipt_rules.specs.inner.RuleParts.{is_rule};

use ipt_rules::{BuildRefusal, ChainName, Chains, Policy, Rule, Ruleset, Target};
use std::alloc::Global;
use std::process::Abort;

/// Returns the three built-in chains, with policy DROP of FORWARD.
#[tactic(auto, using(ipt_rules::proofs::ChainLaws::length_with_policy, ipt_rules::proofs::ChainLaws::rule_count_with_policy))]
fn dropping(alloc: Global, rt: &impl Abort) -> Chains
    ensures length { length result ≡ 3 }
    ensures rules { rule_count result ≡ 0 }
{
    let mut chains = Chains::new(alloc).expect(rt, "memory");
    chains.set_policy(1, Policy::Drop);
    chains
}

#[tactic(auto, using(ipt_rules::proofs::ChainLaws::length_added, ipt_rules::proofs::ChainLaws::rule_count_added))]
fn add(rt: &impl Abort, chains: &mut Chains, text: &[u8])
    requires { length chains.old < 100 }
    ensures length { length chains.new ≡ length chains.old + 1 }
    ensures rules { rule_count chains.new ≡ rule_count chains.old }
{
    let name = ChainName::new(text).expect(rt, "a name");
    assert!(rt; chains.find(text).is_none());
    chains.add(name).expect(rt, "memory");
    assert!(rt; chains.find(text).is_some());
}

#[tactic(auto, using(ipt_rules::proofs::ChainLaws::length_with_rule, ipt_rules::proofs::ChainLaws::rule_count_with_rule))]
fn push(rt: &impl Abort, chains: &mut Chains, chain: u16, rule: Rule)
    requires there { chain < length chains.old }
    requires room { rule_count chains.old < 100 }
    requires parts { IsTrue (is_rule rule) }
    ensures length { length chains.new ≡ length chains.old }
    ensures rules { rule_count chains.new ≡ rule_count chains.old + 1 }
{
    chains.rule(chain, rule).expect(rt, "memory");
}

/// Returns a rule for all packets.
fn rule(target: Target) -> Rule
    ensures { IsTrue (is_rule result) }
{
    Rule {
        src: None,
        dst: None,
        proto: None,
        sport: None,
        dport: None,
        state: None,
        target,
    }
}

#[test]
fn a_jump_to_a_built_in_chain_is_refused(rt: HostRuntime) {
    let mut chains = dropping(rt.alloc(), &rt);
    add(&rt, &mut chains, b"back");
    push(&rt, &mut chains, 3, rule(Target::Jump(2)));
    let refused = Ruleset::build(rt.alloc(), chains).err();
    assert_eq!(rt;
        refused,
        Some(BuildRefusal::UnknownChain { chain: 3, rule: 0 })
    );
}
