//! The chain FORWARD: each packet jumps to the chain of the host that owns its source.

ghost use Rattle.std.specs.Prelude.{◌≡◌, ◌+◌, ◌<◌, ◌≤◌, ◌^◌, ◌++◌, length, IfOk, OnOk};
ghost use Rattle.std.specs.List.{flat_map};
ghost use Rattle.emit_core.specs.Layout.{forward_rules, for_each_prefix, jump_from};

use crate::parts::{chain_of, from_source};
use host_net::{Hosts, Prefix};
use ipt_rules::{Rule, Target};
use std::alloc::{AllocError, Global};

/// Returns the rules of FORWARD.
pub(crate) fn forward_rules(alloc: Global, hosts: &Hosts) -> Result<Vec<Rule>, AllocError>
    requires { length hosts.now ≤ 256 }
    ensures { IfOk result (λ rules. rules.items ≡ forward_rules hosts.now) }
{
    let mut rules = Vec::new(alloc);
    push_all_jumps(&mut rules, hosts)?;
    if let Some(rest) = hosts.rest() {
        rules.push(from_source(None, Target::Jump(chain_of(rest))))?;
    }
    Ok(rules)
}

#[tactic(auto, using(crate::proofs::Steps::for_each_all))]
fn push_all_jumps(rules: &mut Vec<Rule>, hosts: &Hosts) -> Result<(), AllocError>
    ensures { OnOk result (rules.new.items ≡ rules.old.items
        ++ for_each_prefix jump_from 0 hosts.now) }
{
    for host in 0..hosts.count() {
        push_jumps(rules, host, hosts.prefixes(host))?;
    }
    Ok(())
}

fn push_jumps(rules: &mut Vec<Rule>, host: u16, prefixes: &[Prefix]) -> Result<(), AllocError>
    requires { host + 3 < 2 ^ 16 }
    ensures { OnOk result (rules.new.items ≡ rules.old.items
        ++ flat_map (jump_from host) prefixes.now) }
{
    for prefix in prefixes {
        rules.push(from_source(Some(*prefix), Target::Jump(chain_of(host))))?;
    }
    Ok(())
}
