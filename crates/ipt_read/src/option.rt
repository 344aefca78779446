//! The options of a rule line, and the partial rule.

use ipt_rules::{Rule, Target};

/// An option of a rule line.
#[derive(Clone, Copy, Debug, PartialEq, Eq)]
pub(crate) enum RuleOption {
    Source,
    Destination,
    Protocol,
    SourcePort,
    DestinationPort,
    Interface,
    Module,
    CtState,
    State,
    Comment,
    Jump,
    RejectWith,
    LogPrefix,
    LogLevel,
}

/// The partial rule that the options so far yield: the rule without its target, the target, and the
/// modules that were loaded; `ports` is set if the module of the protocol was loaded.
#[derive(Clone, Copy)]
pub(crate) struct PartialRule {
    pub(crate) rule: Rule,
    pub(crate) target: Option<Target>,
    pub(crate) ports: bool,
    pub(crate) conntrack: bool,
    pub(crate) states: bool,
    pub(crate) comments: bool,
}

/// The position of the next token: at an option, after `!`, at an option's value, or within a
/// quoted string.
#[derive(Clone, Copy)]
pub(crate) enum Place {
    AtOption,
    AfterBang,
    AtValue(RuleOption, bool),
    InText,
}
