//! `topos`, generic over the file source (`Shelf`) and the two output sinks. The arguments form a
//! command, a command reads its files in order, and its outcome gives the reply. Each command has
//! its own file here and in `specs/`; `command` and `commands`, `specs/Command.antt` and
//! `specs/Commands.antt` list the commands. What it shares with `topos-query` is in `run_core`.
#![tactic(auto)]

mod audit;
mod check;
mod command;
mod commands;
mod edit;
mod kind;
mod listed;
mod local;
mod migrate;
mod policy;
mod program;
mod reading;
mod repair;
mod rules;
mod sample;
mod text_fault;
mod trace;

pub use program::run;
pub use run_core::Status;
