//! `topos-query`: the questions of an operator on a description, answered in JSON, over any shelf of files and any
//! two sinks of bytes.
//!
//! The arguments form a question. A question has a plan: the files that it reads, then its outcomes. Each form
//! has a file of its own here and in `specs/`; `command` and `commands`, `specs/Command.antt` and `specs/Commands.antt` list
//! them. Files are read and answers are written by the calls of `run_core`, so readings, faults, lines of
//! the error stream and statuses are those of `topos`.
#![tactic(auto)]

mod changes;
mod command;
mod commands;
mod compare;
mod flows;
mod network;
mod plain_rules;
mod program;
mod why;

pub use program::run;
pub use run_core::Status;
