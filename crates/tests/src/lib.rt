//! The tests of the crates below. The crate consists only of tests, with a module for each subject:
//! single calls, most of which the program does not make or makes in another way. They show that
//! allocation succeeds, and compare results with values computed by hand. The cases of the program
//! cover everything else.
#![tactic(auto)]

#[cfg(test)]
mod asking;
#[cfg(test)]
mod chains;
#[cfg(test)]
mod flow_sets;
#[cfg(test)]
mod flow_tables;
#[cfg(test)]
mod flows;
#[cfg(test)]
mod hosts;
#[cfg(test)]
mod kind_tables;
#[cfg(test)]
mod levels;
#[cfg(test)]
mod policies;
#[cfg(test)]
mod shelves;
#[cfg(test)]
mod walks;
#[cfg(test)]
mod zones;
