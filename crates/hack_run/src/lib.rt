//! A whole call of `cargo hack`, from its command line to its exit status.
#![tactic(auto)]

mod ask;
mod conflict_search;
mod execute;
mod fault;
mod gathered;
pub mod host;
mod print_list;
pub mod reading;
pub mod run;
mod stages;
mod tell;
