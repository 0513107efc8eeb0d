//! All that the program does: it reads what the system gives a call, restores first what an
//! interrupted one left, and keeps a journal while it edits, under the eyes of a guard: which calls
//! are journaled, who may use a journal, and what it may tell.
#![tactic(auto)]

pub mod admit;
pub mod asked;
mod begin;
pub mod call;
mod closing;
pub mod fault;
pub mod guards;
pub mod keepers;
mod lockfile;
pub mod locks;
pub mod perform;
mod restore;
pub mod started;
pub mod system;
mod tell;
mod unjournaled;
mod unseen;
