//! The rules on the options of a call of `cargo hack`, in three groups: those before the rule on a
//! missing subcommand (`early`), that rule (`bare`), and those after it (`late`); and what they
//! read of the uses of options, which `uses` cuts out of the command line. Callers use all of this
//! through `hack_words::cli`.
#![tactic(auto)]

pub mod bare;
pub mod checks;
pub mod early;
pub mod fault;
pub mod late;
pub mod listed;
pub mod named;
pub mod uses;
mod values;
