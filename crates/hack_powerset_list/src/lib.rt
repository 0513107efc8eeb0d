//! The work of the program `powerset-list`: it turns arguments and the bytes of a feature map into
//! the bytes of its command list, or into the first error.
#![tactic(auto)]

mod call;
mod commands;
mod fault;
mod input;
mod lines;
mod list;
mod room;
mod runs;
mod streams;
mod walk;
mod wishes;
mod writes;

pub use call::{Ending, call_powerset_list};
pub use commands::command;
pub use fault::ListFault;
pub use hack_base::writes::{Counted, Sink};
pub use list::powerset_list;
pub use streams::{CountedReader, Source};
