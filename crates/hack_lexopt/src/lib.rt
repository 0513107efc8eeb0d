//! Splits a list of arguments into options, without knowing any option. An argument that begins
//! with `--` is a long option, and the text after its first `=` can be taken as its value; a longer
//! argument that begins with `-` is a chain of letters; a lone `-` and any other argument is a
//! value.
#![tactic(auto)]

mod arg;
mod cuts;
mod fault;
mod parser;

pub use arg::{Arg, Flag};
pub use fault::LexFault;
pub use parser::{Next, Parser};
