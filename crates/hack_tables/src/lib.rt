//! Tables of rows as plain text: each row has the arguments of a public call, and the text of its
//! answer. A new row is a line of text and needs no proof. `hack_rows` checks the rows in its file
//! `stdin`.
#![tactic(auto)]

mod answers;
mod commands;
mod lists;
mod own_rules;
mod packages;
mod paths;
mod shown;
mod stored;
mod table;
mod uses;
mod versions;
mod words;

pub use table::{Counts, Fault, check};
pub use words::fields;
