//! Tests of command lines and of the commands that result, for what the tables of rows don't have:
//! the worked examples, values that are constructed directly, writers that fail, callers in memory
//! and a system that starts nothing, and the checks of rows themselves.
#![tactic(auto)]

#[cfg(test)]
mod asks;
#[cfg(test)]
mod calls;
#[cfg(test)]
mod checks;
#[cfg(test)]
mod command_texts;
#[cfg(test)]
mod commands;
#[cfg(test)]
mod faults;
#[cfg(test)]
mod help_texts;
#[cfg(test)]
mod lexopt;
#[cfg(test)]
mod lines;
#[cfg(test)]
mod log_groups;
#[cfg(test)]
mod options;
#[cfg(test)]
mod page;
#[cfg(test)]
mod program;
#[cfg(test)]
mod started;
#[cfg(test)]
mod terminal;
#[cfg(test)]
mod uses;
#[cfg(test)]
mod versions;
#[cfg(test)]
mod worked_rows;
#[cfg(test)]
mod worked_words;
