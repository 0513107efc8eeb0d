//! The tests, each in the module of what it tests.

mod calls;
mod closures;
mod command_lists;
mod given;
mod growing;
mod inputs;
mod list_faults;
mod lists;
mod names;
mod places;
mod rules;
mod samples;
mod searches;
mod settings;
mod shown;
mod streams;
mod worked_sets;
