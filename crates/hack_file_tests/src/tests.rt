//! The tests, each in the module of what it tests.

mod edits;
mod files;
mod journal;
mod manifest;
mod text;
