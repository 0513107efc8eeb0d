//! The tests, each beside what answers its questions, and what they share.

mod asked;
mod conflicts;
mod edits;
mod failing;
mod faults;
mod journaled;
mod listed;
mod lists;
mod manifests;
mod performed;
mod runs;
mod scene;
mod sessions;
mod shared;
mod shown;
mod steps;
mod toolchains;
mod words;
mod world;
mod worlds;
