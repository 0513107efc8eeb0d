//! A command that may be started ahead of its turn.

/// A command with its place, by which it is told apart. Its turn is after those of lower places.
#[derive(Drop)]
pub struct Job {
    pub place: usize,
    pub program: String,
    pub words: Vec<String>,
}
