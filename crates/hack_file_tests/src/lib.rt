//! Tests of files: calls to them in memory, on the disk and where one fails, files that are
//! restored, their journal, and manifests with their edits.
#![tactic(auto)]

#[cfg(test)]
mod tests;
