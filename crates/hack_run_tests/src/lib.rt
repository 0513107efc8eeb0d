//! Tests of whole calls: arguments and answers in; status, calls, files and both streams out.
//! Besides these there are tests of sessions, and of manifests that are edited for a call and
//! restored.
#![tactic(auto)]

#[cfg(test)]
mod tests;
