//! Tests of sets of features, of lists of their commands, and of the places of a plan: worked
//! examples as rows of text.
#![tactic(auto)]

#[cfg(test)]
mod tests;
