//! Tests of what one call of cargo hack depends on: what cargo reports of a workspace, the context
//! made from it, the packages that the call runs on, their runs, and the whole plan with its
//! commands, versions, pieces and notices. Each has its errors as well.
#![tactic(auto)]

#[cfg(test)]
mod tests;
