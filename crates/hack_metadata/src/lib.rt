//! What cargo reports of a workspace: its records (`metadata`), how it is asked for them (`ask`),
//! and the package ID specifications that name its packages (`cargo`).
#![tactic(auto)]

mod ask;
pub mod cargo;
pub mod metadata;
