//! The tests, each beside what answers its questions, and what they share.

mod asked;
mod candidates;
mod commands;
mod context;
mod fields;
mod given;
mod load_faults;
mod loading;
mod located;
mod metadata;
mod package_lists;
mod package_rules;
mod package_runs;
mod packages;
mod plan_faults;
mod plan_runs;
mod plan_sets;
mod plan_versions;
mod plans;
mod records;
mod shared;
mod shown;
mod specs;
mod unreadable;
mod workspace;
mod world;
