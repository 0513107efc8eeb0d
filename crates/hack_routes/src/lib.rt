//! Which names of a feature map lead to which: by edges that enable or that reach, name by name, or by
//! tables of places that answer for all names.
#![tactic(auto)]

mod links;
pub mod marks;
pub mod names;
pub mod reach;
pub mod routes;
