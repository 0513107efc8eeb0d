//! The lists of features that a call names.

ghost use Rattle.std.specs.Prelude.{IfOk};
ghost use Rattle.hack_rules.specs.Uses.{views};

use crate::named;
use crate::uses::Use;
use hack_features::Feature;
use hack_options::Opt;
use std::alloc::{AllocError, Global};

/// The lists of features that a call names, as its arguments give them.
#[derive(Drop)]
pub struct Lists {
    pub features: Vec<String>,
    pub include_features: Vec<String>,
    pub exclude_features: Vec<String>,
    /// None where `--optional-deps` isn't given; empty means all of them.
    pub optional_deps: Option<Vec<String>>,
    pub group_features: Vec<Feature>,
    pub mutually_exclusive_features: Vec<Feature>,
}

impl Lists {
    ghost use Rattle.hack_rules.specs.ListsView.{AreListsOf};

    /// The lists that uses of options give.
    pub fn of(alloc: Global, uses: &[Use]) -> Result<Lists, AllocError>
        ensures { IfOk result (AreListsOf (views uses.now)) }
    {
        let features = named::names(alloc, Opt::Features, uses)?;
        let include_features = named::names(alloc, Opt::IncludeFeatures, uses)?;
        let exclude_features = named::names(alloc, Opt::ExcludeFeatures, uses)?;
        let optional_deps = named::optional_names(alloc, uses)?;
        let group_features = named::groups(alloc, Opt::GroupFeatures, uses)?;
        let mutually_exclusive_features = named::groups(
            alloc,
            Opt::MutuallyExclusiveFeatures,
            uses,
        )?;
        Ok(Lists {
            features,
            include_features,
            exclude_features,
            optional_deps,
            group_features,
            mutually_exclusive_features,
        })
    }
}
