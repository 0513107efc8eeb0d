//! Features, the sets of them that a powerset lists, and a package's candidates.

pub use hack_features::{
    Feature, FeatureSets, Pruned, Questions, Rules, SampleFault, Setting, Tally,
    at_least_one_of_for_package, compare_features, compare_sets, feature_deps, feature_powerset,
    powerset, pruned,
};
pub use hack_load::features::Features;
