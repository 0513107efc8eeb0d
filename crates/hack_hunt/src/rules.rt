//! By which rules the sets of a package are searched.

ghost use Rattle.std.specs.Prelude.{◌≡◌, IfOk};
ghost use Rattle.hack_load.specs.ContextView.{context_view};
ghost use Rattle.hack_metadata.specs.RecordViews.{package_view};
ghost use Rattle.hack_planner.specs.PackageRules.{rules_in};
ghost use Rattle.hack_hunt.specs.Hunts.{ends_of, unbound_rules};

use hack_load::context::Context;
use hack_load::features::Features;
use hack_metadata::metadata::Package;
use hack_planner::package_rules::PackageRules;
use hack_planner::parts::options;
use std::alloc::{AllocError, Global};

/// Which runs that aren't those of a set a search may build.
#[derive(Clone, Copy)]
pub(crate) struct Ends {
    /// The run without features.
    pub empty: bool,
    /// The run with all features.
    pub all: bool,
    /// Whether the run without features is a plain one, since no set is listed.
    pub plain: bool,
}

/// The rules of a package, without a depth: a search asks for sets of any size.
pub(crate) fn rules_without_depth(
    alloc: Global,
    cx: &Context,
    pkg: &Package,
    features: &Features,
) -> Result<PackageRules, AllocError>
    ensures { IfOk result (λ rules. rules_in rules
        ≡ unbound_rules (context_view cx.now) (package_view pkg.now) features.now) }
{
    let mut rules = PackageRules::of(alloc, cx, pkg, features)?;
    rules.depth = None;
    Ok(rules)
}

/// Which of these runs the rules allow; a plain run is the only one.
pub(crate) fn ends_for(rules: &PackageRules, features: &Features, plain: bool) -> Ends
    ensures { result ≡ ends_of (rules_in rules.now) features.now plain }
{
    Ends {
        empty: plain || !rules.exclude_no_default_features,
        all: !plain && options(rules, features).keeps_all_features(),
        plain,
    }
}
