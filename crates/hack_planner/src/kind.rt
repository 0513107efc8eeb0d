//! The runs of a package, and its candidates.

ghost use Rattle.std.specs.Prelude.{◌≡◌, ◌<◌, ◌⊎◌, ◌++◌, [], IfErr, IfOk, IfSome, None, OnOk, Some};
ghost use Rattle.std.specs.Prelude.{length, map, slice_get, true};
ghost use Rattle.std.specs.List.{slice_index_or};
ghost use Rattle.hack_features.specs.Feature.{groups_of};
ghost use Rattle.hack_base.specs.Names.{names_of, names_behind};
ghost use Rattle.hack_plan.specs.Runs.{run_of};
ghost use Rattle.hack_base.specs.Notes.{note_of};
ghost use Rattle.hack_planner.specs.Candidates.{candidate_notes};
ghost use Rattle.hack_metadata.specs.RecordViews.{package_view};
ghost use Rattle.hack_planner.specs.Kinds.{AreRunSettings, AreCovering, package_choice};
ghost use Rattle.hack_plan.specs.Commands.{candidate_names_at};
ghost use Rattle.hack_samples.specs.Sets.{rows_of};
ghost use Rattle.hack_planner.specs.InternalKinds.{kind_from as kind_made};
ghost use Rattle.hack_planner.specs.InternalLeastPlaces.{HasRunsAtLeast, IsOver};
ghost use Rattle.hack_planner.specs.KindsView.{AreRunsBy, IsKind, IsRunsFault, runs_of, candidates_in};
ghost use Rattle.hack_plan.specs.Inputs.{AreVersionsOf};
ghost use Rattle.hack_planner.specs.PackageRules.{call_rules, rules_in};

use crate::candidates::{candidates, notes_on};
use crate::fault::RunsFault;
use crate::found::found_among;
use crate::least_places::Limit;
use crate::package_rules::PackageRules;
use hack_base::notice::Notice;
use hack_features::Feature;
use hack_load::features::Features;
use hack_metadata::metadata::{Package, PackageId};
use hack_plan::runs::{Run, Runs};
use hack_words::cli::Args;
use std::alloc::{AllocError, Global};

/// How a package runs.
#[derive(Drop)]
pub enum Kind {
    /// One plain run, with the features that cargo enables by itself.
    Normal,
    /// A run for each candidate, and the runs that have no set.
    Each {
        candidates: Vec<Feature>,
        runs: Runs,
    },
    /// A run for each set of candidates that is listed, or that a sample has, and the runs that
    /// have no set.
    Powerset {
        candidates: Vec<Feature>,
        runs: Runs,
    },
}

impl Kind {
    /// The candidates of which the sets of the runs are made.
    pub fn candidates(&self) -> &[Feature]
        ensures { groups_of result.now ≡ candidates_in self.now }
    {
        match self {
            Kind::Normal => &[],
            Kind::Each { candidates, .. } => candidates.as_slice(),
            Kind::Powerset { candidates, .. } => candidates.as_slice(),
        }
    }

    /// How many runs there are.
    pub fn count(&self) -> usize
        ensures { result ≡ length (runs_of self.now) }
    {
        match self {
            Kind::Normal => 1,
            Kind::Each { runs, .. } => runs.len(),
            Kind::Powerset { runs, .. } => runs.len(),
        }
    }

    /// Returns the run of the rank. If it is the run of a set, `positions` then holds the positions
    /// of the set's candidates, in place of what it held.
    pub fn run(&self, rank: usize, positions: &mut Vec<usize>) -> Result<Run, AllocError>
        requires { rank < length (runs_of self.now) }
        ensures { IfOk result (λ run. slice_get (runs_of self.now) rank
            ≡ Some (run_of run positions.new.items)) }
    {
        match self {
            Kind::Normal => Ok(Run::Plain),
            Kind::Each { runs, .. } => runs.run(rank, positions),
            Kind::Powerset { runs, .. } => runs.run(rank, positions),
        }
    }
}

/// The runs of a package.
#[derive(Drop)]
pub struct PackageRuns {
    pub id: PackageId,
    pub kind: Kind,
    /// How many runs there are.
    pub feature_count: usize,
    /// With a strength, for each run a row that says which candidates are on in it; else nothing.
    pub settings: Vec<Vec<bool>>,
    ghost counted: { feature_count ≡ length (runs_of kind) },
}

impl PackageRuns {
    /// How many runs there are.
    pub fn len(&self) -> usize
        ensures { result ≡ length (runs_of self.now.kind) }
    {
        self.feature_count
    }
}

/// The kind with these candidates and runs.
fn kind_from(asked: &PackageRules, candidates: Vec<Feature>, runs: Runs, is_plain: bool) -> Kind
    ensures { result ≡ kind_made asked.now.feature_powerset is_plain candidates runs }
{
    if is_plain {
        return Kind::Normal;
    }
    if asked.feature_powerset {
        Kind::Powerset { candidates, runs }
    } else {
        Kind::Each { candidates, runs }
    }
}

/// How a package runs, and with a strength the rows of its runs; or how many runs it has at least, if
/// there is a limit and they pass it.
pub(crate) fn kind_of(
    alloc: Global,
    asked: &PackageRules,
    pkg: &Package,
    features: &Features,
    limit: Option<Limit<'_>>,
) -> Result<Result<(Kind, Vec<Vec<bool>>), usize>, RunsFault>
    requires { IfSome limit (λ l. AreVersionsOf l.input.now l.versions.now) }
    ensures kind { IfOk result (λ listed. IfOk listed (λ made.
        IsKind (rules_in asked.now) (package_view pkg.now) features.now made.0)) }
    ensures covered { IfOk result (λ listed. IfOk listed (λ made.
        asked.now.feature_powerset ≡ true → asked.now.strength ≡ None
        → AreCovering (rules_in asked.now) (package_view pkg.now) features.now (runs_of made.0))) }
    ensures settings { IfOk result (λ listed. IfOk listed (λ made.
        AreRunSettings asked.now.strength
        (package_choice (rules_in asked.now) (package_view pkg.now) features.now)
        (runs_of made.0) (rows_of made.1.items))) }
    ensures over { IfOk result (λ listed. IfErr listed (λ least.
        HasRunsAtLeast (rules_in asked.now) (package_view pkg.now) features.now least
        × IsOver limit.entry least)) }
    ensures err { IfErr result (λ e. (e ≡ RunsFault.Memory)
        ⊎ IsRunsFault (rules_in asked.now) (package_view pkg.now) features.now e) }
{
    let candidates = candidates(alloc, asked, features)?;
    match found_among(alloc, asked, pkg, features, &candidates, limit)? {
        Ok(found) => {
            let kind = kind_from(asked, candidates, found.runs, found.is_plain);
            Ok(Ok((kind, found.settings)))
        }
        Err(least) => Ok(Err(least)),
    }
}

/// The runs that these rules give a package.
pub(crate) fn runs_by(
    alloc: Global,
    asked: &PackageRules,
    id: PackageId,
    pkg: &Package,
    features: &Features,
) -> Result<PackageRuns, RunsFault>
    ensures id { IfOk result (λ made. made.id ≡ id) }
    ensures made { IfOk result (λ made. AreRunsBy (rules_in asked.now)
        (package_view pkg.now) features.now made.kind (rows_of made.settings.items)) }
    ensures err { IfErr result (λ e. (e ≡ RunsFault.Memory)
        ⊎ IsRunsFault (rules_in asked.now) (package_view pkg.now) features.now e) }
{
    let Ok((kind, settings)) = kind_of(alloc, asked, pkg, features, None)? else {
        unreachable!()
    };
    let feature_count = kind.count();
    Ok(PackageRuns {
        id,
        kind,
        feature_count,
        settings,
    })
}
