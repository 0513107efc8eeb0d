//! What a search for conflicts found, as lines for the user.

ghost use Rattle.std.specs.Prelude.{◌≡◌, ◌++◌, [], IfOk, OnErr, OnOk, None, codes, option_copied};
ghost use Rattle.std.specs.Prelude.{slice_get, string_bytes};
ghost use Rattle.std.specs.List.{list_any, slice_index_or};
ghost use Rattle.hack_base.specs.Names.{names_of};
ghost use Rattle.hack_base.specs.Streams.{WritesAll, stream_of};
ghost use Rattle.hack_features.specs.Feature.{groups_of};
ghost use Rattle.hack_plan.specs.Commands.{slot_target, slots_in};
ghost use Rattle.hack_report.specs.Conflicts.{build_lines, build_text};
ghost use Rattle.hack_report.specs.Conflicts.{conflict_remarks, has_conflict, hunt_remarks};
ghost use Rattle.hack_report.specs.Conflicts.{hunted_remarks, is_open, names_at, open_remarks};
ghost use Rattle.hack_report.specs.Conflicts.{own_target, passing_lines, passing_remarks};
ghost use Rattle.hack_report.specs.Conflicts.{passing_text, spot_text, unfinished_remarks};
ghost use Rattle.hack_report.specs.Remarks.{AddsRemarks, remark_lines};
ghost use Rattle.hack_session.specs.SuspectNotes.{package_candidates};

use crate::findings::name_of;
use crate::noted::Noted;
use crate::remarks::{Remark, RemarkKind, add, tell_remarks};
use hack_base::copies::push_copies;
use hack_base::writes::Sink;
use hack_closures::Build;
use hack_features::Feature;
use hack_hunt::hunt::Hunted;
use hack_plan::plan::Plan;
use hack_term::term::Coloring;
use std::alloc::{AllocError, Global};

/// Reports what was found of each package and slot, in order: its conflicts as an error, and as a
/// warning that its search isn't complete; in a verbose call also which sets passed. Lines are coloured
/// so. Returns what they noted. Where memory is refused, nothing is written.
pub fn tell_hunted<E: Sink>(
    alloc: Global,
    verbose: bool,
    plan: &Plan,
    found: &[Hunted],
    coloring: Coloring,
    err: &mut E,
) -> Result<Noted, AllocError>
    ensures noted { IfOk result (λ noted. (noted.fails ≡ list_any has_conflict found.now)
        × (noted.warns ≡ list_any is_open found.now)) }
    ensures shown { OnOk result (WritesAll
        (remark_lines coloring (hunted_remarks verbose plan.now found.now))
        (stream_of E.Sink err.old) (stream_of E.Sink err.new)) }
    ensures refused { OnErr result (err.new ≡ err.old) }
{
    let mut remarks = Vec::new(alloc);
    for one in found {
        add_hunted(alloc, verbose, plan, one, &mut remarks)?;
    }
    Ok(tell_remarks(&remarks, coloring, err))
}

/// Adds the lines on what was found of a package, for a slot of the plan.
fn add_hunted(
    alloc: Global,
    verbose: bool,
    plan: &Plan,
    found: &Hunted,
    remarks: &mut Vec<Remark>,
) -> Result<(), AllocError>
    ensures { OnOk result (AddsRemarks remarks.old remarks.new
        (hunt_remarks verbose plan.now found.now)) }
{
    let spot = spot_text(alloc, plan, found)?;
    let about = About {
        alloc,
        spot: spot.as_str(),
        plain: found.plain,
        candidates: candidates_in(plan, found.member),
    };
    about.add_conflicts(found.conflicts.as_slice(), remarks)?;
    about.add_unfinished(found.unfinished.as_ref(), remarks)?;
    about.add_passing(verbose, found, remarks)?;
    about.add_open(found.complete, remarks)
}

/// Where the runs of a search are: their package, and where each target has runs of its own, the
/// target.
fn spot_text(alloc: Global, plan: &Plan, found: &Hunted) -> Result<String, AllocError>
    ensures { IfOk result (λ text. string_bytes text ≡ spot_text plan.now found.now) }
{
    let name = name_of(plan, found.member);
    let target = own_target(alloc, plan, found.slot)?;
    format!(in alloc; "in {name}{target}")
}

/// The words on the target of a slot, where each has runs of its own.
fn own_target(alloc: Global, plan: &Plan, slot: usize) -> Result<String, AllocError>
    ensures { IfOk result (λ text. string_bytes text ≡ own_target
        (slots_in plan.now.call None) (slot_target plan.now.call None slot)) }
{
    if plan.slots() <= 1 {
        return Ok(String::new(alloc));
    }
    match plan.slot_target(None, slot) {
        Some(target) => format!(in alloc; " for {target}"),
        None => Ok(String::new(alloc)),
    }
}

/// The candidates of a package.
fn candidates_in(plan: &Plan, member: usize) -> &[Feature]
    ensures { groups_of result.now ≡ package_candidates (slice_get plan.now.packages member) }
{
    plan.packages()
        .get(member)
        .map_or(&[], |package| package.candidates.as_slice())
}

/// A package in a slot, and the candidates of its sets.
#[derive(Clone, Copy)]
struct About<'a> {
    alloc: Global,
    /// Where its runs are.
    spot: &'a str,
    /// Whether they are one plain run.
    plain: bool,
    candidates: &'a [Feature],
}

impl<'a> About<'a> {
    /// Adds the line on the conflicts, where there are some.
    fn add_conflicts(self, conflicts: &[Build], remarks: &mut Vec<Remark>) -> Result<(), AllocError>
        ensures { OnOk result (AddsRemarks remarks.old remarks.new (conflict_remarks
            self.entry.spot.now self.entry.plain (groups_of self.entry.candidates.now)
            conflicts.now)) }
    {
        if conflicts.is_empty() {
            return Ok(());
        }
        add(remarks, RemarkKind::Error, self.conflict_text(conflicts)?)
    }

    /// The line on conflicts.
    fn conflict_text(self, conflicts: &[Build]) -> Result<String, AllocError>
        ensures { IfOk result (λ text. string_bytes text ≡ self.entry.spot.now
            ++ (codes " these features fail together, and no part of them that may be chosen fails:"
            ++ build_lines self.entry.plain (groups_of self.entry.candidates.now)
            conflicts.now)) }
    {
        let spot = self.spot;
        let sets = self.lines(conflicts)?;
        format!(in self.alloc;
            "{spot} these features fail together, \
             and no part of them that may be chosen fails:{sets}"
        )
    }

    /// Adds the line on the set that failed and wasn't made smaller, if there is one.
    fn add_unfinished(
        self,
        unfinished: Option<&Build>,
        remarks: &mut Vec<Remark>,
    ) -> Result<(), AllocError>
        ensures { OnOk result (AddsRemarks remarks.old remarks.new (unfinished_remarks
            self.entry.spot.now self.entry.plain (groups_of self.entry.candidates.now)
            (option_copied unfinished.entry))) }
    {
        let Some(set) = unfinished else {
            return Ok(());
        };
        add(remarks, RemarkKind::Error, self.unfinished_text(set)?)
    }

    /// The line on that set.
    fn unfinished_text(self, set: &Build) -> Result<String, AllocError>
        ensures { IfOk result (λ text. string_bytes text ≡ self.entry.spot.now
            ++ (codes " these features fail together, and not all parts of them were tried:\n    "
            ++ build_text self.entry.plain (groups_of self.entry.candidates.now) set.now)) }
    {
        let spot = self.spot;
        let set = self.build_text(set)?;
        format!(in self.alloc;
            "{spot} these features fail together, and not all parts of them were tried:\n    {set}"
        )
    }

    /// Adds the line on how many greatest sets passed, where some did; in a verbose call also which.
    fn add_passing(
        self,
        verbose: bool,
        found: &Hunted,
        remarks: &mut Vec<Remark>,
    ) -> Result<(), AllocError>
        ensures { OnOk result (AddsRemarks remarks.old remarks.new (passing_remarks verbose
            self.entry.spot.now self.entry.plain (groups_of self.entry.candidates.now)
            found.now found.now.passing.items)) }
    {
        let passing = found.passing.as_slice();
        if passing.is_empty() {
            return Ok(());
        }
        let sets = self.passing_lines(verbose, passing)?;
        let alone = found.conflicts.as_slice().is_empty();
        let text = self.passing_text(passing.len(), sets.as_str(), found.complete, alone)?;
        add(remarks, RemarkKind::Info, text)
    }

    /// The line on so many sets that passed, which are shown so, by whether the search is complete, and
    /// found no conflict.
    fn passing_text(
        self,
        count: usize,
        sets: &str,
        complete: bool,
        alone: bool,
    ) -> Result<String, AllocError>
        ensures { IfOk result (λ text. string_bytes text
            ≡ passing_text self.entry.spot.now count sets.now complete alone) }
    {
        let spot = self.spot;
        match (complete, alone, count) {
            (false, _, 1) => format!(in self.alloc; "{spot} 1 set passed so far{sets}"),
            (false, _, _) => format!(in self.alloc; "{spot} {count} sets passed so far{sets}"),
            (true, true, 1) => format!(in self.alloc;
                "{spot} each allowed set lies inside the one set that passed{sets}"
            ),
            (true, true, _) => format!(in self.alloc;
                "{spot} each allowed set lies inside one of {count} sets that passed{sets}"
            ),
            (true, false, 1) => format!(in self.alloc;
                "{spot} each other allowed set lies inside the one set that passed{sets}"
            ),
            (true, false, _) => format!(in self.alloc;
                "{spot} each other allowed set lies inside one of {count} sets that passed{sets}"
            ),
        }
    }

    /// In a verbose call the sets that passed, a line for each.
    fn passing_lines(self, verbose: bool, passing: &[Build]) -> Result<String, AllocError>
        ensures { IfOk result (λ text. string_bytes text
            ≡ passing_lines verbose self.entry.plain (groups_of self.entry.candidates.now)
            passing.now) }
    {
        if !verbose {
            return Ok(String::new(self.alloc));
        }
        let sets = self.lines(passing)?;
        format!(in self.alloc; ":{sets}")
    }

    /// Adds the warning where not all sets are decided, since no more runs were allowed.
    fn add_open(self, complete: bool, remarks: &mut Vec<Remark>) -> Result<(), AllocError>
        ensures { OnOk result (AddsRemarks remarks.old remarks.new
            (open_remarks self.entry.spot.now complete)) }
    {
        if complete {
            return Ok(());
        }
        let spot = self.spot;
        let text = format!(in self.alloc;
            "{spot} the search isn't complete, since --most-runs ended it: other sets may fail"
        )?;
        add(remarks, RemarkKind::Warning, text)
    }

    /// A line for each of these sets.
    fn lines(self, sets: &[Build]) -> Result<String, AllocError>
        ensures { IfOk result (λ text. string_bytes text
            ≡ build_lines self.entry.plain (groups_of self.entry.candidates.now) sets.now) }
    {
        let mut text = String::new(self.alloc);
        for set in sets {
            text.push_str("\n    ")?;
            text.push_str(self.build_text(set)?.as_str())?;
        }
        Ok(text)
    }

    /// The features of a set, or in words what was built.
    fn build_text(self, set: &Build) -> Result<String, AllocError>
        ensures { IfOk result (λ text. string_bytes text
            ≡ build_text self.entry.plain (groups_of self.entry.candidates.now) set.now) }
    {
        match set {
            Build::NoFeatures if self.plain => String::from_str(
                self.alloc,
                "the package as it is: it has no feature to choose",
            ),
            Build::NoFeatures => String::from_str(self.alloc, "no feature at all"),
            Build::AllFeatures => String::from_str(self.alloc, "all features"),
            Build::Set(positions) => {
                let names = self.names(positions.as_slice())?;
                names.join(self.alloc, ",")
            }
        }
    }

    /// The names of the candidates at these positions.
    fn names(self, positions: &[usize]) -> Result<Vec<String>, AllocError>
        ensures { IfOk result (λ names. names_of names.items
            ≡ names_at (groups_of self.entry.candidates.now) positions.now) }
    {
        let mut names = Vec::new(self.alloc);
        for position in positions {
            push_copies(&mut names, names_of_candidate(self.candidates, *position))?;
        }
        Ok(names)
    }
}

/// The names of the candidate at a position.
fn names_of_candidate(candidates: &[Feature], position: usize) -> &[String]
    ensures { names_of result.now ≡ slice_index_or (groups_of candidates.now) position [] }
{
    candidates
        .get(position)
        .map_or(&[], |feature| feature.as_group())
}
