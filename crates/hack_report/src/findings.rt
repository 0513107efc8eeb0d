//! What a search for the least version found, as lines for the user.

ghost use Rattle.std.specs.Prelude.{◌≡◌, ◌++◌, IfOk, None, OnErr, OnOk, Some, codes, option_and_then};
ghost use Rattle.std.specs.Prelude.{option_copied, string_bytes};
ghost use Rattle.std.specs.List.{list_any};
ghost use Rattle.hack_base.specs.Streams.{WritesAll, stream_of};
ghost use Rattle.hack_load.specs.ContextView.{context_view};
ghost use Rattle.hack_plan.specs.Commands.{toolchain_of};
ghost use Rattle.hack_report.specs.Findings.{asked_range, failing_on, failure_text, found_remarks};
ghost use Rattle.hack_report.specs.Findings.{is_failing, is_named as has_name, least_text};
ghost use Rattle.hack_report.specs.Findings.{own_version, package_name, place_version};
ghost use Rattle.hack_report.specs.Findings.{promise_remarks, remarks_on, some_too_low, version_at};
ghost use Rattle.hack_report.specs.Remarks.{AddsRemarks, remark_lines};

use crate::noted::Noted;
use crate::remarks::{Remark, RemarkKind, add, tell_remarks};
use hack_base::writes::Sink;
use hack_load::context::Context;
use hack_metadata::metadata::PackageId;
use hack_msrv::found::Found;
use hack_plan::plan::{Plan, toolchain};
use hack_term::term::Coloring;
use hack_versions::version::Version;
use std::alloc::{AllocError, Global};

/// Reports what was found of each package of the plan, in order: as an error where its greatest
/// version fails. Lines are coloured so. Returns what they noted. Where memory is refused, nothing is
/// written.
pub fn tell_found<E: Sink>(
    alloc: Global,
    cx: &Context,
    plan: &Plan,
    found: &[Found],
    coloring: Coloring,
    err: &mut E,
) -> Result<Noted, AllocError>
    ensures noted { IfOk result (λ noted. (noted.fails ≡ list_any is_failing found.now)
        × (noted.warns ≡ some_too_low (context_view cx.now) plan.now 0 found.now)) }
    ensures shown { OnOk result (WritesAll
        (remark_lines coloring (found_remarks (context_view cx.now) plan.now 0 found.now))
        (stream_of E.Sink err.old) (stream_of E.Sink err.new)) }
    ensures refused { OnErr result (err.new ≡ err.old) }
{
    let mut remarks = Vec::new(alloc);
    for member in 0..found.len() {
        let about = About {
            alloc,
            cx,
            plan,
            name: name_of(plan, member),
        };
        about.add(found[member], &mut remarks)?;
    }
    Ok(tell_remarks(&remarks, coloring, err))
}

/// The name of a package of the plan.
pub(crate) fn name_of(plan: &Plan, member: usize) -> &str
    ensures { result.now ≡ package_name plan.now member }
{
    match plan.packages().get(member) {
        Some(one) => one.name.as_str(),
        None => "",
    }
}

/// A package of a plan whose least version was searched for.
#[derive(Clone, Copy)]
struct About<'a> {
    alloc: Global,
    cx: &'a Context,
    plan: &'a Plan,
    name: &'a str,
}

impl<'a> About<'a> {
    /// Adds the lines on what was found of the package.
    fn add(self, found: Found, remarks: &mut Vec<Remark>) -> Result<(), AllocError>
        ensures { OnOk result (AddsRemarks remarks.old remarks.new (remarks_on
            (context_view self.entry.cx.now) self.entry.plan.now self.entry.name.now found)) }
    {
        match found {
            Found::Untried | Found::Broken => Ok(()),
            Found::Least { version, failed } => {
                let Some(least) = self.version(version) else {
                    return Ok(());
                };
                add(remarks, RemarkKind::Info, self.least_text(least, failed)?)?;
                self.add_promise(failed, remarks)
            }
            Found::Nowhere { version: _, failed } => {
                add(remarks, RemarkKind::Error, self.failing_text(failed)?)
            }
        }
    }

    /// The line on a package whose greatest version fails, by this run.
    fn failing_text(self, place: usize) -> Result<String, AllocError>
        ensures { IfOk result (λ text. string_bytes text ≡ self.entry.name.now
            ++ (codes ": " ++ failure_text (context_view self.entry.cx.now)
            self.entry.plan.now place)) }
    {
        let name = self.name;
        let failure = self.failure(place)?;
        format!(in self.alloc; "{name}: {failure}")
    }

    /// The line on the least version, and on the place that fails before it.
    fn least_text(self, least: Version, failed: Option<usize>) -> Result<String, AllocError>
        ensures { IfOk result (λ text. string_bytes text ≡ least_text
            (context_view self.entry.cx.now) self.entry.plan.now self.entry.name.now
            least failed) }
    {
        match failed {
            Some(place) => self.bounded_text(least, place),
            None => self.unbounded_text(least),
        }
    }

    /// The line on the least version, where this place fails before it.
    fn bounded_text(self, least: Version, place: usize) -> Result<String, AllocError>
        ensures { IfOk result (λ text. string_bytes text ≡ least_text
            (context_view self.entry.cx.now) self.entry.plan.now self.entry.name.now
            least (Some place)) }
    {
        let name = self.name;
        let least = toolchain(self.alloc, least)?;
        let failure = self.failure(place)?;
        let range = self.range()?;
        format!(in self.alloc;
            "{name}: {least} is the least version of {range} on which all runs pass; {failure}"
        )
    }

    /// The line on the least version, where none fails before it.
    fn unbounded_text(self, least: Version) -> Result<String, AllocError>
        ensures { IfOk result (λ text. string_bytes text ≡ least_text
            (context_view self.entry.cx.now) self.entry.plan.now self.entry.name.now
            least None) }
    {
        let name = self.name;
        let least = toolchain(self.alloc, least)?;
        format!(in self.alloc;
            "{name}: all runs pass on each version that was tried, down to {least}"
        )
    }

    /// Warns where the package doesn't keep what its `rust-version` promises: no version below that
    /// one is tried.
    fn add_promise(self, failed: Option<usize>, remarks: &mut Vec<Remark>) -> Result<(), AllocError>
        ensures { OnOk result (AddsRemarks remarks.old remarks.new (promise_remarks
            self.entry.name.now
            (own_version (context_view self.entry.cx.now) self.entry.name.now)
            (option_and_then (place_version self.entry.plan.now) failed))) }
    {
        let Some(own) = self.own() else {
            return Ok(());
        };
        let Some(failed) = self.failed_version(failed) else {
            return Ok(());
        };
        let text = promise_text(self.alloc, self.name, own, failed)?;
        add(remarks, RemarkKind::Warning, text)
    }

    /// The package's `rust-version`, as its manifest has it.
    fn own(self) -> Option<&'a str>
        ensures { option_copied result
            ≡ own_version (context_view self.entry.cx.now) self.entry.name.now }
    {
        for id in self.cx.workspace_members() {
            if self.is_named(*id) {
                return self.cx.rust_version(*id);
            }
        }
        None
    }

    /// Whether this is a member of the package's name.
    fn is_named(self, id: PackageId) -> bool
        ensures { result
            ≡ has_name (context_view self.entry.cx.now) self.entry.name.now id.index }
    {
        match self.cx.metadata().find(id) {
            Some(pkg) => pkg.name.as_str() == self.name,
            None => false,
        }
    }

    /// The version at an index of the plan's list.
    fn version(self, index: usize) -> Option<Version>
        ensures { result ≡ version_at self.entry.plan.now index }
    {
        match self.plan.versions().get(index) {
            Some(version) => version.version,
            None => None,
        }
    }

    /// The version of the place whose run failed.
    fn failed_version(self, failed: Option<usize>) -> Option<Version>
        ensures { result ≡ option_and_then (place_version self.entry.plan.now) failed }
    {
        match failed {
            Some(place) if place < self.plan.len() => self.plan.entry(place).version,
            _ => None,
        }
    }

    /// Which run fails on which version.
    fn failure(self, place: usize) -> Result<String, AllocError>
        ensures { IfOk result (λ text. string_bytes text ≡ failure_text
            (context_view self.entry.cx.now) self.entry.plan.now place) }
    {
        if place >= self.plan.len() {
            return Ok(String::new(self.alloc));
        }
        let run = self.plan.run(self.alloc, place)?;
        let verbose = self.cx.args().verbose;
        let dir = self.cx.current_dir();
        let command = run.command.text(self.alloc, false, verbose, dir)?;
        failing_on(self.alloc, run.entry.version, command.as_str())
    }

    /// The range of versions, as a user reads it.
    fn range(self) -> Result<String, AllocError>
        ensures { IfOk result (λ text. string_bytes text
            ≡ asked_range (context_view self.entry.cx.now)) }
    {
        match self.cx.args().version_range {
            Some(range) => format!(in self.alloc; "{range}"),
            None => Ok(String::new(self.alloc)),
        }
    }
}

/// The text of a run that fails, given that of its command, on its version.
fn failing_on(alloc: Global, version: Option<Version>, command: &str) -> Result<String, AllocError>
    ensures { IfOk result (λ text. string_bytes text ≡ failing_on version command.now) }
{
    let Some(version) = version else {
        return format!(in alloc; "this fails: {command}");
    };
    let version = toolchain(alloc, version)?;
    format!(in alloc; "on {version} this fails: {command}")
}

/// The warning on a package that has this `rust-version`, and fails on another version.
fn promise_text(alloc: Global, name: &str, own: &str, failed: Version) -> Result<String, AllocError>
    ensures { IfOk result (λ text. string_bytes text
        ≡ name.now ++ (codes ": its rust-version is " ++ (own.now
        ++ (codes ", but not all runs pass on " ++ toolchain_of failed)))) }
{
    let failed = toolchain(alloc, failed)?;
    format!(in alloc; "{name}: its rust-version is {own}, but not all runs pass on {failed}")
}
