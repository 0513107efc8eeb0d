//! Reads what `cargo -vV` prints.

ghost use Rattle.std.specs.Prelude.{◌≡◌, ◌⊎◌, IfOk, IfErr, option_copied};
ghost use Rattle.std.specs.Str.Lines.{lines};
ghost use Rattle.hack_base.specs.Cuts.{front_of};
ghost use Rattle.hack_versions.specs.ToolTexts.{TellsRelease, IsAnswerFault};
ghost use Rattle.hack_process.specs.CargoTexts.{first_behind, host_of, release_part};
ghost use Rattle.hack_process.specs.Internal.{behind_prefix};

use hack_versions::rustup::{VersionTextFault, told_release};
use hack_versions::version::Version;
use std::alloc::Global;

/// Returns cargo's version, from what `cargo -vV` prints: that of the line `release: ..`, since
/// packagers add text of their own to the first line.
pub fn version(alloc: Global, answer: &str) -> Result<Version, VersionTextFault>
    ensures ok { IfOk result (TellsRelease (release_part answer.now)) }
    ensures never { IfOk result (λ _. (e : VersionTextFault)
        → ¬ IsAnswerFault answer.now (release_part answer.now) e) }
    ensures err { IfErr result (λ e. (e ≡ VersionTextFault.Memory)
        ⊎ IsAnswerFault answer.now (release_part answer.now) e) }
{
    told_release(alloc, answer, release(answer))
}

/// Returns the target that cargo was built for, from what `cargo -vV` prints.
pub fn host(answer: &str) -> Option<&str>
    ensures { option_copied result ≡ host_of answer.now }
{
    first_value(answer, "host: ")
}

/// Returns the release that an answer names, without its channel.
fn release(answer: &str) -> Option<&str>
    ensures { option_copied result ≡ release_part answer.now }
{
    let release = first_value(answer, "release: ")?;
    Some(before_channel(release))
}

/// Returns the text before the first `-`, or all of it.
fn before_channel(release: &str) -> &str
    ensures { result.now ≡ front_of 45 release.now }
{
    match release.split_once('-') {
        Some((version, _)) => version,
        None => release,
    }
}

/// Returns what follows a name in the first line that begins with it.
fn first_value<'a>(text: &'a str, name: &str) -> Option<&'a str>
    ensures { option_copied result ≡ first_behind name.now (lines text.now) }
{
    for line in text.lines() {
        let value = value_in(line, name);
        if value.is_some() {
            return value;
        }
    }
    None
}

/// Returns what follows a name at the beginning of a line.
fn value_in<'a>(line: &'a str, name: &str) -> Option<&'a str>
    ensures { option_copied result ≡ behind_prefix name.now line.now }
{
    line.strip_prefix(name)
}
