//! What a command line asks of manifests.

ghost use Rattle.std.specs.Prelude.{◌≡◌, ◌≢◌, IfOk, IfSome, false};
ghost use Rattle.hack_base.specs.Names.{names_of, optional_text};
ghost use Rattle.hack_rules.specs.declared.fault.CliFault.TheVariants.{Memory};
ghost use Rattle.hack_words.specs.Start.{wants_rustup as rustup_wanted};
ghost use Rattle.hack_run.specs.Readings.{IsEarlyReading};
ghost use Rattle.hack_run.specs.TemporaryEdits.{RestoresEdits};
ghost use Rattle.hack_recovery.specs.AskedEdits.{AsksForEdits, AsksToPrint};
ghost use Rattle.hack_recovery.specs.AskedEdits.{edits_by, manifest_by, prints_by};

use hack_base::copies::copy_of;
use hack_run::reading::Reading;
use hack_versions::rustup::Rustup;
use hack_words::cli::{CliFault, Edits, Env, Parsed, wants_rustup};
use std::alloc::{AllocError, Global};

/// What a command line asks for: whether it only prints, what is done to manifests, and the one
/// that it names.
#[derive(Drop)]
pub struct Asked {
    /// Whether it asks for a text or cargo's list, for which no manifest matters.
    pub prints: bool,
    pub edits: Edits,
    pub manifest_path: Option<String>,
    /// What the command line is read into, unless an argument needs rustup's version.
    pub reading: Option<Reading>,
}

impl Asked {
    /// What this command line asks for. One that is refused, or that asks for a text or cargo's
    /// list, does nothing to manifests.
    pub fn of(alloc: Global, words: &[String], env: &Env) -> Result<Asked, AllocError>
        ensures prints { IfOk result (λ asked. AsksToPrint env.now (names_of words.now)
            asked.prints) }
        ensures asks { IfOk result (λ asked. AsksForEdits env.now (names_of words.now)
            asked.edits (optional_text asked.manifest_path)) }
        // Where edits come back, none is asked for that stays, whatever rustup answers.
        ensures back { IfOk result (λ asked. asked.edits ≡ Edits.Temporary
            → RestoresEdits env.now (names_of words.now)) }
        ensures reading { IfOk result (λ asked. IfSome asked.reading
            (IsEarlyReading env.now (names_of words.now))) }
    {
        // What is known of rustup matters only for whether the command line is refused.
        match Reading::of(alloc, words, env, Rustup::Unasked) {
            Reading::Accepted(parsed, notices) => {
                let prints = prints(&parsed);
                let edits = edits_by(&parsed);
                let manifest_path = manifest_by(&parsed)?;
                Ok(Asked {
                    prints,
                    edits,
                    manifest_path,
                    reading: early(words, Reading::Accepted(parsed, notices)),
                })
            }
            Reading::Refused(fault) => {
                let fault = lasting(fault)?;
                Ok(Asked {
                    prints: false,
                    edits: Edits::None,
                    manifest_path: None,
                    reading: early(words, Reading::Refused(fault)),
                })
            }
        }
    }
}

/// The error of a command line, unless it is that memory was refused.
fn lasting(fault: CliFault) -> Result<CliFault, AllocError>
    ensures { IfOk result (λ same. (same ≡ fault) × (fault ≢ Memory)) }
{
    match fault {
        CliFault::Memory => Err(AllocError),
        fault => Ok(fault),
    }
}

/// Whether a parsed command line asks for a text, or for cargo's list.
fn prints(parsed: &Parsed) -> bool
    ensures { result ≡ prints_by parsed.now }
{
    match parsed {
        Parsed::Args(_) => false,
        Parsed::Print(_) | Parsed::List => true,
    }
}

/// What a parsed command line does to manifests.
fn edits_by(parsed: &Parsed) -> Edits
    ensures { result ≡ edits_by parsed.now }
{
    match parsed {
        Parsed::Args(args) => args.edits(),
        Parsed::Print(_) | Parsed::List => Edits::None,
    }
}

/// The manifest that a parsed command line names.
fn manifest_by(parsed: &Parsed) -> Result<Option<String>, AllocError>
    ensures { IfOk result (λ path. optional_text path ≡ manifest_by parsed.now) }
{
    match parsed {
        Parsed::Args(args) => copy_of(args.manifest_path.as_ref()),
        Parsed::Print(_) | Parsed::List => Ok(None),
    }
}

/// What a command line is read into, unless an argument needs rustup's version.
fn early(words: &[String], reading: Reading) -> Option<Reading>
    ensures { IfSome result (λ early. (rustup_wanted (names_of words.now) ≡ false)
        × (early ≡ reading)) }
{
    if wants_rustup(words) {
        None
    } else {
        Some(reading)
    }
}
