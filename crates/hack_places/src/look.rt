//! Looks at files. Where a look fails, it isn't known what is at the path, and the error names it.

ghost use Rattle.std.specs.Prelude.{◌≡◌, [], ℕ, IfErr, IfOk, is_some, option_map};
ghost use Rattle.hack_base.specs.Counters.{GrowsBy};
ghost use Rattle.hack_files.specs.Files.{KeepsAll, Makes};
ghost use Rattle.hack_places.specs.FileLooks.{AreLooksCounted, AreLooksSeen};
ghost use Rattle.hack_places.specs.FileLooks.{CountsLookFault, IsOfPath};

use hack_files::fs::{FileFault, Files};
use hack_journal::contents::look;
use std::alloc::{AllocError, AllocFailed, Global};

/// Why it isn't known what a path holds.
#[derive(Debug, Drop, PartialEq, Eq)]
pub enum LookFault {
    Memory,
    /// This path can't be looked at.
    Device(String),
}

impl<T: Drop> From<AllocFailed<T>> for LookFault {
    ghost use Rattle.hack_places.specs.declared.look.LookFault.TheVariants.{Memory};

    ghost from_gives = { λ _ e. e ≡ Memory };

    fn from(_: AllocFailed<T>) -> LookFault {
        LookFault::Memory
    }
}

impl From<AllocError> for LookFault {
    ghost use Rattle.hack_places.specs.declared.look.LookFault.TheVariants.{Memory};

    ghost from_gives = { λ _ e. e ≡ Memory };

    fn from(_: AllocError) -> LookFault {
        LookFault::Memory
    }
}

/// The error of a look at a path, which is counted.
fn fault_at(alloc: Global, path: &str, fault: FileFault) -> LookFault
    ensures counted { (old new : ℕ) → GrowsBy 1 old new → CountsLookFault old new result }
    ensures named { IsOfPath path.now result }
{
    match fault {
        FileFault::Memory => LookFault::Memory,
        FileFault::Device => match String::from_str(alloc, path) {
            Ok(path) => LookFault::Device(path),
            Err(_) => LookFault::Memory,
        },
    }
}

/// Whether a file exists at a path.
#[tactic(auto, using(crate::proofs::LookLemmas::fault_of))]
pub fn is_there<F: Files>(alloc: Global, path: &str, files: &mut F) -> Result<bool, LookFault>
    ensures found { IfOk result (λ there. F.tells
        → there ≡ is_some (F.bytes_at files.old path.now)) }
    ensures counted { AreLooksCounted (F.failed files.old) (F.failed files.new) result }
    ensures seen { AreLooksSeen F.Files files.old files.new result }
    ensures named { IfErr result (IsOfPath path.now) }
    ensures same { F.tells → KeepsAll (F.bytes_at files.old) (F.bytes_at files.new) }
    ensures untraced { F.whole → Makes [] (F.trace files.old) (F.trace files.new)
        (F.bytes_at files.old) (F.bytes_at files.new) }
{
    match files.exists(path) {
        Ok(there) => Ok(there),
        Err(fault) => Err(fault_at(alloc, path, fault)),
    }
}

/// The contents of a file, if there is one.
#[tactic(auto, using(crate::proofs::LookLemmas::fault_of))]
pub fn held<F: Files>(
    alloc: Global,
    path: &str,
    files: &mut F,
) -> Result<Option<Vec<u8>>, LookFault>
    ensures found { IfOk result (λ found. F.tells
        → F.bytes_at files.old path.now ≡ option_map (λ bytes. bytes.items) found) }
    ensures counted { AreLooksCounted (F.failed files.old) (F.failed files.new) result }
    ensures seen { AreLooksSeen F.Files files.old files.new result }
    ensures named { IfErr result (IsOfPath path.now) }
    ensures same { F.tells → KeepsAll (F.bytes_at files.old) (F.bytes_at files.new) }
    ensures untraced { F.whole → Makes [] (F.trace files.old) (F.trace files.new)
        (F.bytes_at files.old) (F.bytes_at files.new) }
{
    match look(alloc, files, path) {
        Ok(held) => Ok(held),
        Err(fault) => Err(fault_at(alloc, path, fault)),
    }
}
