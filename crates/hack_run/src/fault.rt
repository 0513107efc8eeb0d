//! The errors that end a call.

ghost use Rattle.std.specs.Prelude.{◌≡◌, Some, option_copied, true};
ghost use Rattle.hack_run.specs.Errors.{failed_command, failed_file, is_memory, is_of_file};
ghost use Rattle.hack_run.specs.Errors.{text_of};

use hack_files::fs::FsFault;
use hack_files::reason::is_of_device;
use hack_load::context::ContextFault;
use hack_metadata::metadata::AskFault;
use hack_planner::fault::PlanFault;
use hack_prepare::manifest::PrepareFault;
use hack_process::process::ProcessFault;
use hack_words::cli::CliFault;
use std::alloc::{AllocError, AllocFailed};
use std::error::Error;
use std::fmt;

/// The error that ended a call.
#[derive(Debug, Drop)]
pub enum RunFault {
    Memory,
    /// The command line is refused.
    Words(CliFault),
    /// What the call needs couldn't be loaded.
    Context(ContextFault),
    /// The manifests couldn't be edited as the call asks.
    Manifests(PrepareFault),
    /// There is no plan.
    Plan(PlanFault),
    /// A command failed.
    Process(ProcessFault),
    /// A line of the command list couldn't be written.
    Unlisted,
    /// A text couldn't be written.
    Unprinted,
}

impl RunFault {
    /// Whether a file couldn't be read or written.
    pub fn is_of_file(&self) -> bool
        ensures { result ≡ is_of_file self.now }
    {
        match self.failed_file() {
            Some(fault) => is_of_device(fault),
            None => false,
        }
    }

    /// The error of a file, where that is the error.
    pub(crate) fn failed_file(&self) -> Option<&FsFault>
        ensures { option_copied result ≡ failed_file self.now }
    {
        match self {
            RunFault::Context(ContextFault::Files(fault)) => Some(fault),
            RunFault::Context(ContextFault::Asked(AskFault::Files(fault))) => Some(fault),
            RunFault::Manifests(PrepareFault::Files(fault)) => Some(fault),
            _ => None,
        }
    }

    /// Whether memory was refused.
    pub(crate) fn is_memory(&self) -> bool
        ensures { result ≡ is_memory self.now }
    {
        match self {
            RunFault::Memory
            | RunFault::Words(CliFault::Memory)
            | RunFault::Context(ContextFault::Memory)
            | RunFault::Manifests(PrepareFault::Memory)
            | RunFault::Plan(PlanFault::Memory) => true,
            _ => false,
        }
    }

    /// The command that failed, where that is the error.
    pub(crate) fn failed_command(&self) -> Option<&ProcessFault>
        ensures { option_copied result ≡ failed_command self.now }
    {
        match self {
            RunFault::Process(fault) => Some(fault),
            RunFault::Context(ContextFault::Process(fault)) => Some(fault),
            RunFault::Context(ContextFault::Asked(AskFault::Process(fault))) => Some(fault),
            _ => None,
        }
    }
}

/// Written out, since a call's contract says the text of an error.
impl fmt::Display for RunFault {
    ghost output = { λ fault. text_of fault };

    fn fmt<W: fmt::Write>(&self, f: &mut fmt::Formatter<W>) -> fmt::Result {
        if let Some(fault) = self.failed_file() {
            return write!(f, "{fault}");
        }
        if self.is_memory() {
            return f.write_str("out of memory");
        }
        if let Some(fault) = self.failed_command() {
            return write!(f, "{fault}");
        }
        match self {
            RunFault::Memory => f.write_str("out of memory"),
            RunFault::Words(fault) => write!(f, "{fault}"),
            RunFault::Context(fault) => write!(f, "{fault}"),
            RunFault::Manifests(fault) => write!(f, "{fault}"),
            RunFault::Plan(PlanFault::Stable(why)) => f.write_str(why.as_str()),
            RunFault::Plan(fault) => write!(f, "{fault}"),
            RunFault::Process(fault) => write!(f, "{fault}"),
            RunFault::Unlisted => f.write_str("failed to write the command list"),
            RunFault::Unprinted => f.write_str("failed to write to standard output"),
        }
    }
}

impl Error for RunFault {}

impl From<AllocError> for RunFault {
    ghost use Rattle.hack_run.specs.declared.fault.RunFault.TheVariants.{Memory};

    ghost from_gives = { λ _ e. e ≡ Memory };

    fn from(_: AllocError) -> RunFault {
        RunFault::Memory
    }
}

impl<T: Drop> From<AllocFailed<T>> for RunFault {
    ghost use Rattle.hack_run.specs.declared.fault.RunFault.TheVariants.{Memory};

    ghost from_gives = { λ _ e. e ≡ Memory };

    fn from(_: AllocFailed<T>) -> RunFault {
        RunFault::Memory
    }
}
