//! Options as they were written, and why arguments can't be parsed into them.

ghost use Rattle.std.specs.Prelude.{◌≡◌, IfOk, option_map};
ghost use Rattle.hack_lexopt.specs.Cuts.{FlagCut, flag_text, option_in};
ghost use Rattle.hack_lexopt.specs.Parsers.{cut_in, flag_in};
ghost use Rattle.hack_rules.specs.Faults.{flag_seen};

use hack_lexopt::{Arg, Flag};
use hack_options::{Opt, Usage};
use std::alloc::{AllocError, AllocFailed, Global};
use std::fmt;
use thiserror::Error;

/// An option as it was written. It is displayed as that, `--name` or `-c`.
#[derive(Debug, PartialEq, Eq, Drop)]
pub enum OwnedFlag {
    /// The name without its `--`.
    Long(String),
    Short(char),
}

impl OwnedFlag {
    /// The option that an item is; none for a value.
    pub fn new(alloc: Global, arg: Arg<'_>) -> Result<Option<OwnedFlag>, AllocError>
        ensures { IfOk result (λ flag. option_map flag_seen flag ≡ option_in (cut_in arg.entry)) }
    {
        match arg {
            Arg::Long(name) => Ok(Some(OwnedFlag::Long(String::from_str(alloc, name)?))),
            Arg::Short(letter) => Ok(Some(OwnedFlag::Short(letter))),
            Arg::Value(_) => Ok(None),
        }
    }

    /// The option of a refused value.
    pub(crate) fn of(alloc: Global, option: Flag<'_>) -> Result<OwnedFlag, AllocError>
        ensures { IfOk result (λ flag. flag_seen flag ≡ flag_in option.entry) }
    {
        match option {
            Flag::Long(name) => Ok(OwnedFlag::Long(String::from_str(alloc, name)?)),
            Flag::Short(letter) => Ok(OwnedFlag::Short(letter)),
        }
    }

    /// The item that the option comes from.
    pub fn as_arg(&self) -> Arg<'_>
        ensures { cut_in result ≡ FlagCut (flag_seen self.now) }
    {
        match self {
            OwnedFlag::Long(name) => Arg::Long(name.as_str()),
            OwnedFlag::Short(letter) => Arg::Short(*letter),
        }
    }

    /// How messages show the usage of the option.
    fn usage(&self) -> Usage<'_> {
        match self {
            OwnedFlag::Long(name) => Usage::Long(name.as_str()),
            OwnedFlag::Short(letter) => Usage::Short(*letter),
        }
    }
}

impl fmt::Display for OwnedFlag {
    ghost use Rattle.std.specs.Prelude.{Some};

    ghost output = { λ flag. Some (flag_text (flag_seen flag)) };

    fn fmt<W: fmt::Write>(&self, f: &mut fmt::Formatter<W>) -> fmt::Result {
        let arg = self.as_arg();
        write!(f, "{arg}")
    }
}

/// The subcommand after `cargo hack`, if one was given.
#[derive(Drop)]
struct Behind<'a>(&'a Option<String>);

impl fmt::Display for Behind<'_> {
    fn fmt<W: fmt::Write>(&self, f: &mut fmt::Formatter<W>) -> fmt::Result {
        match self.0 {
            Some(subcommand) => write!(f, " {subcommand}"),
            None => Ok(()),
        }
    }
}

/// Why arguments can't be parsed into options.
#[derive(Debug, Drop, Error)]
pub enum CutFault {
    /// An option needs a value, and no argument is left.
    #[error("missing argument for option '{flag}'")]
    Missing {
        flag: OwnedFlag,
    },
    /// An option that takes no value has one attached.
    #[error("unexpected argument for option '{flag}': `{value}`")]
    Unexpected {
        flag: OwnedFlag,
        value: String,
    },
    /// An option that may be given once is repeated; `option` is the one that `flag` names, and
    /// `subcommand` the one that came before it, if any.
    #[error("The argument '{flag}' was provided more than once, but cannot be used multiple times\n\nUSAGE:\n    cargo hack{sub} {usage}\n\nFor more information try --help\n", sub = Behind(.subcommand), usage = .flag.usage())]
    Repeat {
        flag: OwnedFlag,
        option: Opt,
        subcommand: Option<String>,
    },
    /// A list of names is a single quote sign.
    #[error("argument for {flag} must not be a lone quote sign")]
    LoneQuote {
        flag: OwnedFlag,
    },
    /// `--workspace-behavior` has another form than `--workspace-behavior=cargo`.
    #[error("argument for --workspace-behavior must be cargo and in form of --workspace-behavior=cargo")]
    BehaviorForm,
    /// The option of this name was removed; `instead` replaces it.
    #[error("--{name} was removed, use {instead} instead")]
    Removed {
        name: String,
        instead: Opt,
    },
    /// The name resembles that of the option `meant`; `subcommand` is the one that came before, if
    /// any.
    #[error("Found argument '--{name}' which wasn't expected, or isn't valid in this context\n        Did you mean {meant}?\n\nUSAGE:\n    cargo hack{sub} {meant}\n\nFor more information try --help\n", sub = Behind(.subcommand))]
    Similar {
        name: String,
        meant: Opt,
        subcommand: Option<String>,
    },
    #[error("out of memory")]
    Memory,
}

impl From<AllocError> for CutFault {
    ghost use Rattle.hack_rules.specs.declared.uses.fault.CutFault.TheVariants.{Memory};

    ghost from_gives = { λ _ e. e ≡ Memory };

    fn from(_e: AllocError) -> CutFault {
        CutFault::Memory
    }
}

impl<T: Drop> From<AllocFailed<T>> for CutFault {
    ghost use Rattle.hack_rules.specs.declared.uses.fault.CutFault.TheVariants.{Memory};

    ghost from_gives = { λ _ e. e ≡ Memory };

    fn from(_e: AllocFailed<T>) -> CutFault {
        CutFault::from(AllocError)
    }
}
