//! What the operating system tells a program: its arguments, its variables and its folder. Code
//! works with any `System`: that of this process, or one in memory that tells what a test gave it.

ghost use Rattle.std.specs.Prelude.{◌≡◌, IfOk, None};
ghost use Rattle.hack_base.specs.Names.{optional_text};
ghost use Rattle.hack_recovery.specs.SystemView.{SystemView, argument_names, state_of};
ghost use Rattle.hack_recovery.specs.SystemView.{Unset};
ghost use Rattle.hack_recovery.specs.FakeSystemView.{view_of, settings_of, state_in};

use hack_base::copies::copies;
use std::alloc::{AllocError, Global};
use std::env::VarError;
use std::{env, io, rt};

/// An environment variable of some name.
#[derive(Debug, Drop)]
pub enum Variable {
    /// It is not set.
    Unset,
    /// It is set to this text, which may be empty.
    Text(String),
    /// It is set, but not to valid UTF-8.
    NotText,
}

/// What the operating system tells a program.
pub trait System {
    /// Whether the type says what is told, by `shown`.
    ghost tells: { Type 0 };

    /// What is told. It means something only where `tells` holds.
    ghost shown: { Self → SystemView };

    /// All arguments, the program's name first; `None` where one of them is not valid UTF-8.
    fn arguments(&self, alloc: Global) -> Result<Option<Vec<String>>, AllocError>
        ensures { IfOk result (λ all. tells
            → argument_names all ≡ (shown self.now).arguments) };

    /// The environment variable of this name.
    fn variable(&self, name: &str) -> Result<Variable, AllocError>
        ensures { IfOk result (λ variable. tells
            → state_of variable ≡ (shown self.now).variable name.now) };

    /// The current folder; `None` where it can't be read.
    fn current_dir(&self) -> Result<Option<String>, AllocError>
        ensures { IfOk result (λ folder. tells
            → optional_text folder ≡ (shown self.now).folder) };
}

/// What the operating system tells this process. No contract says what that is; tests check it.
#[derive(Drop)]
pub struct HostSystem<R: rt::Env + AllocGlobal + Drop> {
    rt: R,
}

impl<R: rt::Env + AllocGlobal + Drop> HostSystem<R> {
    /// The system that this handle of the runtime reaches.
    pub fn new(rt: R) -> Self
        ensures { result.rt ≡ rt }
    {
        HostSystem { rt }
    }
}

impl<R: rt::Env + AllocGlobal + Drop> System for HostSystem<R> {
    ghost tells = { ⊥ };

    ghost shown = { λ _. record { arguments = None; variable = λ _. Unset; folder = None } };

    fn arguments(&self, alloc: Global) -> Result<Option<Vec<String>>, AllocError> {
        match env::args(&self.rt) {
            Ok(all) => Ok(Some(all.collect(alloc)?)),
            Err(e) if e.kind() == io::ErrorKind::OutOfMemory => Err(AllocError),
            Err(_) => Ok(None),
        }
    }

    fn variable(&self, name: &str) -> Result<Variable, AllocError> {
        match env::var(&self.rt, name) {
            Ok(text) => Ok(Variable::Text(text)),
            Err(VarError::NotPresent) => Ok(Variable::Unset),
            Err(VarError::NotUnicode) => Ok(Variable::NotText),
            Err(VarError::OutOfMemory) => Err(AllocError),
        }
    }

    fn current_dir(&self) -> Result<Option<String>, AllocError> {
        match env::current_dir(&self.rt) {
            Ok(path) => Ok(Some(path.into_string())),
            Err(e) if e.kind() == io::ErrorKind::OutOfMemory => Err(AllocError),
            Err(_) => Ok(None),
        }
    }
}

/// A system in memory, for tests: it tells what a test gave it.
#[derive(Debug, Drop)]
pub struct FakeSystem {
    arguments: Option<Vec<String>>,
    variables: Vec<(String, Variable)>,
    folder: Option<String>,
}

impl FakeSystem {
    /// A system with these arguments, the program's name first, these variables, and this folder.
    /// Of two variables of one name the first counts, and one that has no entry is not set.
    pub fn new(
        arguments: Option<Vec<String>>,
        variables: Vec<(String, Variable)>,
        folder: Option<String>,
    ) -> Self
        ensures { view_of result ≡ record {
          arguments = argument_names arguments;
          variable = λ name. state_in name (settings_of variables.items);
          folder = optional_text folder;
        } }
    {
        FakeSystem {
            arguments,
            variables,
            folder,
        }
    }
}

impl System for FakeSystem {
    ghost tells = { Unit {0} };

    ghost shown = { view_of };

    fn arguments(&self, alloc: Global) -> Result<Option<Vec<String>>, AllocError> {
        match &self.arguments {
            Some(all) => Ok(Some(copies(alloc, all)?)),
            None => Ok(None),
        }
    }

    fn variable(&self, name: &str) -> Result<Variable, AllocError> {
        for (key, variable) in &self.variables {
            if key.as_str() == name {
                return variable.copy();
            }
        }
        Ok(Variable::Unset)
    }

    fn current_dir(&self) -> Result<Option<String>, AllocError> {
        match &self.folder {
            Some(folder) => Ok(Some(folder.clone()?)),
            None => Ok(None),
        }
    }
}

impl Variable {
    fn copy(&self) -> Result<Variable, AllocError>
        ensures { IfOk result (λ copy. state_of copy ≡ state_of self.now) }
    {
        match self {
            Variable::Unset => Ok(Variable::Unset),
            Variable::Text(text) => Ok(Variable::Text(text.clone()?)),
            Variable::NotText => Ok(Variable::NotText),
        }
    }
}
