//! The environment of a run, handed in; `Env::of_process` asks a process for it.
ghost use Rattle.std.specs.Prelude.{IfOk, IfErr, ◌≡◌, ◌≢◌, [], None, Some, string_bytes};
ghost use Rattle.ignore_base.specs.Problem.{problem_of, memory};
ghost use Rattle.ignore_files.specs.Variables.{IsValueOf, IsCurrentDir, IsToldBy, set_value};

use crate::process::Process;
use crate::types::Name;
use ignore_base::Error;
use std::alloc::AllocError;
use std::env::VarError;
use std::io;

/// What a run knows of its environment. `None` is a variable that isn't set, or an unknown
/// directory.
#[derive(Debug, Drop)]
pub struct Env {
    /// The working directory, in which relative paths begin.
    pub current_dir: Option<Name>,
    /// The user's home directory (`HOME`).
    pub home: Option<Name>,
    /// The folder of the user's configuration (`XDG_CONFIG_HOME`).
    pub xdg_config_home: Option<Name>,
    /// The file that git reads in place of the user's configuration (`GIT_CONFIG_GLOBAL`).
    pub git_config_global: Option<Name>,
    /// The file that git reads in place of the system's configuration (`GIT_CONFIG_SYSTEM`).
    pub git_config_system: Option<Name>,
}

impl Env {
    /// An environment of which nothing is known: no variable is set.
    pub fn empty() -> Env
        ensures { result ≡ record {
          current_dir = None;
          home = None;
          xdg_config_home = None;
          git_config_global = None;
          git_config_system = None;
        } }
    {
        Env {
            current_dir: None,
            home: None,
            xdg_config_home: None,
            git_config_global: None,
            git_config_system: None,
        }
    }

    /// The same environment with this working directory. It allocates nothing.
    pub fn with_current_dir(mut self, path: String) -> Env
        ensures { result ≡ record self { current_dir = Some (string_bytes path) } }
    {
        self.current_dir = Some(Name::new(path));
        self
    }

    /// The same environment with this home directory. It allocates nothing.
    pub fn with_home(mut self, path: String) -> Env
        ensures { result ≡ record self { home = Some (string_bytes path) } }
    {
        self.home = Some(Name::new(path));
        self
    }

    /// The same environment with this folder of the user's configuration. It allocates nothing.
    pub fn with_xdg_config_home(mut self, path: String) -> Env
        ensures { result ≡ record self { xdg_config_home = Some (string_bytes path) } }
    {
        self.xdg_config_home = Some(Name::new(path));
        self
    }

    /// The same environment with this file in place of the user's configuration. It allocates
    /// nothing.
    pub fn with_git_config_global(mut self, path: String) -> Env
        ensures { result ≡ record self { git_config_global = Some (string_bytes path) } }
    {
        self.git_config_global = Some(Name::new(path));
        self
    }

    /// The same environment with this file in place of the system's configuration. It allocates
    /// nothing.
    pub fn with_git_config_system(mut self, path: String) -> Env
        ensures { result ≡ record self { git_config_system = Some (string_bytes path) } }
    {
        self.git_config_system = Some(Name::new(path));
        self
    }

    /// The environment that a process reports, as one of std does through its runtime: the working
    /// directory and the variables `HOME`, `XDG_CONFIG_HOME`, `GIT_CONFIG_GLOBAL` and
    /// `GIT_CONFIG_SYSTEM`. What isn't UTF-8 counts as unknown, or as not set, and so does an empty
    /// `HOME` or `XDG_CONFIG_HOME`: else the folder that a run begins in would stand for the user's
    /// own.
    ///
    /// # Errors
    /// `Error::Memory` alone.
    pub fn of_process<P: Process>(process: &P) -> Result<Env, Error>
        ensures told { IfOk result (λ env. IsToldBy P.Process process.now env) }
        ensures filled { IfOk result (λ env. (env.home ≢ Some []) × (env.xdg_config_home ≢ Some [])) }
        ensures out_of_memory { IfErr result (λ e. problem_of e ≡ memory) }
    {
        let current_dir = current_dir(process)?;
        let home = filled(variable(process, "HOME")?);
        let xdg_config_home = filled(variable(process, "XDG_CONFIG_HOME")?);
        let git_config_global = variable(process, "GIT_CONFIG_GLOBAL")?;
        let git_config_system = variable(process, "GIT_CONFIG_SYSTEM")?;
        Ok(Env {
            current_dir,
            home,
            xdg_config_home,
            git_config_global,
            git_config_system,
        })
    }
}

/// The value of a variable, where it is set and UTF-8.
fn variable<P: Process>(process: &P, name: &str) -> Result<Option<Name>, AllocError>
    ensures { IfOk result (λ value. IsValueOf P.Process process.now name.now value) }
{
    match process.var(name) {
        Ok(text) => Ok(Some(Name::new(text))),
        Err(VarError::NotPresent) => Ok(None),
        Err(VarError::NotUnicode) => Ok(None),
        Err(VarError::OutOfMemory) => Err(AllocError),
    }
}

/// The value of a variable that is set and not empty.
fn filled(value: Option<Name>) -> Option<Name>
    ensures value { result ≡ set_value value }
    ensures filled { result ≢ Some [] }
{
    match value {
        None => None,
        Some(name) => {
            if name.as_str().is_empty() {
                None
            } else {
                Some(name)
            }
        }
    }
}

/// The path of the working directory, where it is known and UTF-8.
fn current_dir<P: Process>(process: &P) -> Result<Option<Name>, AllocError>
    ensures { IfOk result (λ dir. IsCurrentDir P.Process process.now dir) }
{
    match process.current_dir() {
        Ok(path) => Ok(Some(Name::new(path.into_string()))),
        Err(error) => match error.kind() {
            io::ErrorKind::OutOfMemory => Err(AllocError),
            _ => Ok(None),
        },
    }
}
