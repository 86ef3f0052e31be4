//! The questions that are put to a process about its environment.
ghost use Rattle.std.specs.Prelude.{string_bytes, MatchResult, Ok, Err};
ghost use Rattle.std.specs.Path.{path_buf_bytes};

use std::env::VarError;
use std::path::PathBuf;
use std::{env, io, rt};

/// What a process is asked about its environment, in the terms of std, and what it may answer.
///
/// A contract sees, for each call, a relation between the value, the call and an answer that the
/// call may give. At a runtime of std both relations allow every answer, since std states nothing
/// of the environment.
pub trait Process {
    ghost use Rattle.std.specs.Prelude.{Result, ⊤};
    ghost use Rattle.std.specs.declared.io.Error.{Error};
    ghost use Rattle.std.specs.declared.env.VarError.{VarError};
    ghost use Rattle.ignore_base.specs.Text.{Bytes, Path};

    ghost var_gives: { Self → Bytes → Result Bytes VarError → Type 0 } = { λ _ _ _. ⊤ };

    ghost current_dir_gives: { Self → Result Path Error → Type 0 } = { λ _ _. ⊤ };

    /// The value of the variable with this name.
    fn var(&self, name: &str) -> Result<String, VarError>
        ensures { MatchResult result
            (λ value. var_gives self.now name.now (Ok (string_bytes value)))
            (λ error. var_gives self.now name.now (Err error)) };

    /// The path of the working directory.
    fn current_dir(&self) -> io::Result<PathBuf>
        ensures { MatchResult result
            (λ path. current_dir_gives self.now (Ok (path_buf_bytes path)))
            (λ error. current_dir_gives self.now (Err error)) };
}

impl<R> Process for R
where
    R: rt::Env + AllocGlobal,
{
    fn var(&self, name: &str) -> Result<String, VarError> {
        env::var(self, name)
    }

    fn current_dir(&self) -> io::Result<PathBuf> {
        env::current_dir(self)
    }
}
