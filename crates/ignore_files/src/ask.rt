//! Asking a system, and reporting its errors.
ghost use Rattle.std.specs.Prelude.{◌≡◌, ◌↔◌, true, IsTrue, IsErrAnd, MatchResult};
ghost use Rattle.std.specs.IoError.{error_kind, raw_os_error};
ghost use Rattle.std.specs.declared.io.ErrorKind.TheVariants.{Interrupted};
ghost use Rattle.ignore_files.specs.Reported.{refusal_of, reported_error, IsNotFound, IsReportedAs};
ghost use Rattle.ignore_files.specs.Heard.{has_nul, IsHeard};

use crate::types::{FileType, Refusal};
use ignore_base::Fault;
use std::alloc::AllocError;
use std::{fs, io};

/// As what an error of the system is reported.
pub fn refusal_of(error: io::Error) -> Refusal
    ensures { result ≡ reported_error error }
{
    match error.kind() {
        io::ErrorKind::NotFound => Refusal::Fault(Fault::NotFound),
        io::ErrorKind::PermissionDenied => Refusal::Fault(Fault::PermissionDenied),
        io::ErrorKind::NotADirectory => Refusal::Fault(Fault::NotADirectory),
        io::ErrorKind::IsADirectory => Refusal::Fault(Fault::IsADirectory),
        io::ErrorKind::InvalidData => Refusal::Fault(Fault::InvalidData),
        io::ErrorKind::InvalidFilename if error.raw_os_error().is_none() => {
            Refusal::Fault(Fault::BadName)
        }
        io::ErrorKind::FilesystemLoop => Refusal::Fault(Fault::LinkLimit),
        io::ErrorKind::OutOfMemory => Refusal::Memory,
        io::ErrorKind::Interrupted => Refusal::Memory,
        _ => Refusal::Fault(Fault::Other),
    }
}

/// A fault that stands in the answer; a failed allocation ends the call.
pub fn fault_of(error: io::Error) -> Result<Fault, AllocError>
    ensures { MatchResult result (λ fault. reported_error error ≡ Refusal.Fault fault) (λ _. reported_error error ≡ Refusal.Memory) }
{
    match refusal_of(error) {
        Refusal::Fault(fault) => Ok(fault),
        Refusal::Memory => Err(AllocError),
    }
}

/// As what kind a type of the system is reported.
pub fn kind_of(kind: fs::FileType) -> FileType
    ensures { IsReportedAs kind result }
{
    if kind.is_dir() {
        FileType::Dir
    } else if kind.is_file() {
        FileType::File
    } else if kind.is_symlink() {
        FileType::Symlink
    } else {
        FileType::Other
    }
}

/// Whether a signal interrupted the system before it answered.
pub fn is_interrupted<T>(answer: &io::Result<T>) -> bool
    ensures { IsTrue result ↔ IsErrAnd answer.now (λ error. error_kind error ≡ Interrupted) }
{
    match answer {
        Ok(_) => false,
        Err(error) => error.kind() == io::ErrorKind::Interrupted,
    }
}

/// Whether nothing was found.
pub fn is_not_found(error: &io::Error) -> bool
    ensures { IsTrue result ↔ IsNotFound error.now }
{
    error.kind() == io::ErrorKind::NotFound
}

/// Asks, and asks again where a signal interrupted the system.
pub fn ask<T: Drop, F: Fn() -> io::Result<T>>(question: F) -> io::Result<T>
where
    F: Drop,
    requires { F.IsAlwaysCallable question }
    ensures { F.post question result }
{
    for _ in 0..u64::MAX {
        let answer = question();
        if !is_interrupted(&answer) {
            return answer;
        }
    }
    question()
}

/// Asks about a path, unless it has a NUL, since nothing is at such a path.
pub fn ask_at<T: Drop, F: Fn() -> io::Result<T>>(path: &str, question: F) -> Result<T, Refusal>
where
    F: Drop,
    requires { F.IsAlwaysCallable question }
    ensures { IsHeard path.now (F.post question) result }
{
    if path.as_bytes().contains(&0) {
        return Err(Refusal::Fault(Fault::NotFound));
    }
    match ask(question) {
        Ok(answer) => Ok(answer),
        Err(error) => Err(refusal_of(error)),
    }
}
