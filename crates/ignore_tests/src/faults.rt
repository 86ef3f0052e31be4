//! Files of which each call has the same fault, for each fault that there is.
use ignore_base::Error;
use ignore_files::{Contents, Env, Fault, Files, Identity, Listing, Metadata, Name, Refusal};
use ignore_rules::gitignore::{Gitignore, GitignoreBuilder, gitconfig_excludes_path};
use std::alloc::{AllocError, Global};
use std::test::Fail;

/// Files of which each call has this fault.
#[derive(Drop)]
struct Faulty(Fault);

impl Files for Faulty {
    fn stat(&self, _alloc: Global, _path: &str, _follow: bool) -> Result<Metadata, Refusal> {
        Err(Refusal::Fault(self.0))
    }

    fn list(&self, _alloc: Global, _path: &str) -> Result<Listing, Refusal> {
        Err(Refusal::Fault(self.0))
    }

    fn contents(&self, _alloc: Global, _path: &str) -> Result<Contents, Refusal> {
        Err(Refusal::Fault(self.0))
    }

    fn canonical(&self, _alloc: Global, _path: &str) -> Result<Name, Refusal> {
        Err(Refusal::Fault(self.0))
    }

    fn identity(
        &self,
        _alloc: Global,
        _path: &str,
        _follow: bool,
    ) -> Result<Option<Identity>, Refusal> {
        Err(Refusal::Fault(self.0))
    }
}

const FAULTS: [Fault; 12] = [
    Fault::NotFound,
    Fault::PermissionDenied,
    Fault::NotADirectory,
    Fault::IsADirectory,
    Fault::InvalidData,
    Fault::BadName,
    Fault::LinkLimit,
    Fault::NoIdentity,
    Fault::NoCurrentDir,
    Fault::StepLimit,
    Fault::NoMetadata,
    Fault::Other,
];

/// An environment of which the working directory and the home directory are known.
fn at_home(alloc: Global) -> Result<Env, AllocError> {
    let dir = String::from_str(alloc, "/c")?;
    let home = String::from_str(alloc, "/h")?;
    Ok(Env::empty().with_current_dir(dir).with_home(home))
}

/// Where the search for the excludes file leads.
fn searched(alloc: Global, fault: Fault) -> Result<Option<String>, Error> {
    gitconfig_excludes_path(alloc, &Faulty(fault), &at_home(alloc)?)
}

/// Whether that is the place where the file is without any configuration.
fn is_default(alloc: Global, fault: Fault) -> Result<bool, Error> {
    Ok(searched(alloc, fault)?.as_deref() == Some("/h/.config/git/ignore"))
}

#[test]
fn a_configuration_with_any_fault_gives_nothing(rt: HostRuntime) -> Result<(), Fail> {
    for fault in FAULTS {
        assert!(rt; is_default(rt.alloc(), fault)?, "{fault}");
    }
    Ok(())
}

/// How many rules a matcher has, and whether an error is reported of its file.
fn outcome(answer: (Gitignore, Option<Error>)) -> (usize, bool) {
    (answer.0.len(), answer.1.is_some())
}

/// The matcher of one file.
fn of_file(alloc: Global, fault: Fault) -> Result<(usize, bool), Error> {
    Ok(outcome(Gitignore::new(alloc, &Faulty(fault), "/e")?))
}

/// The matcher of the global file, in an environment.
fn global_in(alloc: Global, fault: Fault, env: &Env) -> Result<(usize, bool), Error> {
    Ok(outcome(Gitignore::global(alloc, &Faulty(fault), env)?))
}

/// The matcher of the global file.
fn global(alloc: Global, fault: Fault) -> Result<(usize, bool), Error> {
    global_in(alloc, fault, &at_home(alloc)?)
}

#[test]
fn files_with_any_fault_give_no_rules_and_no_error(rt: HostRuntime) -> Result<(), Fail> {
    for fault in FAULTS {
        assert_eq!(rt; of_file(rt.alloc(), fault)?, (0, false));
        assert_eq!(rt; global(rt.alloc(), fault)?, (0, false));
    }
    Ok(())
}

/// What is reported of a file that is added.
fn reported(alloc: Global, fault: Fault) -> Result<String, Fail> {
    let mut builder = GitignoreBuilder::new(alloc, "/r")?;
    match builder.add(&Faulty(fault), "/e")? {
        Some(error) => Ok(format!(in alloc; "{error}")?),
        None => Ok(String::new(alloc)),
    }
}

#[test]
fn a_file_with_any_fault_is_reported_with_it(rt: HostRuntime) -> Result<(), Fail> {
    for fault in FAULTS {
        let wanted = format!(in rt.alloc(); "/e: {fault}")?;
        assert_eq!(rt; reported(rt.alloc(), fault)?, wanted);
    }
    Ok(())
}
