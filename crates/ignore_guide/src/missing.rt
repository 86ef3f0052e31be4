//! What a host is still to be asked before a directory can be loaded.
//!
//! The load is tried over what was told. What wasn't told is noted, and taken for missing, and a file
//! of rules for an empty one, so that no file is parsed: a `.git` file and `commondir`, which lead on
//! to others, are the only ones whose bytes matter here. Where a listing shows that no repository
//! begins in a directory, its names alone say what is asked (`survey`).
ghost use Rattle.std.specs.Prelude.{◌≡◌, [], None, true, false, IfOk, option_map, string_bytes, ⊤};
ghost use Rattle.std.specs.Option.{MatchOption, option_copied};
ghost use Rattle.ignore_guide.specs.Asking.{AsksOutside, first_unread, is_answered, is_known, is_read, is_told, of_file};
ghost use Rattle.ignore_guide.specs.declared.missing.Wanted.TheVariants.{Canonical, File};

use crate::told::{Told, copied};
use ignore_base::Fault;
use ignore_base::text::file_name;
use ignore_dir::above::load_above;
use ignore_dir::load::load_directory;
use ignore_dir::{Ground, Outside, Settings};
use ignore_files::{Bytes, Contents, Env, Files, Identity, Listing, Metadata, Name, Refusal};
use ignore_rules::gitignore::gitconfig_excludes_path;
use std::alloc::{AllocError, Global};
use std::cell::RefCell;

/// What a host is asked of a path.
#[derive(Clone, Copy)]
pub enum Wanted {
    /// What it leads to, links followed.
    Kind,
    /// What it leads to, links followed, and what can be read of it, where that is a file.
    File,
    /// Its canonical path.
    Canonical,
}

/// What a host is asked.
#[derive(Drop)]
pub struct Question {
    /// What is asked of the path.
    pub wanted: Wanted,
    /// The path.
    pub path: Name,
}

/// What was told, and what wasn't and was asked.
#[derive(Drop)]
struct Search<'t> {
    told: &'t Told,
    /// Whether the bytes of each file matter.
    is_whole: bool,
    missing: RefCell<Vec<Question>>,
}

/// Whether one of some questions is of a path.
fn is_asked(questions: &[Question], path: &str) -> bool {
    for question in questions {
        if question.path.as_str() == path {
            return true;
        }
    }
    false
}

/// Adds a question, unless there is one of its path.
fn add(
    alloc: Global,
    questions: &mut Vec<Question>,
    wanted: Wanted,
    path: &str,
) -> Result<(), AllocError> {
    if is_asked(questions.as_slice(), path) {
        return Ok(());
    }
    let path = Name::from_str(alloc, path)?;
    questions.push(Question { wanted, path })?;
    Ok(())
}

/// What is asked of a path whose kind is asked: that alone, of the marks of repositories.
fn wanted_of(path: &str) -> Wanted {
    match file_name(path) {
        Some(".git") => Wanted::Kind,
        Some(".jj") => Wanted::Kind,
        _ => Wanted::File,
    }
}

/// Whether a file leads on to others.
fn leads_on(path: &str) -> bool {
    match file_name(path) {
        Some(".git") => true,
        Some("commondir") => true,
        _ => false,
    }
}

impl Search<'_> {
    fn note(&self, alloc: Global, wanted: Wanted, path: &str) -> Result<(), AllocError> {
        match self.missing.try_borrow_mut() {
            Ok(mut missing) => add(alloc, &mut *missing, wanted, path),
            Err(_) => Err(AllocError),
        }
    }
}

/// Nothing is stated of these answers: they only serve to find what is missing.
impl Files for Search<'_> {
    fn stat(&self, alloc: Global, path: &str, _follow: bool) -> Result<Metadata, Refusal> {
        if self.told.lacks(path) {
            return Err(Refusal::Fault(Fault::NotFound));
        }
        match self.told.kinds.get(path) {
            Some(Ok(metadata)) => Ok(*metadata),
            Some(Err(fault)) => Err(Refusal::Fault(*fault)),
            None => {
                self.note(alloc, wanted_of(path), path)?;
                Err(Refusal::Fault(Fault::NotFound))
            }
        }
    }

    fn list(&self, _alloc: Global, _path: &str) -> Result<Listing, Refusal> {
        Err(Refusal::Memory)
    }

    fn contents(&self, alloc: Global, path: &str) -> Result<Contents, Refusal> {
        match self.told.reads.get(path) {
            Some(Ok(contents)) => {
                if self.is_whole || leads_on(path) {
                    return Ok(copied(alloc, contents)?);
                }
                Ok(Contents {
                    bytes: Bytes::new(Vec::new(alloc)),
                    fault: None,
                })
            }
            Some(Err(fault)) => Err(Refusal::Fault(*fault)),
            None => {
                self.note(alloc, Wanted::File, path)?;
                Err(Refusal::Fault(Fault::NotFound))
            }
        }
    }

    fn canonical(&self, alloc: Global, path: &str) -> Result<Name, Refusal> {
        match self.told.paths.get(path) {
            Some(Ok(name)) => Ok(Name::from_str(alloc, name.as_str())?),
            Some(Err(fault)) => Err(Refusal::Fault(*fault)),
            None => {
                self.note(alloc, Wanted::Canonical, path)?;
                Err(Refusal::Fault(Fault::NotFound))
            }
        }
    }

    fn identity(
        &self,
        _alloc: Global,
        _path: &str,
        _follow: bool,
    ) -> Result<Option<Identity>, Refusal> {
        Err(Refusal::Memory)
    }
}

/// By what a directory is loaded.
#[derive(Clone, Copy)]
pub(crate) struct By<'g> {
    pub(crate) alloc: Global,
    pub(crate) settings: &'g Settings,
    pub(crate) outside: &'g Outside,
}

/// What is still to be asked before the directory at a path can be loaded.
pub(crate) fn missing_in(by: By<'_>, told: &Told, path: &str) -> Result<Vec<Question>, AllocError> {
    let search = Search {
        told,
        is_whole: false,
        missing: RefCell::new(Vec::new(by.alloc)),
    };
    let ground = Ground {
        alloc: by.alloc,
        files: &search,
        settings: by.settings,
        outside: by.outside,
    };
    load_directory(&ground, path)?;
    Ok(search.missing.into_inner())
}

/// What is still to be asked before a root can be loaded, and what is above it.
pub(crate) fn missing_at_root(
    by: By<'_>,
    told: &Told,
    root: &str,
) -> Result<Vec<Question>, AllocError> {
    let search = Search {
        told,
        is_whole: false,
        missing: RefCell::new(Vec::new(by.alloc)),
    };
    let ground = Ground {
        alloc: by.alloc,
        files: &search,
        settings: by.settings,
        outside: by.outside,
    };
    load_above(&ground, root)?;
    load_directory(&ground, root)?;
    Ok(search.missing.into_inner())
}

/// Whether it was told what can be read at a path.
fn is_read(told: &Told, path: &str) -> bool
    ensures { result ≡ is_read told.now path.now }
{
    match told.reads.get(path) {
        Some(_) => true,
        None => false,
    }
}

/// Whether it was told what a path leads to.
fn is_known(told: &Told, path: &str) -> bool
    ensures { result ≡ is_known told.now path.now }
{
    if told.lacks(path) {
        return true;
    }
    match told.kinds.get(path) {
        Some(_) => true,
        None => false,
    }
}

/// Whether a path's canonical one was told.
fn is_placed(told: &Told, path: &str) -> bool
    ensures { result ≡ is_answered Canonical told.now path.now }
{
    match told.paths.get(path) {
        Some(_) => true,
        None => false,
    }
}

/// Whether what a question asks was told.
fn is_told(told: &Told, question: &Question) -> bool
    ensures { result ≡ is_told told.now question.now }
{
    let path = question.path.as_str();
    match question.wanted {
        Wanted::Kind => is_known(told, path),
        Wanted::File => told.lacks(path) || (is_known(told, path) && is_read(told, path)),
        Wanted::Canonical => is_placed(told, path),
    }
}

/// Takes the last of some questions whose answer wasn't told, and those after it.
pub(crate) fn next_untold(told: &Told, questions: &mut Vec<Question>) -> Option<Question>
    ensures untold { MatchOption result ⊤ (λ q. is_told told.now q ≡ false) }
    ensures none { questions.old.items ≡ [] → result ≡ None }
{
    for _ in 0..questions.len() {
        let Some(question) = questions.pop() else {
            return None;
        };
        if !is_told(told, &question) {
            return Some(question);
        }
    }
    None
}

/// The question for the file at a path.
fn of_file(alloc: Global, path: &str) -> Result<Question, AllocError>
    ensures { IfOk result (λ q. q ≡ of_file path.now) }
{
    let path = Name::from_str(alloc, path)?;
    Ok(Question {
        wanted: Wanted::File,
        path,
    })
}

/// The first of some paths of which it wasn't told what can be read there.
fn first_unread<'p>(told: &Told, paths: &'p [Name]) -> Option<&'p Name>
    ensures { option_copied result ≡ first_unread told.now paths.now }
{
    told.reads.first_without(paths)
}

/// What is still to be asked next before the files of rules at some paths can be read: the first that
/// wasn't told. For dependents.
///
/// # Errors
/// Out of memory.
pub fn next_file(alloc: Global, told: &Told, paths: &[Name]) -> Result<Option<Question>, AllocError>
    ensures { IfOk result (λ q. q ≡ option_map of_file (first_unread told.now paths.now)) }
{
    match first_unread(told, paths) {
        None => Ok(None),
        Some(path) => Ok(Some(of_file(alloc, path.as_str())?)),
    }
}

/// A configuration of git that is read on the way to the global file, and that wasn't told.
fn next_configuration(alloc: Global, told: &Told, env: &Env) -> Result<Question, AllocError>
    ensures { IfOk result (λ q. (q.wanted ≡ File) × (is_read told.now q.path ≡ false)) }
{
    let search = Search {
        told,
        is_whole: true,
        missing: RefCell::new(Vec::new(alloc)),
    };
    if gitconfig_excludes_path(alloc, &search, env).is_err() {
        return Err(AllocError);
    }
    for question in search.missing.into_inner() {
        if !is_read(told, question.path.as_str()) {
            return Ok(Question {
                wanted: Wanted::File,
                path: question.path,
            });
        }
    }
    Err(AllocError)
}

/// The file at a path, where it wasn't told.
fn unless_read(told: &Told, path: String) -> Option<Question>
    ensures unread { MatchOption result (is_read told.now (string_bytes path) ≡ true) (λ q. (q ≡ of_file (string_bytes path)) × (is_read told.now (string_bytes path) ≡ false)) }
{
    if is_read(told, path.as_str()) {
        return None;
    }
    Some(Question {
        wanted: Wanted::File,
        path: Name::new(path),
    })
}

/// What is still to be asked next before git's global file can be read: a configuration that names
/// it, or the file, where that wasn't told. For dependents.
///
/// # Errors
/// Out of memory.
pub fn next_outside(alloc: Global, told: &Told, env: &Env) -> Result<Option<Question>, AllocError>
    ensures { IfOk result (λ q. AsksOutside told.now env.now q) }
{
    match gitconfig_excludes_path(alloc, told, env) {
        Ok(None) => Ok(None),
        Ok(Some(path)) => Ok(unless_read(told, path)),
        Err(_) => Ok(Some(next_configuration(alloc, told, env)?)),
    }
}
