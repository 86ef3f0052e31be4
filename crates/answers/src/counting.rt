//! Files that keep which calls were made of them.

use ignore_files::{
    Contents, Env, FileType, Files, Identity, Listed, Listing, Metadata, Name, Refusal,
};
use std::alloc::{AllocError, Global};
use std::cell::Cell;

/// A call of `Files`.
#[derive(Clone, Copy, PartialEq, Eq, Drop)]
pub enum Asked {
    /// `stat`, `identity` or `canonical`.
    Kind,
    /// `list`.
    Entries,
    /// `contents`.
    Contents,
}

/// A call and its path.
#[derive(Drop)]
pub(crate) struct Made {
    pub(crate) asked: Asked,
    pub(crate) path: String,
}

/// The calls that were made, and what their answers show.
#[derive(Drop)]
pub struct Calls {
    pub(crate) made: Vec<Made>,
    /// The directories above the canonical paths that were asked for, each once.
    pub(crate) above: Vec<String>,
    /// How many directories were listed as entries.
    pub(crate) dirs: u64,
    /// How many other entries were listed.
    pub(crate) others: u64,
    /// How many of those are links.
    pub(crate) links: u64,
    /// For each of these links, how many directories were listed on the way to it.
    pub(crate) around_links: u64,
}

impl Calls {
    /// None.
    pub fn new(alloc: Global) -> Calls {
        Calls {
            made: Vec::new(alloc),
            above: Vec::new(alloc),
            dirs: 0,
            others: 0,
            links: 0,
            around_links: 0,
        }
    }

    /// How many there are.
    pub fn len(&self) -> usize {
        self.made.len()
    }

    /// That a call for the rules from outside was made of a path too often, if one was: of each once,
    /// and once more for each variable that names it as a configuration of git's.
    pub fn excess_outside(&self, env: &Env) -> Option<&'static str> {
        for call in &self.made {
            let path = call.path.as_str();
            let named = is_named(&env.git_config_global, path) as u64;
            let most = named.saturating_add(is_named(&env.git_config_system, path) as u64);
            if self.times(call.asked, path) > most.saturating_add(1) {
                return Some("what is outside is asked again");
            }
        }
        None
    }

    /// Whether there is one of a path below a directory, other than for the exclude file of the
    /// repository around it.
    pub fn has_below(&self, dir: &str) -> bool {
        for call in &self.made {
            let path = call.path.as_str();
            if path != dir && holds(dir, path) && !is_of_git(path) {
                return true;
            }
        }
        false
    }

    /// Appends those that were made later.
    pub fn append(&mut self, later: Calls) -> Result<(), AllocError> {
        for call in later.made {
            self.made.push(call)?;
        }
        for dir in later.above {
            push_new(&mut self.above, dir)?;
        }
        Ok(())
    }

    /// Whether a directory was listed, by its path with or without a slash at its end.
    pub(crate) fn has_listed(&self, dir: &str) -> bool {
        for call in &self.made {
            if call.asked == Asked::Entries && trimmed(call.path.as_str()) == trimmed(dir) {
                return true;
            }
        }
        false
    }

    /// How often a call was made.
    pub(crate) fn count(&self, asked: Asked) -> u64 {
        let mut count = 0u64;
        for call in &self.made {
            if call.asked == asked {
                count = count.saturating_add(1);
            }
        }
        count
    }

    /// How often a call was made of a path.
    pub(crate) fn times(&self, asked: Asked, path: &str) -> u64 {
        let mut times = 0u64;
        for call in &self.made {
            if call.asked == asked && call.path.as_str() == path {
                times = times.saturating_add(1);
            }
        }
        times
    }

    fn note(&mut self, alloc: Global, asked: Asked, path: &str) -> Result<(), AllocError> {
        let path = String::from_str(alloc, path)?;
        self.made.push(Made { asked, path })?;
        Ok(())
    }

    fn note_names(&mut self, dir: &str, listing: &Listing) {
        let around = self.listed_around(dir);
        for listed in listing.as_slice() {
            if let Listed::Entry { file_type, .. } = listed {
                self.note_kind(*file_type, around);
            }
        }
    }

    fn note_kind(&mut self, kind: FileType, around: u64) {
        if kind == FileType::Dir {
            self.dirs = self.dirs.saturating_add(1);
            return;
        }
        self.others = self.others.saturating_add(1);
        if kind == FileType::Symlink {
            self.links = self.links.saturating_add(1);
            self.around_links = self.around_links.saturating_add(around);
        }
    }

    /// How many of the directories that were listed are a directory, or above it.
    fn listed_around(&self, dir: &str) -> u64 {
        let mut around = 0u64;
        for call in &self.made {
            if call.asked == Asked::Entries && holds(call.path.as_str(), dir) {
                around = around.saturating_add(1);
            }
        }
        around
    }

    /// Notes the directories above a canonical path.
    fn note_above(&mut self, alloc: Global, path: &str) -> Result<(), AllocError> {
        for (at, _) in path.match_indices('/') {
            let dir = if at == 0 { "/" } else { &path[..at] };
            if path != "/" {
                push_new(&mut self.above, String::from_str(alloc, dir)?)?;
            }
        }
        Ok(())
    }
}

/// Appends a text, unless it is there.
pub(crate) fn push_new(texts: &mut Vec<String>, text: String) -> Result<(), AllocError> {
    for other in &*texts {
        if other.as_str() == text.as_str() {
            return Ok(());
        }
    }
    texts.push(text)?;
    Ok(())
}

/// Files that keep which calls were made of them.
#[derive(Drop)]
pub struct Counting<'t, F> {
    files: &'t F,
    calls: Cell<Calls>,
}

impl<'t, F: Files> Counting<'t, F> {
    /// These files, of which no call was made.
    pub fn new(alloc: Global, files: &'t F) -> Counting<'t, F> {
        Counting {
            files,
            calls: Cell::new(Calls::new(alloc)),
        }
    }

    /// The calls that were made since this was asked last.
    pub fn taken(&self, alloc: Global) -> Calls {
        self.calls.replace(Calls::new(alloc))
    }

    /// Forgets the calls that were made: they are made again, since memory ran out.
    pub fn forget(&self, alloc: Global) {
        self.calls.set(Calls::new(alloc));
    }

    /// Notes a call. It returns whether memory sufficed.
    fn note(&self, alloc: Global, asked: Asked, path: &str) -> bool {
        let mut calls = self.taken(alloc);
        let noted = calls.note(alloc, asked, path);
        self.calls.set(calls);
        noted.is_ok()
    }

    /// Notes what is listed, if a directory was.
    fn note_names(&self, alloc: Global, dir: &str, answer: &Result<Listing, Refusal>) {
        if let Ok(listing) = answer {
            let mut calls = self.taken(alloc);
            calls.note_names(dir, listing);
            self.calls.set(calls);
        }
    }

    /// Notes the directories above a canonical path, if it was found. It returns whether memory
    /// sufficed.
    fn note_answer(&self, alloc: Global, answer: &Result<Name, Refusal>) -> bool {
        match answer {
            Ok(name) => self.note_above(alloc, name.as_str()),
            Err(_) => true,
        }
    }

    fn note_above(&self, alloc: Global, path: &str) -> bool {
        let mut calls = self.taken(alloc);
        let noted = calls.note_above(alloc, path);
        self.calls.set(calls);
        noted.is_ok()
    }
}

/// They give the answers of those files, or are out of memory.
impl<F: Files> Files for Counting<'_, F> {
    ghost use Rattle.std.specs.Prelude.{◌≡◌, ◌⊎◌, Err};
    ghost use Rattle.ignore_files.specs.declared.types.Refusal.TheVariants.{Memory};

    ghost stat_gives = { λ c path follow r. F.stat_gives c.files.now path follow r ⊎ (r ≡ Err Memory) };

    ghost list_gives = { λ c path r. F.list_gives c.files.now path r ⊎ (r ≡ Err Memory) };

    ghost contents_gives = { λ c path r. F.contents_gives c.files.now path r ⊎ (r ≡ Err Memory) };

    ghost canonical_gives = { λ c path r. F.canonical_gives c.files.now path r ⊎ (r ≡ Err Memory) };

    ghost identity_gives = { λ c path follow r. F.identity_gives c.files.now path follow r ⊎ (r ≡ Err Memory) };

    fn stat(&self, alloc: Global, path: &str, follow: bool) -> Result<Metadata, Refusal> {
        if !self.note(alloc, Asked::Kind, path) {
            return Err(Refusal::Memory);
        }
        self.files.stat(alloc, path, follow)
    }

    fn list(&self, alloc: Global, path: &str) -> Result<Listing, Refusal> {
        if !self.note(alloc, Asked::Entries, path) {
            return Err(Refusal::Memory);
        }
        let answer = self.files.list(alloc, path);
        self.note_names(alloc, path, &answer);
        answer
    }

    fn contents(&self, alloc: Global, path: &str) -> Result<Contents, Refusal> {
        if !self.note(alloc, Asked::Contents, path) {
            return Err(Refusal::Memory);
        }
        self.files.contents(alloc, path)
    }

    fn canonical(&self, alloc: Global, path: &str) -> Result<Name, Refusal> {
        if !self.note(alloc, Asked::Kind, path) {
            return Err(Refusal::Memory);
        }
        let answer = self.files.canonical(alloc, path);
        if self.note_answer(alloc, &answer) {
            answer
        } else {
            Err(Refusal::Memory)
        }
    }

    fn identity(
        &self,
        alloc: Global,
        path: &str,
        follow: bool,
    ) -> Result<Option<Identity>, Refusal> {
        if !self.note(alloc, Asked::Kind, path) {
            return Err(Refusal::Memory);
        }
        self.files.identity(alloc, path, follow)
    }

    fn listings_are_whole(&self) -> bool {
        self.files.listings_are_whole()
    }
}

/// Whether a variable has this path.
fn is_named(variable: &Option<Name>, path: &str) -> bool {
    match variable {
        Some(name) => name.as_str() == path,
        None => false,
    }
}

/// The last component of a path.
pub(crate) fn last_name(path: &str) -> &str {
    match path.rsplit_once('/') {
        Some((_, name)) => name,
        None => path,
    }
}

/// Whether a path is on the way to an exclude file: in a `.git`, or where one leads.
pub(crate) fn is_of_git(path: &str) -> bool {
    path.contains(".git/") || matches!(last_name(path), "commondir" | "exclude")
}

/// A path without the slashes at its end; of slashes alone one is left.
pub(crate) fn trimmed(path: &str) -> &str {
    let front = path.trim_end_matches('/');
    if front.is_empty() && !path.is_empty() {
        "/"
    } else {
        front
    }
}

/// Whether a path is that of a root, or below it.
pub(crate) fn holds(root: &str, path: &str) -> bool {
    let root = trimmed(root);
    match path.strip_prefix(root) {
        Some(rest) => {
            rest.is_empty() || rest.starts_with('/') || root.is_empty() || root.ends_with('/')
        }
        None => false,
    }
}
