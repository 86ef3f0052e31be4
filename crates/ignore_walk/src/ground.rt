//! What stays the same in a walk, and what it makes of one entry.
ghost use Rattle.std.specs.Prelude.{◌≡◌, ◌++◌, ◌∷◌, ◌||◌, [], ℕ, List, None, Ok, true, false, length, not, option_map, reverse, IfErr, IfOk};
ghost use Rattle.ignore_base.specs.Problem.{problem_of};
ghost use Rattle.ignore_dir.specs.Above.{canonical_names, kept_above, names_above};
ghost use Rattle.ignore_dir.specs.Limits as limits;
ghost use Rattle.ignore_dir.specs.Query as queries;
ghost use Rattle.ignore_dir.specs.Soft.{IsSoft};
ghost use Rattle.ignore_levels.specs.Levels.{IsChain, counting, slots_of};
ghost use Rattle.ignore_walk.specs.Below.{IsThing};
ghost use Rattle.ignore_walk.specs.Branch.{Branch, path_of, placed_to, text_at};
ghost use Rattle.ignore_walk.specs.Child as children;
ghost use Rattle.ignore_walk.specs.Entry.{entry_of, problem_in};
ghost use Rattle.ignore_walk.specs.Fates.{fate_of, differ};
ghost use Rattle.ignore_walk.specs.Found.{IsFound};
ghost use Rattle.ignore_walk.specs.Frames.{AreFrames, device_of};
ghost use Rattle.ignore_walk.specs.GoesOn.{is_fatal};
ghost use Rattle.ignore_walk.specs.Opens.{Opens};
ghost use Rattle.ignore_walk.specs.Paces.{IsListed};
ghost use Rattle.ignore_walk.specs.Scene.{Scene};
ghost use Rattle.ignore_walk.specs.Suits.{IsGroundOf, Suits};
ghost use Rattle.ignore_walk.specs.Walked as walked;
ghost use Rattle.ignore_walk.specs.Whole as wholes;
ghost use Rattle.ignore_walk.specs.declared.frame.Frame.{Frame as Entered};

use crate::callbacks::{Callbacks, Options};
use crate::child::{checked, depth_below, fault_at, found, last_path};
use crate::entry::DirEntry;
use crate::found::Found;
use crate::frame::Frame;
use crate::open::{Opened, loaded, open};
use crate::root::{on_device, root_found};
use crate::skip::{is_ignored, is_too_large};
use ignore_base::Error;
use ignore_base::internal::join;
use ignore_dir::above::{kept_above, needs_above};
use ignore_dir::limits::is_deepest;
use ignore_dir::{Dir, Outside, Settings};
use ignore_files::internal::answered;
use ignore_files::{Files, Listed, Name};
use ignore_levels::{Levels, Place};
use std::alloc::{AllocError, Global};

/// What stays the same in a walk.
#[derive(Drop)]
pub struct Ground<'a, F: Files, S> {
    /// The allocator.
    pub alloc: Global,
    /// The files.
    pub files: &'a F,
    /// What keeps the filter and the comparator.
    pub owner: S,
    /// The settings by which directories are loaded and paths are matched.
    pub settings: Settings,
    /// The rules from outside of the directories.
    pub outside: Outside,
    /// The settings besides those.
    pub options: Options,
}

/// What becomes of an entry that isn't skipped.
#[derive(Clone, Copy)]
pub(crate) enum Fate {
    /// It is yielded.
    Yield,
    /// It is loaded and yielded, and not listed: a directory on another device.
    Load,
    /// It is loaded and yielded, and then what it lists.
    Enter,
}

/// Whether nothing below an entry is yielded: whether it leads into no directory, or is at the
/// greatest depth.
fn is_leaf(max_depth: Option<usize>, depth: usize, leads_in: bool) -> bool
    ensures { result ≡ not leads_in || limits.is_deepest max_depth depth }
{
    !leads_in || is_deepest(max_depth, depth)
}

/// Whether two devices are known and differ.
fn differ(a: Option<u64>, b: Option<u64>) -> bool
    ensures { result ≡ differ a b }
{
    match a {
        None => false,
        Some(a) => match b {
            None => false,
            Some(b) => a != b,
        },
    }
}

/// A copy of a path.
fn named(alloc: Global, path: &str) -> Result<Name, AllocError>
    ensures { IfOk result (λ n. n ≡ path.now) }
{
    Ok(Name::new(String::from_str(alloc, path)?))
}

impl<'a, F: Files, S: Callbacks> Ground<'a, F, S> {
    /// What directories are loaded and paths are judged by.
    fn lent(&self) -> ignore_dir::Ground<'_, F>
        ensures suits { (g : Scene)
            → IsGroundOf F.Files S.Callbacks self.now g
            → Suits F.Files S.Callbacks result.files.now self.now.owner result.settings.now result.outside.now self.now.options g }
        ensures files { result.files.now ≡ self.now.files.now }
    {
        ignore_dir::Ground {
            alloc: self.alloc,
            files: self.files,
            settings: &self.settings,
            outside: &self.outside,
        }
    }

    /// What becomes of what was found and isn't skipped. `device` is that of its root.
    pub(crate) fn fate(&self, device: Option<u64>, found: &Found, leads_in: bool) -> Fate
        ensures value { (g : Scene) (root : List ℕ) (b : Branch)
            → IsGroundOf F.Files S.Callbacks self.now g
            → (leads_in ≡ true → device ≡ device_of g root)
            → (leads_in ≡ true → found.now.device ≡ device_of g (entry_of found.now.entry).path)
            → leads_in ≡ walked.leads_in g b (entry_of found.now.entry)
            → walked.is_skipped g root b (entry_of found.now.entry) ≡ false
            → walked.fate g root b (entry_of found.now.entry) ≡ fate_of result }
    {
        if is_leaf(self.settings.max_depth, found.entry.depth(), leads_in) {
            return Fate::Yield;
        }
        if differ(device, found.device) {
            return Fate::Load;
        }
        Fate::Enter
    }

    /// What is wrong with the files of rules of a directory.
    pub(crate) fn load_error(&self, path: &str) -> Result<Option<Error>, AllocError>
        ensures value { (g : Scene)
            → IsGroundOf F.Files S.Callbacks self.now g
            → IfOk result (λ e. option_map problem_of e ≡ (g.loads path.now).1) }
        ensures soft { IfOk result (λ e. IsSoft (option_map problem_of e)) }
    {
        let (_, error) = loaded(&self.lent(), path)?;
        Ok(error)
    }

    /// Loads and lists a directory. `text` is its path as the directories around it see it.
    pub(crate) fn opened(&self, path: &str, text: Name) -> Result<Opened, AllocError>
        ensures value { (g : Scene)
            → IsGroundOf F.Files S.Callbacks self.now g
            → IfOk result (λ o. Opens g path.now text o) }
        ensures soft { IfOk result (λ o. IsSoft (option_map problem_of o.error)) }
        ensures path { IfOk result (λ o. o.directory.path ≡ path.now) }
        ensures listed { IfOk result (λ o. IsListed (F.list_gives self.now.files.now) o.directory.path o.directory.rest.items) }
    {
        let path = named(self.alloc, path)?;
        let order = self.options.order;
        let opened = open(&self.lent(), &self.owner, order, path, text)?;
        Ok(opened)
    }

    /// Whether an entry below a root is skipped, by the place of the directories around it. `text`
    /// is its path as they see it.
    pub(crate) fn is_skipped(
        &self,
        levels: &Levels,
        place: Option<Place>,
        text: &str,
        entry: &DirEntry,
    ) -> Result<bool, AllocError>
        ensures value { (g : Scene) (root : List ℕ) (b : Branch) (name : List ℕ)
            → IsGroundOf F.Files S.Callbacks self.now g
            → IsChain (slots_of levels.now) place (counting (placed_to g root b)) → text.now ≡ text_at g root b ++ name
            → (entry_of entry.now).path ≡ path_of root (name ∷ b) → problem_in entry.now ≡ None
            → IfOk result (λ yes. yes ≡ walked.is_skipped g root (name ∷ b) (entry_of entry.now)) }
    {
        if is_ignored(&self.lent(), levels, place, text, entry)? {
            return Ok(true);
        }
        if is_too_large(self.alloc, self.files, &self.settings, entry)? {
            return Ok(true);
        }
        Ok(!self.owner.filter(entry))
    }

    /// What a listed thing is, in the directory that was entered last.
    pub(crate) fn child(
        &self,
        frames: &[Frame],
        listed: Listed,
    ) -> Result<Result<Found, Error>, AllocError>
        ensures value { (g : Scene) (root : List ℕ) (b : Branch)
            → IsGroundOf F.Files S.Callbacks self.now g
            → AreFrames g root b (reverse frames.now)
            → IfOk result (λ found. IsFound g (λ e. children.is_dir_kind e.kind) found (children.child g root b listed)) }
        ensures at { (around : List Entered) (dir : Entered) → frames.now ≡ around ++ dir ∷ []
            → IfOk result (λ found. IfOk found (λ f. IsThing dir.path (length frames.now) listed (entry_of f.entry))) }
        ensures no_end { IfOk result (λ found. IfErr found (λ e. is_fatal (problem_of e) ≡ false)) }
    {
        let depth = depth_below(frames);
        match listed {
            Listed::Entry { name, file_type } => {
                let path = join(self.alloc, last_path(frames), name.as_str())?;
                let item = found(&self.lent(), path, depth, file_type)?;
                let same = self.options.same_file_system;
                checked(self.alloc, self.files, same, frames, item)
            }
            Listed::Fault(fault) => Ok(Err(fault_at(self.alloc, depth, fault)?)),
        }
    }

    /// What is found at a root.
    pub(crate) fn root_entry(
        &self,
        is_dir: bool,
        root: &str,
    ) -> Result<Result<Found, Error>, AllocError>
        ensures value { (g : Scene)
            → IsGroundOf F.Files S.Callbacks self.now g
            → is_dir ≡ queries.is_dir_there (g.tree.stat root.now true)
            → IfOk result (λ found. IsFound g (λ _. is_dir) found (wholes.root_entry g root.now)) }
        ensures at { IfOk result (λ found. IfOk found (λ f. ((entry_of f.entry).path ≡ root.now) × ((entry_of f.entry).depth ≡ 0))) }
        ensures no_end { IfOk result (λ found. IfErr found (λ e. is_fatal (problem_of e) ≡ false)) }
    {
        let item = root_found(self.alloc, self.files, self.settings.follow_links, root)?;
        let same = self.options.same_file_system;
        on_device(self.alloc, self.files, same, is_dir, item)
    }

    /// The canonical path of a root; `/` where what is above it isn't asked for, and where the path
    /// isn't known.
    pub(crate) fn canonical(&self, root: &str) -> Result<Name, AllocError>
        ensures value { (g : Scene)
            → IsGroundOf F.Files S.Callbacks self.now g
            → IfOk result (λ path. canonical_names (Ok path) ≡ names_above g.tree g.settings root.now) }
    {
        if !needs_above(&self.settings) {
            return named(self.alloc, "/");
        }
        match answered(self.files.canonical(self.alloc, root))? {
            Ok(path) => Ok(path),
            Err(_) => named(self.alloc, "/"),
        }
    }

    /// What counts of a directory above a root, and what is wrong with its files.
    pub(crate) fn above(&self, path: &str) -> Result<(Dir, Option<Error>), AllocError>
        ensures dir { (g : Scene)
            → IsGroundOf F.Files S.Callbacks self.now g
            → IfOk result (λ r. r.0 ≡ kept_above g.settings (g.loads path.now).0) }
        ensures problem { (g : Scene)
            → IsGroundOf F.Files S.Callbacks self.now g
            → IfOk result (λ r. option_map problem_of r.1 ≡ (g.loads path.now).1) }
        ensures soft { IfOk result (λ r. IsSoft (option_map problem_of r.1)) }
    {
        let (dir, error) = loaded(&self.lent(), path)?;
        Ok((kept_above(self.alloc, &self.settings, dir), error))
    }
}
