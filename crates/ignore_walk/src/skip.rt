//! Which entries a walk skips.
ghost use Rattle.std.specs.Prelude.{◌≡◌, ◌++◌, ◌∷◌, ℕ, List, Some, IfOk};
ghost use Rattle.ignore_files.specs.Gives.{IsHonest};
ghost use Rattle.ignore_files.specs.Tree.{Tree};
ghost use Rattle.ignore_dir.specs.Limits.{is_larger};
ghost use Rattle.ignore_levels.specs.Levels.{IsChain, counting, slots_of};
ghost use Rattle.ignore_walk.specs.Branch.{Branch, path_of, placed_to, text_at};
ghost use Rattle.ignore_walk.specs.Child.{is_dir_kind};
ghost use Rattle.ignore_walk.specs.Entry.{entry_of};
ghost use Rattle.ignore_walk.specs.Scene.{Scene};
ghost use Rattle.ignore_walk.specs.Walked.{ignores, is_too_large};

use crate::child::is_dir_kind;
use crate::entry::DirEntry;
use ignore_dir::laws::steps_are_whole;
use ignore_dir::{Asked, Ground, Settings};
use ignore_files::Files;
use ignore_files::internal::answered;
use ignore_levels::laws::what_counts_decides;
use ignore_levels::{Levels, Place, verdict};
use std::alloc::{AllocError, Global};

/// Whether the rules ignore an entry below the root, by the place of the directories around it.
/// `text` is its path as they see it.
pub(crate) fn is_ignored<F: Files>(
    ground: &Ground<'_, F>,
    levels: &Levels,
    place: Option<Place>,
    text: &str,
    entry: &DirEntry,
) -> Result<bool, AllocError>
    ensures value { (g : Scene) (root : List ℕ) (b : Branch) (name : List ℕ) → g.settings ≡ ground.now.settings.now
        → g.outside ≡ ground.now.outside.now
        → IsChain (slots_of levels.now) place (counting (placed_to g root b))
        → text.now ≡ text_at g root b ++ name → (entry_of entry.now).path ≡ path_of root (name ∷ b)
        → IfOk result (λ yes. yes ≡ ignores g root (name ∷ b) (is_dir_kind (entry_of entry.now).kind)) }
{
    steps_are_whole();
    what_counts_decides();
    let asked = Asked {
        text,
        path: entry.path(),
        is_dir: is_dir_kind(entry.file_type()),
    };
    let found = verdict(ground.settings, ground.outside, levels, place, &asked)?;
    Ok(found.is_ignore())
}

/// Whether an entry that is no directory is larger than the settings allow.
pub(crate) fn is_too_large<F: Files>(
    alloc: Global,
    files: &F,
    settings: &Settings,
    entry: &DirEntry,
) -> Result<bool, AllocError>
    ensures value { (g : Scene) → IsHonest F.Files files.now g.tree → g.settings ≡ settings.now
        → IfOk result (λ yes. yes ≡ is_too_large g (entry_of entry.now)) }
{
    if is_dir_kind(entry.file_type()) {
        return Ok(false);
    }
    match settings.max_filesize {
        None => Ok(false),
        Some(most) => is_larger(alloc, files, settings.follow_links, most, entry.path()),
    }
}

/// Whether the size at a path is known, and above a limit.
fn is_larger<F: Files>(
    alloc: Global,
    files: &F,
    follow_links: bool,
    most: u64,
    path: &str,
) -> Result<bool, AllocError>
    ensures value { (tree : Tree) → IsHonest F.Files files.now tree
        → IfOk result (λ yes. yes ≡ is_larger (Some most) (tree.stat path.now follow_links)) }
{
    match answered(files.stat(alloc, path, follow_links))? {
        Ok(metadata) => Ok(most < metadata.len),
        Err(_) => Ok(false),
    }
}
