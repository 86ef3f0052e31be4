//! Directories that were entered, and what of their listings is left.
ghost use Rattle.std.specs.Prelude.{◌≡◌, ◌∷◌, [], IfOk, List, MatchOption, Option, length, take, ℕ};
ghost use Rattle.ignore_dir.specs.Lists.{Placed};
ghost use Rattle.ignore_levels.specs.Levels.{IsBelow, IsChain, counted, slots_of};

use crate::open::Directory;
use ignore_files::{Listed, Name};
use ignore_levels::{Levels, Place};
use std::alloc::AllocError;
use std::collections::VecDeque;

/// A directory that was entered.
#[derive(Drop)]
pub struct Frame {
    /// Its path.
    pub path: Name,
    /// Its path as the directories around it see it, with a final slash.
    pub text: Name,
    /// What stands for it and the directories above it in the list of directories.
    pub place: Option<Place>,
    /// How long that list was before it. The list is cut to it when the directory is left.
    pub len: usize,
    /// What it lists and wasn't taken yet.
    pub rest: VecDeque<Listed>,
}

/// What is listed next.
pub(crate) fn take_next(rest: &mut VecDeque<Listed>) -> Option<Listed>
    ensures { MatchOption result (rest.old.items ≡ []) (λ listed. rest.old.items ≡ listed ∷ rest.new.items) }
{
    rest.pop_front()
}

/// The frame of a directory, which is added to the list of directories below those around it.
pub(crate) fn frame_of(
    levels: &mut Levels,
    around: Option<Place>,
    directory: Directory,
) -> Result<Frame, AllocError>
    ensures path { IfOk result (λ f. f.path ≡ directory.path) }
    ensures text { IfOk result (λ f. f.text ≡ directory.text) }
    ensures rest { IfOk result (λ f. f.rest.items ≡ directory.rest.items) }
    ensures len { IfOk result (λ f. f.len ≡ length (slots_of levels.old)) }
    ensures chain { (chain : List Placed) → IsChain (slots_of levels.old) around chain → IsBelow (length directory.text) chain
        → IfOk result (λ f. IsChain (slots_of levels.new) f.place (counted directory.dir (length directory.text) chain)) }
    ensures kept { (len : ℕ) (place : Option Place) (chain : List Placed) → IsChain (take len (slots_of levels.old)) place chain
        → IsChain (take len (slots_of levels.new)) place chain }
{
    let len = levels.len();
    let offset = directory.text.as_str().len();
    let place = levels.add(directory.dir, around, offset)?;
    Ok(Frame {
        path: directory.path,
        text: directory.text,
        place,
        len,
        rest: directory.rest,
    })
}
