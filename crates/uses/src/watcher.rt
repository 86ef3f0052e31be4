//! A tool that watches a tree: it keeps a matcher, and asks again after a folder changed.
ghost use Rattle.std.specs.Prelude.{◌≡◌, IfOk, IfErr};
ghost use Rattle.ignore.specs.Words.{Path, memory, problem_of};
ghost use Rattle.ignore.specs.FileWords.{IsHonest, Tree};
ghost use Rattle.ignore.specs.WalkWords.{Agrees, AreLoads, Loaded, query, scene_of};
ghost use Rattle.uses.specs.Watched.{IsChangedWithin, StaysOutside};

use ignore::files::Files;
use ignore::{Error, IncrementalIgnore, IncrementalMatch};

/// What a walk would make of a path, after the directory at `dir` changed, or what is below it; and
/// what is wrong with the files of rules that were read anew for it. `dir` and `path` are relative
/// to the root of the matcher. Where the matcher agreed with the tree before the change, the answer
/// is that of the tree after it, and so is the answer of each later question. What was kept of
/// other directories stays kept.
///
/// # Errors
/// `Error::Memory` alone. Then, too, the matcher agrees with the tree after the change.
pub fn ask_after_change<F: Files>(
    matcher: &mut IncrementalIgnore,
    files: &F,
    dir: &str,
    path: &str,
    is_dir: bool,
) -> Result<(IncrementalMatch, Option<Error>), Error>
    ensures value { (before after : Tree) (loads later : Path → Loaded) → IsHonest F.Files files.now after
        → AreLoads after matcher.old.asked.settings later → let g = scene_of matcher.old.asked before loads in
        let h = scene_of matcher.old.asked after later in
        Agrees g matcher.old.cache → IsChangedWithin g h dir.now → IfOk result (λ r. r.0 ≡ (query h path.now is_dir).0) }
    ensures agrees { (before after : Tree) (loads later : Path → Loaded) → IsHonest F.Files files.now after
        → AreLoads after matcher.old.asked.settings later → let g = scene_of matcher.old.asked before loads in
        let h = scene_of matcher.old.asked after later in
        Agrees g matcher.old.cache → IsChangedWithin g h dir.now → Agrees h matcher.new.cache }
    ensures stays { StaysOutside dir.now matcher.old.cache matcher.new.cache }
    ensures same { matcher.new.asked ≡ matcher.old.asked }
    ensures out_of_memory { IfErr result (λ e. problem_of e ≡ memory) }
{
    matcher.forget(dir);
    matcher.matched_with_errors(files, path, is_dir)
}
