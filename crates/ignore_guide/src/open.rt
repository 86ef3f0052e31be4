//! The load of a directory that is to be entered.
ghost use Rattle.std.specs.Prelude.{◌≡◌, ◌++◌, ◌∷◌, [], ◌+◌, IfOk, All, length, map, option_map, reverse, string_bytes};
ghost use Rattle.ignore_base.specs.Paths.{join_of};
ghost use Rattle.ignore_base.specs.Problem.{problem_of};
ghost use Rattle.ignore_dir.specs.Above.{dirs_above, names_above, paths_above, problems_of_loads};
ghost use Rattle.ignore_dir.specs.Chains.{placed_along, slashed};
ghost use Rattle.ignore_dir.specs.Ground.{InLoads};
ghost use Rattle.ignore_dir.specs.Lists.{IsAfterSlash};
ghost use Rattle.ignore_dir.specs.Load.{joined_some};
ghost use Rattle.ignore_dir.specs.LoadsBy.{LoadsBy, reads_of, stats_of};
ghost use Rattle.ignore_guide.specs.Guide.{IsRootBy};

use crate::judge::followed_by;
use crate::places::Entered;
use ignore_base::Error;
use ignore_base::internal::join;
use ignore_dir::above::load_above;
use ignore_dir::errors::joined_some;
use ignore_dir::laws::one_load;
use ignore_dir::load::load_directory;
use ignore_dir::{Dir, Ground, Placed};
use ignore_files::{Files, Name};
use std::alloc::{AllocError, Global};

/// A directory that was loaded, and what is wrong with its files.
#[derive(Drop)]
pub(crate) struct Opened {
    /// Its path.
    pub(crate) path: Name,
    /// Its path as the directories around it see it, with a final slash.
    pub(crate) text: Name,
    /// How many names below its root its entries are.
    pub(crate) depth: usize,
    /// What it holds for the rules.
    pub(crate) dir: Dir,
    /// What is wrong with its files.
    pub(crate) error: Option<Error>,
}

/// A root that was loaded, and what counts of the directories above it.
#[derive(Drop)]
pub(crate) struct Rooted {
    pub(crate) above: Vec<Placed>,
    pub(crate) opened: Opened,
}

/// What a directory holds for the rules, and what is wrong with its files.
fn loaded<F: Files>(ground: &Ground<'_, F>, path: &str) -> Result<(Dir, Option<Error>), AllocError>
    ensures dir { InLoads F.Files ground.now (λ tree loads. IfOk result (λ r. r.0 ≡ (loads path.now).0)) }
    ensures problem { InLoads F.Files ground.now (λ tree loads. IfOk result (λ r. option_map problem_of r.1 ≡ (loads path.now).1)) }
    ensures answered { IfOk result (λ r. LoadsBy (stats_of F.Files ground.now.files.now) (reads_of F.Files ground.now.files.now)
        ground.now.settings.now path.now r.0 (option_map problem_of r.1)) }
{
    one_load();
    load_directory(ground, path)
}

/// The text of a directory, by that of the one around it.
fn text_in(alloc: Global, around: &str, name: &str) -> Result<Name, AllocError>
    ensures { IfOk result (λ text. text ≡ (around.now ++ name.now) ++ 47 ∷ []) }
{
    let mut text = followed_by(alloc, around, name)?;
    text.push('/')?;
    Ok(Name::new(text))
}

/// Loads the directory of a name in one that was entered.
pub(crate) fn open<F: Files>(
    ground: &Ground<'_, F>,
    around: &Entered,
    name: &str,
) -> Result<Opened, AllocError>
    ensures path { IfOk result (λ o. o.path ≡ join_of around.now.path name.now) }
    ensures text { IfOk result (λ o. o.text ≡ (around.now.text ++ name.now) ++ 47 ∷ []) }
    ensures depth { IfOk result (λ o. o.depth ≡ around.now.depth + 1) }
    ensures dir { InLoads F.Files ground.now (λ tree loads. IfOk result (λ o. o.dir ≡ (loads (join_of around.now.path name.now)).0)) }
    ensures problem { InLoads F.Files ground.now (λ tree loads.
        IfOk result (λ o. option_map problem_of o.error ≡ (loads (join_of around.now.path name.now)).1)) }
    ensures answered { IfOk result (λ o. LoadsBy (stats_of F.Files ground.now.files.now) (reads_of F.Files ground.now.files.now)
        ground.now.settings.now (join_of around.now.path name.now) o.dir (option_map problem_of o.error)) }
{
    let Some(depth) = around.depth.checked_add(1) else {
        return Err(AllocError);
    };
    let path = join(ground.alloc, around.path.as_str(), name)?;
    let text = text_in(ground.alloc, around.text.as_str(), name)?;
    let (dir, error) = loaded(ground, path.as_str())?;
    Ok(Opened {
        path: Name::new(path),
        text,
        depth,
        dir,
        error,
    })
}

/// The errors of what is above a root and its own, as one.
fn joined_with(
    alloc: Global,
    far: Vec<Option<Error>>,
    own: Option<Error>,
) -> Result<Option<Error>, AllocError>
    ensures { IfOk result (λ error. option_map problem_of error
        ≡ joined_some (map (option_map problem_of) far.items ++ option_map problem_of own ∷ [])) }
{
    let mut errors = far;
    errors.push(own)?;
    joined_some(alloc, errors)
}

/// Loads a root and what is above it.
pub(crate) fn open_root<F: Files>(ground: &Ground<'_, F>, root: &str) -> Result<Rooted, AllocError>
    ensures path { IfOk result (λ r. r.opened.path ≡ root.now) }
    ensures depth { IfOk result (λ r. r.opened.depth ≡ 1) }
    ensures ends { IfOk result (λ r. IsAfterSlash r.opened.text (length r.opened.text)) }
    ensures placed { IfOk result (λ r. All (λ p. IsAfterSlash r.opened.text p.1) r.above.items) }
    ensures answered { IfOk result (λ r. IsRootBy F.Files ground.now.files.now ground.now.settings.now root.now r.above.items
        r.opened.text r.opened.dir (option_map problem_of r.opened.error)) }
    ensures text { InLoads F.Files ground.now (λ tree loads.
        IfOk result (λ r. r.opened.text ≡ 47 ∷ slashed (names_above tree ground.now.settings.now root.now))) }
    ensures above { InLoads F.Files ground.now (λ tree loads. IfOk result (λ r. r.above.items
        ≡ placed_along 1 (dirs_above loads ground.now.settings.now (paths_above tree ground.now.settings.now root.now))
        (names_above tree ground.now.settings.now root.now))) }
    ensures dir { InLoads F.Files ground.now (λ tree loads. IfOk result (λ r. r.opened.dir ≡ (loads root.now).0)) }
    ensures problem { InLoads F.Files ground.now (λ tree loads. IfOk result (λ r. option_map problem_of r.opened.error
        ≡ joined_some (problems_of_loads loads (paths_above tree ground.now.settings.now root.now) ++ (loads root.now).1 ∷ []))) }
{
    let above = load_above(ground, root)?;
    let (dir, error) = loaded(ground, root)?;
    let error = joined_with(ground.alloc, above.errors, error)?;
    let opened = Opened {
        path: Name::from_str(ground.alloc, root)?,
        text: Name::new(above.base),
        depth: 1,
        dir,
        error,
    };
    Ok(Rooted {
        above: above.dirs,
        opened,
    })
}
