//! The load of the directories above a root.
ghost use Rattle.std.specs.Prelude.{◌≡◌, ◌++◌, [], ◌∷◌, ℕ, List, All, IfOk, OnOk, Ok, map, codes, length, option_map, string_bytes};
ghost use Rattle.ignore_base.specs.Paths.{without_slash};
ghost use Rattle.ignore_base.specs.Problem.{problem_of};
ghost use Rattle.ignore_dir.specs.Above.{needs_above, directories_along, canonical_names, names_above, paths_above};
ghost use Rattle.ignore_dir.specs.Above.{kept_above, dirs_above, problems_of_loads, rules_if};
ghost use Rattle.ignore_dir.specs.AboveBy.{AreAlongBy, IsAboveBy};
ghost use Rattle.ignore_dir.specs.Chains.{placed_along, slashed};
ghost use Rattle.ignore_dir.specs.Ground.{InLoads, InTree};
ghost use Rattle.ignore_dir.specs.Lists.{IsAfterSlash};
ghost use Rattle.ignore_dir.specs.LoadsBy.{reads_of, stats_of};
ghost use Rattle.ignore_dir.specs.Soft.{IsSoft};

use crate::dir::{Dir, Placed};
use crate::ground::Ground;
use crate::laws::one_load;
use crate::load::load_directory;
use crate::names::{are_names, components};
use crate::settings::Settings;
use ignore_base::Error;
use ignore_base::internal::join;
use ignore_base::text::is_absolute;
use ignore_files::Files;
use ignore_files::internal::answered;
use ignore_rules::gitignore::Gitignore;
use std::alloc::{AllocError, Global};

/// What is above a root.
#[derive(Debug, Drop)]
pub struct Above {
    /// What counts of each directory above the root, from `/` down.
    pub dirs: Vec<Placed>,
    /// What is wrong with the files of each of them, if anything, in the same order.
    pub errors: Vec<Option<Error>>,
    /// `/`, and then the names of the canonical path of the root, each followed by `/`, as far as
    /// the directories above were asked for. The offsets are offsets in this text, and so is its
    /// length as that of the root.
    pub base: String,
}

/// Whether the settings ask for what is above a root.
/// For dependents.
pub fn needs_above(settings: &Settings) -> bool
    ensures { result ≡ needs_above settings.now }
{
    settings.parents || settings.git_global || settings.git_ignore || settings.git_exclude
}

/// The rules where they count, else none.
fn rules_if(alloc: Global, on: bool, rules: Gitignore) -> Gitignore
    ensures { result ≡ rules_if on rules }
{
    if on { rules } else { Gitignore::empty(alloc) }
}

/// What counts of a directory above a root.
/// For dependents.
pub fn kept_above(alloc: Global, settings: &Settings, dir: Dir) -> Dir
    ensures { result ≡ kept_above settings.now dir }
{
    let on = settings.parents;
    Dir {
        custom: rules_if(alloc, on, dir.custom),
        ignore: rules_if(alloc, on, dir.ignore),
        gitignore: rules_if(alloc, on, dir.gitignore),
        exclude: rules_if(alloc, on, dir.exclude),
        mark: dir.mark && settings.git_ignore,
    }
}

/// A path without one leading slash.
fn without_slash(path: &str) -> &str
    ensures { result.now ≡ without_slash path.now }
{
    path.strip_prefix('/').unwrap_or(path)
}

/// The names of a canonical path; none where it is not `/` and a clean path.
/// For dependents.
pub fn canonical_names(alloc: Global, path: &str) -> Result<Vec<&str>, AllocError>
    ensures { IfOk result (λ names. map (λ n. n.now) names.items ≡ canonical_names (Ok path.now)) }
{
    let rest = without_slash(path);
    if is_absolute(path) && are_names(rest) {
        components(alloc, rest)
    } else {
        Ok(Vec::new(alloc))
    }
}

impl Above {
    /// Nothing is above `/`.
    fn new(alloc: Global) -> Result<Above, AllocError>
        ensures value { IfOk result (λ a. (a.dirs.items ≡ []) × (a.errors.items ≡ []) × (string_bytes a.base ≡ codes "/")) }
    {
        Ok(Above {
            dirs: Vec::new(alloc),
            errors: Vec::new(alloc),
            base: String::from_str(alloc, "/")?,
        })
    }

    /// Appends a directory, its error, and the name that leads on from it.
    fn push(&mut self, dir: Dir, error: Option<Error>, name: &str) -> Result<(), AllocError>
        ensures dirs { OnOk result (self.new.dirs.items ≡ self.old.dirs.items ++ (dir, length (string_bytes self.old.base)) ∷ []) }
        ensures errors { OnOk result (map (option_map problem_of) self.new.errors.items
            ≡ map (option_map problem_of) self.old.errors.items ++ option_map problem_of error ∷ []) }
        ensures base { OnOk result (string_bytes self.new.base ≡ string_bytes self.old.base ++ (name.now ++ 47 ∷ [])) }
    {
        let offset = self.base.len();
        self.dirs.push(Placed { dir, offset })?;
        self.errors.push(error)?;
        self.base.push_str(name)?;
        self.base.push('/')?;
        Ok(())
    }
}

/// Loads the directories from `/` along some names.
fn load_along<F: Files>(ground: &Ground<'_, F>, names: &[&str]) -> Result<Above, AllocError>
    ensures dirs { InLoads F.Files ground.now (λ tree loads.
        IfOk result (λ a. a.dirs.items
        ≡ placed_along 1 (dirs_above loads ground.now.settings.now (directories_along (codes "/") (map (λ n. n.now) names.now)))
        (map (λ n. n.now) names.now))) }
    ensures errors { InLoads F.Files ground.now (λ tree loads.
        IfOk result (λ a. map (option_map problem_of) a.errors.items
        ≡ problems_of_loads loads (directories_along (codes "/") (map (λ n. n.now) names.now)))) }
    ensures answered { IfOk result (λ a. AreAlongBy (stats_of F.Files ground.now.files.now) (reads_of F.Files ground.now.files.now) ground.now.settings.now
        (map (λ n. n.now) names.now) a.dirs.items (string_bytes a.base) (map (option_map problem_of) a.errors.items)) }
    ensures base { IfOk result (λ a. string_bytes a.base ≡ 47 ∷ slashed (map (λ n. n.now) names.now)) }
    ensures ends { IfOk result (λ a. IsAfterSlash (string_bytes a.base) (length (string_bytes a.base))) }
    ensures placed { IfOk result (λ a. All (λ p. IsAfterSlash (string_bytes a.base) p.1) a.dirs.items) }
    ensures soft { IfOk result (λ a. All IsSoft (map (option_map problem_of) a.errors.items)) }
{
    one_load();
    let mut above = Above::new(ground.alloc)?;
    let mut dir = String::from_str(ground.alloc, "/")?;
    for name in names {
        let (loaded, error) = load_directory(ground, dir.as_str())?;
        above.push(
            kept_above(ground.alloc, ground.settings, loaded),
            error,
            *name,
        )?;
        dir = join(ground.alloc, dir.as_str(), *name)?;
    }
    Ok(above)
}

/// What is above a root: the directories on the way to its canonical path, from `/` down. None are
/// asked for where `parents` and all filters of git are off, and none are known where the canonical
/// path faults or is not `/` and a clean path. Their rules count with `parents` on, and their marks
/// with `git_ignore` on.
pub fn load_above<F: Files>(ground: &Ground<'_, F>, root: &str) -> Result<Above, AllocError>
    ensures dirs { InLoads F.Files ground.now (λ tree loads.
        IfOk result (λ a. a.dirs.items
        ≡ placed_along 1 (dirs_above loads ground.now.settings.now (paths_above tree ground.now.settings.now root.now))
        (names_above tree ground.now.settings.now root.now))) }
    ensures errors { InLoads F.Files ground.now (λ tree loads.
        IfOk result (λ a. map (option_map problem_of) a.errors.items ≡ problems_of_loads loads (paths_above tree ground.now.settings.now root.now))) }
    ensures answered { IfOk result (λ a. IsAboveBy F.Files ground.now.files.now ground.now.settings.now root.now
        a.dirs.items (string_bytes a.base) (map (option_map problem_of) a.errors.items)) }
    ensures base { InTree F.Files ground.now (λ tree.
        IfOk result (λ a. string_bytes a.base ≡ 47 ∷ slashed (names_above tree ground.now.settings.now root.now))) }
    ensures ends { IfOk result (λ a. IsAfterSlash (string_bytes a.base) (length (string_bytes a.base))) }
    ensures placed { IfOk result (λ a. All (λ p. IsAfterSlash (string_bytes a.base) p.1) a.dirs.items) }
    ensures soft { IfOk result (λ a. All IsSoft (map (option_map problem_of) a.errors.items)) }
{
    if !needs_above(ground.settings) {
        return Above::new(ground.alloc);
    }
    match answered(ground.files.canonical(ground.alloc, root))? {
        Ok(path) => {
            let names = canonical_names(ground.alloc, path.as_str())?;
            load_along(ground, names.as_slice())
        }
        Err(_) => Above::new(ground.alloc),
    }
}
