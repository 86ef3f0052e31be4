//! The load of one directory.
ghost use Rattle.std.specs.Prelude.{◌≡◌, ◌||◌, [], ◌∷◌, codes, true, IfOk, None, Ok, Result, is_ok, option_map, if◌then◌else◌};
ghost use Rattle.ignore_base.specs.Paths.{join_of};
ghost use Rattle.ignore_base.specs.Problem.{problem_of};
ghost use Rattle.ignore_base.specs.declared.fault.Fault.{Fault};
ghost use Rattle.ignore_files.specs.Shown.{Shows};
ghost use Rattle.ignore_files.specs.declared.types.Metadata.{Metadata};
ghost use Rattle.ignore_rules.specs.Matchers.{is_file_there};
ghost use Rattle.ignore_dir.specs.Exclude.{Place, exclude_place, exclude_by};
ghost use Rattle.ignore_dir.specs.Ground.{InTree};
ghost use Rattle.ignore_dir.specs.Load.{Loads, IsExclude, IsRules, custom_paths, path_if, is_marked, is_there, joined_some, needs_marks};
ghost use Rattle.ignore_dir.specs.LoadsBy.{AreExcludesBy, AreRulesBy, IsGitBy, IsMarkBy, LeadsIf, LoadsBy, reads_of, stats_of, stats_shown};
ghost use Rattle.ignore_dir.specs.Places.{place_of};
ghost use Rattle.ignore_dir.specs.Soft.{IsSoft, IsSoftPlace};

use crate::answers::stat_of;
use crate::dir::Dir;
use crate::errors::push_some;
use crate::exclude::{ExcludePlace, by_git_file, excludes_in};
use crate::ground::Ground;
use crate::rule_files::{is_there, rules_if, rules_of_file, rules_of_names};
use crate::settings::Settings;
use ignore_base::Error;
use ignore_base::internal::join;
use ignore_files::Files;
use ignore_files::internal::Shown;
use ignore_rules::gitignore::Gitignore;
use std::alloc::{AllocError, Global};

/// What a directory holds for the rules, by these settings, and what is wrong with its files.
///
/// A file of rules is read where its filter is on and a followed `stat` answers; a fault of the
/// file system ends its rules and isn't reported. The other errors of each of the four lists are
/// joined, and those of the lists are joined in the order custom, `.ignore`, `.gitignore`, exclude.
/// The last is also the place of a fault on the way to the exclude file, where `.git` is a file.
pub fn load_directory<F: Files>(
    ground: &Ground<'_, F>,
    dir: &str,
) -> Result<(Dir, Option<Error>), AllocError>
    ensures read { InTree F.Files ground.now (λ tree.
        IfOk result (λ r. Loads tree ground.now.settings.now dir.now r.0 (option_map problem_of r.1))) }
    ensures answered { IfOk result (λ r. LoadsBy (stats_of F.Files ground.now.files.now) (reads_of F.Files ground.now.files.now)
        ground.now.settings.now dir.now r.0 (option_map problem_of r.1)) }
    ensures soft { IfOk result (λ r. IsSoft (option_map problem_of r.1)) }
{
    load_shown(ground, dir, &Shown::nothing())
}

/// The same as `load_directory`, of a directory whose listing may have shown its names. What that
/// lacks isn't asked for: a file of rules, `.git` with the exclude file in it, or `.jj`.
/// For dependents.
pub fn load_shown<F: Files>(
    ground: &Ground<'_, F>,
    dir: &str,
    shown: &Shown<'_>,
) -> Result<(Dir, Option<Error>), AllocError>
    ensures read { InTree F.Files ground.now (λ tree. Shows tree dir.now shown.now →
        IfOk result (λ r. Loads tree ground.now.settings.now dir.now r.0 (option_map problem_of r.1))) }
    ensures answered { IfOk result (λ r. LoadsBy (stats_shown F.Files ground.now.files.now dir.now shown.now) (reads_of F.Files ground.now.files.now)
        ground.now.settings.now dir.now r.0 (option_map problem_of r.1)) }
    ensures soft { IfOk result (λ r. IsSoft (option_map problem_of r.1)) }
{
    let own = own_rules(ground, dir, shown)?;
    let git = git_rules(ground, dir, shown)?;
    let error = joined_four(
        ground.alloc,
        own.of_custom,
        own.of_ignore,
        own.of_gitignore,
        git.of_exclude,
    )?;
    let loaded = Dir {
        custom: own.custom,
        ignore: own.ignore,
        gitignore: own.gitignore,
        exclude: git.exclude,
        mark: git.mark,
    };
    Ok((loaded, error))
}

/// The rules of the files that stand in a directory, and their errors.
#[derive(Drop)]
struct OwnRules {
    custom: Gitignore,
    of_custom: Option<Error>,
    ignore: Gitignore,
    of_ignore: Option<Error>,
    gitignore: Gitignore,
    of_gitignore: Option<Error>,
}

/// The rules of the files that stand in a directory, each where its filter is on.
fn own_rules<F: Files>(
    ground: &Ground<'_, F>,
    dir: &str,
    shown: &Shown<'_>,
) -> Result<OwnRules, AllocError>
    ensures custom { InTree F.Files ground.now (λ tree. Shows tree dir.now shown.now →
        IfOk result (λ own. IsRules tree ground.now.settings.now dir.now (custom_paths ground.now.settings.now dir.now) own.custom (option_map problem_of own.of_custom))) }
    ensures ignore { InTree F.Files ground.now (λ tree. Shows tree dir.now shown.now →
        IfOk result (λ own. IsRules tree ground.now.settings.now dir.now (path_if ground.now.settings.now.ignore dir.now (codes ".ignore"))
        own.ignore (option_map problem_of own.of_ignore))) }
    ensures gitignore { InTree F.Files ground.now (λ tree. Shows tree dir.now shown.now →
        IfOk result (λ own. IsRules tree ground.now.settings.now dir.now (path_if ground.now.settings.now.git_ignore dir.now (codes ".gitignore"))
        own.gitignore (option_map problem_of own.of_gitignore))) }
    ensures custom_answered { IfOk result (λ own. AreRulesBy (stats_shown F.Files ground.now.files.now dir.now shown.now) (reads_of F.Files ground.now.files.now)
        ground.now.settings.now dir.now (custom_paths ground.now.settings.now dir.now) own.custom (option_map problem_of own.of_custom)) }
    ensures ignore_answered { IfOk result (λ own. AreRulesBy (stats_shown F.Files ground.now.files.now dir.now shown.now) (reads_of F.Files ground.now.files.now)
        ground.now.settings.now dir.now (path_if ground.now.settings.now.ignore dir.now (codes ".ignore")) own.ignore (option_map problem_of own.of_ignore)) }
    ensures gitignore_answered { IfOk result (λ own. AreRulesBy (stats_shown F.Files ground.now.files.now dir.now shown.now) (reads_of F.Files ground.now.files.now)
        ground.now.settings.now dir.now (path_if ground.now.settings.now.git_ignore dir.now (codes ".gitignore"))
        own.gitignore (option_map problem_of own.of_gitignore)) }
    ensures soft_custom { IfOk result (λ own. IsSoft (option_map problem_of own.of_custom)) }
    ensures soft_ignore { IfOk result (λ own. IsSoft (option_map problem_of own.of_ignore)) }
    ensures soft_gitignore { IfOk result (λ own. IsSoft (option_map problem_of own.of_gitignore)) }
{
    let names = ground.settings.custom.as_slice();
    let (custom, of_custom) = rules_of_names(ground, dir, shown, names)?;
    let on = ground.settings.ignore;
    let (ignore, of_ignore) = rules_if(ground, dir, shown, on, ".ignore")?;
    let on = ground.settings.git_ignore;
    let (gitignore, of_gitignore) = rules_if(ground, dir, shown, on, ".gitignore")?;
    Ok(OwnRules {
        custom,
        of_custom,
        ignore,
        of_ignore,
        gitignore,
        of_gitignore,
    })
}

/// What a directory's repository has for the rules.
#[derive(Drop)]
struct GitRules {
    mark: bool,
    exclude: Gitignore,
    of_exclude: Option<Error>,
}

/// Whether a repository begins at a directory, and the rules of its exclude file.
fn git_rules<F: Files>(
    ground: &Ground<'_, F>,
    dir: &str,
    shown: &Shown<'_>,
) -> Result<GitRules, AllocError>
    ensures mark { InTree F.Files ground.now (λ tree. Shows tree dir.now shown.now →
        IfOk result (λ git. git.mark ≡ is_marked tree ground.now.settings.now dir.now)) }
    ensures exclude { InTree F.Files ground.now (λ tree. Shows tree dir.now shown.now →
        IfOk result (λ git. IsExclude tree ground.now.settings.now dir.now (exclude_place tree ground.now.settings.now dir.now)
        git.exclude (option_map problem_of git.of_exclude))) }
    ensures answered { IfOk result (λ git. (place : Place)
        × IsGitBy (stats_shown F.Files ground.now.files.now dir.now shown.now) (reads_of F.Files ground.now.files.now) ground.now.settings.now dir.now git.mark place
        × AreExcludesBy (stats_shown F.Files ground.now.files.now dir.now shown.now) (reads_of F.Files ground.now.files.now) ground.now.settings.now dir.now place
        git.exclude (option_map problem_of git.of_exclude)) }
    ensures soft { IfOk result (λ git. IsSoft (option_map problem_of git.of_exclude)) }
{
    if shown.lacks(".git") {
        return Ok(GitRules {
            mark: is_marked(ground, dir, shown, false)?,
            exclude: Gitignore::empty(ground.alloc),
            of_exclude: None,
        });
    }
    let repository = repository_of(ground, dir, shown)?;
    let mark = repository.mark;
    let (exclude, of_exclude) = exclude_rules(ground, dir, repository.exclude)?;
    Ok(GitRules {
        mark,
        exclude,
        of_exclude,
    })
}

/// What a directory's `.git` and `.jj` say of a repository.
#[derive(Drop)]
struct Repository {
    mark: bool,
    exclude: ExcludePlace,
}

/// What the `.git` and the `.jj` of a directory say, as far as that is asked for. `.git` is asked
/// once, for the mark and for the exclude file.
fn repository_of<F: Files>(
    ground: &Ground<'_, F>,
    dir: &str,
    shown: &Shown<'_>,
) -> Result<Repository, AllocError>
    ensures mark { InTree F.Files ground.now (λ tree. Shows tree dir.now shown.now →
        IfOk result (λ r. r.mark ≡ is_marked tree ground.now.settings.now dir.now)) }
    ensures exclude { InTree F.Files ground.now (λ tree.
        IfOk result (λ r. place_of r.exclude ≡ exclude_place tree ground.now.settings.now dir.now)) }
    ensures answered { IfOk result (λ r. IsGitBy (stats_shown F.Files ground.now.files.now dir.now shown.now) (reads_of F.Files ground.now.files.now)
        ground.now.settings.now dir.now r.mark (place_of r.exclude)) }
    ensures soft { IfOk result (λ r. IsSoftPlace (place_of r.exclude)) }
{
    if !needs_git(ground.settings) {
        return Ok(Repository {
            mark: false,
            exclude: ExcludePlace::Nowhere,
        });
    }
    let git = join(ground.alloc, dir, ".git")?;
    let path = git.as_str();
    let kind = kind_of(ground, path)?;
    let exclude = exclude_place(ground, path, kind.is_file)?;
    let mark = is_marked(ground, dir, shown, kind.is_there)?;
    Ok(Repository { mark, exclude })
}

/// Whether marks of repositories matter.
fn needs_marks(settings: &Settings) -> bool
    ensures { result ≡ needs_marks settings.now }
{
    settings.require_git && (settings.git_ignore || settings.git_exclude)
}

/// Whether the `.git` of a directory is asked for.
fn needs_git(settings: &Settings) -> bool
    ensures { result ≡ settings.now.git_exclude || needs_marks settings.now }
{
    settings.git_exclude || needs_marks(settings)
}

/// What a followed `stat` says of a path.
#[derive(Clone, Copy)]
struct Kind {
    is_there: bool,
    is_file: bool,
}

/// What a followed `stat` says of a path.
fn kind_of<F: Files>(ground: &Ground<'_, F>, path: &str) -> Result<Kind, AllocError>
    ensures there { InTree F.Files ground.now (λ tree. IfOk result (λ k. k.is_there ≡ is_there tree path.now)) }
    ensures file { InTree F.Files ground.now (λ tree.
        IfOk result (λ k. k.is_file ≡ is_file_there (tree.stat path.now true))) }
    ensures answered { IfOk result (λ k. (found : Result Metadata Fault) × stats_of F.Files ground.now.files.now path.now found
        × (k.is_there ≡ is_ok found) × (k.is_file ≡ is_file_there found)) }
{
    match stat_of(ground, path)? {
        Ok(metadata) => Ok(Kind {
            is_there: true,
            is_file: metadata.is_file(),
        }),
        Err(_) => Ok(Kind {
            is_there: false,
            is_file: false,
        }),
    }
}

/// Where the exclude file of the repository with this `.git` is, where that filter is on.
fn exclude_place<F: Files>(
    ground: &Ground<'_, F>,
    git: &str,
    is_file: bool,
) -> Result<ExcludePlace, AllocError>
    ensures value { InTree F.Files ground.now (λ tree. is_file ≡ is_file_there (tree.stat git.now true)
        → IfOk result (λ place. place_of place ≡ (if ground.now.settings.now.git_exclude then exclude_by tree git.now else Ok None))) }
    ensures answered { IfOk result (λ place. LeadsIf ground.now.settings.now.git_exclude (reads_of F.Files ground.now.files.now) is_file git.now (place_of place)) }
    ensures soft { IfOk result (λ place. IsSoftPlace (place_of place)) }
{
    if !ground.settings.git_exclude {
        return Ok(ExcludePlace::Nowhere);
    }
    if is_file {
        by_git_file(ground, git)
    } else {
        excludes_in(ground.alloc, git)
    }
}

/// Whether a repository begins at the directory, where marks matter.
fn is_marked<F: Files>(
    ground: &Ground<'_, F>,
    dir: &str,
    shown: &Shown<'_>,
    has_git: bool,
) -> Result<bool, AllocError>
    ensures value { InTree F.Files ground.now (λ tree. Shows tree dir.now shown.now → has_git ≡ is_there tree (join_of dir.now (codes ".git"))
        → IfOk result (λ yes. yes ≡ is_marked tree ground.now.settings.now dir.now)) }
    ensures answered { IfOk result (λ yes. IsMarkBy (needs_marks ground.now.settings.now) (stats_shown F.Files ground.now.files.now dir.now shown.now)
        has_git (join_of dir.now (codes ".jj")) yes) }
{
    if !needs_marks(ground.settings) {
        return Ok(false);
    }
    if has_git {
        return Ok(true);
    }
    if shown.lacks(".jj") {
        return Ok(false);
    }
    let jj = join(ground.alloc, dir, ".jj")?;
    is_there(ground, jj.as_str())
}

/// The rules of the exclude file, if there is one, and its error or that of the way there.
fn exclude_rules<F: Files>(
    ground: &Ground<'_, F>,
    dir: &str,
    place: ExcludePlace,
) -> Result<(Gitignore, Option<Error>), AllocError>
    ensures read { InTree F.Files ground.now (λ tree.
        IfOk result (λ r. IsExclude tree ground.now.settings.now dir.now (place_of place) r.0 (option_map problem_of r.1))) }
    ensures answered { IfOk result (λ r. AreExcludesBy (stats_of F.Files ground.now.files.now) (reads_of F.Files ground.now.files.now)
        ground.now.settings.now dir.now (place_of place) r.0 (option_map problem_of r.1)) }
    ensures soft { IsSoftPlace (place_of place) → IfOk result (λ r. IsSoft (option_map problem_of r.1)) }
{
    match place {
        ExcludePlace::At(path) => rules_of_file(ground, dir, path.as_str()),
        ExcludePlace::Nowhere => Ok((Gitignore::empty(ground.alloc), None)),
        ExcludePlace::Failed(error) => Ok((Gitignore::empty(ground.alloc), Some(error))),
    }
}

/// The errors that there are, as one.
fn joined_four(
    alloc: Global,
    first: Option<Error>,
    second: Option<Error>,
    third: Option<Error>,
    fourth: Option<Error>,
) -> Result<Option<Error>, AllocError>
    ensures value { IfOk result (λ error. option_map problem_of error ≡ joined_some (option_map problem_of first
        ∷ (option_map problem_of second ∷ (option_map problem_of third ∷ (option_map problem_of fourth ∷ []))))) }
{
    let mut errors = Vec::new(alloc);
    for error in [first, second, third, fourth] {
        push_some(&mut errors, error)?;
    }
    Ok(Error::joined(errors))
}
