//! The search of git's configuration for the excludes file.
ghost use Rattle.std.specs.Prelude.{◌≡◌, ℕ, List, Option, codes, Some, IfOk, IfErr, map, option_map, string_bytes};
ghost use Rattle.std.specs.Option.{option_copied, option_or};
ghost use Rattle.ignore_base.specs.Text.{Path};
ghost use Rattle.ignore_base.specs.Problem.{problem_of, memory};
ghost use Rattle.ignore_files.specs.Tree.{Tree};
ghost use Rattle.ignore_files.specs.Gives.{IsHonest};
ghost use Rattle.ignore_files.specs.Variables.{set_value};
ghost use Rattle.ignore_excludes.specs.ExcludesSearch.{path_below, xdg_folder, expanded, FilesGive, GivesPath, IsFirstPath};
ghost use Rattle.ignore_excludes.specs.ExcludesSearch.{LeadsTo, IsExcludesPath};

use crate::excludes::excludes_value;
use ignore_base::Error;
use ignore_base::internal::join;
use ignore_files::internal::answered;
use ignore_files::{Env, Files, Name};
use std::alloc::{AllocError, Global};

/// The text of a variable that is set.
fn known(variable: &Option<Name>) -> Option<&str>
    ensures { option_copied result ≡ variable.now }
{
    match variable {
        None => None,
        Some(name) => Some(name.as_str()),
    }
}

/// The text of a variable that is set and not empty.
fn filled(variable: &Option<Name>) -> Option<&str>
    ensures { option_copied result ≡ set_value variable.now }
{
    match known(variable) {
        None => None,
        Some(text) => { if text.is_empty() { None } else { Some(text) } }
    }
}

fn text_of(path: &Option<String>) -> Option<&str>
    ensures { option_copied result ≡ option_map string_bytes path.now }
{
    match path {
        None => None,
        Some(path) => Some(path.as_str()),
    }
}

/// The path below the folder, where the folder is known.
fn below(alloc: Global, folder: Option<&str>, path: &str) -> Result<Option<String>, AllocError>
    ensures { IfOk result (λ found. option_map string_bytes found ≡ path_below (option_copied folder.entry) path.now) }
{
    match folder {
        None => Ok(None),
        Some(folder) => Ok(Some(join(alloc, folder, path)?)),
    }
}

/// The folder of the user's configuration.
fn xdg_folder(alloc: Global, env: &Env) -> Result<Option<String>, AllocError>
    ensures { IfOk result (λ found. option_map string_bytes found ≡ xdg_folder env.now) }
{
    match filled(&env.xdg_config_home) {
        Some(folder) => Ok(Some(String::from_str(alloc, folder)?)),
        None => below(alloc, known(&env.home), ".config"),
    }
}

/// The file of the system's configuration.
fn system_config(env: &Env) -> &str
    ensures { Some result.now ≡ option_or (set_value env.now.git_config_system) (Some (codes "/etc/gitconfig")) }
{
    match filled(&env.git_config_system) {
        None => "/etc/gitconfig",
        Some(path) => path,
    }
}

/// The value with `home` in place of each `~`.
fn with_home(alloc: Global, home: &str, value: &str) -> Result<String, AllocError>
    ensures { IfOk result (λ text. string_bytes text ≡ expanded (Some home.now) value.now) }
{
    let mut text = String::new(alloc);
    let mut rest = value;
    while let Some((before, after)) = rest.split_once('~') {
        text.push_str(before)?;
        text.push_str(home)?;
        rest = after;
    }
    text.push_str(rest)?;
    Ok(text)
}

/// The value with the home directory in place of each `~`, where that is known.
fn expanded(alloc: Global, home: Option<&str>, value: &str) -> Result<String, AllocError>
    ensures { IfOk result (λ text. string_bytes text ≡ expanded (option_copied home.entry) value.now) }
{
    match home {
        None => String::from_str(alloc, value),
        Some(home) => with_home(alloc, home, value),
    }
}

/// The path that the configuration in the file `path` names, if it can be read whole and gives a
/// value.
fn path_from<F: Files>(
    alloc: Global,
    files: &F,
    home: Option<&str>,
    path: &str,
) -> Result<Option<String>, AllocError>
    ensures { IfOk result (λ found.
        GivesPath (FilesGive (F.contents_gives files.now)) (option_copied home.entry) (Some path.now) (option_map string_bytes found)) }
{
    match answered(files.contents(alloc, path))? {
        Err(_) => Ok(None),
        Ok(contents) => {
            if contents.fault.is_some() {
                return Ok(None);
            }
            match excludes_value(contents.bytes.as_slice()) {
                None => Ok(None),
                Some(value) => Ok(Some(expanded(alloc, home, value)?)),
            }
        }
    }
}

/// The path that the first of these configurations that gives a value names.
fn first_path<F: Files>(
    alloc: Global,
    files: &F,
    home: Option<&str>,
    places: &[Option<&str>],
) -> Result<Option<String>, AllocError>
    ensures { IfOk result (λ found.
        IsFirstPath (FilesGive (F.contents_gives files.now)) (option_copied home.entry) (map option_copied places.now)
        (option_map string_bytes found)) }
{
    for place in places {
        if let Some(path) = *place {
            if let Some(found) = path_from(alloc, files, home, path)? {
                return Ok(Some(found));
            }
        }
    }
    Ok(None)
}

/// The path of the excludes file that git's configuration names, or none. The file needn't exist.
///
/// These configurations are searched, in order:
/// - the file of `git_config_global`,
/// - `.gitconfig` in `home`,
/// - `git/config` in the folder of the user's configuration: `xdg_config_home`, else `.config` in
/// `home`,
/// - the file of `git_config_system`, else `/etc/gitconfig`.
///
/// An empty variable counts as unset, except `home`. A file that can't be read whole gives nothing.
/// The first value of `core.excludesFile` decides, with `home` in place of each `~`. Without a
/// value the path is `git/ignore` in the folder of the user's configuration.
///
/// The search and the form of the value are this library's own.
///
/// # Errors
/// `Error::Memory` alone.
pub fn gitconfig_excludes_path<F: Files>(
    alloc: Global,
    files: &F,
    env: &Env,
) -> Result<Option<String>, Error>
    ensures found { (tree : Tree) → IsHonest F.Files files.now tree
        → IfOk result (λ found. IsExcludesPath tree env.now (option_map string_bytes found)) }
    ensures only { (tree : Tree) → IsHonest F.Files files.now tree
        → IfOk result (λ found. (other : Option Path) → IsExcludesPath tree env.now other → option_map string_bytes found ≡ other) }
    ensures answered { IfOk result (λ found. LeadsTo (FilesGive (F.contents_gives files.now)) env.now (option_map string_bytes found)) }
    ensures out_of_memory { IfErr result (λ error. problem_of error ≡ memory) }
{
    Ok(excludes_path(alloc, files, env)?)
}

/// As `gitconfig_excludes_path`, with the error of a failed allocation.
pub fn excludes_path<F: Files>(
    alloc: Global,
    files: &F,
    env: &Env,
) -> Result<Option<String>, AllocError>
    ensures found { (tree : Tree) → IsHonest F.Files files.now tree
        → IfOk result (λ found. IsExcludesPath tree env.now (option_map string_bytes found)) }
    ensures only { (tree : Tree) → IsHonest F.Files files.now tree
        → IfOk result (λ found. (other : Option Path) → IsExcludesPath tree env.now other → option_map string_bytes found ≡ other) }
    ensures answered { IfOk result (λ found. LeadsTo (FilesGive (F.contents_gives files.now)) env.now (option_map string_bytes found)) }
{
    let home = known(&env.home);
    let user = below(alloc, home, ".gitconfig")?;
    let folder = xdg_folder(alloc, env)?;
    let config = below(alloc, text_of(&folder), "git/config")?;
    let places = [
        filled(&env.git_config_global),
        text_of(&user),
        text_of(&config),
        Some(system_config(env)),
    ];
    match first_path(alloc, files, home, &places)? {
        None => Ok(below(alloc, text_of(&folder), "git/ignore")?),
        Some(path) => Ok(Some(path)),
    }
}
