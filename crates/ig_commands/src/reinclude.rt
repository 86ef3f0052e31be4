//! How files of rules stand to each other.
ghost use Rattle.std.specs.Prelude.{◌≡◌, IfOk, true};
ghost use Rattle.ig_commands.specs.Lint.{HasOther};

use crate::sides::how_read;
use crate::sources::rank_of;
use commands::World;
use ig_every::read_file;
use ig_options::Options;
use ignore_base::Error;
use ignore_base::text::{folder_of, join};
use ignore_files::{Files, Name};
use ignore_rules::gitignore::Gitignore;

/// The exclude file of a repository, from its folder.
const EXCLUDE: &str = ".git/info/exclude";

/// Whether one of these files but the file itself whitelists a folder, by its path in the folder of a
/// file that ignores it, and counts before that file: it has a higher rank, or the same one and lies
/// below.
///
/// # Errors
/// `Error::Memory` alone.
pub(crate) fn is_reincluded<F: Files>(
    world: &World<'_, F>,
    options: &Options,
    others: &[Name],
    file: &str,
    folder: &str,
) -> Result<bool, Error>
    ensures { IfOk result (λ found. found ≡ true → HasOther others.now file.now) }
{
    let base = base_of(world, options, file)?;
    let path = join(world.alloc, base.as_str(), folder)?;
    let rank = rank_of(options, file);
    for other in others {
        let other = other.as_str();
        if other == file {
            continue;
        }
        let here = base_of(world, options, other)?;
        if is_before(rank_of(options, other), here.as_str(), rank, base.as_str()) {
            let Some(rest) = below(here.as_str(), path.as_str()) else {
                continue;
            };
            if whitelists(world, options, other, rest)? {
                return Ok(true);
            }
        }
    }
    Ok(false)
}

/// Whether the rules of a file count before those of another, by the rank and the folder of both.
fn is_before(rank: u8, folder: &str, other_rank: u8, other_folder: &str) -> bool {
    if rank == other_rank {
        rank > 0 && below(other_folder, folder).is_some()
    } else {
        rank > other_rank
    }
}

/// Whether no other of these files is above a file: none lies in a folder above, and none that counts
/// where it does has a lower rank.
///
/// # Errors
/// `Error::Memory` alone.
pub(crate) fn is_top<F: Files>(
    world: &World<'_, F>,
    options: &Options,
    others: &[Name],
    file: &str,
) -> Result<bool, Error> {
    let base = base_of(world, options, file)?;
    let rank = rank_of(options, file);
    for other in others {
        let here = base_of(world, options, other.as_str())?;
        let is_lower = rank > rank_of(options, other.as_str());
        let (base, here) = (base.as_str(), here.as_str());
        if below(here, base).is_some() || (is_lower && meet(base, here)) {
            return Ok(false);
        }
    }
    Ok(true)
}

/// Whether one of two folders is the other, or lies below it.
fn meet(one: &str, other: &str) -> bool {
    one == other || below(one, other).is_some() || below(other, one).is_some()
}

/// The folder in which the rules of a file count, as a full path where the working directory is known:
/// that of the file, or of its repository; the working directory for a file that is read by name.
fn base_of<F: Files>(world: &World<'_, F>, options: &Options, file: &str) -> Result<String, Error> {
    let start = match &world.env.current_dir {
        Some(dir) => dir.as_str(),
        None => "",
    };
    match own_folder(options, file) {
        "" => Ok(String::from_str(world.alloc, start)?),
        folder => join(world.alloc, start, folder),
    }
}

/// The folder in which the rules of a file count, as far as its path says.
fn own_folder<'p>(options: &Options, file: &'p str) -> &'p str {
    if let Some(repository) = file.strip_suffix(EXCLUDE) {
        return repository.strip_suffix('/').unwrap_or(repository);
    }
    if rank_of(options, file) == 0 {
        return "";
    }
    folder_of(file)
}

/// What is left of a path below a folder, where it is below it.
pub(crate) fn below<'p>(folder: &str, path: &'p str) -> Option<&'p str> {
    match folder {
        "" => Some(path),
        "/" => path.strip_prefix('/'),
        _ => path.strip_prefix(folder)?.strip_prefix('/'),
    }
}

/// Whether a file whitelists a folder below its own.
fn whitelists<F: Files>(
    world: &World<'_, F>,
    options: &Options,
    file: &str,
    rest: &str,
) -> Result<bool, Error> {
    let read = read_file(world.alloc, world.files, how_read(options), file)?;
    is_whitelisted(&read.rules, rest)
}

/// Whether rules whitelist a folder.
fn is_whitelisted(rules: &Gitignore, folder: &str) -> Result<bool, Error> {
    Ok(rules.answer(folder, true)?.is_whitelist())
}
