//! The two files that `same` compares.
ghost use Rattle.std.specs.Prelude.{◌≡◌, ◌||◌, IfOk, IfErr};
ghost use Rattle.ignore_base.specs.Problem.{memory, problem_of};
ghost use Rattle.ignore_files.specs.Gives.{IsHonest};
ghost use Rattle.ignore_files.specs.Tree.{Tree};
ghost use Rattle.ig_commands.specs.Sides.{AreRead, counted_by, given_at, how_read, most_by, takes_input, wanted_by};

use ig_every::{HowRead, RulesRead, is_input, read_side};
use ig_options::{Given, Options};
use ignore_base::Error;
use ignore_every::{Counted, Wanted};
use ignore_files::Files;
use std::alloc::Global;

/// What was read of two files that are compared.
#[derive(Drop)]
pub(crate) struct Sides {
    /// Of OLD.
    pub(crate) old: RulesRead,
    /// Of NEW.
    pub(crate) new: RulesRead,
}

/// The rules of the two files that the options name. `input` has the bytes of standard input, where
/// one of them is `-`.
///
/// # Errors
/// `Error::Memory` alone.
pub(crate) fn read_sides<F: Files>(
    alloc: Global,
    files: &F,
    options: &Options,
    input: &[u8],
) -> Result<Sides, Error>
    ensures read { (tree : Tree) → IsHonest F.Files files.now tree → IfOk result (AreRead tree input.now options.now) }
    ensures out_of_memory { IfErr result (λ e. problem_of e ≡ memory) }
{
    let how = how_read(options);
    let old = read_side(alloc, files, how, given_at(options, 0), input)?;
    let new = read_side(alloc, files, how, given_at(options, 1), input)?;
    Ok(Sides { old, new })
}

/// Whether one of the two files is standard input.
pub(crate) fn takes_input(options: &Options) -> bool
    ensures { result ≡ takes_input options.now }
{
    is_input(given_at(options, 0)) || is_input(given_at(options, 1))
}

/// The file that is given at a place, from 0; the empty path without one.
pub(crate) fn given_at(options: &Options, place: usize) -> &str
    ensures { result.now ≡ given_at options.now place }
{
    match options.paths.get(place) {
        Some(Given::Path(path)) => path.as_str(),
        _ => "",
    }
}

/// How files of rules are read.
pub(crate) fn how_read(options: &Options) -> HowRead
    ensures { result ≡ how_read options.now }
{
    HowRead {
        case_insensitive: options.ignore_file_case_insensitive,
        git_trailing_spaces: options.git_trailing_spaces,
    }
}

/// Which differences are wanted, where so many paths are written at most.
pub(crate) fn wanted_by(options: &Options, most: Option<usize>) -> Wanted
    ensures { result ≡ wanted_by options.now most }
{
    Wanted {
        counted: counted_by(options),
        most: most_by(most),
    }
}

/// Which verdicts count as the same.
fn counted_by(options: &Options) -> Counted
    ensures { result ≡ counted_by options.now }
{
    if options.only_ignored {
        Counted::Ignored
    } else {
        Counted::Verdicts
    }
}

/// How many differences are wanted: one, where no number is given, or 0.
fn most_by(given: Option<usize>) -> usize
    ensures { result ≡ most_by given }
{
    match given {
        None => 1,
        Some(most) => { if most == 0 { 1 } else { most } }
    }
}
