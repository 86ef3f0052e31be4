//! What is wrong with files of rules, part by part.
ghost use Rattle.std.specs.Prelude.{◌≡◌, ◌++◌, ◌∷◌, [], IfOk, OnOk, None, option_map, map, slice_get, string_bytes};
ghost use Rattle.std.specs.Option.{option_copied};
ghost use Rattle.ignore_base.specs.Problem.{problem_of};
ghost use Rattle.ignore_kept.specs.Kinds.{guided_in};
ghost use Rattle.ignore_kept.specs.Parts.{TellsPart, TellsParts, fault_in, glob_in, kind_of, no_part, one_of, parts_at, parts_at_stage, parts_in, texts_of, told_as, words_of};

use crate::given::fault_code;
use crate::guided::{Begun, Guided, Stage};
use crate::kept::Kept;
use crate::lines::text_of_error;
use crate::stopped::Stopped;
use ignore::Error;
use std::alloc::{AllocError, Global};

/// A part, as C is told it: what kind of problem it is, the number of its fault and of its line, how
/// many bytes its texts have, and whether its path and its glob are known.
#[repr(C)]
#[derive(Clone, Copy, Drop)]
pub struct Part {
    pub kind: u32,
    pub fault: u32,
    pub line: u64,
    pub path: usize,
    pub glob: usize,
    pub text: usize,
    pub has_path: bool,
    pub has_glob: bool,
}

/// What C is told: a number, a part, and its texts.
#[derive(Drop)]
pub struct ToldPart {
    pub code: u32,
    pub part: Part,
    pub text: Vec<u8>,
}

const NO_PART: Part = Part {
    kind: 0,
    fault: 0,
    line: 0,
    path: 0,
    glob: 0,
    text: 0,
    has_path: false,
    has_glob: false,
};

/// An error, and the nearest path and line around it.
#[derive(Clone, Copy)]
pub struct Leaf<'e> {
    pub path: Option<&'e str>,
    pub line: Option<u64>,
    pub error: &'e Error,
}

/// The part at an index of what is wrong with the directory that came last.
pub fn problem(alloc: Global, kept: &Kept, index: usize) -> ToldPart
    ensures { TellsParts (guided_in kept.now) index result.code result.part result.text.items }
{
    let Kept::Guide(guided) = kept else {
        return untold(alloc, Stopped::Misused.code());
    };
    match leaves_in(alloc, guided) {
        Err(_) => untold(alloc, Stopped::Memory.code()),
        Ok(leaves) => told_at(alloc, leaves.as_slice(), index),
    }
}

/// The part at an index of some.
fn told_at(alloc: Global, leaves: &[Leaf<'_>], index: usize) -> ToldPart
    ensures { TellsPart (slice_get (map one_of leaves.now) index) result.code result.part result.text.items }
{
    match leaves.get(index) {
        None => untold(alloc, 1),
        Some(leaf) => match told_of(alloc, *leaf) {
            Ok(told) => told,
            Err(_) => untold(alloc, Stopped::Memory.code()),
        },
    }
}

fn untold(alloc: Global, code: u32) -> ToldPart
    ensures code { result.code ≡ code }
    ensures part { result.part ≡ no_part }
    ensures text { result.text.items ≡ [] }
{
    ToldPart {
        code,
        part: NO_PART,
        text: Vec::new(alloc),
    }
}

/// All that is wrong, in order.
fn leaves_in(alloc: Global, guided: &Guided) -> Result<Vec<Leaf<'_>>, AllocError>
    ensures { IfOk result (λ all. map one_of all.items ≡ parts_at_stage guided.now.stage) }
{
    match &guided.stage {
        Stage::Fresh => Ok(Vec::new(alloc)),
        Stage::Reading(_) => Ok(Vec::new(alloc)),
        Stage::Begun(begun) => leaves_of(alloc, begun),
    }
}

fn leaves_of(alloc: Global, begun: &Begun) -> Result<Vec<Leaf<'_>>, AllocError>
    ensures { IfOk result (λ all. map one_of all.items ≡ parts_in (option_map problem_of begun.now.front) ++ parts_in (option_map problem_of begun.now.problem)) }
{
    let mut leaves = Vec::new(alloc);
    add_some(&mut leaves, &begun.front)?;
    add_some(&mut leaves, &begun.problem)?;
    Ok(leaves)
}

fn add_some<'e>(leaves: &mut Vec<Leaf<'e>>, error: &'e Option<Error>) -> Result<(), AllocError>
    ensures { OnOk result (map one_of leaves.new.items ≡ map one_of leaves.old.items ++ parts_in (option_map problem_of error.now)) }
{
    match error {
        None => Ok(()),
        Some(error) => add_leaves(leaves, None, None, error),
    }
}

/// Adds the errors that stand in one, each with the nearest path and line around it.
fn add_leaves<'e>(
    leaves: &mut Vec<Leaf<'e>>,
    path: Option<&'e str>,
    line: Option<u64>,
    error: &'e Error,
) -> Result<(), AllocError>
    ensures { OnOk result (map one_of leaves.new.items ≡ map one_of leaves.old.items
        ++ parts_at (option_copied path.entry) line (problem_of error.now)) }
{
    match error {
        Error::Partial(errors) => {
            for err in errors {
                add_leaves(leaves, path, line, err)?;
            }
            Ok(())
        }
        Error::WithLineNumber { line, err } => add_leaves(leaves, path, Some(*line), err),
        Error::WithPath { path, err } => add_leaves(leaves, Some(path.as_str()), line, err),
        Error::WithDepth { err, .. } => add_leaves(leaves, path, line, err),
        Error::Loop { .. } => push(leaves, Leaf { path, line, error }),
        Error::Io(_) => push(leaves, Leaf { path, line, error }),
        Error::Glob { .. } => push(leaves, Leaf { path, line, error }),
        Error::UnrecognizedFileType(_) => push(leaves, Leaf { path, line, error }),
        Error::InvalidDefinition => push(leaves, Leaf { path, line, error }),
        Error::Memory => push(leaves, Leaf { path, line, error }),
    }
}

fn push<'e>(leaves: &mut Vec<Leaf<'e>>, leaf: Leaf<'e>) -> Result<(), AllocError>
    ensures { OnOk result (map one_of leaves.new.items ≡ map one_of leaves.old.items ++ one_of leaf.entry ∷ []) }
{
    leaves.push(leaf)?;
    Ok(())
}

/// What is told of a part.
fn told_of(alloc: Global, leaf: Leaf<'_>) -> Result<ToldPart, AllocError>
    ensures { IfOk result (λ t. (t.code ≡ 0) × (t.part ≡ told_as (one_of leaf.entry)) × (t.text.items ≡ texts_of (one_of leaf.entry))) }
{
    let path = leaf.path.unwrap_or("");
    let glob = glob_in(leaf.error);
    let pattern = glob.unwrap_or("");
    let words = words_of(alloc, leaf.error)?;
    Ok(ToldPart {
        code: 0,
        part: Part {
            kind: kind_of(leaf.error),
            fault: fault_in(leaf.error),
            line: leaf.line.unwrap_or(0),
            path: path.len(),
            glob: pattern.len(),
            text: words.len(),
            has_path: leaf.path.is_some(),
            has_glob: glob.is_some(),
        },
        text: joined(alloc, path, pattern, words.as_str())?,
    })
}

/// Three texts, one after the other.
fn joined(alloc: Global, first: &str, second: &str, third: &str) -> Result<Vec<u8>, AllocError>
    ensures { IfOk result (λ text. text.items ≡ first.now ++ (second.now ++ third.now)) }
{
    let mut text = Vec::from_slice(alloc, first.as_bytes())?;
    text.extend_from_slice(second.as_bytes())?;
    text.extend_from_slice(third.as_bytes())?;
    Ok(text)
}

fn kind_of(error: &Error) -> u32
    ensures { result ≡ kind_of (problem_of error.now) }
{
    match error {
        Error::Partial(_) => 3,
        Error::WithLineNumber { .. } => 3,
        Error::WithPath { .. } => 3,
        Error::WithDepth { .. } => 3,
        Error::Loop { .. } => 3,
        Error::Io(_) => 1,
        Error::Glob { .. } => 2,
        Error::UnrecognizedFileType(_) => 3,
        Error::InvalidDefinition => 3,
        Error::Memory => 3,
    }
}

fn fault_in(error: &Error) -> u32
    ensures { result ≡ fault_in (problem_of error.now) }
{
    match error {
        Error::Partial(_) => 0,
        Error::WithLineNumber { .. } => 0,
        Error::WithPath { .. } => 0,
        Error::WithDepth { .. } => 0,
        Error::Loop { .. } => 0,
        Error::Io(fault) => fault_code(*fault),
        Error::Glob { .. } => 0,
        Error::UnrecognizedFileType(_) => 0,
        Error::InvalidDefinition => 0,
        Error::Memory => 0,
    }
}

/// The glob of an invalid glob, if it is known.
fn glob_in(error: &Error) -> Option<&str>
    ensures { option_copied result ≡ glob_in (problem_of error.now) }
{
    match error {
        Error::Partial(_) => None,
        Error::WithLineNumber { .. } => None,
        Error::WithPath { .. } => None,
        Error::WithDepth { .. } => None,
        Error::Loop { .. } => None,
        Error::Io(_) => None,
        Error::Glob { glob, .. } => text_in(glob),
        Error::UnrecognizedFileType(_) => None,
        Error::InvalidDefinition => None,
        Error::Memory => None,
    }
}

fn text_in(text: &Option<String>) -> Option<&str>
    ensures { option_copied result ≡ option_map string_bytes text.now }
{
    match text {
        None => None,
        Some(text) => Some(text.as_str()),
    }
}

/// What is wrong, in words: of a glob without the glob.
fn words_of(alloc: Global, error: &Error) -> Result<String, AllocError>
    ensures { IfOk result (λ words. string_bytes words ≡ words_of (problem_of error.now)) }
{
    match error {
        Error::Glob { err, .. } => Ok(String::from_str(alloc, err.as_str())?),
        Error::Partial(_) => text_of_error(alloc, error),
        Error::WithLineNumber { .. } => text_of_error(alloc, error),
        Error::WithPath { .. } => text_of_error(alloc, error),
        Error::WithDepth { .. } => text_of_error(alloc, error),
        Error::Loop { .. } => text_of_error(alloc, error),
        Error::Io(_) => text_of_error(alloc, error),
        Error::UnrecognizedFileType(_) => text_of_error(alloc, error),
        Error::InvalidDefinition => text_of_error(alloc, error),
        Error::Memory => text_of_error(alloc, error),
    }
}
