//! A chosen type of a matcher.
ghost use Rattle.std.specs.Prelude.{◌≡◌, ◌⊎◌, ◌<◌, ℕ, IfOk, IfErr, length, map, not, string_bytes, Some};
ghost use Rattle.std.specs.List.{AllZip, list_any};
ghost use Rattle.std.specs.Str.{chars};
ghost use Rattle.ignore_base.specs.Problem.{problem_of, memory, glob as glob_problem};
ghost use Rattle.ignore_glob.specs.GlobFaults.{glob_fault_text};
ghost use Rattle.ignore_types.specs.TypeMatch.{choice_answer, choices_answer, glob_at, match_by_glob};
ghost use Rattle.ignore_types.specs.Building.{plain, IsReadAs, FirstBad, IsGlobProblem};

use crate::types::definition::FileTypeDef;
use crate::types::glob::Glob;
use ignore_base::{Error, Match};
use ignore_glob::glob::laws::matching_is_decided;
use ignore_glob::glob::{GlobFault, Options, Pattern, PatternError};
use ignore_set::{HasPattern, Index};
use std::alloc::{AllocError, Global};
use std::marker::Model;

/// A parsed glob of a type, which is matched against the names of files.
#[derive(Debug, Drop)]
pub(super) struct NameGlob {
    pattern: Pattern,
}

impl Model for NameGlob {
    ghost use Rattle.ignore_glob.specs.Reading.{Reading};
    ghost use Rattle.ignore_glob.specs.Codes.{reading_code};

    ghost Value = { Reading };

    ghost coded = { reading_code };

    ghost view = { λ g. g.pattern };
}

impl HasPattern for NameGlob {
    ghost use Rattle.ignore_types.specs.TypeIndex.{name_member};

    ghost member = { name_member };

    fn pattern(&self) -> &Pattern {
        &self.pattern
    }

    fn is_only_dir(&self) -> bool {
        false
    }
}

/// A chosen type of a matcher: its definition, its parsed globs, and whether it was negated.
#[derive(Debug, Drop)]
pub(super) struct ChosenType {
    definition: FileTypeDef,
    globs: Vec<NameGlob>,
    index: Index,
    negated: bool,
}

impl Model for ChosenType {
    ghost use Rattle.ignore_types.specs.TypeMatch.{Chosen};
    ghost use Rattle.ignore_types.specs.TypeCodes.{chosen_code};

    ghost Value = { Chosen };

    ghost coded = { chosen_code };

    ghost use Rattle.std.specs.Prelude.{◌≡◌, length, map};
    ghost use Rattle.ignore_set.specs.Index.{IsIndexOf};
    ghost use Rattle.ignore_types.specs.TypeIndex.{name_member};

    ghost view = { λ c. record { definition = c.definition; readings = c.globs.items; negated = c.negated } };

    ghost invariant = { λ c. IsIndexOf c.index (map name_member c.globs.items)
        × (length c.globs.items ≡ length c.definition.globs) };
}

impl ChosenType {
    pub(super) fn new(
        definition: FileTypeDef,
        globs: Vec<NameGlob>,
        negated: bool,
    ) -> Result<ChosenType, AllocError>
        requires { length globs.items ≡ length definition.globs }
        ensures { IfOk result (λ c. c ≡ record { definition = definition; readings = globs.items; negated = negated }) }
    {
        let index = Index::new(*globs.allocator(), &globs)?;
        Ok(ChosenType {
            definition,
            globs,
            index,
            negated,
        })
    }

    pub(super) fn is_negated(&self) -> bool
        ensures { result ≡ self.now.negated }
    {
        self.negated
    }

    /// The answer of the type for a name: by the last of its globs that matches it.
    fn matched(&self, name: &str) -> Result<Match<Glob<'_>>, AllocError>
        ensures { IfOk result (λ m. m ≡ choice_answer (chars name.now) self.now) }
    {
        matching_is_decided();
        match self.index.last_match(&self.globs, name, false)? {
            Some(place) => Ok(self.verdict(place)),
            None => Ok(Match::None),
        }
    }

    fn verdict(&self, place: usize) -> Match<Glob<'_>>
        requires { place < length self.now.readings }
        ensures { result ≡ match_by_glob self.now place }
    {
        let glob = self.glob_at(place);
        if self.negated {
            Match::Ignore(glob)
        } else {
            Match::Whitelist(glob)
        }
    }

    fn glob_at(&self, place: usize) -> Glob<'_>
        requires { place < length self.now.readings }
        ensures { result ≡ Some (glob_at self.now place) }
    {
        Glob::of(&self.definition, self.definition.globs()[place].as_str())
    }
}

/// The answer of the last choice that matches the name.
pub(super) fn last_choice<'a>(
    choices: &'a [ChosenType],
    name: &str,
) -> Result<Match<Glob<'a>>, AllocError>
    ensures { IfOk result (λ m. m ≡ choices_answer choices.now (chars name.now)) }
{
    for i in (0..choices.len()).rev() {
        let choice = &choices[i];
        let answer = choice.matched(name)?;
        if !answer.is_none() {
            return Ok(answer);
        }
    }
    Ok(Match::None)
}

/// Whether some choice selects.
pub(super) fn some_selected(choices: &[ChosenType]) -> bool
    ensures { result ≡ list_any (λ c. not c.negated) choices.now }
{
    choices.iter().any(|choice| !choice.is_negated())
}

/// The parsed globs of a type, or the error of the first invalid one.
pub(super) fn read_globs(alloc: Global, globs: &[String]) -> Result<Vec<NameGlob>, Error>
    ensures read { IfOk result (λ all. AllZip IsReadAs (map string_bytes globs.now) all.items) }
    ensures refused { IfErr result (λ e. (problem_of e ≡ memory)
        ⊎ FirstBad IsReadAs (IsGlobProblem (problem_of e)) (map string_bytes globs.now)) }
{
    let mut all = Vec::new(alloc);
    for glob in globs {
        let glob = read_glob(alloc, glob.as_str())?;
        all.push(glob)?;
    }
    Ok(all)
}

fn read_glob(alloc: Global, glob: &str) -> Result<NameGlob, Error>
    ensures read { IfOk result (IsReadAs glob.now) }
    ensures refused { IfErr result (λ e. (problem_of e ≡ memory) ⊎ IsGlobProblem (problem_of e) glob.now) }
{
    let options = Options {
        case_insensitive: false,
        allow_unclosed_class: false,
    };
    match Pattern::parse(alloc, glob, options) {
        Ok(pattern) => Ok(NameGlob { pattern }),
        Err(PatternError::Fault(fault)) => Err(glob_error(alloc, glob, fault)),
        Err(PatternError::Memory) => Err(Error::Memory),
    }
}

/// The error of an invalid glob, or `Error::Memory`.
fn glob_error(alloc: Global, glob: &str, fault: GlobFault) -> Error
    ensures { (problem_of result ≡ memory) ⊎ (problem_of result ≡ glob_problem (Some glob.now) (glob_fault_text fault)) }
{
    match String::from_str(alloc, glob) {
        Ok(glob) => fault.error_of(alloc, glob),
        Err(_) => Error::Memory,
    }
}
