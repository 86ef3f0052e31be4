//! Matching the names of files against chosen types.
ghost use Rattle.std.specs.Prelude.{◌≡◌, ◌==◌, [], length, IfOk, IfErr};
ghost use Rattle.std.specs.Str.{chars};
ghost use Rattle.ignore_base.specs.Match.{match_or};
ghost use Rattle.ignore_base.specs.Problem.{problem_of, memory};
ghost use Rattle.ignore_base.specs.Paths.{file_name_of};
ghost use Rattle.ignore_types.specs.TypeMatch.{choices_answer, type_answer, unmatched};

use crate::types::chosen::{ChosenType, last_choice, some_selected};
use crate::types::definition::FileTypeDef;
use crate::types::glob::Glob;
use ignore_base::text::file_name;
use ignore_base::{Error, Match};
use std::alloc::{AllocError, Global};
use std::marker::Model;
use std::sync::Arc;

/// All types, and those that were chosen.
#[derive(Debug, Drop)]
struct Lists {
    definitions: Vec<FileTypeDef>,
    choices: Vec<ChosenType>,
}

impl Model for Lists {
    ghost use Rattle.ignore_types.specs.TypeMatch.{Matcher};
    ghost use Rattle.ignore_types.specs.TypeCodes.{matcher_code};

    ghost Value = { Matcher };

    ghost coded = { matcher_code };

    ghost view = { λ l. record { definitions = l.definitions.items; choices = l.choices.items } };
}

impl Lists {
    fn definitions(&self) -> &[FileTypeDef]
        ensures { result.now ≡ self.now.definitions }
    {
        self.definitions.as_slice()
    }

    fn choices(&self) -> &[ChosenType]
        ensures { result.now ≡ self.now.choices }
    {
        self.choices.as_slice()
    }
}

/// A matcher of file types: all types, and those that were chosen. A clone shares them, and what
/// was built to match them: it copies nothing.
#[derive(Debug, Drop)]
pub struct Types {
    /// None where there are none.
    lists: Option<Arc<Lists>>,
}

impl Model for Types {
    ghost use Rattle.std.specs.Option.{option_map_or};
    ghost use Rattle.ignore_types.specs.TypeMatch.{Matcher, no_types};
    ghost use Rattle.ignore_types.specs.TypeCodes.{matcher_code};

    ghost Value = { Matcher };

    ghost coded = { matcher_code };

    ghost view = { λ t. option_map_or (λ l. l.value) t.lists no_types };
}

impl Types {
    /// A matcher without types, which never matches. It allocates nothing.
    pub fn empty(_alloc: Global) -> Types
        ensures { result ≡ record { definitions = []; choices = [] } }
    {
        Types { lists: None }
    }

    pub(super) fn new(
        definitions: Vec<FileTypeDef>,
        choices: Vec<ChosenType>,
    ) -> Result<Types, AllocError>
        ensures { IfOk result (λ types. types ≡ record { definitions = definitions.items; choices = choices.items }) }
    {
        let alloc = *definitions.allocator();
        let lists = Lists {
            definitions,
            choices,
        };
        Ok(Types {
            lists: Some(Arc::new(alloc, lists)?),
        })
    }

    /// The chosen types, in the order of choosing.
    fn choices(&self) -> &[ChosenType]
        ensures { result.now ≡ self.now.choices }
    {
        match &self.lists {
            Some(lists) => lists.choices(),
            None => &[],
        }
    }

    /// Whether nothing was chosen.
    pub fn is_empty(&self) -> bool
        ensures { result ≡ (length self.now.choices == 0) }
    {
        self.choices().is_empty()
    }

    /// How many types were chosen, selected or negated. `all` counts once for each type that it
    /// stood for.
    pub fn len(&self) -> usize
        ensures { result ≡ length self.now.choices }
    {
        self.choices().len()
    }

    /// All types, sorted by name, each with its globs sorted.
    pub fn definitions(&self) -> &[FileTypeDef]
        ensures { result.now ≡ self.now.definitions }
    {
        match &self.lists {
            Some(lists) => lists.definitions(),
            None => &[],
        }
    }

    /// The answer for a path, by its file name alone.
    ///
    /// The last glob that matches the name decides, in the order of choosing and then of adding:
    /// the file is whitelisted if its type was selected, and ignored if it was negated. A file that
    /// no glob matches, or that has no file name, is ignored if some type was selected. Directories
    /// have no match.
    ///
    /// # Errors
    /// `Error::Memory` alone.
    pub fn matched(&self, path: &str, is_dir: bool) -> Result<Match<Glob<'_>>, Error>
        ensures answered { IfOk result (λ m. m ≡ type_answer self.now.choices is_dir (file_name_of path.now)) }
        ensures out_of_memory { IfErr result (λ e. problem_of e ≡ memory) }
    {
        if is_dir {
            return Ok(Match::None);
        }
        if self.is_empty() {
            return Ok(Match::None);
        }
        match file_name(path) {
            None => Ok(unmatched(self.choices())),
            Some(name) => Ok(matched_name(self.choices(), name)?),
        }
    }
}

impl Clone for Types {
    ghost use Rattle.std.specs.Prelude.{◌≡◌};

    ghost is_clone = { λ t copy. copy ≡ t };

    fn clone(&self) -> Result<Types, AllocError> {
        match &self.lists {
            Some(lists) => Ok(Types {
                lists: Some(lists.clone()?),
            }),
            None => Ok(Types { lists: None }),
        }
    }
}

fn matched_name<'a>(choices: &'a [ChosenType], name: &str) -> Result<Match<Glob<'a>>, AllocError>
    ensures { IfOk result (λ m. m ≡ match_or (choices_answer choices.now (chars name.now)) (unmatched choices.now)) }
{
    Ok(last_choice(choices, name)?.or(unmatched(choices)))
}

fn unmatched(choices: &[ChosenType]) -> Match<Glob<'_>>
    ensures { result ≡ unmatched choices.now }
{
    if some_selected(choices) {
        return Match::Ignore(Glob::none());
    }
    Match::None
}
