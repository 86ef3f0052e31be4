//! Lines added to rules.
ghost use Rattle.std.specs.Prelude.{◌≡◌, ◌⊎◌, ◌++◌, ◌∷◌, [], None, Some, IfOk, IfErr, OnOk, OnErr, IsOk, option_map, string_bytes, length};
ghost use Rattle.std.specs.Prelude.{take};
ghost use Rattle.std.specs.Arc.{arc_str_bytes};
ghost use Rattle.ignore_base.specs.Problem.{problem_of, memory};
ghost use Rattle.ignore_rules.specs.Line.{parsed_line};
ghost use Rattle.ignore_rules.specs.Rules.{begun, AddsLine, Refuses, AddsParsed, GivesProblem, built, with_rule, with_case_insensitive};
ghost use Rattle.ignore_rules.specs.Rules.{with_git_trailing_spaces, with_unclosed_class};

use crate::gitignore::glob::Glob;
use crate::gitignore::line::ParsedLine;
use crate::gitignore::matcher::Gitignore;
use crate::gitignore::origin::Origin;
use ignore_base::Error;
use ignore_base::text::trim_root;
use ignore_glob::glob::{Options, Pattern, PatternError};
use std::alloc::{AllocError, Global};
use std::marker::Model;
use std::sync::ArcStr;

/// Builds a matcher from the lines of gitignore files, in order.
#[derive(Debug, Drop)]
pub struct GitignoreBuilder {
    root: String,
    globs: Vec<Glob>,
    options: Options,
    git_trailing_spaces: bool,
}

impl Model for GitignoreBuilder {
    ghost use Rattle.std.specs.Prelude.{string_bytes};
    ghost use Rattle.ignore_rules.specs.Rules.{Building};
    ghost use Rattle.ignore_rules.specs.RuleCodes.{building_code};

    ghost Value = { Building };

    ghost coded = { building_code };

    ghost view = { λ b. record {
      root = string_bytes b.root;
      rules = b.globs.items;
      options = record { glob = b.options; git_trailing_spaces = b.git_trailing_spaces };
    } };
}

impl GitignoreBuilder {
    /// A builder of no rules, relative to the directory `root`, of which one leading `./` is
    /// stripped.
    ///
    /// # Errors
    /// `Error::Memory` alone.
    pub fn new(alloc: Global, root: &str) -> Result<GitignoreBuilder, Error>
        ensures value { IfOk result (λ b. b ≡ begun root.now) }
        ensures out_of_memory { IfErr result (λ e. problem_of e ≡ memory) }
    {
        Ok(GitignoreBuilder::begun(alloc, root, false)?)
    }

    /// Adds one line, as in gitignore(5): a comment or a blank line adds nothing, any other line
    /// adds a rule. `from` is kept with the rule.
    ///
    /// # Errors
    /// `Error::Glob` with the line and its parse error where the glob of the line is invalid, or
    /// `Error::Memory`. What holds of the builder after an error is proved of `push_line`, which
    /// does the work, and not of this call: a caller that needs it as it was uses that one.
    pub fn add_line(&mut self, from: Option<String>, line: &str) -> Result<&mut Self, Error>
        ensures same_reference { IfOk result (λ b. b.ghost_name ≡ self.entry.ghost_name) }
        ensures added { IfOk result (λ b. AddsLine self.old (option_map string_bytes from) line.now b.now) }
        ensures refused { IfErr result (λ e. (problem_of e ≡ memory) ⊎ Refuses self.old.options line.now (problem_of e)) }
    {
        self.push_line(from, line)?;
        Ok(self)
    }

    /// As `add_line`, without the builder in what is returned. After an error the builder is as
    /// before.
    pub fn push_line(&mut self, from: Option<String>, line: &str) -> Result<(), Error>
        ensures added { OnOk result (AddsLine self.old (option_map string_bytes from) line.now self.new) }
        ensures refused { IfErr result (λ e. (problem_of e ≡ memory) ⊎ Refuses self.old.options line.now (problem_of e)) }
        ensures unchanged { OnErr result (self.new ≡ self.old) }
    {
        match self.parsed_line(line)? {
            Some(parsed_line) => {
                let from = shared(from)?;
                self.push_parsed(Origin { from, line: 0 }, parsed_line)
            }
            None => Ok(()),
        }
    }

    pub(crate) fn push_parsed(
        &mut self,
        origin: Origin,
        parsed_line: ParsedLine,
    ) -> Result<(), Error>
        ensures added { OnOk result (AddsParsed self.old origin (Some parsed_line) self.new) }
        ensures refused { IfErr result (λ e. (problem_of e ≡ memory) ⊎ GivesProblem self.old.options (Some parsed_line) (problem_of e)) }
        ensures unchanged { OnErr result (self.new ≡ self.old) }
    {
        let alloc = *self.root.allocator();
        match Pattern::parse(alloc, parsed_line.actual(), self.options) {
            Ok(pattern) => Ok(self.push_glob(Glob::new(origin, parsed_line, pattern))?),
            Err(PatternError::Fault(fault)) => Err(parsed_line.refused(alloc, fault)),
            Err(PatternError::Memory) => Err(Error::Memory),
        }
    }

    fn push_glob(&mut self, glob: Glob) -> Result<(), AllocError>
        ensures added { OnOk result (self.new ≡ with_rule self.old (Some glob)) }
        ensures unchanged { OnErr result (self.new ≡ self.old) }
    {
        Ok(self.globs.push(glob)?)
    }

    /// The matcher of the rules added so far, in their order. Without rules it is the empty
    /// matcher, whose root is empty. The builder can be used further.
    ///
    /// # Errors
    /// `Error::Memory` alone, as the rules are copied.
    pub fn build(&self) -> Result<Gitignore, Error>
        ensures value { IfOk result (λ g. g ≡ built self.now) }
        ensures out_of_memory { IfErr result (λ e. problem_of e ≡ memory) }
    {
        Ok(self.clone()?.into_gitignore())
    }

    /// For dependents: as `build`, for a builder that isn't used further. It copies nothing and
    /// allocates nothing.
    pub fn into_gitignore(self) -> Gitignore
        ensures { result ≡ built self }
    {
        if self.globs.is_empty() {
            return Gitignore::empty(*self.root.allocator());
        }
        let GitignoreBuilder { root, globs, .. } = self;
        Gitignore::from_parts(root, globs)
    }

    /// Whether the globs of later lines match both ASCII cases of a letter. It is off at first, and
    /// always `Ok`.
    pub fn case_insensitive(&mut self, yes: bool) -> Result<&mut Self, Error>
        ensures succeeds { IsOk result }
        ensures same_reference { IfOk result (λ b. b.ghost_name ≡ self.entry.ghost_name) }
        ensures value { IfOk result (λ b. b.now ≡ with_case_insensitive self.old yes) }
    {
        self.options.case_insensitive = yes;
        Ok(self)
    }

    /// Whether in the globs of later lines a `[` that nothing closes stands for itself, and is no
    /// error. It is on at first.
    pub fn allow_unclosed_class(&mut self, yes: bool) -> &mut Self
        ensures same_reference { result.ghost_name ≡ self.entry.ghost_name }
        ensures value { result.now ≡ with_unclosed_class self.old yes }
    {
        self.options.allow_unclosed_class = yes;
        self
    }

    /// Whether white space at the end of later lines is read by git's own rule: as long as a line
    /// ends with a space, and the number of backslashes directly before that is even, the space is
    /// removed, and other white space stays. Else all white space at the end is removed, unless the
    /// line ends with a backslash and one space, as the original has it. It is off at first.
    pub fn git_trailing_spaces(&mut self, yes: bool) -> &mut Self
        ensures same_reference { result.ghost_name ≡ self.entry.ghost_name }
        ensures value { result.now ≡ with_git_trailing_spaces self.old yes }
    {
        self.git_trailing_spaces = yes;
        self
    }
}

/// The text, to be shared.
fn shared(text: Option<String>) -> Result<Option<ArcStr>, AllocError>
    ensures { IfOk result (λ shared. option_map arc_str_bytes shared ≡ option_map string_bytes text) }
{
    match text {
        Some(text) => Ok(Some(ArcStr::from_string(text)?)),
        None => Ok(None),
    }
}

/// For the rest of the crate.
impl GitignoreBuilder {
    /// As `new`, where the globs of lines match both ASCII cases of a letter or don't.
    pub(crate) fn begun(
        alloc: Global,
        root: &str,
        case_insensitive: bool,
    ) -> Result<GitignoreBuilder, AllocError>
        ensures { IfOk result (λ b. b ≡ with_case_insensitive (begun root.now) case_insensitive) }
    {
        let root = String::from_str(alloc, trim_root(root))?;
        Ok(GitignoreBuilder {
            root,
            globs: Vec::new(alloc),
            options: Options {
                case_insensitive,
                allow_unclosed_class: true,
            },
            git_trailing_spaces: false,
        })
    }

    pub(crate) fn allocator(&self) -> Global {
        *self.root.allocator()
    }

    /// What a line parses to, by the options as they stand.
    pub(crate) fn parsed_line(&self, line: &str) -> Result<Option<ParsedLine>, AllocError>
        ensures { IfOk result (λ parsed. parsed ≡ parsed_line self.now.options.git_trailing_spaces line.now) }
    {
        ParsedLine::of(*self.root.allocator(), line, self.git_trailing_spaces)
    }

    pub(crate) fn rule_count(&self) -> usize
        ensures { result ≡ length self.now.rules }
    {
        self.globs.len()
    }

    /// Drops the rules after the first `count`.
    pub(crate) fn truncate_rules(&mut self, count: usize)
        ensures { self.new ≡ record { root = self.old.root; rules = take count self.old.rules; options = self.old.options } }
    {
        self.globs.truncate(count);
    }
}

impl Clone for GitignoreBuilder {
    ghost use Rattle.std.specs.Prelude.{◌≡◌};

    ghost is_clone = { λ b c. c ≡ b };

    fn clone(&self) -> Result<GitignoreBuilder, AllocError> {
        Ok(GitignoreBuilder {
            root: self.root.clone()?,
            globs: self.globs.clone()?,
            options: self.options,
            git_trailing_spaces: self.git_trailing_spaces,
        })
    }
}
