//! Collecting file types, and choices among them.
ghost use Rattle.std.specs.Prelude.{◌≡◌, ◌⊎◌, ◌==◌, [], true, false, map, OnOk, OnErr, IfOk, IfErr};
ghost use Rattle.std.specs.List.{AllZip, slice_split};
ghost use Rattle.ignore_base.specs.Problem.{problem_of, memory, unrecognized};
ghost use Rattle.ignore_types.specs.Types.{Draft, IsSortedCopy, IsAscending, one_glob, included, request_of, request_of_fields};
ghost use Rattle.ignore_types.specs.Types.{after_request, Becomes, with_chosen, without};
ghost use Rattle.ignore_types.specs.Building.{IsBuilt, IsChosen, IsChoiceProblem, IsRefusedWith, FirstBad};
ghost use Rattle.ignore_types.specs.Refusals.{IsRefusal};
ghost use Rattle.ignore_types.specs.Defaults.{with_defaults};
ghost use Rattle.ignore_types.specs.AllDefaults.{all_default_rows};

use crate::default_types::DEFAULT_TYPES;
use crate::types::chosen::{ChosenType, read_globs};
use crate::types::definition::FileTypeDef;
use crate::types::definitions::Definitions;
use crate::types::fields::fields;
use crate::types::matcher::Types;
use crate::types::name::is_allowed;
use crate::types::selection::{Selection, selection_of, selections_of};
use ignore_base::Error;
use std::alloc::{AllocError, Global};
use std::marker::Model;

/// Collects file types and choices among them, for a `Types`.
///
/// A choice names a type and is looked up when the matcher is built, so types may be added after
/// they are chosen.
#[derive(Drop)]
pub struct TypesBuilder {
    types: Definitions,
    selections: Vec<Selection>,
}

impl Model for TypesBuilder {
    ghost use Rattle.ignore_types.specs.Types.{Draft};

    ghost Value = { Draft };

    ghost view = { λ b. record { definitions = b.types; choices = b.selections.items } };
}

impl TypesBuilder {
    /// A builder without types and without choices.
    pub fn new(alloc: Global) -> TypesBuilder
        ensures { result ≡ record { definitions = []; choices = [] } }
    {
        TypesBuilder {
            types: Definitions::new(alloc),
            selections: Vec::new(alloc),
        }
    }

    /// Appends a glob to the type of this name. A new name becomes a type.
    ///
    /// # Errors
    /// `InvalidDefinition` for the name `all`, and for a name with a character that is neither
    /// alphabetic nor a number (of the general categories Nd, Nl and No); `Memory`. After an error
    /// the builder is as before.
    pub fn add(&mut self, name: &str, glob: &str) -> Result<(), Error>
        ensures added { OnOk result (Becomes self.old (after_request (one_glob name.now glob.now) self.old.definitions) self.new) }
        ensures refused { IfErr result (IsRefusal (after_request (one_glob name.now glob.now) self.old.definitions)) }
        ensures unchanged { OnErr result (self.new ≡ self.old) }
    {
        if !is_allowed(name) {
            return Err(Error::InvalidDefinition);
        }
        self.types.add(name, glob)?;
        Ok(())
    }

    /// Adds the definition in a text.
    ///
    /// `name:glob` is as `add` of the two. `name:include:one,two` appends the globs of each of the
    /// types after `include` to the type of the name, in turn: a type that is listed twice is
    /// appended twice, and the type itself with what it has by then.
    ///
    /// # Errors
    /// `InvalidDefinition` for a text of another form or with an empty field, for a name that `add`
    /// rejects, and where a type of the list is unknown; `Memory`. After an error the builder is as
    /// before.
    pub fn add_def(&mut self, definition: &str) -> Result<(), Error>
        ensures added { OnOk result (Becomes self.old (after_request (request_of definition.now) self.old.definitions) self.new) }
        ensures refused { IfErr result (IsRefusal (after_request (request_of definition.now) self.old.definitions)) }
        ensures unchanged { OnErr result (self.new ≡ self.old) }
    {
        let fields = fields(*self.selections.allocator(), definition, ':')?;
        self.add_fields(&fields)
    }

    fn add_fields(&mut self, fields: &[&str]) -> Result<(), Error>
        ensures added { OnOk result (Becomes self.old
            (after_request (request_of_fields (map (λ p. p.now) fields.now)) self.old.definitions) self.new) }
        ensures refused { IfErr result (IsRefusal (after_request (request_of_fields (map (λ p. p.now) fields.now)) self.old.definitions)) }
        ensures unchanged { OnErr result (self.new ≡ self.old) }
    {
        match fields {
            [name, glob] => {
                if name.is_empty() || glob.is_empty() {
                    return Err(Error::InvalidDefinition);
                }
                self.add(name, glob)
            }
            [name, word, sources] => {
                if *word != "include" {
                    return Err(Error::InvalidDefinition);
                }
                if name.is_empty() {
                    return Err(Error::InvalidDefinition);
                }
                if sources.is_empty() {
                    return Err(Error::InvalidDefinition);
                }
                self.include(name, sources)
            }
            [] => Err(Error::InvalidDefinition),
            [_] => Err(Error::InvalidDefinition),
            [_, _, _, _, ..] => Err(Error::InvalidDefinition),
        }
    }

    fn include(&mut self, name: &str, sources: &str) -> Result<(), Error>
        ensures added { OnOk result (Becomes self.old
            (after_request (included name.now (slice_split (λ b. b == 44) sources.now)) self.old.definitions) self.new) }
        ensures refused { IfErr result
            (IsRefusal (after_request (included name.now (slice_split (λ b. b == 44) sources.now)) self.old.definitions)) }
        ensures unchanged { OnErr result (self.new ≡ self.old) }
    {
        if !is_allowed(name) {
            return Err(Error::InvalidDefinition);
        }
        let sources = fields(*self.selections.allocator(), sources, ',')?;
        if !self.types.has_all(&sources) {
            return Err(Error::InvalidDefinition);
        }
        self.types = self.types.with_types(name, &sources)?;
        Ok(())
    }

    /// The matcher of the types and choices so far. The builder can be used further.
    ///
    /// # Errors
    /// For the first choice that is rejected, in the order of choosing: `UnrecognizedFileType` with
    /// its name where no type has it, or `Glob` for the first invalid glob of its type; `Memory`.
    pub fn build(&self) -> Result<Types, Error>
        ensures built { IfOk result (IsBuilt self.now) }
        ensures refused { IfErr result (λ e. (problem_of e ≡ memory) ⊎ IsRefusedWith self.now (problem_of e)) }
    {
        let choices = self.chosen_types()?;
        let definitions = self.types.sorted_copies()?;
        Ok(Types::new(definitions, choices)?)
    }

    fn chosen_types(&self) -> Result<Vec<ChosenType>, Error>
        ensures built { IfOk result (λ all. AllZip (IsChosen self.now.definitions) self.now.choices all.items) }
        ensures refused { IfErr result (λ e. (problem_of e ≡ memory) ⊎ IsRefusedWith self.now (problem_of e)) }
    {
        chosen_types(*self.selections.allocator(), &self.types, &self.selections)
    }

    /// The types added so far, sorted by name, each with its globs sorted.
    ///
    /// # Errors
    /// `Memory` alone, as the types are copied.
    pub fn definitions(&self) -> Result<Vec<FileTypeDef>, Error>
        ensures copies { IfOk result (λ ds. AllZip IsSortedCopy self.now.definitions ds.items) }
        ensures by_name { IfOk result (λ ds. IsAscending ds.items) }
        ensures out_of_memory { IfErr result (λ e. problem_of e ≡ memory) }
    {
        Ok(self.types.sorted_copies()?)
    }

    /// Drops the type of this name, if there is one. Choices that name it stay, and `build` rejects
    /// them unless the type is added again.
    pub fn clear(&mut self, name: &str) -> &mut Self
        ensures same_reference { result.ghost_name ≡ self.entry.ghost_name }
        ensures value { result.now ≡ record { definitions = without name.now self.old.definitions; choices = self.old.choices } }
    {
        self.types.remove(name);
        self
    }

    /// Selects the type of this name, after the choices made so far. `all` stands for each type
    /// that exists at this call, in text order.
    ///
    /// # Errors
    /// `Memory` alone. What holds of the builder after it is proved of `push_selection`, which does
    /// the work, and not of this call.
    pub fn select(&mut self, name: &str) -> Result<&mut Self, Error>
        ensures same_reference { IfOk result (λ b. b.ghost_name ≡ self.entry.ghost_name) }
        ensures selected { IfOk result (λ b. b.now ≡ with_chosen false name.now self.old) }
        ensures out_of_memory { IfErr result (λ e. problem_of e ≡ memory) }
    {
        self.push_selection(name, false)?;
        Ok(self)
    }

    /// Negates the type of this name, after the choices made so far. `all` stands for each type
    /// that exists at this call, in text order.
    ///
    /// # Errors
    /// `Memory` alone. What holds of the builder after it is proved of `push_selection`, which does
    /// the work, and not of this call.
    pub fn negate(&mut self, name: &str) -> Result<&mut Self, Error>
        ensures same_reference { IfOk result (λ b. b.ghost_name ≡ self.entry.ghost_name) }
        ensures negated { IfOk result (λ b. b.now ≡ with_chosen true name.now self.old) }
        ensures out_of_memory { IfErr result (λ e. problem_of e ≡ memory) }
    {
        self.push_selection(name, true)?;
        Ok(self)
    }

    /// As `select`, or as `negate`, without the builder in what is returned. After an error the
    /// builder is as before.
    pub fn push_selection(&mut self, name: &str, negated: bool) -> Result<(), Error>
        ensures chosen { OnOk result (self.new ≡ with_chosen negated name.now self.old) }
        ensures out_of_memory { IfErr result (λ e. problem_of e ≡ memory) }
        ensures unchanged { OnErr result (self.new ≡ self.old) }
    {
        Ok(self.choose(name, negated)?)
    }

    fn choose(&mut self, name: &str, negated: bool) -> Result<(), AllocError>
        ensures chosen { OnOk result (self.new ≡ with_chosen negated name.now self.old) }
        ensures unchanged { OnErr result (self.new ≡ self.old) }
    {
        let alloc = *self.selections.allocator();
        let mut more = if name == "all" {
            selections_of(alloc, self.types.as_slice(), negated)?
        } else {
            selection_of(alloc, name, negated)?
        };
        self.selections.append(&mut more)
    }

    /// Adds the rows of the table of default types, in its order.
    ///
    /// # Errors
    /// `Memory` alone. What holds of the builder after it is proved of `push_defaults`, which does
    /// the work, and not of this call.
    pub fn add_defaults(&mut self) -> Result<&mut Self, Error>
        ensures same_reference { IfOk result (λ b. b.ghost_name ≡ self.entry.ghost_name) }
        ensures added { IfOk result (λ b. b.now
            ≡ with_defaults (map (λ r. (map (λ n. n.now) r.0.now, map (λ g. g.now) r.1.now)) DEFAULT_TYPES) self.old) }
        ensures out_of_memory { IfErr result (λ e. problem_of e ≡ memory) }
    {
        self.push_defaults()?;
        Ok(self)
    }

    /// For dependents: as `add_defaults`, without the builder in the result.
    pub fn push_defaults(&mut self) -> Result<(), Error>
        ensures added { OnOk result (self.new
            ≡ with_defaults (map (λ r. (map (λ n. n.now) r.0.now, map (λ g. g.now) r.1.now)) DEFAULT_TYPES) self.old) }
        ensures out_of_memory { IfErr result (λ e. problem_of e ≡ memory) }
        ensures unchanged { OnErr result (self.new ≡ self.old) }
    {
        self.types = self.types.with_rows(&DEFAULT_TYPES)?;
        Ok(())
    }

    /// Adds all default types of the original: the 219 rows of its whole table, in its order.
    ///
    /// # Errors
    /// `Memory` alone. What holds of the builder after it is proved of `push_all_defaults`, which
    /// does the work, and not of this call.
    pub fn add_all_defaults(&mut self) -> Result<&mut Self, Error>
        ensures same_reference { IfOk result (λ b. b.ghost_name ≡ self.entry.ghost_name) }
        ensures added { IfOk result (λ b. b.now ≡ with_defaults all_default_rows self.old) }
        ensures out_of_memory { IfErr result (λ e. problem_of e ≡ memory) }
    {
        self.push_all_defaults()?;
        Ok(self)
    }

    /// For dependents: as `add_all_defaults`, without the builder in the result.
    pub fn push_all_defaults(&mut self) -> Result<(), Error>
        ensures added { OnOk result (self.new ≡ with_defaults all_default_rows self.old) }
        ensures out_of_memory { IfErr result (λ e. problem_of e ≡ memory) }
        ensures unchanged { OnErr result (self.new ≡ self.old) }
    {
        self.types = self.types.with_all_rows()?;
        Ok(())
    }
}

fn chosen_types(
    alloc: Global,
    types: &Definitions,
    selections: &[Selection],
) -> Result<Vec<ChosenType>, Error>
    ensures built { IfOk result (λ all. AllZip (IsChosen types.now) selections.now all.items) }
    ensures refused { IfErr result (λ e. (problem_of e ≡ memory)
        ⊎ FirstBad (IsChosen types.now) (IsChoiceProblem types.now (problem_of e)) selections.now) }
{
    let mut all = Vec::new(alloc);
    for selection in selections {
        let choice = chosen_type(alloc, types, selection)?;
        all.push(choice)?;
    }
    Ok(all)
}

fn chosen_type(
    alloc: Global,
    types: &Definitions,
    selection: &Selection,
) -> Result<ChosenType, Error>
    ensures built { IfOk result (IsChosen types.now selection.now) }
    ensures refused { IfErr result (λ e. (problem_of e ≡ memory) ⊎ IsChoiceProblem types.now (problem_of e) selection.now) }
{
    let Some(definition) = types.get(selection.name()) else {
        return Err(unrecognized(alloc, selection.name())?);
    };
    let globs = read_globs(alloc, definition.globs())?;
    let copy = definition.clone()?;
    Ok(ChosenType::new(copy, globs, selection.is_negated())?)
}

/// The error of a choice whose name no type has.
fn unrecognized(alloc: Global, name: &str) -> Result<Error, AllocError>
    ensures { IfOk result (λ e. problem_of e ≡ unrecognized name.now) }
{
    Ok(Error::UnrecognizedFileType(String::from_str(alloc, name)?))
}
