//! File types of the command line, and which types are chosen.
ghost use Rattle.std.specs.Prelude.{◌≡◌, ◌⊎◌, IfOk, IfErr, OnOk};
ghost use Rattle.ignore_base.specs.Problem.{problem_of, memory};
ghost use Rattle.ignore_types.specs.Building.{IsBuilt};
ghost use Rattle.ignore_types.specs.Types.{Draft, IsAscending, IsSortedCopy};
ghost use Rattle.std.specs.List.{AllZip};
ghost use Rattle.ig_options.specs.Choices.{AddsTypes, IsDraft, RefusesDefinitions, RefusesTypes, with_all_chosen};

use crate::options::Options;
use ignore_base::Error;
use ignore_dir::Names;
use ignore_types::types::{FileTypeDef, Types, TypesBuilder};

/// The file types that are asked for: those that a builder has at first, those of `--type-add`
/// after them, and of all of them those of `-t` selected and those of `-T` negated.
///
/// # Errors
/// `InvalidDefinition` for the first definition that isn't valid; `UnrecognizedFileType` for the
/// first choice that names no type, or `Glob` for the first invalid glob of a chosen type;
/// `Memory`.
pub fn types_of(mut first: TypesBuilder, options: &Options) -> Result<Types, Error>
    ensures value { IfOk result (λ types. (draft : Draft) × IsDraft options.now first draft × IsBuilt draft types) }
    ensures refused { IfErr result (λ e. (problem_of e ≡ memory) ⊎ RefusesTypes options.now first (problem_of e)) }
{
    push_definitions(&mut first, &options.type_add)?;
    push_choices(&mut first, &options.types, false)?;
    push_choices(&mut first, &options.types_not, true)?;
    first.build()
}

/// The file types that a builder has at first, and those of `--type-add` after them, in text order,
/// each with its globs sorted.
///
/// # Errors
/// `InvalidDefinition` for the first definition that isn't valid; `Memory`.
pub fn defined_types(mut first: TypesBuilder, options: &Options) -> Result<Vec<FileTypeDef>, Error>
    ensures copies { IfOk result (λ ds. (draft : Draft) × AddsTypes options.now.type_add first draft
        × AllZip IsSortedCopy draft.definitions ds.items) }
    ensures by_name { IfOk result (λ ds. IsAscending ds.items) }
    ensures refused { IfErr result (λ e. (problem_of e ≡ memory) ⊎ RefusesDefinitions options.now.type_add first (problem_of e)) }
{
    push_definitions(&mut first, &options.type_add)?;
    first.definitions()
}

/// Adds definitions in turn, up to one that isn't valid.
fn push_definitions(builder: &mut TypesBuilder, definitions: &Names) -> Result<(), Error>
    ensures added { OnOk result (AddsTypes definitions.now builder.old builder.new) }
    ensures refused { IfErr result (λ e. (problem_of e ≡ memory) ⊎ RefusesDefinitions definitions.now builder.old (problem_of e)) }
{
    for definition in definitions.as_slice() {
        builder.add_def(definition.as_str())?;
    }
    Ok(())
}

/// Chooses types in turn.
fn push_choices(builder: &mut TypesBuilder, names: &Names, negated: bool) -> Result<(), Error>
    ensures chosen { OnOk result (builder.new ≡ with_all_chosen negated names.now builder.old) }
    ensures out_of_memory { IfErr result (λ e. problem_of e ≡ memory) }
{
    for name in names.as_slice() {
        builder.push_selection(name.as_str(), negated)?;
    }
    Ok(())
}
