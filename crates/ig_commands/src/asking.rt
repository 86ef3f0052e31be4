//! The settings and the rules from outside that the options ask for.
ghost use Rattle.std.specs.Prelude.{◌≡◌, ◌⊎◌, false, IfOk, IfErr, map, option_map};
ghost use Rattle.ignore_base.specs.Problem.{problem_of, memory};
ghost use Rattle.ignore_files.specs.Gives.{IsHonest};
ghost use Rattle.ignore_files.specs.Tree.{Tree};
ghost use Rattle.ignore.specs.Builder.{with_hidden, with_overrides, with_types};
ghost use Rattle.ig_commands.specs.Listing.{IsAsked, IsAskedBy, RefusesOptions, base_of, named_told};
ghost use Rattle.ig_commands.specs.Run.{types_at_first};
ghost use Rattle.ig_options.specs.Choices.{RefusesTypes};
ghost use Rattle.ig_options.specs.Globs.{RefusesOneOf};
ghost use Rattle.ig_commands.specs.Surveys.{IsAskedMet};

use commands::World;
use ig_options::{Options, add_files, globs_of, types_of, walk_options};
use ignore::WalkOptions;
use ignore::overrides::Override;
use ignore_base::Error;
use ignore_files::{Env, Files};
use ignore_types::types::{Types, TypesBuilder};
use std::alloc::Global;

/// What a walk goes by, and what is to be reported of the files that the options name.
#[derive(Drop)]
pub(crate) struct Asked {
    pub(crate) walk: WalkOptions,
    pub(crate) errors: Vec<Option<Error>>,
}

/// What the options ask for. `first` has the file types that exist without `--type-add`.
pub(crate) fn asked_for<F: Files>(
    world: &World<'_, F>,
    options: &Options,
    first: TypesBuilder,
) -> Result<Asked, Error>
    ensures read { (tree : Tree) → IsHonest F.Files world.now.files.now tree
        → IfOk result (λ a. IsAsked tree world.now.env.now options.now first a.walk (map (option_map problem_of) a.errors.items)) }
    ensures answered { IfOk result (λ a. IsAskedBy F.Files world.now.files.now world.now.env.now options.now first a.walk) }
    ensures refused { IfErr result (λ e. (problem_of e ≡ memory)
        ⊎ RefusesOptions world.now.env.now options.now first (problem_of e)) }
{
    let globs = globs_of(world.alloc, options, base_dir(world.env))?;
    let types = types_of(first, options)?;
    let mut walk = walk_options(world.alloc, options)?;
    set_rules(&mut walk, globs, types);
    let found = add_files(world.alloc, world.files, world.env, options, &mut walk)?;
    let errors = to_report(world.alloc, options, found);
    Ok(Asked { walk, errors })
}

/// What is wrong with the files that are named, where it is to be reported.
fn to_report(alloc: Global, options: &Options, errors: Vec<Option<Error>>) -> Vec<Option<Error>>
    ensures { map (option_map problem_of) result.items ≡ named_told options.now (map (option_map problem_of) errors.items) }
{
    if options.no_ignore_messages {
        return Vec::new(alloc);
    }
    errors
}

/// Whether the options are rejected, as they are where what they ask for is made of them. `first` has
/// the file types that exist without `--type-add`.
///
/// # Errors
/// Why they are; or `Error::Memory`.
pub(crate) fn check_options(
    alloc: Global,
    env: &Env,
    options: &Options,
    first: TypesBuilder,
) -> Result<(), Error>
    ensures refused { IfErr result (λ e. (problem_of e ≡ memory) ⊎ RefusesOptions env.now options.now first (problem_of e)) }
{
    check_globs(alloc, env, options)?;
    check_types(options, first)
}

/// Whether a glob of the options is rejected.
fn check_globs(alloc: Global, env: &Env, options: &Options) -> Result<(), Error>
    ensures refused { IfErr result (λ e. (problem_of e ≡ memory) ⊎ RefusesOneOf options.now (base_of env.now) (problem_of e)) }
{
    match globs_of(alloc, options, base_dir(env)) {
        Ok(_) => Ok(()),
        Err(error) => Err(error),
    }
}

/// Whether a type of the options is rejected.
fn check_types(options: &Options, first: TypesBuilder) -> Result<(), Error>
    ensures refused { IfErr result (λ e. (problem_of e ≡ memory) ⊎ RefusesTypes options.now first (problem_of e)) }
{
    match types_of(first, options) {
        Ok(_) => Ok(()),
        Err(error) => Err(error),
    }
}

/// The globs of the command line and the chosen types.
fn set_rules(walk: &mut WalkOptions, globs: Override, types: Types)
    ensures { walk.new ≡ with_types (with_overrides walk.old globs) types }
{
    walk.overrides(globs);
    walk.types(types);
}

/// The directory that globs are relative to.
fn base_dir(env: &Env) -> &str
    ensures { result.now ≡ base_of env.now }
{
    match &env.current_dir {
        Some(dir) => dir.as_str(),
        None => "",
    }
}

/// The file types that exist without `--type-add`.
pub(crate) fn default_types(alloc: Global) -> Result<TypesBuilder, Error>
    ensures value { IfOk result (λ types. types ≡ types_at_first) }
    ensures out_of_memory { IfErr result (λ e. problem_of e ≡ memory) }
{
    let mut builder = TypesBuilder::new(alloc);
    builder.push_all_defaults()?;
    Ok(builder)
}

/// What the options ask for, but with hidden entries met as all others are.
pub(crate) fn asked_met<F: Files>(
    world: &World<'_, F>,
    options: &Options,
    first: TypesBuilder,
) -> Result<Asked, Error>
    ensures read { (tree : Tree) → IsHonest F.Files world.now.files.now tree
        → IfOk result (λ a. IsAskedMet tree world.now.env.now options.now first a.walk (map (option_map problem_of) a.errors.items)) }
    ensures refused { IfErr result (λ e. (problem_of e ≡ memory)
        ⊎ RefusesOptions world.now.env.now options.now first (problem_of e)) }
{
    let mut asked = asked_for(world, options, first)?;
    meet_hidden(&mut asked.walk);
    Ok(asked)
}

/// Has hidden entries met as all others are.
fn meet_hidden(walk: &mut WalkOptions)
    ensures { walk.new ≡ with_hidden walk.old false }
{
    walk.hidden(false);
}
