//! What a builder is told besides settings: globs of a command line, file types, files of rules.
ghost use Rattle.std.specs.Prelude.{◌≡◌, false, IfOk, OnOk, OnErr, map, string_bytes};
ghost use Rattle.ignore_rules.specs.Rules.{begun, with_case_insensitive, with_unclosed_class};
ghost use Rattle.ignore_base.specs.Problem.{problem_of};
ghost use Rattle.ignore_types.specs.AllDefaults.{all_default_rows};
ghost use Rattle.ignore_types.specs.Defaults.{with_defaults};
ghost use Rattle.ignore_kept.specs.Kinds.{setup_in, tree_in};
ghost use Rattle.ignore_kept.specs.Wishes.{AddsDefaults, AddsOf, AddsRules, Blames, Takes, TellsOf, Wishes, well};
ghost use Rattle.ignore_kept.specs.declared.wish.Wish.TheVariants as wish;

use crate::kept::Kept;
use crate::lines::{Problem, no_problem, told_problem};
use crate::room::text_of;
use crate::setup::Setup;
use crate::stopped::{Stopped, is_memory};
use ignore::Error;
use ignore::default_types::DEFAULT_TYPES;
use ignore::files::MemoryTree;
use ignore::overrides::OverrideBuilder;
use std::alloc::Global;

/// What a builder is told.
#[derive(Clone, Copy, Drop)]
pub enum Wish<'w> {
    /// Globs of a command line begin, relative to a directory; whether they match both ASCII cases.
    Overrides(&'w [u8], bool),
    /// One glob more.
    Glob(&'w [u8]),
    /// The globs count from now on.
    SetOverrides,
    /// A type has one glob more.
    TypeGlob(&'w [u8], &'w [u8]),
    /// A definition of a type.
    TypeDef(&'w [u8]),
    /// A type is chosen.
    Select(&'w [u8]),
    /// A type is chosen to be ignored.
    Negate(&'w [u8]),
    /// A type is no more.
    Clear(&'w [u8]),
    /// The chosen types count from now on.
    SetTypes,
}

/// Tells it to the builder that is kept.
#[tactic(auto, using(crate::proofs::Wishing::wishes))]
pub fn tell(alloc: Global, kept: &mut Kept, wish: Wish<'_>) -> Result<(), Stopped>
    ensures { Wishes wish.entry kept.old result kept.new }
{
    let Kept::Setup(setup) = kept else {
        return Err(Stopped::Misused);
    };
    take(alloc, setup, wish)
}

fn take(alloc: Global, setup: &mut Setup, wish: Wish<'_>) -> Result<(), Stopped>
    ensures { Takes wish.entry setup.old result setup.new }
{
    match wish {
        Wish::Overrides(root, both_cases) => begin_globs(alloc, setup, root, both_cases),
        Wish::Glob(glob) => add_glob(setup, glob),
        Wish::SetOverrides => set_globs(setup),
        Wish::TypeGlob(name, glob) => type_glob(setup, name, glob),
        Wish::TypeDef(text) => type_def(setup, text),
        Wish::Select(name) => select(setup, name),
        Wish::Negate(name) => negate(setup, name),
        Wish::Clear(name) => clear(setup, name),
        Wish::SetTypes => set_types(setup),
    }
}

fn begin_globs(
    alloc: Global,
    setup: &mut Setup,
    root: &[u8],
    both_cases: bool,
) -> Result<(), Stopped>
    ensures { Takes (wish.Overrides root.entry both_cases) setup.old result setup.new }
{
    let Ok(root) = text_of(root) else {
        return Err(Stopped::NotUtf8);
    };
    let Ok(globs) = globs_of(alloc, root, both_cases) else {
        return Err(Stopped::Memory);
    };
    setup.globs = Some(globs);
    setup.problem = None;
    Ok(())
}

fn globs_of(alloc: Global, root: &str, both_cases: bool) -> Result<OverrideBuilder, Error>
    ensures { IfOk result (λ b. b ≡ with_case_insensitive (with_unclosed_class (begun root.now) false) both_cases) }
{
    let mut globs = OverrideBuilder::new(alloc, root)?;
    globs.case_insensitive(both_cases)?;
    Ok(globs)
}

#[tactic(auto, using(crate::proofs::Wishing::glob_added, crate::proofs::Wishing::glob_refused))]
fn add_glob(setup: &mut Setup, glob: &[u8]) -> Result<(), Stopped>
    ensures { Takes (wish.Glob glob.entry) setup.old result setup.new }
{
    let Ok(glob) = text_of(glob) else {
        return Err(Stopped::NotUtf8);
    };
    let Some(globs) = &mut setup.globs else {
        return Err(Stopped::Misused);
    };
    match globs.push(glob) {
        Ok(()) => {
            setup.problem = None;
            Ok(())
        }
        Err(error) => refuse(setup, error),
    }
}

/// Keeps what is wrong, unless memory ran out.
fn refuse(setup: &mut Setup, error: Error) -> Result<(), Stopped>
    ensures { Blames (problem_of error) setup.old result setup.new }
{
    if is_memory(&error) {
        return Err(Stopped::Memory);
    }
    setup.problem = Some(error);
    Err(Stopped::Invalid)
}

fn set_globs(setup: &mut Setup) -> Result<(), Stopped>
    ensures { Takes wish.SetOverrides setup.old result setup.new }
{
    let Some(globs) = &setup.globs else {
        return Err(Stopped::Misused);
    };
    let Ok(globs) = globs.build() else {
        return Err(Stopped::Memory);
    };
    setup.options.overrides(globs);
    setup.problem = None;
    Ok(())
}

#[tactic(auto, using(crate::proofs::Wishing::type_asked, crate::proofs::Wishing::type_refused))]
fn type_glob(setup: &mut Setup, name: &[u8], glob: &[u8]) -> Result<(), Stopped>
    ensures { Takes (wish.TypeGlob name.entry glob.entry) setup.old result setup.new }
{
    let Ok(name) = text_of(name) else {
        return Err(Stopped::NotUtf8);
    };
    let Ok(glob) = text_of(glob) else {
        return Err(Stopped::NotUtf8);
    };
    match setup.types.add(name, glob) {
        Ok(()) => {
            setup.problem = None;
            Ok(())
        }
        Err(error) => refuse(setup, error),
    }
}

#[tactic(auto, using(crate::proofs::Wishing::def_asked, crate::proofs::Wishing::def_refused))]
fn type_def(setup: &mut Setup, text: &[u8]) -> Result<(), Stopped>
    ensures { Takes (wish.TypeDef text.entry) setup.old result setup.new }
{
    let Ok(text) = text_of(text) else {
        return Err(Stopped::NotUtf8);
    };
    match setup.types.add_def(text) {
        Ok(()) => {
            setup.problem = None;
            Ok(())
        }
        Err(error) => refuse(setup, error),
    }
}

fn select(setup: &mut Setup, name: &[u8]) -> Result<(), Stopped>
    ensures { Takes (wish.Select name.entry) setup.old result setup.new }
{
    let Ok(name) = text_of(name) else {
        return Err(Stopped::NotUtf8);
    };
    let Ok(()) = setup.types.push_selection(name, false) else {
        return Err(Stopped::Memory);
    };
    setup.problem = None;
    Ok(())
}

fn negate(setup: &mut Setup, name: &[u8]) -> Result<(), Stopped>
    ensures { Takes (wish.Negate name.entry) setup.old result setup.new }
{
    let Ok(name) = text_of(name) else {
        return Err(Stopped::NotUtf8);
    };
    let Ok(()) = setup.types.push_selection(name, true) else {
        return Err(Stopped::Memory);
    };
    setup.problem = None;
    Ok(())
}

fn clear(setup: &mut Setup, name: &[u8]) -> Result<(), Stopped>
    ensures { Takes (wish.Clear name.entry) setup.old result setup.new }
{
    let Ok(name) = text_of(name) else {
        return Err(Stopped::NotUtf8);
    };
    setup.types.clear(name);
    setup.problem = None;
    Ok(())
}

#[tactic(auto, using(crate::proofs::Wishing::types_refused))]
fn set_types(setup: &mut Setup) -> Result<(), Stopped>
    ensures { Takes wish.SetTypes setup.old result setup.new }
{
    match setup.types.build() {
        Ok(types) => {
            setup.options.types(types);
            setup.problem = None;
            Ok(())
        }
        Err(error) => refuse(setup, error),
    }
}

/// Adds the types that are there by default to the builder that is kept.
#[tactic(auto, using(crate::proofs::Wishing::adds_defaults, crate::proofs::Wishing::adds_no_defaults))]
pub fn add_defaults(kept: &mut Kept) -> Result<(), Stopped>
    ensures { AddsDefaults (map (λ r. (map (λ n. n.now) r.0.now, map (λ g. g.now) r.1.now)) DEFAULT_TYPES) kept.old result kept.new }
{
    let Kept::Setup(setup) = kept else {
        return Err(Stopped::Misused);
    };
    match defaults(setup) {
        Ok(()) => Ok(()),
        Err(_) => Err(Stopped::Memory),
    }
}

fn defaults(setup: &mut Setup) -> Result<(), Error>
    ensures added { OnOk result (setup.new ≡ record (well setup.old) { types = with_defaults (map (λ r. (map (λ n. n.now) r.0.now, map (λ g. g.now) r.1.now)) DEFAULT_TYPES) setup.old.types }) }
    ensures unchanged { OnErr result (setup.new ≡ setup.old) }
{
    setup.types.push_defaults()?;
    setup.problem = None;
    Ok(())
}

/// Adds all types of the original's table to the builder that is kept.
#[tactic(auto, using(crate::proofs::Wishing::adds_defaults, crate::proofs::Wishing::adds_no_defaults))]
pub fn add_all_defaults(kept: &mut Kept) -> Result<(), Stopped>
    ensures { AddsDefaults all_default_rows kept.old result kept.new }
{
    let Kept::Setup(setup) = kept else {
        return Err(Stopped::Misused);
    };
    match all_defaults(setup) {
        Ok(()) => Ok(()),
        Err(_) => Err(Stopped::Memory),
    }
}

fn all_defaults(setup: &mut Setup) -> Result<(), Error>
    ensures added { OnOk result (setup.new ≡ record (well setup.old) { types = with_defaults all_default_rows setup.old.types }) }
    ensures unchanged { OnErr result (setup.new ≡ setup.old) }
{
    setup.types.push_all_defaults()?;
    setup.problem = None;
    Ok(())
}

/// Reads a file of rules of a tree now, and adds it.
#[tactic(auto, using(crate::proofs::Wishing::adds))]
pub fn add_ignore(kept: &mut Kept, tree: &Kept, path: &[u8]) -> Result<(), Stopped>
    ensures { AddsOf (setup_in kept.old) (tree_in tree.now) path.now kept.old result kept.new }
{
    let Kept::Setup(setup) = kept else {
        return Err(Stopped::Misused);
    };
    let Kept::Tree(tree) = tree else {
        return Err(Stopped::Misused);
    };
    add_rules(setup, tree, path)
}

#[tactic(auto, using(crate::proofs::Wishing::rules_added, crate::proofs::Wishing::rules_refused))]
fn add_rules(setup: &mut Setup, tree: &MemoryTree, path: &[u8]) -> Result<(), Stopped>
    ensures { AddsRules tree.now path.now setup.old result setup.new }
{
    let Ok(path) = text_of(path) else {
        return Err(Stopped::NotUtf8);
    };
    tree.is_honest();
    let Ok(problem) = setup.options.add_ignore(tree, &setup.env, path) else {
        return Err(Stopped::Memory);
    };
    setup.problem = problem;
    match &setup.problem {
        None => Ok(()),
        Some(_) => Err(Stopped::Invalid),
    }
}

/// What is wrong with what a builder was told last.
pub fn problem(alloc: Global, kept: &Kept) -> Problem
    ensures { TellsOf (setup_in kept.now) result.code (string_bytes result.text) }
{
    let Kept::Setup(setup) = kept else {
        return no_problem(alloc, Stopped::Misused.code());
    };
    match &setup.problem {
        None => no_problem(alloc, 1),
        Some(error) => told_problem(alloc, error),
    }
}
