//! The directories that a guide is led through, as C tells of them.
ghost use Rattle.std.specs.Prelude.{◌≡◌, None, false, IfOk, IfErr, OnOk, OnErr, map, option_map};
ghost use Rattle.ignore.specs.Asked.{base_dir};
ghost use Rattle.ignore_base.specs.Problem.{problem_of};
ghost use Rattle.ignore_guide.specs.Hosted.{CallRefused, IsToldOf};
ghost use Rattle.ignore_guide.specs.Names.{IsAsked, IsRefused};
ghost use Rattle.ignore_guide.specs.Told.{IsAlmostFresh, IsFresh};
ghost use Rattle.ignore_guide.specs.declared.error.GuideError.TheVariants as errors;
ghost use Rattle.ignore_guide.specs.declared.hosted.Call.TheVariants as calls;
ghost use Rattle.ignore_guide.specs.declared.told.Told.{Told};
ghost use Rattle.ignore_kept.specs.Guides.{AddsAll, AddsIn, AsksOuter, AtBegun, Ends, Enters, Gives, GivesIn, IsBegun, KeptBy, Leaves, OnGuide, Reads, Roots, RootsFirst, RootsIn, Steps, is_waiting, place_in, settled};
ghost use Rattle.ignore_kept.specs.declared.guided.Begun.{Begun};
ghost use Rattle.ignore_kept.specs.declared.guided.Reading.{Reading};
ghost use Rattle.ignore_kept.specs.declared.guided.Stage.TheVariants as stages;

use crate::entries::names_in;
use crate::given::{Gift, given_of};
use crate::guided::{Begun, Guided, Reading, Stage};
use crate::kept::Kept;
use crate::room::text_of;
use crate::stopped::Stopped;
use ignore::files::{Env, Name};
use ignore::guide::{Given, GuideError, Place, Step, Told, Waiting};
use ignore::{Error, WalkOptions};
use ignore_dir::errors::joined_some;
use ignore_guide::internal::take_down;
use std::alloc::{AllocError, Global};
use std::mem;

/// What a step of a guide leaves, and the place, if the directory has come.
fn settle(begun: &mut Begun, step: Step) -> Option<Place>
    ensures settled { begun.new ≡ settled begun.old begun.old.guide step }
    ensures place { result ≡ place_in step }
{
    match step {
        Step::Wants(waiting) => {
            begun.waits = Some(waiting);
            None
        }
        Step::Arrived(arrived) => {
            begun.waits = None;
            begun.front = mem::replace(&mut begun.outer, None);
            begun.problem = arrived.error;
            Some(arrived.place)
        }
    }
}

/// Begins a root: its place, or none where its host is asked for something first.
#[tactic(auto, using(crate::proofs::Leading::on_guide))]
pub fn root(alloc: Global, kept: &mut Kept, root: &[u8]) -> Result<Option<Place>, Stopped>
    ensures { OnGuide (Roots root.now) kept.old result kept.new }
{
    let Kept::Guide(guided) = kept else {
        return Err(Stopped::Misused);
    };
    root_of(alloc, guided, root)
}

#[tactic(auto, using(crate::proofs::Leading::roots_fresh, crate::proofs::Leading::roots_reading, crate::proofs::Leading::roots_begun, crate::proofs::Leading::roots_none))]
fn root_of(alloc: Global, guided: &mut Guided, root: &[u8]) -> Result<Option<Place>, Stopped>
    ensures { Roots root.now guided.old result guided.new }
{
    let Ok(root) = text_of(root) else {
        return Err(Stopped::NotUtf8);
    };
    match &mut guided.stage {
        Stage::Fresh => first_root(alloc, guided, root),
        Stage::Reading(_) => Err(Stopped::Misused),
        Stage::Begun(begun) => root_in(begun, root),
    }
}

/// Begins a root that isn't the first one.
fn root_in(begun: &mut Begun, root: &str) -> Result<Option<Place>, Stopped>
    ensures { RootsIn root.now begun.old result begun.new }
{
    if begun.waits.is_some() {
        return Err(Stopped::Misused);
    }
    match step_of_root(begun, root) {
        Ok(place) => Ok(place),
        Err(_) => Err(Stopped::Memory),
    }
}

fn step_of_root(begun: &mut Begun, root: &str) -> Result<Option<Place>, GuideError>
    ensures steps { IfOk result (λ place. (told : Told) × IsFresh told × Steps begun.old (calls.Root root.now) told place begun.new) }
    ensures ends { is_waiting begun.old ≡ false → OnErr result (Ends begun.old begun.new) }
    ensures out_of_memory { IfErr result (λ e. e ≡ errors.Memory) }
{
    let step = begun.guide.ask_root(root)?;
    Ok(settle(begun, step))
}

/// Begins the first root.
fn first_root(alloc: Global, guided: &mut Guided, root: &str) -> Result<Option<Place>, Stopped>
    ensures { guided.old.stage ≡ stages.Fresh → RootsFirst root.now guided.old result guided.new }
{
    let Ok(root) = Name::from_str(alloc, root) else {
        return Err(Stopped::Memory);
    };
    let told = Told::nothing(alloc);
    match read_outside(alloc, guided, root, told) {
        Ok(place) => Ok(place),
        Err(_) => Err(Stopped::Memory),
    }
}

/// Goes on with the first root: its host is asked where something of the rules from outside is
/// missing, and else they are read.
fn read_outside(
    alloc: Global,
    guided: &mut Guided,
    root: Name,
    told: Told,
) -> Result<Option<Place>, AllocError>
    ensures reads { IfOk result (λ place. Reads guided.old root told place guided.new) }
    ensures unchanged { OnErr result (guided.new ≡ guided.old) }
{
    let paths = guided.paths.as_slice();
    let next = guided.options.next_for_guide(&told, &guided.env, paths)?;
    match next {
        None => begin_told(alloc, guided, root, &told),
        Some(question) => {
            guided.stage = Stage::Reading(Reading {
                root,
                told,
                question,
            });
            Ok(None)
        }
    }
}

/// Begins the first root where nothing of the rules from outside is missing.
fn begin_told(
    alloc: Global,
    guided: &mut Guided,
    root: Name,
    told: &Told,
) -> Result<Option<Place>, AllocError>
    ensures reads { AsksOuter guided.old told.now None → IfOk result (λ place. Reads guided.old root told.now place guided.new) }
    ensures unchanged { OnErr result (guided.new ≡ guided.old) }
{
    let begun = begun_by(alloc, guided, told)?;
    begin(guided, begun, root.as_str())
}

/// Begins the first root of a guide whose rules from outside were read.
fn begin(guided: &mut Guided, begun: Begun, root: &str) -> Result<Option<Place>, AllocError>
    ensures steps { IfOk result (λ place. (told : Told) × (after : Begun) × IsFresh told × Steps begun (calls.Root root.now) told place after
        × (guided.new ≡ record guided.old { stage = stages.Begun after })) }
    ensures unchanged { OnErr result (guided.new ≡ guided.old) }
{
    let mut begun = begun;
    let Ok(place) = step_of_root(&mut begun, root) else {
        return Err(AllocError);
    };
    guided.stage = Stage::Begun(begun);
    Ok(place)
}

/// The guide, by what was told of the rules from outside.
fn begun_by(alloc: Global, guided: &Guided, told: &Told) -> Result<Begun, AllocError>
    ensures { IfOk result (λ begun. IsBegun told.now guided.now begun) }
{
    let mut options = guided.options.clone()?;
    let paths = guided.paths.as_slice();
    let errors = add_all(alloc, &mut options, told, &guided.env, paths)?;
    let outer = joined_some(alloc, errors)?;
    let Ok(guide) = options.guide(told, &guided.env) else {
        return Err(AllocError);
    };
    Ok(Begun {
        guide,
        waits: None,
        outer,
        front: None,
        problem: None,
    })
}

/// Adds files of rules, in their order, and returns what is wrong with each.
fn add_all(
    alloc: Global,
    options: &mut WalkOptions,
    told: &Told,
    env: &Env,
    paths: &[Name],
) -> Result<Vec<Option<Error>>, AllocError>
    ensures { IfOk result (λ errors. AddsAll told.now env.now options.old paths.now options.new (map (option_map problem_of) errors.items)) }
{
    let mut errors = Vec::new(alloc);
    for path in paths {
        let error = added(options, told, env, path.as_str())?;
        errors.push(error)?;
    }
    Ok(errors)
}

/// Adds a file of rules, and returns what is wrong with it.
fn added(
    options: &mut WalkOptions,
    told: &Told,
    env: &Env,
    path: &str,
) -> Result<Option<Error>, AllocError>
    ensures { IfOk result (λ e. AddsIn told.now path.now (base_dir options.old env.now) options.old options.new (option_map problem_of e)) }
{
    match options.add_ignore(told, env, path) {
        Ok(error) => Ok(error),
        Err(_) => Err(AllocError),
    }
}

/// What is entered: the directory of a name in the one at a place, and what it lists.
#[derive(Clone, Copy)]
pub struct Entering<'e> {
    pub parent: Place,
    pub name: &'e [u8],
    /// The names that it lists, each ended by a zero; none where that isn't known.
    pub names: &'e [u8],
}

/// Enters a directory: its place, or none where its host is asked for something first.
#[tactic(auto, using(crate::proofs::Leading::on_guide))]
pub fn enter(
    alloc: Global,
    kept: &mut Kept,
    entering: Entering<'_>,
) -> Result<Option<Place>, Stopped>
    ensures { OnGuide (AtBegun (Enters entering.entry.parent entering.entry.name.now entering.entry.names.now)) kept.old result kept.new }
{
    let Kept::Guide(guided) = kept else {
        return Err(Stopped::Misused);
    };
    enter_of(alloc, guided, entering)
}

#[tactic(auto, using(crate::proofs::Leading::at_begun, crate::proofs::Leading::not_begun_fresh, crate::proofs::Leading::not_begun_reading))]
fn enter_of(
    alloc: Global,
    guided: &mut Guided,
    entering: Entering<'_>,
) -> Result<Option<Place>, Stopped>
    ensures { AtBegun (Enters entering.entry.parent entering.entry.name.now entering.entry.names.now) guided.old result guided.new }
{
    match &mut guided.stage {
        Stage::Fresh => Err(Stopped::Misused),
        Stage::Reading(_) => Err(Stopped::Misused),
        Stage::Begun(begun) => enter_in(alloc, begun, entering),
    }
}

#[tactic(auto, using(crate::proofs::Leading::enters_not, crate::proofs::Leading::enters_unlisted))]
fn enter_in(
    alloc: Global,
    begun: &mut Begun,
    entering: Entering<'_>,
) -> Result<Option<Place>, Stopped>
    ensures { Enters entering.entry.parent entering.entry.name.now entering.entry.names.now begun.old result begun.new }
{
    if begun.waits.is_some() {
        return Err(Stopped::Misused);
    }
    let Ok(name) = text_of(entering.name) else {
        return Err(Stopped::NotUtf8);
    };
    let names = match names_in(alloc, entering.names) {
        Ok(names) => names,
        Err(stopped) => return Err(stopped),
    };
    match step_below(begun, entering.parent, name, names.as_slice()) {
        Ok(place) => Ok(place),
        Err(error) => Err(Stopped::from(error)),
    }
}

fn step_below(
    begun: &mut Begun,
    parent: Place,
    name: &str,
    names: &[&str],
) -> Result<Option<Place>, GuideError>
    ensures steps { IfOk result (λ place. (told : Told) × IsAlmostFresh told × Steps begun.old (calls.Enter parent name.now) told place begun.new) }
    ensures there { OnOk result (IsAsked begun.old.guide.places parent name.now) }
    ensures ends { is_waiting begun.old ≡ false → OnErr result (Ends begun.old begun.new) }
    ensures refused { IfErr result (λ e. IsRefused begun.old.guide.places parent name.now e) }
    ensures unchanged { IfErr result (λ e. KeptBy e begun.old begun.new) }
{
    let step = begun.guide.ask_enter(parent, name, listed(names))?;
    Ok(settle(begun, step))
}

/// What a directory lists, where that is known.
fn listed<'n>(names: &'n [&'n str]) -> Option<&'n [&'n str]> {
    if names.is_empty() {
        return None;
    }
    Some(names)
}

/// Gives what is wanted, and goes on with the call that waits.
#[tactic(auto, using(crate::proofs::Leading::on_guide))]
pub fn give(alloc: Global, kept: &mut Kept, gift: Gift<'_>) -> Result<Option<Place>, Stopped>
    ensures { OnGuide (Gives gift.entry.kind gift.entry.bytes.now gift.entry.fault) kept.old result kept.new }
{
    let Kept::Guide(guided) = kept else {
        return Err(Stopped::Misused);
    };
    give_of(alloc, guided, gift)
}

#[tactic(auto, using(crate::proofs::Leading::gives_fresh, crate::proofs::Leading::gives_first, crate::proofs::Leading::gives_begun, crate::proofs::Leading::gives_first_none))]
fn give_of(alloc: Global, guided: &mut Guided, gift: Gift<'_>) -> Result<Option<Place>, Stopped>
    ensures { Gives gift.entry.kind gift.entry.bytes.now gift.entry.fault guided.old result guided.new }
{
    match &mut guided.stage {
        Stage::Fresh => Err(Stopped::Misused),
        Stage::Reading(reading) => {
            let given = match given_of(reading.question.wanted, gift) {
                Ok(given) => given,
                Err(stopped) => return Err(stopped),
            };
            match give_outside(alloc, guided, &given) {
                Ok(place) => Ok(place),
                Err(_) => Err(Stopped::Memory),
            }
        }
        Stage::Begun(begun) => give_in(begun, gift),
    }
}

/// Gives what a call wants.
#[tactic(auto, using(crate::proofs::Leading::gives_not, crate::proofs::Leading::gives_none))]
fn give_in(begun: &mut Begun, gift: Gift<'_>) -> Result<Option<Place>, Stopped>
    ensures { GivesIn gift.entry.kind gift.entry.bytes.now gift.entry.fault begun.old result begun.new }
{
    let Some(waiting) = &begun.waits else {
        return Err(Stopped::Misused);
    };
    let given = match given_of(waiting.question.wanted, gift) {
        Ok(given) => given,
        Err(stopped) => return Err(stopped),
    };
    match mem::replace(&mut begun.waits, None) {
        None => Err(Stopped::Misused),
        Some(waiting) => match step_on(begun, waiting, &given) {
            Ok(place) => Ok(place),
            Err(error) => Err(Stopped::from(error)),
        },
    }
}

fn step_on(
    begun: &mut Begun,
    waiting: Waiting,
    given: &Given<'_>,
) -> Result<Option<Place>, GuideError>
    ensures steps { IfOk result (λ place. (told : Told) × IsToldOf waiting.question given.now waiting.told told × Steps begun.old waiting.call told place begun.new) }
    ensures ends { is_waiting begun.old ≡ false → OnErr result (Ends begun.old begun.new) }
    ensures refused { IfErr result (λ e. CallRefused begun.old.guide.places waiting.call e) }
{
    let step = begun.guide.tell(waiting, given)?;
    Ok(settle(begun, step))
}

/// Gives what the first root wants to know of the rules from outside.
fn give_outside(
    alloc: Global,
    guided: &mut Guided,
    given: &Given<'_>,
) -> Result<Option<Place>, AllocError>
    ensures reads { (reading : Reading) → guided.old.stage ≡ stages.Reading reading → IfOk result (λ place.
        (told : Told) × IsToldOf reading.question given.now reading.told told
        × Reads (record guided.old { stage = stages.Fresh }) reading.root told place guided.new) }
    ensures ends { (reading : Reading) → guided.old.stage ≡ stages.Reading reading
        → OnErr result (guided.new ≡ record guided.old { stage = stages.Fresh }) }
{
    match mem::replace(&mut guided.stage, Stage::Fresh) {
        Stage::Fresh => Err(AllocError),
        Stage::Reading(reading) => read_on(alloc, guided, reading, given),
        Stage::Begun(_) => Err(AllocError),
    }
}

fn read_on(
    alloc: Global,
    guided: &mut Guided,
    reading: Reading,
    given: &Given<'_>,
) -> Result<Option<Place>, AllocError>
    ensures reads { IfOk result (λ place. (told : Told) × IsToldOf reading.question given.now reading.told told × Reads guided.old reading.root told place guided.new) }
    ensures unchanged { OnErr result (guided.new ≡ guided.old) }
{
    let Reading {
        root,
        mut told,
        question,
    } = reading;
    take_down(alloc, &mut told, question, given)?;
    read_outside(alloc, guided, root, told)
}

/// Leaves the directory at a place.
#[tactic(auto, using(crate::proofs::Leading::on_guide))]
pub fn leave(kept: &mut Kept, place: Place) -> Result<(), Stopped>
    ensures { OnGuide (AtBegun (Leaves place)) kept.old result kept.new }
{
    let Kept::Guide(guided) = kept else {
        return Err(Stopped::Misused);
    };
    leave_of(guided, place)
}

#[tactic(auto, using(crate::proofs::Leading::at_begun, crate::proofs::Leading::not_begun_fresh, crate::proofs::Leading::not_begun_reading))]
fn leave_of(guided: &mut Guided, place: Place) -> Result<(), Stopped>
    ensures { AtBegun (Leaves place) guided.old result guided.new }
{
    match &mut guided.stage {
        Stage::Fresh => Err(Stopped::Misused),
        Stage::Reading(_) => Err(Stopped::Misused),
        Stage::Begun(begun) => leave_in(begun, place),
    }
}

fn leave_in(begun: &mut Begun, place: Place) -> Result<(), Stopped>
    ensures { Leaves place begun.old result begun.new }
{
    if begun.waits.is_some() {
        return Err(Stopped::Misused);
    }
    match begun.guide.leave(place) {
        Ok(()) => Ok(()),
        Err(_) => Err(Stopped::Misused),
    }
}
