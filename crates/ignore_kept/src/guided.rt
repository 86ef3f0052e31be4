//! A guide for a host that walks by itself, as a handle keeps it.
ghost use Rattle.std.specs.Prelude.{◌≡◌, [], IfOk, Some, string_bytes};
ghost use Rattle.std.specs.Option.{option_copied};
ghost use Rattle.ignore_kept.specs.Guides.{Starts, TellsQuestion, TellsWanted, fresh, question_in, question_of, wanted_code};
ghost use Rattle.ignore_kept.specs.Kinds.{guided_in};

use crate::kept::Kept;
use crate::setup::Setup;
use crate::stopped::Stopped;
use ignore::files::{Env, Name};
use ignore::guide::{Guide, Question, Told, Waiting, Wanted};
use ignore::{Error, WalkOptions};
use ignore_dir::Names;
use std::alloc::{AllocError, Global};

/// A guide, and what it is made by.
#[derive(Drop)]
pub struct Guided {
    /// The settings.
    pub options: WalkOptions,
    /// What is known of the environment.
    pub env: Env,
    /// The files of rules that are read with the first root.
    pub paths: Names,
    /// How far it is.
    pub stage: Stage,
}

/// How far a guide is.
#[derive(Drop)]
pub enum Stage {
    /// No root was begun.
    Fresh,
    /// The first root waits for the rules from outside.
    Reading(Reading),
    /// The rules from outside were read.
    Begun(Begun),
}

/// The first root, while its host is asked for the rules from outside.
#[derive(Drop)]
pub struct Reading {
    /// The path of the root.
    pub root: Name,
    /// What was told.
    pub told: Told,
    /// What the host is asked.
    pub question: Question,
}

/// A guide with its rules from outside.
#[derive(Drop)]
pub struct Begun {
    /// The guide.
    pub guide: Guide,
    /// The call that waits, if one does.
    pub waits: Option<Waiting>,
    /// What is wrong with the files of rules that were read with the first root, until that arrives.
    pub outer: Option<Error>,
    /// The same with the directory that arrived last, where it was the first root.
    pub front: Option<Error>,
    /// What is wrong with the files of rules of the directory that arrived last.
    pub problem: Option<Error>,
}

/// A guide by the settings of a builder.
pub fn start(alloc: Global, setup: &Kept) -> Result<Kept, Stopped>
    ensures { Starts setup.now result }
{
    let Kept::Setup(setup) = setup else {
        return Err(Stopped::Misused);
    };
    match started(alloc, setup) {
        Ok(guided) => Ok(Kept::Guide(guided)),
        Err(_) => Err(Stopped::Memory),
    }
}

fn started(alloc: Global, setup: &Setup) -> Result<Guided, AllocError>
    ensures { IfOk result (λ g. g ≡ fresh setup.now) }
{
    Ok(Guided {
        options: setup.options.clone()?,
        env: env_of(alloc, &setup.env)?,
        paths: setup.paths.clone()?,
        stage: Stage::Fresh,
    })
}

/// A copy of what is known of an environment.
fn env_of(alloc: Global, env: &Env) -> Result<Env, AllocError>
    ensures { IfOk result (λ copy. copy ≡ env.now) }
{
    Ok(Env {
        current_dir: copy_of(alloc, &env.current_dir)?,
        home: copy_of(alloc, &env.home)?,
        xdg_config_home: copy_of(alloc, &env.xdg_config_home)?,
        git_config_global: copy_of(alloc, &env.git_config_global)?,
        git_config_system: copy_of(alloc, &env.git_config_system)?,
    })
}

fn copy_of(alloc: Global, name: &Option<Name>) -> Result<Option<Name>, AllocError>
    ensures { IfOk result (λ copy. copy ≡ name.now) }
{
    match name {
        None => Ok(None),
        Some(name) => Ok(Some(Name::from_str(alloc, name.as_str())?)),
    }
}

/// What C is told of what a guide wants: a number, what it wants, and of which path.
#[derive(Drop)]
pub struct Wants {
    pub code: u32,
    pub wanted: u32,
    pub path: String,
}

/// What a guide wants.
pub fn wanted(alloc: Global, kept: &Kept) -> Wants
    ensures { TellsWanted (guided_in kept.now) result.code result.wanted (string_bytes result.path) }
{
    let Kept::Guide(guided) = kept else {
        return nothing(alloc, Stopped::Misused.code());
    };
    match question_in(guided) {
        None => nothing(alloc, 1),
        Some(question) => asking(alloc, question),
    }
}

/// What the call that waits wants to know, if one waits.
fn question_in(guided: &Guided) -> Option<&Question>
    ensures { option_copied result ≡ question_in guided.now }
{
    match &guided.stage {
        Stage::Fresh => None,
        Stage::Reading(reading) => Some(&reading.question),
        Stage::Begun(begun) => question_of(&begun.waits),
    }
}

fn question_of(waits: &Option<Waiting>) -> Option<&Question>
    ensures { option_copied result ≡ question_of waits.now }
{
    match waits {
        None => None,
        Some(waiting) => Some(&waiting.question),
    }
}

fn asking(alloc: Global, question: &Question) -> Wants
    ensures { TellsQuestion (Some question.now) result.code result.wanted (string_bytes result.path) }
{
    match String::from_str(alloc, question.path.as_str()) {
        Ok(path) => Wants {
            code: 0,
            wanted: wanted_code(question.wanted),
            path,
        },
        Err(_) => nothing(alloc, Stopped::Memory.code()),
    }
}

fn nothing(alloc: Global, code: u32) -> Wants
    ensures code { result.code ≡ code }
    ensures wanted { result.wanted ≡ 0 }
    ensures path { string_bytes result.path ≡ [] }
{
    Wants {
        code,
        wanted: 0,
        path: String::new(alloc),
    }
}

/// The number of what is wanted.
fn wanted_code(wanted: Wanted) -> u32
    ensures { result ≡ wanted_code wanted }
{
    match wanted {
        Wanted::Kind => 1,
        Wanted::File => 2,
        Wanted::Canonical => 3,
    }
}
