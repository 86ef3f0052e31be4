//! The settings of a vector, and how they are played in turn on a builder.
//!
//! The builder is a type parameter here, and its calls are closures: they are made in the one
//! function that has the builder.

use super::chosen::{Choice, filter_of, order_of};
use super::types::{overrides, types};
use answers::{Items, but_for_memory};
use ignore::Error;
use ignore::overrides::Override;
use ignore::types::Types;
use serde_json::Value;
use std::alloc::{AllocError, Global};
use vectors::{Trouble, flag_at, item, list, text, text_at};

/// The name of the field that holds the settings.
pub(crate) const SET: &str = "set";

/// The name of the field with the root of a matcher.
pub(super) const ROOT: &str = "root";

/// The name of the field with the roots of a walk.
pub(super) const ROOTS: &str = "roots";

/// What is on or off.
#[derive(Clone, Copy, Drop)]
pub(crate) enum Flag {
    StandardFilters,
    Hidden,
    Parents,
    Ignore,
    GitGlobal,
    GitIgnore,
    GitExclude,
    RequireGit,
    IgnoreCase,
    TrailingSpaces,
    FollowLinks,
    SameFileSystem,
}

/// What has a number, or none.
#[derive(Clone, Copy, Drop)]
pub(crate) enum Number {
    MaxDepth,
    MinDepth,
    MaxFilesize,
    Limit,
}

/// Rules from outside, and the directory that they are relative to.
#[derive(Drop)]
pub(crate) enum Rules {
    CurrentDir(String),
    Overrides(Override),
    Types(Types),
}

/// What is added by its name.
#[derive(Clone, Copy, Drop)]
pub(crate) enum Named {
    Root,
    Custom,
    File,
}

/// A setting.
#[derive(Drop)]
enum Setting<'v> {
    Flag(Flag, bool),
    Number(Number, Option<u64>),
    Rules(Rules),
    Chosen(Choice),
    Named(Named, &'v str),
}

impl Setting<'_> {
    /// Whether it adds a file of rules.
    fn is_file(&self) -> bool {
        matches!(self, Setting::Named(Named::File, _))
    }
}

/// No error of a file, or out of memory.
fn none_of(chosen: Result<(), AllocError>) -> Result<Option<Error>, Trouble> {
    match chosen {
        Ok(()) => Ok(None),
        Err(AllocError) => Err(Trouble::Memory),
    }
}

/// Plays the settings of a vector, and then adds its roots. It returns what was reported of each
/// file that was added. A call that was out of memory is made again, on the same builder.
pub(crate) fn play<B, F, N, R, C, A>(
    alloc: Global,
    input: &Value,
    builder: &mut B,
    set_flag: F,
    set_number: N,
    set_rules: R,
    choose: C,
    add: A,
) -> Result<Items, Trouble>
where
    F: Fn(&mut B, Flag, bool),
    N: Fn(&mut B, Number, Option<u64>),
    R: Fn(&mut B, Rules),
    C: Fn(&mut B, Choice) -> Result<(), AllocError>,
    A: Fn(&mut B, Named, &str) -> Result<Option<Error>, Error>,
    requires flag { F.IsAlwaysCallable set_flag }
    requires number { N.IsAlwaysCallable set_number }
    requires rules { R.IsAlwaysCallable set_rules }
    requires chosen { C.IsAlwaysCallable choose }
    requires named { A.IsAlwaysCallable add }
{
    let mut added = Ok(Items::new(alloc));
    for setting in settings_of(alloc, input)? {
        let is_file = setting.is_file();
        let played = match setting {
            Setting::Flag(flag, yes) => {
                set_flag(builder, flag, yes);
                Ok(None)
            }
            Setting::Number(number, value) => {
                set_number(builder, number, value);
                Ok(None)
            }
            Setting::Rules(rules) => {
                set_rules(builder, rules);
                Ok(None)
            }
            Setting::Chosen(choice) => none_of(choose(builder, choice)),
            Setting::Named(named, name) => match add(builder, named, name) {
                Ok(error) => Ok(error),
                Err(_) => but_for_memory(add(builder, named, name)),
            },
        };
        added = with(added, is_file, played);
    }
    added
}

/// What was reported of each file so far, and of this one too, where it is one; or why the settings
/// can't be played.
fn with(
    added: Result<Items, Trouble>,
    is_file: bool,
    played: Result<Option<Error>, Trouble>,
) -> Result<Items, Trouble> {
    let mut added = added?;
    let error = played?;
    if is_file {
        added.put(error.as_ref());
    }
    Ok(added)
}

/// The settings of a vector in turn, and then its roots.
fn settings_of<'v>(alloc: Global, input: &'v Value) -> Result<Vec<Setting<'v>>, Trouble> {
    let ops = list(input, SET)?;
    let mut settings = Vec::new(alloc);
    for op in ops {
        settings.push(setting_of(alloc, op)?)?;
    }
    push_roots(input, &mut settings)?;
    Ok(settings)
}

/// Appends the roots of a walk, or the root of a matcher.
fn push_roots<'v>(input: &'v Value, settings: &mut Vec<Setting<'v>>) -> Result<(), Trouble> {
    if input.get(ROOTS).is_none() {
        settings.push(Setting::Named(Named::Root, text(input, ROOT)?))?;
        return Ok(());
    }
    for root in list(input, ROOTS)? {
        match root.as_str() {
            Some(root) => settings.push(Setting::Named(Named::Root, root))?,
            None => return Err(Trouble::Field(ROOTS)),
        }
    }
    Ok(())
}

/// The limit of steps that a vector sets last.
pub(crate) fn limit_of(input: &Value) -> Result<u64, Trouble> {
    let mut limit = u64::MAX;
    for op in list(input, SET)? {
        if text_at(op, 0, SET)? == "limit" {
            limit = number_of(op)?.unwrap_or(u64::MAX);
        }
    }
    Ok(limit)
}

/// The setting of `["hidden", false]`.
fn setting_of<'v>(alloc: Global, op: &'v Value) -> Result<Setting<'v>, Trouble> {
    match text_at(op, 0, SET)? {
        "add_ignore" => Ok(Setting::Named(Named::File, text_at(op, 1, SET)?)),
        "custom" => Ok(Setting::Named(Named::Custom, text_at(op, 1, SET)?)),
        "filter" => Ok(Setting::Chosen(filter_of(alloc, op)?)),
        "sort" => Ok(Setting::Chosen(order_of(op)?)),
        "max_depth" => Ok(Setting::Number(Number::MaxDepth, number_of(op)?)),
        "min_depth" => Ok(Setting::Number(Number::MinDepth, number_of(op)?)),
        "max_filesize" => Ok(Setting::Number(Number::MaxFilesize, number_of(op)?)),
        "limit" => Ok(Setting::Number(Number::Limit, number_of(op)?)),
        name => rules_or_flag(alloc, name, op),
    }
}

fn rules_or_flag<'v>(alloc: Global, name: &str, op: &'v Value) -> Result<Setting<'v>, Trouble> {
    match name {
        "current_dir" => Ok(Setting::Rules(Rules::CurrentDir(word(alloc, op)?))),
        "overrides" => Ok(Setting::Rules(Rules::Overrides(overrides(alloc, op)?))),
        "types" => Ok(Setting::Rules(Rules::Types(types(alloc, op)?))),
        name => Ok(Setting::Flag(flag_of(name)?, flag_at(op, 1, SET)?)),
    }
}

fn flag_of(name: &str) -> Result<Flag, Trouble> {
    match name {
        "standard_filters" => Ok(Flag::StandardFilters),
        "hidden" => Ok(Flag::Hidden),
        "parents" => Ok(Flag::Parents),
        "ignore" => Ok(Flag::Ignore),
        "git_global" => Ok(Flag::GitGlobal),
        "git_ignore" => Ok(Flag::GitIgnore),
        "git_exclude" => Ok(Flag::GitExclude),
        "require_git" => Ok(Flag::RequireGit),
        "ignore_case_insensitive" => Ok(Flag::IgnoreCase),
        "git_trailing_spaces" => Ok(Flag::TrailingSpaces),
        "follow_links" => Ok(Flag::FollowLinks),
        "same_file_system" => Ok(Flag::SameFileSystem),
        _ => Err(Trouble::Field(SET)),
    }
}

fn word(alloc: Global, op: &Value) -> Result<String, Trouble> {
    Ok(String::from_str(alloc, text_at(op, 1, SET)?)?)
}

/// The number of a setting, or none where it is `null`.
fn number_of(op: &Value) -> Result<Option<u64>, Trouble> {
    let value = item(op, 1, SET)?;
    if value.is_null() {
        return Ok(None);
    }
    match value.as_u64() {
        Some(number) => Ok(Some(number)),
        None => Err(Trouble::Field(SET)),
    }
}
