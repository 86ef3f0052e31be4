//! The kinds of vectors, and the one function that has a builder.
ghost use Rattle.std.specs.Prelude.{◌≡◌, []};

mod igwalk;
mod normalize;
mod query;
mod walk;

use crate::settings::{Choice, Flag, Machine, Named, Number, Rules, machine_of, play};
use ignore::{DirEntry, WalkBuilder};
use serde_json::Value;
use std::alloc::Global;
use vectors::{Kinds, Trouble};

/// The library and the program's commands, asked by the kinds.
#[derive(Clone, Copy)]
pub(crate) struct Library;

impl Kinds for Library {
    ghost waits = { λ _ _ names. names ≡ [] };

    fn answer(&self, alloc: Global, kind: &str, input: &Value) -> Option<Result<Value, Trouble>> {
        match kind {
            "explain" => Some(answer(alloc, input, false)),
            "igwalk" => Some(igwalk::answer(alloc, input)),
            "normalize" => Some(normalize::answer(alloc, input)),
            "query" => Some(answer(alloc, input, false)),
            "walk" => Some(answer(alloc, input, true)),
            _ => None,
        }
    }

    /// No field of an answer may be missing.
    fn waiting(&self, _kind: &str) -> &'static [&'static str] {
        &[]
    }
}

/// The answer of a walk, or of a matcher of single paths.
fn answer(alloc: Global, input: &Value, is_walk: bool) -> Result<Value, Trouble> {
    let machine = machine_of(alloc, input)?;
    answered(alloc, input, &machine, is_walk)
}

/// The same on a machine. A function that is lent a builder to change it would be listed as one
/// that hides which closures the builder keeps, so the calls are closures here.
fn answered(
    alloc: Global,
    input: &Value,
    machine: &Machine,
    is_walk: bool,
) -> Result<Value, Trouble> {
    let by = walk::by_of(input)?;
    let mut builder = WalkBuilder::empty(alloc);
    let added = play(
        alloc,
        input,
        &mut builder,
        |b: &mut WalkBuilder, flag: Flag, yes: bool| {
            match flag {
                Flag::StandardFilters => b.standard_filters(yes),
                Flag::Hidden => b.hidden(yes),
                Flag::Parents => b.parents(yes),
                Flag::Ignore => b.ignore(yes),
                Flag::GitGlobal => b.git_global(yes),
                Flag::GitIgnore => b.git_ignore(yes),
                Flag::GitExclude => b.git_exclude(yes),
                Flag::RequireGit => b.require_git(yes),
                Flag::IgnoreCase => b.ignore_case_insensitive(yes),
                Flag::TrailingSpaces => b.git_trailing_spaces(yes),
                Flag::FollowLinks => b.follow_links(yes),
                Flag::SameFileSystem => b.same_file_system(yes),
            };
        },
        |b: &mut WalkBuilder, number: Number, value: Option<u64>| {
            match number {
                Number::MaxDepth => b.max_depth(value.map(|depth| depth as usize)),
                Number::MinDepth => b.min_depth(value.map(|depth| depth as usize)),
                Number::MaxFilesize => b.max_filesize(value),
                Number::Limit => b.limit(value.unwrap_or(u64::MAX)),
            };
        },
        |b: &mut WalkBuilder, rules: Rules| {
            match rules {
                Rules::CurrentDir(dir) => b.current_dir(dir),
                Rules::Overrides(overrides) => b.overrides(overrides),
                Rules::Types(types) => b.types(types),
            };
        },
        move |b: &mut WalkBuilder, choice: Choice| {
            match choice {
                Choice::Filter(filter) => {
                    let shown = machine.shown.clone()?;
                    b.filter_entry(Box::new(alloc, move |e: &DirEntry| {
                        shown.note(alloc, e.path());
                        filter.accepts(e)
                    })?);
                }
                Choice::Names(by) => {
                    b.sort_by_file_name(Box::new(alloc, move |x: &str, y: &str| by.compare(x, y))?);
                }
                Choice::Paths(by) => {
                    b.sort_by_file_path(Box::new(alloc, move |x: &str, y: &str| by.compare(x, y))?);
                }
            }
            Ok(())
        },
        move |b: &mut WalkBuilder, named: Named, name: &str| match named {
            Named::Root => {
                b.add(name)?;
                Ok(None)
            }
            Named::Custom => {
                b.add_custom_ignore_filename(name)?;
                Ok(None)
            }
            Named::File => b.add_ignore(&machine.tree, &machine.env, name),
        },
    );
    if !is_walk {
        return query::asked(alloc, input, machine, &builder, added);
    }
    let added = added?;
    let mut answer = walk::asked(
        alloc,
        input,
        &mut builder,
        |b: &mut WalkBuilder, limit: u64| {
            b.limit(limit);
        },
        move |b: &WalkBuilder| walk::list_of(alloc, machine, by, b),
    )?;
    answer.put_value("added", added.value());
    Ok(answer.value()?)
}
