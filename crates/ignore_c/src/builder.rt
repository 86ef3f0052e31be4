//! The exports of builders.
ghost use Rattle.std.specs.Prelude.{◌≡◌, Result, Ok, Err, IfOk, IfErr};
ghost use Rattle.std.specs.Bool.{then_some};
ghost use Rattle.ignore_kept.specs.Stops.{ended_code};
ghost use Rattle.ignore_kept.specs.Setups.{Begins, Set, TextSet, on_options, with_setting};
ghost use Rattle.ignore_kept.specs.declared.kept.Kept.{Kept};
ghost use Rattle.ignore_kept.specs.declared.setting.Setting.TheVariants as setting;
ghost use Rattle.ignore_kept.specs.declared.setup.Text.TheVariants as label;
ghost use Rattle.ignore_kept.specs.declared.stopped.Stopped.{Stopped};

use crate::handle::{Handle, close, open};
use core::mem;
use ignore_kept::setting::Setting;
use ignore_kept::setup::{self, Text};
use ignore_kept::{Kept, Stopped, done};
use std::alloc::Global;

/// A text of a builder, and what it says.
#[derive(Clone, Copy, Drop)]
struct Label<'l> {
    what: Text,
    text: &'l [u8],
}

/// Begins a builder with one root and the settings at first, and hands out its handle.
#[unsafe(no_mangle)]
pub extern "C" fn ignore_builder_new(alloc: Global, root: &[u8], out: &mut *mut u8) -> u32
    ensures { (given : Result Kept Stopped) × Begins root.now given × (result ≡ ended_code given) }
{
    match begun(alloc, root) {
        Ok(kept) => {
            let (at, _) = Box::into_raw_with_allocator(kept);
            *out = at as *mut u8;
            0
        }
        Err(stopped) => stopped.code(),
    }
}

fn begun(alloc: Global, root: &[u8]) -> Result<Box<Kept>, Stopped>
    ensures begun { IfOk result (λ kept. Begins root.now (Ok kept.value)) }
    ensures refused { IfErr result (λ e. Begins root.now (Err e)) }
{
    let kept = setup::begin(alloc, root)?;
    Ok(Box::new(alloc, kept)?)
}

fn settled(builder: Handle, setting: Setting) -> (Handle, u32)
    ensures { Set (on_options (with_setting setting)) builder.value result.1 result.0.value }
{
    let mut kept = open(builder);
    let code = done(setup::settle(&mut kept, setting));
    (close(kept), code)
}

fn labelled(builder: Handle, label: Label<'_>) -> (Handle, u32)
    ensures { TextSet label.entry.what label.entry.text.now builder.value result.1 result.0.value }
{
    let mut kept = open(builder);
    let alloc = *Box::allocator(&kept);
    let code = done(setup::name(alloc, &mut kept, label.what, label.text));
    (close(kept), code)
}

/// Adds a root, after the others.
#[unsafe(no_mangle)]
pub extern "C" fn ignore_builder_add(builder: &mut Handle, text: &[u8]) -> u32
    ensures { TextSet label.Root text.now builder.old.value result builder.new.value }
{
    mem::replace_with(
        builder,
        Label {
            what: Text::Root,
            text,
        },
        labelled,
    )
}

/// Adds a name of custom files of rules.
#[unsafe(no_mangle)]
pub extern "C" fn ignore_builder_add_custom_ignore_filename(
    builder: &mut Handle,
    text: &[u8],
) -> u32
    ensures { TextSet label.Custom text.now builder.old.value result builder.new.value }
{
    mem::replace_with(
        builder,
        Label {
            what: Text::Custom,
            text,
        },
        labelled,
    )
}

/// Adds a file of rules by its path alone, which guides want with their first root.
#[unsafe(no_mangle)]
pub extern "C" fn ignore_builder_add_ignore_path(builder: &mut Handle, text: &[u8]) -> u32
    ensures { TextSet label.File text.now builder.old.value result builder.new.value }
{
    mem::replace_with(
        builder,
        Label {
            what: Text::File,
            text,
        },
        labelled,
    )
}

/// Sets the directory that rules from outside are relative to.
#[unsafe(no_mangle)]
pub extern "C" fn ignore_builder_current_dir(builder: &mut Handle, text: &[u8]) -> u32
    ensures { TextSet label.Base text.now builder.old.value result builder.new.value }
{
    mem::replace_with(
        builder,
        Label {
            what: Text::Base,
            text,
        },
        labelled,
    )
}

/// Tells the working directory.
#[unsafe(no_mangle)]
pub extern "C" fn ignore_builder_env_current_dir(builder: &mut Handle, text: &[u8]) -> u32
    ensures { TextSet label.CurrentDir text.now builder.old.value result builder.new.value }
{
    mem::replace_with(
        builder,
        Label {
            what: Text::CurrentDir,
            text,
        },
        labelled,
    )
}

/// Tells `HOME`.
#[unsafe(no_mangle)]
pub extern "C" fn ignore_builder_env_home(builder: &mut Handle, text: &[u8]) -> u32
    ensures { TextSet label.Home text.now builder.old.value result builder.new.value }
{
    mem::replace_with(
        builder,
        Label {
            what: Text::Home,
            text,
        },
        labelled,
    )
}

/// Tells `XDG_CONFIG_HOME`.
#[unsafe(no_mangle)]
pub extern "C" fn ignore_builder_env_xdg_config_home(builder: &mut Handle, text: &[u8]) -> u32
    ensures { TextSet label.ConfigHome text.now builder.old.value result builder.new.value }
{
    mem::replace_with(
        builder,
        Label {
            what: Text::ConfigHome,
            text,
        },
        labelled,
    )
}

/// Tells `GIT_CONFIG_GLOBAL`.
#[unsafe(no_mangle)]
pub extern "C" fn ignore_builder_env_git_config_global(builder: &mut Handle, text: &[u8]) -> u32
    ensures { TextSet label.GitGlobal text.now builder.old.value result builder.new.value }
{
    mem::replace_with(
        builder,
        Label {
            what: Text::GitGlobal,
            text,
        },
        labelled,
    )
}

/// Tells `GIT_CONFIG_SYSTEM`.
#[unsafe(no_mangle)]
pub extern "C" fn ignore_builder_env_git_config_system(builder: &mut Handle, text: &[u8]) -> u32
    ensures { TextSet label.GitSystem text.now builder.old.value result builder.new.value }
{
    mem::replace_with(
        builder,
        Label {
            what: Text::GitSystem,
            text,
        },
        labelled,
    )
}

/// As `WalkBuilder::standard_filters`.
#[unsafe(no_mangle)]
pub extern "C" fn ignore_builder_standard_filters(builder: &mut Handle, on: bool) -> u32
    ensures { Set (on_options (with_setting (setting.StandardFilters on))) builder.old.value result builder.new.value }
{
    mem::replace_with(builder, Setting::StandardFilters(on), settled)
}

/// As `WalkBuilder::hidden`.
#[unsafe(no_mangle)]
pub extern "C" fn ignore_builder_hidden(builder: &mut Handle, on: bool) -> u32
    ensures { Set (on_options (with_setting (setting.Hidden on))) builder.old.value result builder.new.value }
{
    mem::replace_with(builder, Setting::Hidden(on), settled)
}

/// As `WalkBuilder::parents`.
#[unsafe(no_mangle)]
pub extern "C" fn ignore_builder_parents(builder: &mut Handle, on: bool) -> u32
    ensures { Set (on_options (with_setting (setting.Parents on))) builder.old.value result builder.new.value }
{
    mem::replace_with(builder, Setting::Parents(on), settled)
}

/// As `WalkBuilder::ignore`.
#[unsafe(no_mangle)]
pub extern "C" fn ignore_builder_ignore(builder: &mut Handle, on: bool) -> u32
    ensures { Set (on_options (with_setting (setting.IgnoreFiles on))) builder.old.value result builder.new.value }
{
    mem::replace_with(builder, Setting::IgnoreFiles(on), settled)
}

/// As `WalkBuilder::git_ignore`.
#[unsafe(no_mangle)]
pub extern "C" fn ignore_builder_git_ignore(builder: &mut Handle, on: bool) -> u32
    ensures { Set (on_options (with_setting (setting.GitIgnore on))) builder.old.value result builder.new.value }
{
    mem::replace_with(builder, Setting::GitIgnore(on), settled)
}

/// As `WalkBuilder::git_global`.
#[unsafe(no_mangle)]
pub extern "C" fn ignore_builder_git_global(builder: &mut Handle, on: bool) -> u32
    ensures { Set (on_options (with_setting (setting.GitGlobal on))) builder.old.value result builder.new.value }
{
    mem::replace_with(builder, Setting::GitGlobal(on), settled)
}

/// As `WalkBuilder::git_exclude`.
#[unsafe(no_mangle)]
pub extern "C" fn ignore_builder_git_exclude(builder: &mut Handle, on: bool) -> u32
    ensures { Set (on_options (with_setting (setting.GitExclude on))) builder.old.value result builder.new.value }
{
    mem::replace_with(builder, Setting::GitExclude(on), settled)
}

/// As `WalkBuilder::require_git`.
#[unsafe(no_mangle)]
pub extern "C" fn ignore_builder_require_git(builder: &mut Handle, on: bool) -> u32
    ensures { Set (on_options (with_setting (setting.RequireGit on))) builder.old.value result builder.new.value }
{
    mem::replace_with(builder, Setting::RequireGit(on), settled)
}

/// As `WalkBuilder::ignore_case_insensitive`.
#[unsafe(no_mangle)]
pub extern "C" fn ignore_builder_ignore_case_insensitive(builder: &mut Handle, on: bool) -> u32
    ensures { Set (on_options (with_setting (setting.CaseInsensitive on))) builder.old.value result builder.new.value }
{
    mem::replace_with(builder, Setting::CaseInsensitive(on), settled)
}

/// As `WalkBuilder::git_trailing_spaces`.
#[unsafe(no_mangle)]
pub extern "C" fn ignore_builder_git_trailing_spaces(builder: &mut Handle, on: bool) -> u32
    ensures { Set (on_options (with_setting (setting.TrailingSpaces on))) builder.old.value result builder.new.value }
{
    mem::replace_with(builder, Setting::TrailingSpaces(on), settled)
}

/// As `WalkBuilder::follow_links`.
#[unsafe(no_mangle)]
pub extern "C" fn ignore_builder_follow_links(builder: &mut Handle, on: bool) -> u32
    ensures { Set (on_options (with_setting (setting.FollowLinks on))) builder.old.value result builder.new.value }
{
    mem::replace_with(builder, Setting::FollowLinks(on), settled)
}

/// As `WalkBuilder::same_file_system`.
#[unsafe(no_mangle)]
pub extern "C" fn ignore_builder_same_file_system(builder: &mut Handle, on: bool) -> u32
    ensures { Set (on_options (with_setting (setting.SameFileSystem on))) builder.old.value result builder.new.value }
{
    mem::replace_with(builder, Setting::SameFileSystem(on), settled)
}

/// As `WalkBuilder::max_depth`; no limit where it isn't set.
#[unsafe(no_mangle)]
pub extern "C" fn ignore_builder_max_depth(builder: &mut Handle, is_set: bool, most: usize) -> u32
    ensures { Set (on_options (with_setting (setting.MaxDepth (then_some is_set most)))) builder.old.value result builder.new.value }
{
    mem::replace_with(builder, Setting::MaxDepth(is_set.then_some(most)), settled)
}

/// As `WalkBuilder::min_depth`; no limit where it isn't set.
#[unsafe(no_mangle)]
pub extern "C" fn ignore_builder_min_depth(builder: &mut Handle, is_set: bool, most: usize) -> u32
    ensures { Set (on_options (with_setting (setting.MinDepth (then_some is_set most)))) builder.old.value result builder.new.value }
{
    mem::replace_with(builder, Setting::MinDepth(is_set.then_some(most)), settled)
}

/// As `WalkBuilder::max_filesize`; no limit where it isn't set.
#[unsafe(no_mangle)]
pub extern "C" fn ignore_builder_max_filesize(builder: &mut Handle, is_set: bool, most: u64) -> u32
    ensures { Set (on_options (with_setting (setting.MaxFilesize (then_some is_set most)))) builder.old.value result builder.new.value }
{
    mem::replace_with(
        builder,
        Setting::MaxFilesize(is_set.then_some(most)),
        settled,
    )
}

/// As `WalkBuilder::limit`.
#[unsafe(no_mangle)]
pub extern "C" fn ignore_builder_limit(builder: &mut Handle, steps: u64) -> u32
    ensures { Set (on_options (with_setting (setting.Limit steps))) builder.old.value result builder.new.value }
{
    mem::replace_with(builder, Setting::Limit(steps), settled)
}

/// Frees a builder.
#[unsafe(no_mangle)]
pub extern "C" fn ignore_builder_free(builder: Handle) {
    let _kept = open(builder);
}
