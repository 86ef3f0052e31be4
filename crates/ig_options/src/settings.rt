//! The settings of a walk, option by option.
ghost use Rattle.std.specs.Prelude.{◌≡◌, ◌&&◌, [], IfOk, IfErr, OnOk, not, if◌then◌else◌};
ghost use Rattle.ignore_base.specs.Problem.{problem_of, memory};
ghost use Rattle.ig_options.specs.Settings.{is_unruled, lists_hidden, with_files, with_filters, with_limits, with_names, walk_options};

use crate::options::Options;
use ignore::WalkOptions;
use ignore_base::Error;
use ignore_dir::Names;
use std::alloc::Global;

/// The settings of a walk that the options ask for, without roots and without rules from outside.
///
/// # Errors
/// `Error::Memory` alone.
pub fn walk_options(alloc: Global, options: &Options) -> Result<WalkOptions, Error>
    ensures value { IfOk result (λ w. w ≡ walk_options options.now) }
    ensures out_of_memory { IfErr result (λ e. problem_of e ≡ memory) }
{
    let mut walk = WalkOptions::empty(alloc);
    set_filters(&mut walk, options);
    set_files(&mut walk, options);
    set_limits(&mut walk, options);
    set_names(&mut walk, options)?;
    Ok(walk)
}

/// Which entries and which files of rules count.
fn set_filters(walk: &mut WalkOptions, options: &Options)
    ensures { walk.new ≡ with_filters options.now walk.old }
{
    let all = !is_unruled(options);
    let vcs = still(all, options.no_ignore_vcs);
    walk.hidden(!lists_hidden(options));
    walk.parents(still(all, options.no_ignore_parent));
    walk.ignore(still(all, options.no_ignore_dot));
    walk.git_ignore(vcs);
    walk.git_global(still(vcs, options.no_ignore_global));
    walk.git_exclude(still(vcs, options.no_ignore_exclude));
}

/// Whether no file of rules counts: by `-I`, or by a `-u`.
fn is_unruled(options: &Options) -> bool
    ensures { result ≡ is_unruled options.now }
{
    options.no_ignore || options.unrestricted > 0
}

/// Whether hidden entries are listed: by `-H`, or by a second `-u`.
fn lists_hidden(options: &Options) -> bool
    ensures { result ≡ lists_hidden options.now }
{
    options.hidden || options.unrestricted > 1
}

/// Whether something counts that an option may take out.
fn still(counts: bool, taken_out: bool) -> bool
    ensures { result ≡ (counts && not taken_out) }
{
    counts && !taken_out
}

/// How files of rules are read.
fn set_files(walk: &mut WalkOptions, options: &Options)
    ensures { walk.new ≡ with_files options.now walk.old }
{
    walk.require_git(!options.no_require_git);
    walk.ignore_case_insensitive(options.ignore_file_case_insensitive);
    walk.git_trailing_spaces(options.git_trailing_spaces);
}

/// How far a walk goes, and in which order.
fn set_limits(walk: &mut WalkOptions, options: &Options)
    ensures { walk.new ≡ with_limits options.now walk.old }
{
    walk.follow_links(options.follow);
    walk.max_depth(options.max_depth);
    walk.min_depth(options.min_depth);
    walk.max_filesize(options.max_filesize);
    walk.same_file_system(options.one_file_system);
    walk.sort(options.order);
}

/// Which names further files of rules have: none where no file counts.
fn set_names(walk: &mut WalkOptions, options: &Options) -> Result<(), Error>
    ensures added { OnOk result (walk.new
        ≡ with_names (if is_unruled options.now then [] else options.now.ignore_names) walk.old) }
    ensures out_of_memory { IfErr result (λ e. problem_of e ≡ memory) }
{
    if is_unruled(options) {
        return Ok(());
    }
    push_names(walk, &options.ignore_names)
}

/// Adds the names of further files of rules.
fn push_names(walk: &mut WalkOptions, names: &Names) -> Result<(), Error>
    ensures added { OnOk result (walk.new ≡ with_names names.now walk.old) }
    ensures out_of_memory { IfErr result (λ e. problem_of e ≡ memory) }
{
    for name in names.as_slice() {
        walk.push_custom_ignore_filename(name.as_str())?;
    }
    Ok(())
}
