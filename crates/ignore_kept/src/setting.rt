//! The plain settings of a builder, each as a value.
ghost use Rattle.std.specs.Prelude.{◌≡◌};
ghost use Rattle.ignore_kept.specs.Setups.{with_setting};

use ignore::WalkOptions;

/// A setting of a builder, as the setter of `WalkOptions` of the same name takes it.
#[derive(Clone, Copy, Drop)]
pub enum Setting {
    StandardFilters(bool),
    Hidden(bool),
    Parents(bool),
    IgnoreFiles(bool),
    GitIgnore(bool),
    GitGlobal(bool),
    GitExclude(bool),
    RequireGit(bool),
    CaseInsensitive(bool),
    TrailingSpaces(bool),
    FollowLinks(bool),
    SameFileSystem(bool),
    MaxDepth(Option<usize>),
    MinDepth(Option<usize>),
    MaxFilesize(Option<u64>),
    Limit(u64),
}

/// Sets it.
pub fn set(options: &mut WalkOptions, setting: Setting)
    ensures { options.new ≡ with_setting setting options.old }
{
    match setting {
        Setting::StandardFilters(on) => {
            options.standard_filters(on);
        }
        Setting::Hidden(on) => {
            options.hidden(on);
        }
        Setting::Parents(on) => {
            options.parents(on);
        }
        Setting::IgnoreFiles(on) => {
            options.ignore(on);
        }
        Setting::GitIgnore(on) => {
            options.git_ignore(on);
        }
        Setting::GitGlobal(on) => {
            options.git_global(on);
        }
        Setting::GitExclude(on) => {
            options.git_exclude(on);
        }
        Setting::RequireGit(on) => {
            options.require_git(on);
        }
        Setting::CaseInsensitive(on) => {
            options.ignore_case_insensitive(on);
        }
        Setting::TrailingSpaces(on) => {
            options.git_trailing_spaces(on);
        }
        Setting::FollowLinks(on) => {
            options.follow_links(on);
        }
        Setting::SameFileSystem(on) => {
            options.same_file_system(on);
        }
        Setting::MaxDepth(depth) => {
            options.max_depth(depth);
        }
        Setting::MinDepth(depth) => {
            options.min_depth(depth);
        }
        Setting::MaxFilesize(size) => {
            options.max_filesize(size);
        }
        Setting::Limit(steps) => {
            options.limit(steps);
        }
    }
}
