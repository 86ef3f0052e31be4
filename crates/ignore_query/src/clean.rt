//! Which paths are asked about.
ghost use Rattle.std.specs.Prelude.{◌≡◌, Bool, true};
ghost use Rattle.std.specs.List.{list_all};
ghost use Rattle.ignore_base.specs.Paths.{components, is_proper};
ghost use Rattle.ignore_dir.specs.Limits as limits;
ghost use Rattle.ignore_dir.specs.Query as queries;
ghost use Rattle.ignore_dir.specs.declared.verdict.Verdict.{Verdict};
ghost use Rattle.ignore_query.specs.Plain.{may_follow};

use ignore_dir::Settings;
use ignore_dir::names::are_names;

/// Whether a byte of a path may follow another where no component is empty or begins with a dot.
fn may_follow(before: u8, byte: u8) -> bool
    ensures { result ≡ may_follow before byte }
{
    before != b'/' || (byte != b'/' && byte != b'.')
}

/// Whether no component of a path is empty or begins with a dot, by one pass over its bytes. Most
/// clean paths are such.
fn is_plain(path: &str) -> bool
    ensures names { result ≡ true → list_all is_proper (components path.now) ≡ true }
{
    let mut before = b'/';
    let mut is_plain = true;
    for byte in path.as_bytes() {
        is_plain &= may_follow(before, *byte);
        before = *byte;
    }
    is_plain && before != b'/'
}

fn is_clean(path: &str) -> bool
    ensures { result ≡ queries.is_clean path.now }
{
    path.is_empty() || is_plain(path) || are_names(path)
}

/// Whether a path below a root is asked about at all: whether the root isn't `-`, which means
/// standard input, and the path is clean.
pub(crate) fn is_asked(root: &str, path: &str) -> bool
    ensures { result ≡ queries.is_asked root.now path.now }
{
    root != "-" && is_clean(path)
}

/// A depth that stands for that of a clean path: its own, or any other where no limit on depth is
/// set, so that its names needn't be counted.
pub(crate) fn depth_for(settings: &Settings, path: &str) -> usize
    ensures beyond { (is_dir : Bool) → limits.is_beyond settings.now result is_dir
        ≡ limits.is_beyond settings.now (queries.depth_of_path path.now) is_dir }
    ensures limited { (is_dir : Bool) (verdict : Verdict) → limits.limited settings.now result is_dir verdict
        ≡ limits.limited settings.now (queries.depth_of_path path.now) is_dir verdict }
{
    match (settings.min_depth, settings.max_depth) {
        (None, None) => 0,
        _ => depth_of(path),
    }
}

/// How many names a clean path has.
pub(crate) fn depth_of(path: &str) -> usize
    ensures { result ≡ queries.depth_of_path path.now }
{
    if path.is_empty() {
        return 0;
    }
    path.split('/').count()
}
