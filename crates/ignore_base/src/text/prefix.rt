//! Stripping a root from the paths below it.
ghost use Rattle.std.specs.Prelude.{◌≡◌};
ghost use Rattle.std.specs.Option.{option_copied};
ghost use Rattle.ignore_base.specs.Paths.{strip_prefix_of, strip_of, trim_of, without_slash, is_absolute, is_dot, at_bound, has_slash};
ghost use Rattle.ignore_base.specs.Paths.{offset_below};

use memchr::memchr;

/// What follows `prefix` in `path`. None where the path doesn't begin with it, and none inside a
/// name: `prefix` must be empty or end with `/`, or what follows must be empty or begin with `/`
/// (which then stays).
pub fn strip_prefix<'p>(prefix: &str, path: &'p str) -> Option<&'p str>
    ensures { option_copied result ≡ strip_prefix_of prefix.now path.now }
{
    let rest = path.strip_prefix(prefix)?;
    if at_bound(prefix, rest) {
        Some(rest)
    } else {
        None
    }
}

/// `path` relative to `root`, as the rules of a gitignore file in `root` see it: without one
/// leading `./`, then without `root` and one `/`. Only the `./` is stripped where `root` is the
/// working directory (as `.`), where the path has no `/`, and where `root` is no prefix that ends
/// at a name.
pub fn strip<'p>(root: &str, path: &'p str) -> &'p str
    ensures { result.now ≡ strip_of root.now path.now }
{
    let path = trim_root(path);
    if is_dot(root) || !has_slash(path) {
        return path;
    }
    match strip_prefix(root, path) {
        Some(rest) => without_slash(rest),
        None => path,
    }
}

/// A root as a gitignore builder keeps it: without one leading `./`.
/// For dependents.
pub fn trim_root(root: &str) -> &str
    ensures { result.now ≡ trim_of root.now }
{
    root.strip_prefix("./").unwrap_or(root)
}

/// Where what is joined to a directory begins: after the directory, and after one slash unless the
/// directory is empty or ends with one.
/// For dependents.
pub fn offset_below(dir: &str) -> usize
    ensures { result ≡ offset_below dir.now }
{
    if dir.is_empty() || dir.ends_with('/') {
        dir.len()
    } else {
        dir.len() + 1
    }
}

/// Whether a path is absolute: whether it begins with `/`.
/// For dependents.
pub fn is_absolute(path: &str) -> bool
    ensures { result ≡ is_absolute path.now }
{
    path.starts_with('/')
}

// Whether a root is the working directory, however it is written.
fn is_dot(root: &str) -> bool
    ensures { result ≡ is_dot root.now }
{
    root.starts_with('.')
        && root
            .split('/')
            .all(|component| component == "." || component.is_empty())
}

// Whether a prefix ends at a component.
fn at_bound(prefix: &str, rest: &str) -> bool
    ensures { result ≡ at_bound prefix.now rest.now }
{
    prefix.is_empty() || prefix.ends_with('/') || rest.is_empty() || rest.starts_with('/')
}

/// Whether a path has a `/`.
/// For dependents.
pub fn has_slash(path: &str) -> bool
    ensures { result ≡ has_slash path.now }
{
    memchr(b'/', path.as_bytes()).is_some()
}

// A path without one leading slash.
pub(crate) fn without_slash(path: &str) -> &str
    ensures { result.now ≡ without_slash path.now }
{
    path.strip_prefix('/').unwrap_or(path)
}
