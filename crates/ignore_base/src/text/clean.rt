//! Names, clean paths and clean roots.
ghost use Rattle.std.specs.Prelude.{◌≡◌, ◌↔◌, IsTrue};
ghost use Rattle.std.specs.List.{list_all};
ghost use Rattle.ignore_base.specs.Paths.{components, is_proper, IsName, IsCleanPath, IsCleanRoot};
ghost use Rattle.ignore_base.specs.RootSteps.{IsWithoutEnd, rises, is_rooted};

use crate::text::prefix::{has_slash, trim_root, without_slash};

/// Whether a text is a name: not empty, without `/`, and neither `.` nor `..`.
/// For dependents.
pub fn is_name(text: &str) -> bool
    ensures { IsTrue result ↔ IsName text.now }
{
    is_proper(text) && !has_slash(text)
}

/// Whether a path is clean: empty, or names joined by single slashes.
pub fn is_clean_path(path: &str) -> bool
    ensures { IsTrue result ↔ IsCleanPath path.now }
{
    path.is_empty() || are_names(path)
}

/// Whether a root is clean: `.`, `./` or `/`; or names, joined by single slashes, after nothing,
/// `/` or `./`; or components `..`, alone or before names. One `/` may follow. `-` is not clean, as
/// it means standard input.
pub fn is_clean_root(root: &str) -> bool
    ensures { IsTrue result ↔ IsCleanRoot root.now }
{
    if root == "." || root == "./" || root == "/" {
        return true;
    }
    root != "-" && is_rooted(without_end(root))
}

fn without_end(path: &str) -> &str
    ensures { IsWithoutEnd path.now result.now }
{
    match path.strip_suffix('/') {
        Some(body) => body,
        None => path,
    }
}

// Whether a root without a final slash is names after what may precede them.
fn is_rooted(body: &str) -> bool
    ensures { result ≡ is_rooted body.now }
{
    if body.starts_with("./") {
        return are_names(trim_root(body));
    }
    if body.starts_with('/') {
        return are_names(without_slash(body));
    }
    rises(body)
}

// Whether the components of a text are `..` and then names.
fn rises(text: &str) -> bool
    ensures { result ≡ rises (components text.now) }
{
    text.split('/')
        .skip_while(|component| *component == "..")
        .all(|component| is_proper(component))
}

// Whether each component of a text is a name.
fn are_names(text: &str) -> bool
    ensures { result ≡ list_all is_proper (components text.now) }
{
    text.split('/').all(|component| is_proper(component))
}

/// Whether a component of a path is a name: not empty, and neither `.` nor `..`.
/// For dependents.
pub fn is_proper(component: &str) -> bool
    ensures { result ≡ is_proper component.now }
{
    !component.is_empty() && component != "." && component != ".."
}
