//! The keys of the directories on the way to a path.
ghost use Rattle.std.specs.Prelude.{◌≡◌, ◌++◌, ◌∷◌, ◌<◌, ◌≤◌, [], ℕ, All, List, Option, Some, IfSome, length};
ghost use Rattle.std.specs.Option.{option_copied};
ghost use Rattle.ignore_base.specs.Paths.{IsName, components};
ghost use Rattle.ignore_dir.specs.Chains.{slashed};
ghost use Rattle.ignore_query.specs.Stands.{next_on};

use ignore_base::text::last_component;

/// The key of the directory in which a path is.
pub(crate) fn parent_key(path: &str) -> &str
    ensures { (front : List (List ℕ)) (name : List ℕ) → components path.now ≡ front ++ name ∷ [] → result.now ≡ slashed front }
{
    match path.strip_suffix(last_component(path)) {
        Some(front) => front,
        None => "",
    }
}

/// The key of the next directory on the way to a path, after the one with a key, if there is one.
pub(crate) fn next_key<'a>(path: &'a str, key: &str) -> Option<&'a str>
    ensures value { (front : List (List ℕ)) (name : List ℕ) (rest : List (List ℕ)) → All IsName (components path.now)
        → components path.now ≡ front ++ name ∷ rest → key.now ≡ slashed front → option_copied result ≡ next_on front name rest }
    ensures longer { IfSome result (λ next. (length key.now < length next.now) × (length next.now ≤ length path.now)) }
{
    let rest = path.strip_prefix(key)?;
    let (_, after) = rest.split_once('/')?;
    path.strip_suffix(after)
}

/// The names of a directory below the root, joined, by its key.
pub(crate) fn without_slash(key: &str) -> &str
    ensures root { key.now ≡ [] → result.now ≡ [] }
    ensures below { (path : List ℕ) → key.now ≡ path ++ 47 ∷ [] → result.now ≡ path }
{
    match key.strip_suffix('/') {
        Some(path) => path,
        None => key,
    }
}
