//! Matchers of single paths over a tree that its host tells.
ghost use Rattle.std.specs.Prelude.{◌≡◌, ◌≢◌, ◌∷◌, [], All, IfOk, IfErr, length};
ghost use Rattle.ignore.specs.WalkWords.{Agrees, AreMatchers, KeepsNothing, Stays, query};
ghost use Rattle.ignore_files.specs.Answers.{tree_of};
ghost use Rattle.ignore_kept.specs.Matching.{bytes_given, Builds, Forgets, Forgot, InScene, IsBuilt, Matches, Normalizes, found_in, match_code, verdict_code};
ghost use Rattle.ignore_kept.specs.declared.stopped.Stopped.TheVariants.{Memory, Misused};

use crate::kept::Kept;
use crate::room::text_of;
use crate::stopped::Stopped;
use ignore::files::{Env, MemoryTree};
use ignore::query_laws::what_is_kept_stays_right;
use ignore::{Error, IncrementalIgnore, IncrementalMatch, WalkBuilder, WalkOptions};

/// What becomes of a path besides the verdict: whether a walk would enter the directory, and whether
/// the path is as deep as it must be.
#[repr(C)]
#[derive(Clone, Copy, Drop)]
pub struct Found {
    pub should_descend: bool,
    pub is_within_depth: bool,
}

/// The matcher of a builder with one root, over a tree.
#[tactic(auto, using(crate::proofs::Asking::builds, crate::proofs::Asking::builds_none))]
pub fn build(setup: &Kept, tree: &Kept) -> Result<Kept, Stopped>
    ensures { Builds setup.now tree.now result }
{
    let Kept::Setup(setup) = setup else {
        return Err(Stopped::Misused);
    };
    let Kept::Tree(tree) = tree else {
        return Err(Stopped::Misused);
    };
    match matcher_of(&setup.options, tree, &setup.env) {
        Ok(matcher) => Ok(Kept::Matcher(matcher)),
        Err(stopped) => Err(stopped),
    }
}

/// The matcher of options with one root.
#[tactic(auto, using(crate::proofs::Asking::one_matcher))]
fn matcher_of(
    options: &WalkOptions,
    tree: &MemoryTree,
    env: &Env,
) -> Result<IncrementalIgnore, Stopped>
    ensures { IsBuilt tree.now env.now options.now result }
{
    let Ok(options) = options.clone() else {
        return Err(Stopped::Memory);
    };
    let builder = WalkBuilder::from_options(options);
    let Ok(matchers) = matchers_of(&builder, tree, env) else {
        return Err(Stopped::Memory);
    };
    only(matchers)
}

fn matchers_of(
    builder: &WalkBuilder,
    tree: &MemoryTree,
    env: &Env,
) -> Result<Vec<IncrementalIgnore>, Error>
    ensures made { IfOk result (λ ms. AreMatchers (tree_of tree.now) env.now builder.now.options ms.items) }
    ensures fresh { IfOk result (λ ms. All (λ m. KeepsNothing m.cache) ms.items) }
    ensures counted { IfOk result (λ ms. length ms.items ≡ length builder.now.options.roots) }
{
    tree.is_honest();
    builder.build_matchers(tree, env)
}

/// The one matcher, if there is one alone.
#[tactic(auto, using(crate::proofs::Asking::several, crate::proofs::Asking::single))]
fn only(mut matchers: Vec<IncrementalIgnore>) -> Result<IncrementalIgnore, Stopped>
    ensures one { IfOk result (λ m. matchers.items ≡ m ∷ []) }
    ensures misused { IfErr result (λ e. (e ≡ Misused) × (length matchers.items ≢ 1)) }
{
    let Some(matcher) = matchers.pop() else {
        return Err(Stopped::Misused);
    };
    match matchers.pop() {
        None => Ok(matcher),
        Some(_) => Err(Stopped::Misused),
    }
}

/// A path that a matcher is asked about, and the tree by which it answers.
#[derive(Clone, Copy, Drop)]
pub struct Asked<'q> {
    pub tree: &'q Kept,
    pub path: &'q [u8],
    pub is_dir: bool,
}

/// What becomes of a path.
#[tactic(auto, using(crate::proofs::Asking::matched))]
pub fn ask(kept: &mut Kept, asked: Asked<'_>) -> Result<IncrementalMatch, Stopped>
    ensures { Matches kept.old asked.entry.tree.now asked.entry.path.now asked.entry.is_dir result kept.new }
{
    let Kept::Matcher(matcher) = kept else {
        return Err(Stopped::Misused);
    };
    let Kept::Tree(tree) = asked.tree else {
        return Err(Stopped::Misused);
    };
    let Ok(path) = text_of(asked.path) else {
        return Err(Stopped::NotUtf8);
    };
    query(matcher, tree, path, asked.is_dir)
}

fn query(
    matcher: &mut IncrementalIgnore,
    tree: &MemoryTree,
    path: &str,
    is_dir: bool,
) -> Result<IncrementalMatch, Stopped>
    ensures value { InScene matcher.old tree.now (λ g. IfOk result (λ m. m ≡ (query g path.now is_dir).0)) }
    ensures agrees { InScene matcher.old tree.now (λ g. Agrees g matcher.new.cache) }
    ensures stays { Stays matcher.old.cache matcher.new.cache }
    ensures same { matcher.new.asked ≡ matcher.old.asked }
    ensures out_of_memory { IfErr result (λ e. e ≡ Memory) }
{
    tree.is_honest();
    what_is_kept_stays_right();
    let found = matcher.matched(tree, path, is_dir)?;
    Ok(found)
}

/// The number of a match.
pub fn code(given: &Result<IncrementalMatch, Stopped>) -> u32
    ensures { result ≡ match_code given.now }
{
    match given {
        Err(stopped) => stopped.code(),
        Ok(found) => verdict_code(*found),
    }
}

fn verdict_code(found: IncrementalMatch) -> u32
    ensures { result ≡ verdict_code found.verdict }
{
    if found.is_ignore() {
        return 2;
    }
    if found.is_whitelist() {
        return 3;
    }
    1
}

/// The rest of a match.
pub fn rest_of(given: &Result<IncrementalMatch, Stopped>) -> Found
    ensures { result ≡ found_in given.now }
{
    match given {
        Err(_) => Found {
            should_descend: false,
            is_within_depth: false,
        },
        Ok(found) => Found {
            should_descend: found.should_descend(),
            is_within_depth: found.is_within_depth(),
        },
    }
}

/// Forgets a directory and what is below it, and counts what was kept.
#[tactic(auto, using(crate::proofs::Asking::forgets))]
pub fn forget(kept: &mut Kept, dir: &[u8]) -> Result<usize, Stopped>
    ensures { Forgets kept.old dir.now result kept.new }
{
    let Kept::Matcher(matcher) = kept else {
        return Err(Stopped::Misused);
    };
    let Ok(dir) = text_of(dir) else {
        return Err(Stopped::NotUtf8);
    };
    Ok(forget_in(matcher, dir))
}

fn forget_in(matcher: &mut IncrementalIgnore, dir: &str) -> usize
    ensures { Forgot matcher.old dir.now result matcher.new }
{
    matcher.forget(dir)
}

/// The text by which a matcher knows a path.
pub fn normalize(kept: &Kept, path: &[u8]) -> Result<Option<String>, Stopped>
    ensures { Normalizes kept.now path.now (bytes_given result) }
{
    let Kept::Matcher(matcher) = kept else {
        return Err(Stopped::Misused);
    };
    let Ok(path) = text_of(path) else {
        return Err(Stopped::NotUtf8);
    };
    match matcher.normalize(path) {
        Ok(text) => Ok(text),
        Err(_) => Err(Stopped::Memory),
    }
}
