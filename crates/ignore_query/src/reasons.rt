//! The reason of an answer, by where a path stands.
ghost use Rattle.std.specs.Prelude.{◌≡◌, ◌++◌, ◌∷◌, [], ℕ, List, All, Some, map, IfOk, OnOk, true};
ghost use Rattle.std.specs.BTreeMap.{get_by_text};
ghost use Rattle.ignore_base.specs.Match.{match_map};
ghost use Rattle.ignore_base.specs.Paths.{IsName, joined};
ghost use Rattle.ignore_base.specs.Problem.{problem_of};
ghost use Rattle.ignore_dir.specs.Chains.{slashed};
ghost use Rattle.ignore_dir.specs.Load.{Loaded};
ghost use Rattle.ignore_dir.specs.Query as queries;
ghost use Rattle.ignore_dir.specs.Soft.{AllSoft};
ghost use Rattle.ignore_dir.specs.Verdict as verdicts;
ghost use Rattle.ignore_files.specs.Tree.{Tree};
ghost use Rattle.ignore_query.specs.declared.kept.Kept as kept;
ghost use Rattle.ignore_query.specs.declared.stand.Stand as stands;
ghost use Rattle.ignore_query.specs.Agrees.{Agrees, kept_at};
ghost use Rattle.ignore_query.specs.Reached.{scene_of};
ghost use Rattle.ignore_query.specs.Stands.{StandsIn, open_in, problems_of_size};
ghost use Rattle.ignore_why.specs.Cited.{cited_of};
ghost use Rattle.ignore_why.specs.QueryWhy.{path_cited, query_why, query_why_of, why_beyond};
ghost use Rattle.ignore_why.specs.QueryWhy.QueryWhy.{inside, unasked as not_asked};

use crate::asked::{Asked, Call};
use crate::clean::depth_for;
use crate::kept::{Cache, Kept};
use crate::keys::{parent_key, without_slash};
use crate::size::larger;
use crate::stand::Stand;
use ignore_base::internal::join;
use ignore_base::text::join_law;
use ignore_base::{Error, Match};
use ignore_dir::Settings;
use ignore_dir::limits::is_beyond;
use ignore_dir::verdict::Verdict;
use ignore_files::Files;
use ignore_levels::laws::what_counts_decides;
use ignore_levels::{Place, judge};
use ignore_why::{Cause, Reason, causes};
use std::alloc::AllocError;

/// The verdict of what decides.
pub(crate) fn verdict_of(said: &Match<Cause>) -> Verdict
    ensures value { result ≡ verdicts.verdict_of said.now }
    ensures named { result ≡ verdicts.verdict_of (match_map cited_of said.now) }
{
    match said {
        Match::None => Verdict::None,
        Match::Ignore(_) => Verdict::Ignore,
        Match::Whitelist(_) => Verdict::Whitelist,
    }
}

/// Why a path at a depth beyond the limits is ignored.
fn beyond_by(settings: &Settings, depth: usize) -> Reason
    ensures { query_why_of result ≡ why_beyond settings.now depth }
{
    if is_beyond(settings, depth, true) {
        Reason::TooDeep
    } else {
        Reason::TooShallow
    }
}

impl Cache {
    /// What decides on a path by the place of the directory in which it is.
    fn causes_at(
        &self,
        asked: &Asked,
        place: Option<Place>,
        path: &str,
        is_dir: bool,
    ) -> Result<Match<Cause>, AllocError>
        ensures value { (tree : Tree) (loads : List ℕ → Loaded) (front : List (List ℕ)) (name : List ℕ)
            → let g = scene_of asked.now tree loads in
            Agrees g self.now → All IsName (front ++ name ∷ []) → kept_at self.now front ≡ Some (kept.Kept.Loaded place)
            → path.now ≡ joined (front ++ name ∷ [])
            → IfOk result (λ m. match_map cited_of m ≡ path_cited g (front ++ name ∷ []) is_dir) }
    {
        join_law();
        what_counts_decides();
        let alloc = *asked.root.allocator();
        let mut text = String::with_capacity(alloc, self.base.len() + path.len())?;
        text.push_str(self.base.as_str())?;
        text.push_str(path)?;
        let path = join(alloc, asked.root.as_str(), path)?;
        let entry = ignore_dir::Asked {
            text: text.as_str(),
            path: path.as_str(),
            is_dir,
        };
        let found = judge(&asked.settings, &asked.outside, &self.levels, place, &entry)?;
        causes(alloc, text.as_str(), &found)
    }

    /// The place of the directory with this key, where it is kept and isn't ignored.
    pub(crate) fn open_at(&self, key: &str) -> Option<Option<Place>>
        ensures { result ≡ open_in (get_by_text self.now.dirs.map key.now) }
    {
        match self.dirs.get(key) {
            Some(Kept::Ignored) => None,
            Some(Kept::Loaded(place)) => Some(*place),
            None => None,
        }
    }

    /// What decides on the ignored directory with this key.
    fn inside(&self, asked: &Asked, key: &str) -> Result<Reason, AllocError>
        ensures value { (tree : Tree) (loads : List ℕ → Loaded) (front : List (List ℕ)) (name : List ℕ)
            → let g = scene_of asked.now tree loads in
            Agrees g self.now → All IsName (front ++ name ∷ []) → kept_at self.now (front ++ name ∷ []) ≡ Some kept.Kept.Ignored
            → key.now ≡ slashed (front ++ name ∷ [])
            → IfOk result (λ r. query_why_of r ≡ inside (joined (front ++ name ∷ [])) (path_cited g (front ++ name ∷ []) true)) }
    {
        let path = without_slash(key);
        match self.open_at(parent_key(path)) {
            Some(place) => {
                let cause = self.causes_at(asked, place, path, true)?;
                let directory = String::from_str(*asked.root.allocator(), path)?;
                Ok(Reason::Inside { directory, cause })
            }
            None => Ok(Reason::Unruled),
        }
    }

    /// The reason of the answer for the path of a call, by where it stands. Where its size isn't
    /// known, the fault is appended to the errors.
    pub(crate) fn reason<F: Files>(
        &self,
        call: &Call<'_, F>,
        stand: Stand<'_>,
        errors: &mut Vec<Error>,
    ) -> Result<Reason, AllocError>
        ensures why { (tree : Tree) (loads : List ℕ → Loaded) → let g = scene_of call.now.asked.now tree loads in
            StandsIn F.Files call.now g self.now stand.entry → IfOk result (λ r. query_why_of r ≡ query_why g call.now.path.now call.now.is_dir) }
        ensures problems { (tree : Tree) (loads : List ℕ → Loaded) → let g = scene_of call.now.asked.now tree loads in
            StandsIn F.Files call.now g self.now stand.entry → OnOk result (map problem_of errors.new.items
            ≡ map problem_of errors.old.items ++ problems_of_size g call.now.path.now call.now.is_dir) }
        ensures unasked { stand.entry ≡ stands.Stand.Unasked → (errors.new ≡ errors.old) × IfOk result (λ r. query_why_of r ≡ not_asked) }
        ensures beyond { stand.entry ≡ stands.Stand.Beyond → (errors.new ≡ errors.old) × IfOk result (λ r. query_why_of r
            ≡ why_beyond call.now.asked.now.settings (queries.depth_of_path call.now.path.now)) }
        ensures soft { AllSoft (map problem_of errors.old.items) → OnOk result (AllSoft (map problem_of errors.new.items)) }
    {
        let settings = &call.asked.settings;
        match stand {
            Stand::Unasked => Ok(Reason::Unasked),
            Stand::Beyond => Ok(beyond_by(settings, depth_for(settings, call.path))),
            Stand::Unruled => Ok(Reason::Unruled),
            Stand::Inside(key) => self.inside(call.asked, key),
            Stand::At(place) => {
                let said = self.causes_at(call.asked, place, call.path, call.is_dir)?;
                match larger(call, verdict_of(&said), errors)? {
                    Some((size, limit)) => Ok(Reason::Larger { size, limit }),
                    None => Ok(Reason::Decided(said)),
                }
            }
        }
    }
}
