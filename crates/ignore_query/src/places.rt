//! The answer for a path by where it stands.
ghost use Rattle.std.specs.Prelude.{◌≡◌, ◌++◌, ◌∷◌, [], ℕ, List, All, Some, IfOk, OnOk, map};
ghost use Rattle.ignore_base.specs.Paths.{IsName, joined};
ghost use Rattle.ignore_base.specs.Problem.{problem_of};
ghost use Rattle.ignore_dir.specs.Limits as limits;
ghost use Rattle.ignore_dir.specs.Load.{Loaded};
ghost use Rattle.ignore_dir.specs.Query as queries;
ghost use Rattle.ignore_dir.specs.Soft.{AllSoft};
ghost use Rattle.ignore_dir.specs.Scene.{path_verdict};
ghost use Rattle.ignore_files.specs.Tree.{Tree};
ghost use Rattle.ignore_query.specs.declared.kept.Kept as kept;
ghost use Rattle.ignore_query.specs.Agrees.{Agrees, kept_at};
ghost use Rattle.ignore_query.specs.declared.stand.Stand as stands;
ghost use Rattle.ignore_query.specs.Reached.{scene_of};
ghost use Rattle.ignore_query.specs.Stands.{StandsIn, problems_of_size};

use crate::asked::{Asked, Call};
use crate::clean::depth_for;
use crate::kept::Cache;
use crate::size::larger;
use crate::stand::Stand;
use ignore_base::Error;
use ignore_base::internal::join;
use ignore_base::text::join_law;
use ignore_dir::IncrementalMatch;
use ignore_dir::laws::steps_are_whole;
use ignore_dir::verdict::Verdict;
use ignore_files::Files;
use ignore_levels::laws::what_counts_decides;
use ignore_levels::{Place, verdict};
use std::alloc::AllocError;

/// The answer for the path of a call with this verdict, by its depth.
fn limited<F: Files>(call: &Call<'_, F>, verdict: Verdict) -> IncrementalMatch
    ensures { result ≡ limits.limited call.now.asked.now.settings (queries.depth_of_path call.now.path.now) call.now.is_dir verdict }
{
    let settings = &call.asked.settings;
    IncrementalMatch::limited(
        settings,
        depth_for(settings, call.path),
        call.is_dir,
        verdict,
    )
}

impl Cache {
    /// The verdict on a path by the place of the directory in which it is.
    pub(crate) fn verdict_at(
        &self,
        asked: &Asked,
        place: Option<Place>,
        path: &str,
        is_dir: bool,
    ) -> Result<Verdict, AllocError>
        ensures value { (tree : Tree) (loads : List ℕ → Loaded) (front : List (List ℕ)) (name : List ℕ)
            → let g = scene_of asked.now tree loads in
            Agrees g self.now → All IsName (front ++ name ∷ []) → kept_at self.now front ≡ Some (kept.Kept.Loaded place)
            → path.now ≡ joined (front ++ name ∷ []) → IfOk result (λ v. v ≡ path_verdict g (front ++ name ∷ []) is_dir) }
    {
        join_law();
        steps_are_whole();
        what_counts_decides();
        let alloc = *asked.root.allocator();
        let mut text = String::with_capacity(alloc, self.base.len() + path.len())?;
        text.push_str(self.base.as_str())?;
        text.push_str(path)?;
        let path = join(alloc, asked.root.as_str(), path)?;
        let entry = ignore_dir::Asked {
            text: text.as_str(),
            path: path.as_str(),
            is_dir,
        };
        verdict(&asked.settings, &asked.outside, &self.levels, place, &entry)
    }

    /// The answer for the path of a call, by where it stands. Where its size isn't known, the fault
    /// is appended to the errors.
    pub(crate) fn answer<F: Files>(
        &self,
        call: &Call<'_, F>,
        stand: Stand<'_>,
        errors: &mut Vec<Error>,
    ) -> Result<IncrementalMatch, AllocError>
        ensures value { (tree : Tree) (loads : List ℕ → Loaded) → let g = scene_of call.now.asked.now tree loads in
            StandsIn F.Files call.now g self.now stand.entry → IfOk result (λ m. m ≡ (queries.query g call.now.path.now call.now.is_dir).0) }
        ensures problems { (tree : Tree) (loads : List ℕ → Loaded) → let g = scene_of call.now.asked.now tree loads in
            StandsIn F.Files call.now g self.now stand.entry → OnOk result (map problem_of errors.new.items
            ≡ map problem_of errors.old.items ++ problems_of_size g call.now.path.now call.now.is_dir) }
        ensures unasked { stand.entry ≡ stands.Stand.Unasked → (errors.new ≡ errors.old) × IfOk result (λ m. m ≡ limits.no_match call.now.is_dir) }
        ensures beyond { stand.entry ≡ stands.Stand.Beyond → (errors.new ≡ errors.old) × IfOk result (λ m. m ≡ limits.beyond) }
        ensures soft { AllSoft (map problem_of errors.old.items) → OnOk result (AllSoft (map problem_of errors.new.items)) }
    {
        match stand {
            Stand::Unasked => Ok(IncrementalMatch::no_match(call.is_dir)),
            Stand::Beyond => Ok(IncrementalMatch::beyond()),
            Stand::Unruled => Ok(limited(call, Verdict::None)),
            Stand::Inside(_) => Ok(limited(call, Verdict::Ignore)),
            Stand::At(place) => {
                let verdict = self.verdict_at(call.asked, place, call.path, call.is_dir)?;
                match larger(call, verdict, errors)? {
                    Some(_) => Ok(limited(call, Verdict::Ignore)),
                    None => Ok(limited(call, verdict)),
                }
            }
        }
    }
}
