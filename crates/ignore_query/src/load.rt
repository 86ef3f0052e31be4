//! Directories that are looked up, or loaded and kept.
ghost use Rattle.std.specs.Prelude.{◌≡◌, ◌++◌, [], ℕ, List, All, Some};
ghost use Rattle.std.specs.Prelude.{IfOk, OnOk, Option, true, ◌||◌, map, is_some, string_bytes, if◌then◌else◌};
ghost use Rattle.std.specs.BTreeMap.{get_by_text};
ghost use Rattle.std.specs.Option.{option_to_list};
ghost use Rattle.std.specs.Str.{bytes_eq};
ghost use Rattle.ignore_base.specs.Paths.{IsName};
ghost use Rattle.ignore_base.specs.Problem.{Problem, problem_of};
ghost use Rattle.ignore_dir.specs.Above.{path_along};
ghost use Rattle.ignore_dir.specs.Chains.{slashed};
ghost use Rattle.ignore_dir.specs.Load.{Loaded};
ghost use Rattle.ignore_dir.specs.LoadsBy.{LoadsBy, reads_of, stats_of};
ghost use Rattle.ignore_dir.specs.Query.{is_ignored};
ghost use Rattle.ignore_dir.specs.Soft.{AllSoft};
ghost use Rattle.ignore_files.specs.Tree.{Tree};
ghost use Rattle.ignore_levels.specs.Levels.{Keeps, slots_of};
ghost use Rattle.ignore_query.specs.declared.kept.Kept as kept;
ghost use Rattle.ignore_query.specs.Agrees.{Agrees, IsNext, IsRight};
ghost use Rattle.ignore_query.specs.KeptLoads.{IsFound};
ghost use Rattle.ignore_query.specs.Listed.{IsBelow};
ghost use Rattle.ignore_query.specs.Reached.{scene_of};
ghost use Rattle.ignore_query.specs.Reports.{problem_in, problems_at};
ghost use Rattle.ignore_query.specs.Stands.{Grows, IsNextKey};
ghost use Rattle.ignore_query.specs.Where.{InCall, WhereNext};

use crate::asked::{Asked, Call};
use crate::kept::{Cache, Kept};
use crate::keys::without_slash;
use ignore_base::Error;
use ignore_base::internal::join;
use ignore_base::text::join_law;
use ignore_dir::Dir;
use ignore_dir::errors::push_some;
use ignore_dir::laws::{one_load, steps_are_whole};
use ignore_dir::load::load_directory;
use ignore_files::Files;
use ignore_levels::Place;
use std::alloc::{AllocError, Global};

/// The path of a directory, by its key.
fn path_of(alloc: Global, root: &str, key: &str) -> Result<String, AllocError>
    ensures value { (names : List (List ℕ)) → All IsName names → key.now ≡ slashed names
        → IfOk result (λ path. string_bytes path ≡ path_along root.now names) }
{
    join_law();
    if key.is_empty() {
        return Ok(String::from_str(alloc, root)?);
    }
    join(alloc, root, without_slash(key))
}

/// Loads a directory, by its key.
fn load<F: Files>(call: &Call<'_, F>, key: &str, errors: &mut Vec<Error>) -> Result<Dir, AllocError>
    ensures value { InCall F.Files call.now (λ g. (names : List (List ℕ)) → All IsName names → key.now ≡ slashed names
        → IfOk result (λ dir. dir ≡ (g.loads (path_along g.root names)).0)) }
    ensures problems { InCall F.Files call.now (λ g. (names : List (List ℕ)) → All IsName names → key.now ≡ slashed names
        → OnOk result (map problem_of errors.new.items ≡ map problem_of errors.old.items ++ option_to_list (problem_in g names))) }
    ensures loaded { (names : List (List ℕ)) → All IsName names → key.now ≡ slashed names
        → IfOk result (λ dir. (problem : Option Problem) × LoadsBy (stats_of F.Files call.now.files.now) (reads_of F.Files call.now.files.now)
        call.now.asked.now.settings (path_along (string_bytes call.now.asked.now.root) names) dir problem) }
    ensures soft { AllSoft (map problem_of errors.old.items) → OnOk result (AllSoft (map problem_of errors.new.items)) }
{
    one_load();
    let path = path_of(call.alloc(), call.asked.root.as_str(), key)?;
    let (dir, error) = load_directory(&call.ground(), path.as_str())?;
    push_some(errors, error)?;
    Ok(dir)
}

impl Cache {
    /// Whether the directory with this key, in one that stands at a place, is ignored. The root
    /// never is.
    fn is_ignored(&self, asked: &Asked, place: Option<Place>, key: &str) -> Result<bool, AllocError>
        ensures value { (tree : Tree) (loads : List ℕ → Loaded) (names : List (List ℕ)) → let g = scene_of asked.now tree loads in
            Agrees g self.now → All IsName names → key.now ≡ slashed names → IsNext self.now names place
            → IfOk result (λ yes. yes ≡ is_ignored g names) }
    {
        if key.is_empty() {
            return Ok(false);
        }
        let verdict = self.verdict_at(asked, place, without_slash(key), true)?;
        Ok(verdict.is_ignore())
    }

    /// What is to be kept of the directory with this key, in one that stands at a place. It is
    /// loaded unless it is ignored, and has a level of its own then where it counts.
    fn find<F: Files>(
        &mut self,
        call: &Call<'_, F>,
        place: Option<Place>,
        key: &str,
        errors: &mut Vec<Error>,
    ) -> Result<Kept, AllocError>
        ensures value { WhereNext F.Files call.now self.old place key.now (λ g names.
            IfOk result (λ k. IsRight g self.new names k)) }
        ensures problems { WhereNext F.Files call.now self.old place key.now (λ g names.
            OnOk result (map problem_of errors.new.items
            ≡ map problem_of errors.old.items ++ (if is_ignored g names then [] else option_to_list (problem_in g names)))) }
        ensures loaded { (names : List (List ℕ)) → All IsName names → key.now ≡ slashed names
            → IfOk result (λ k. IsFound F.Files call.now.files.now call.now.asked.now self.new place names k) }
        ensures levels { Keeps (slots_of self.old.levels) (slots_of self.new.levels) }
        ensures below { IfOk result (λ k. IsBelow (slots_of self.old.levels) (slots_of self.new.levels) place k) }
        ensures above { (self.new.has_above ≡ self.old.has_above) × ((self.new.above ≡ self.old.above) × (self.new.base ≡ self.old.base)) }
        ensures dirs { self.new.dirs ≡ self.old.dirs }
        ensures soft { AllSoft (map problem_of errors.old.items) → OnOk result (AllSoft (map problem_of errors.new.items)) }
    {
        steps_are_whole();
        if self.is_ignored(call.asked, place, key)? {
            return Ok(Kept::Ignored);
        }
        let dir = load(call, key, errors)?;
        let offset = self.base.len() + key.len();
        let place = self.levels.add(dir, place, offset)?;
        Ok(Kept::Loaded(place))
    }

    /// Looks the directory with this key up, in one that stands at a place. Where nothing is kept
    /// of it, judges it, loads it unless it is ignored, and keeps it. Returns what is kept of it.
    #[tactic(auto, using(crate::proofs::StandLemmas::grows_itself))]
    pub(crate) fn keep<F: Files>(
        &mut self,
        call: &Call<'_, F>,
        place: Option<Place>,
        key: &str,
        errors: &mut Vec<Error>,
    ) -> Result<Kept, AllocError>
        requires next { IsNextKey self.now key.now place }
        ensures grows { Grows F.Files call.now.files.now call.now.asked.now self.old self.new }
        ensures kept { OnOk result ((text : List ℕ) → is_some (get_by_text self.new.dirs.map text)
            ≡ (is_some (get_by_text self.old.dirs.map text) || bytes_eq key.now text)) }
        ensures found { IfOk result (λ k. get_by_text self.new.dirs.map key.now ≡ Some k) }
        ensures problems { WhereNext F.Files call.now self.old place key.now (λ g names.
            OnOk result (map problem_of errors.new.items ≡ map problem_of errors.old.items ++ problems_at g self.old names)) }
        ensures known { is_some (get_by_text self.old.dirs.map key.now) ≡ true → (self.new ≡ self.old) × (errors.new ≡ errors.old) }
        ensures soft { AllSoft (map problem_of errors.old.items) → OnOk result (AllSoft (map problem_of errors.new.items)) }
    {
        if let Some(kept) = self.dirs.get(key) {
            return Ok(*kept);
        }
        let text = String::from_str(call.alloc(), key)?;
        let kept = self.find(call, place, key, errors)?;
        self.dirs.insert(text, kept)?;
        Ok(kept)
    }
}
