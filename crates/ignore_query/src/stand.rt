//! Where a path stands: whether the rules decide on it, and by what is kept of which directory.
ghost use Rattle.std.specs.Prelude.{◌≡◌, ◌≢◌, ◌++◌, ◌∷◌, [], ℕ, All, List, None, Some, IfOk, OnOk, true, map};
ghost use Rattle.std.specs.List.{filter_map, list_all};
ghost use Rattle.std.specs.Option.{option_to_list};
ghost use Rattle.ignore_base.specs.Paths.{IsName, components, is_proper};
ghost use Rattle.ignore_base.specs.Problem.{problem_of};
ghost use Rattle.ignore_dir.specs.Chains.{slashed};
ghost use Rattle.ignore_dir.specs.Load.{Loaded};
ghost use Rattle.ignore_dir.specs.Query as queries;
ghost use Rattle.ignore_dir.specs.Soft.{AllSoft};
ghost use Rattle.ignore_files.specs.Tree.{Tree};
ghost use Rattle.ignore_query.specs.declared.kept.Cache.{Cache};
ghost use Rattle.ignore_query.specs.Listed.{kept_at};
ghost use Rattle.ignore_query.specs.Stands.{IsPlaced};

use crate::asked::Call;
use crate::clean::{depth_for, is_asked};
use crate::kept::{Cache, Kept};
use crate::keys::{next_key, parent_key, without_slash};
use ignore_base::Error;
use ignore_dir::limits::is_beyond;
use ignore_files::Files;
use ignore_levels::Place;
use std::alloc::AllocError;

/// Where a path stands, in the order in which that is looked at.
#[derive(Clone, Copy, Debug)]
pub(crate) enum Stand<'a> {
    /// It isn't asked about: the root is `-`, or the path isn't clean.
    Unasked,
    /// It is beyond the limits on depth.
    Beyond,
    /// It has no name, or the root is no directory.
    Unruled,
    /// It is inside an ignored directory: the first one on the way, by its key.
    Inside(&'a str),
    /// It is in the directory at this place, and no directory on the way is ignored.
    At(Option<Place>),
}

/// Where a path stands by what is kept of the directory with a key, in which it is.
fn stand_in(kept: Kept, key: &str) -> Stand<'_>
    ensures { (c : Cache) (front : List (List ℕ)) (name : List ℕ) → kept_at c front ≡ Some kept → key.now ≡ slashed front
        → IsPlaced c (front ++ name ∷ []) result }
{
    match kept {
        Kept::Ignored => Stand::Inside(key),
        Kept::Loaded(place) => Stand::At(place),
    }
}

impl Cache {
    ghost use Rattle.ignore_query.specs.Agrees.{Agrees};
    ghost use Rattle.ignore_query.specs.Needs.{KeepsNeeded, is_decided, is_known, needed};
    ghost use Rattle.ignore_query.specs.Reached.{scene_of};
    ghost use Rattle.ignore_query.specs.Reports.{new_above, new_below};
    ghost use Rattle.ignore_query.specs.Stands.{Grows, IsBegin, IsStand, IsUnruled, IsWithin, LeavesKept, open_in, problems_of_loads};
    ghost use Rattle.ignore_query.specs.Where.{InCall};

    /// Where the path of a call stands. Where the rules decide on it, all directories that its
    /// answer needs are kept then: what isn't kept before is loaded.
    #[tactic(auto, using(crate::proofs::StandLemmas::leaves_itself))]
    pub(crate) fn stand<'a, F: Files>(
        &mut self,
        call: &Call<'a, F>,
        errors: &mut Vec<Error>,
    ) -> Result<Stand<'a>, AllocError>
        ensures stands { IfOk result (λ s. IsStand call.now.asked.now self.new call.now.path.now call.now.is_dir s) }
        ensures unruled { InCall F.Files call.now (λ g. Agrees g self.old → IfOk result (IsUnruled g call.now.path.now)) }
        ensures leaves { LeavesKept F.Files call.now self.old self.new }
        ensures kept { InCall F.Files call.now (λ g. Agrees g self.old → is_decided g call.now.path.now call.now.is_dir ≡ true
            → OnOk result (KeepsNeeded (needed g (queries.names_of call.now.path.now)) self.old self.new)) }
        ensures problems { InCall F.Files call.now (λ g. Agrees g self.old → OnOk result (map problem_of errors.new.items
            ≡ map problem_of errors.old.items ++ problems_of_loads g self.old call.now.path.now call.now.is_dir)) }
        ensures from_kept { (tree : Tree) (loads : List ℕ → Loaded) → let g = scene_of call.now.asked.now tree loads in
            Agrees g self.old → is_known g self.old (queries.names_of call.now.path.now) ≡ true
            → (map problem_of errors.new.items ≡ map problem_of errors.old.items) × IfOk result (IsUnruled g call.now.path.now) }
        ensures outside { ¬ IsWithin call.now.asked.now call.now.path.now call.now.is_dir → errors.new ≡ errors.old }
        ensures soft { AllSoft (map problem_of errors.old.items) → OnOk result (AllSoft (map problem_of errors.new.items)) }
    {
        let settings = &call.asked.settings;
        if !is_asked(call.asked.root.as_str(), call.path) {
            return Ok(Stand::Unasked);
        }
        if is_beyond(settings, depth_for(settings, call.path), call.is_dir) {
            return Ok(Stand::Beyond);
        }
        if !self.has_rules(call)? {
            return Ok(Stand::Unruled);
        }
        self.stand_by_rules(call, errors)
    }

    /// The place of the directory in which the one with this key is, where that is kept and isn't
    /// ignored. The root is in none.
    fn open_above(&self, key: &str) -> Option<Option<Place>>
        ensures root { key.now ≡ [] → result ≡ None }
        ensures below { (front : List (List ℕ)) (name : List ℕ) → All IsName (front ++ name ∷ []) → key.now ≡ slashed (front ++ name ∷ [])
            → result ≡ open_in (kept_at self.now front) }
    {
        if key.is_empty() {
            return None;
        }
        let path = without_slash(key);
        self.open_at(parent_key(path))
    }

    /// Where the way to a path begins: the place of the directory in which the first one on it is,
    /// and the key of that first one. This is the directory in which the path is, where the one above
    /// it is kept and isn't ignored: so on the way down a tree no directory further up is looked up
    /// again. Else it is the root.
    fn begin<'a>(&self, path: &'a str) -> (Option<Place>, &'a str)
        ensures { All IsName (components path.now) → IsBegin self.now (components path.now) result.1.now result.0 }
    {
        let parent = parent_key(path);
        match self.open_above(parent) {
            Some(place) => (place, parent),
            None => (self.above, ""),
        }
    }

    /// Where the path of a call stands, where the rules decide on it. The directories on the way are
    /// kept then, from the root down to the first ignored one.
    #[tactic(auto, using(crate::proofs::StandLemmas::grows_itself))]
    fn stand_by_rules<'a, F: Files>(
        &mut self,
        call: &Call<'a, F>,
        errors: &mut Vec<Error>,
    ) -> Result<Stand<'a>, AllocError>
        requires named { list_all is_proper (components call.now.path.now) ≡ true }
        ensures placed { IfOk result (IsPlaced self.new (components call.now.path.now)) }
        ensures grows { Grows F.Files call.now.files.now call.now.asked.now self.old self.new }
        ensures kept { InCall F.Files call.now (λ g. queries.is_dir_there (g.tree.stat g.root true) ≡ true → Agrees g self.old
            → OnOk result (KeepsNeeded (needed g (components call.now.path.now)) self.old self.new)) }
        ensures problems { InCall F.Files call.now (λ g. queries.is_dir_there (g.tree.stat g.root true) ≡ true → Agrees g self.old
            → OnOk result (map problem_of errors.new.items ≡ map problem_of errors.old.items
            ++ (option_to_list (new_above g self.old) ++ filter_map (λ p. p) (new_below g self.old (components call.now.path.now))))) }
        ensures from_kept { (tree : Tree) (loads : List ℕ → Loaded) → let g = scene_of call.now.asked.now tree loads in
            Agrees g self.old → is_known g self.old (components call.now.path.now) ≡ true
            → (self.new ≡ self.old) × (map problem_of errors.new.items ≡ map problem_of errors.old.items) }
        ensures soft { AllSoft (map problem_of errors.old.items) → OnOk result (AllSoft (map problem_of errors.new.items)) }
    {
        let parent = parent_key(call.path);
        if let Some(kept) = self.dirs.get(parent) {
            return Ok(stand_in(*kept, parent));
        }
        self.keep_above(call, errors)?;
        let (top, first) = self.begin(call.path);
        let mut place = top;
        let mut key = first;
        'way: loop {
            match self.keep(call, place, key, errors)? {
                Kept::Ignored => return Ok(Stand::Inside(key)),
                Kept::Loaded(found) => place = found,
            }
            match next_key(call.path, key) {
                Some(next) => key = next,
                None => return Ok(Stand::At(place)),
            }
        }
    }
}
