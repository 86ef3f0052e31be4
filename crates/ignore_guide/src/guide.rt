//! A guide: which directories were entered, and what decides there.
ghost use Rattle.ignore_guide.specs.Forest.{IsForest};
ghost use Rattle.ignore_levels.specs.Levels.{slots_of};

use crate::error::GuideError;
use crate::free::free_down;
use crate::judge::is_name;
use crate::open::{open, open_root};
use crate::places::{Place, Places};
use crate::settle::{Around, above, settle};
use ignore_base::Error;
use ignore_dir::laws::steps_are_whole;
use ignore_dir::{Ground, Outside, Settings};
use ignore_files::Files;
use ignore_levels::Levels;
use std::alloc::{AllocError, Global};

/// What decides in the directories that a host has entered and not left, each of which stands at a
/// place.
///
/// The host lists directories, and chooses which it enters, when it leaves them, and in which order
/// it asks. The guide loads a directory as it is entered, and decides on its entries.
#[derive(Debug, Drop)]
pub struct Guide {
    pub(crate) alloc: Global,
    pub(crate) settings: Settings,
    pub(crate) outside: Outside,
    pub(crate) levels: Levels,
    pub(crate) places: Places,
    /// The places are a forest over the levels.
    pub ghost forest: { ∥ IsForest (slots_of levels) places ∥₁ },
}

/// A directory that was entered, and what is wrong with its files of rules.
#[derive(Debug, Drop)]
pub struct Arrived {
    /// Its place.
    pub place: Place,
    /// What is wrong with its files of rules, or with those above a root, if anything.
    pub error: Option<Error>,
}

impl Guide {
    ghost use Rattle.std.specs.Prelude.{◌≡◌, ◌≢◌, ◌++◌, ◌∷◌, [], ◌+◌, ℕ, IfOk, IfErr, List, None, OnErr, OnOk, option_map};
    ghost use Rattle.ignore_base.specs.Paths.{join_of};
    ghost use Rattle.ignore_base.specs.Problem.{problem_of};
    ghost use Rattle.ignore_base.specs.Text.{Path};
    ghost use Rattle.ignore_dir.specs.Above.{paths_above, problems_of_loads};
    ghost use Rattle.ignore_dir.specs.Load.{joined_some};
    ghost use Rattle.ignore_dir.specs.LoadsBy.{LoadsBy, reads_of, stats_of};
    ghost use Rattle.ignore_dir.specs.Lists.{Placed};
    ghost use Rattle.ignore_dir.specs.Scene.{scene};
    ghost use Rattle.ignore_dir.specs.Steps.{Reached, entered, entry, reached_in};
    ghost use Rattle.ignore_dir.specs.declared.dir.Dir.{Dir};
    ghost use Rattle.ignore_guide.specs.Guide.{InGuide, IsRootBy, IsSameGuide, IsUnchanged, KeepsPlaces, StandsFor, holding, root_reached};
    ghost use Rattle.ignore_guide.specs.Names.{IsAsked, IsLeft, IsNotLeft, IsRefused};
    ghost use Rattle.ignore_guide.specs.Places.{IsGone, IsIn, IsSamePlaces, KeepsOthers, entered_at};
    ghost use Rattle.ignore_guide.specs.declared.error.GuideError.TheVariants.{Memory};

    /// A guide by these settings and these rules from outside, without places. It allocates nothing.
    pub fn new(alloc: Global, settings: Settings, outside: Outside) -> Guide
        ensures settings { result.settings ≡ settings }
        ensures outside { result.outside ≡ outside }
        ensures empty { (place : Place) → entered_at result.places place ≡ None }
    {
        Guide {
            alloc,
            settings,
            outside,
            levels: Levels::new(alloc),
            places: Places::new(alloc),
        }
    }

    /// Begins a root: loads what is above it and the root itself, and gives it a place. A guide may
    /// have several roots.
    ///
    /// # Errors
    /// Out of memory.
    pub fn root<F: Files>(&mut self, files: &F, root: &str) -> Result<Arrived, GuideError>
        ensures answered { IfOk result (λ r. (above : List Placed) × (text : Path) × (dir : Dir)
            × IsRootBy F.Files files.now self.old.settings root.now above text dir (option_map problem_of r.error)
            × StandsFor self.new r.place 1 (root_reached above text dir root.now)) }
        ensures stands { InGuide F.Files files.now self.old (λ tree loads.
            IfOk result (λ r. StandsFor self.new r.place 1 (reached_in (scene tree loads self.old.settings self.old.outside root.now) []))) }
        ensures problem { InGuide F.Files files.now self.old (λ tree loads. IfOk result (λ r. option_map problem_of r.error
            ≡ joined_some (problems_of_loads loads (paths_above tree self.old.settings root.now) ++ (loads root.now).1 ∷ []))) }
        ensures new { IfOk result (λ r. entered_at self.old.places r.place ≡ None) }
        ensures top { IfOk result (λ r. (parent : Place) → IsIn self.new.places parent r.place → ⊥) }
        ensures stay { IfOk result (λ r. KeepsOthers r.place self.old.places self.new.places) }
        ensures as_before { OnErr result (IsSamePlaces self.old.places self.new.places) }
        ensures kept { KeepsPlaces self.old self.new }
        ensures gone { (place : Place) → IsGone self.old.places place → IsGone self.new.places place }
        ensures same { IsSameGuide self.old self.new }
        ensures out_of_memory { IfErr result (λ e. e ≡ Memory) }
    {
        steps_are_whole();
        let ground = Ground {
            alloc: self.alloc,
            files,
            settings: &self.settings,
            outside: &self.outside,
        };
        let rooted = open_root(&ground, root)?;
        let level = above(&mut self.levels, rooted.above)?;
        let around = Around {
            level,
            parent: None,
        };
        let arrived = settle(&mut self.levels, &mut self.places, around, rooted.opened)?;
        Ok(arrived)
    }

    /// Enters the directory of a name in the one at a place: loads it, and gives it a place.
    ///
    /// # Errors
    /// Out of memory, a place that is none, and a name that is none.
    pub fn enter<F: Files>(
        &mut self,
        files: &F,
        parent: Place,
        name: &str,
    ) -> Result<Arrived, GuideError>
        ensures answered { (depth : ℕ) (at : Reached) → StandsFor self.old parent depth at → IfOk result (λ r. (dir : Dir)
            × LoadsBy (stats_of F.Files files.now) (reads_of F.Files files.now) self.old.settings (join_of at.path name.now) dir (option_map problem_of r.error)
            × StandsFor self.new r.place (depth + 1) (holding dir (entry at name.now))) }
        ensures stands { (depth : ℕ) (at : Reached) → StandsFor self.old parent depth at → InGuide F.Files files.now self.old (λ tree loads.
            IfOk result (λ r. StandsFor self.new r.place (depth + 1) (entered loads (entry at name.now)))) }
        ensures problem { (depth : ℕ) (at : Reached) → StandsFor self.old parent depth at → InGuide F.Files files.now self.old (λ tree loads.
            IfOk result (λ r. option_map problem_of r.error ≡ (loads (join_of at.path name.now)).1)) }
        ensures new { IfOk result (λ r. entered_at self.old.places r.place ≡ None) }
        ensures within { IfOk result (λ r. IsIn self.new.places parent r.place) }
        ensures stay { IfOk result (λ r. KeepsOthers r.place self.old.places self.new.places) }
        ensures as_before { OnErr result (IsSamePlaces self.old.places self.new.places) }
        ensures kept { KeepsPlaces self.old self.new }
        ensures gone { (place : Place) → IsGone self.old.places place → IsGone self.new.places place }
        ensures same { IsSameGuide self.old self.new }
        ensures there { IfOk result (λ r. IsAsked self.old.places parent name.now) }
        ensures refused { IfErr result (λ e. IsRefused self.old.places parent name.now e) }
        ensures unchanged { IfErr result (λ e. IsUnchanged e self.old self.new) }
    {
        let Some(dir) = self.places.get(parent) else {
            return Err(GuideError::NoPlace);
        };
        if !is_name(name) {
            return Err(GuideError::NoName);
        }
        let ground = Ground {
            alloc: self.alloc,
            files,
            settings: &self.settings,
            outside: &self.outside,
        };
        let around = Around {
            level: dir.level,
            parent: Some(parent),
        };
        let opened = open(&ground, dir, name)?;
        let arrived = settle(&mut self.levels, &mut self.places, around, opened)?;
        Ok(arrived)
    }

    /// Leaves the directory at a place, which is none from then on.
    ///
    /// # Errors
    /// A place that is none, and one in whose directory another was entered and not left. Then
    /// nothing changes.
    pub fn leave(&mut self, place: Place) -> Result<(), GuideError>
        ensures there { OnOk result (IsLeft self.old.places place) }
        ensures gone { OnOk result (IsGone self.new.places place) }
        ensures kept { (other : Place) (depth : ℕ) (at : Reached) → other ≢ place → StandsFor self.old other depth at
            → StandsFor self.new other depth at }
        ensures stay { KeepsOthers place self.old.places self.new.places }
        ensures others { (other : Place) → IsGone self.old.places other → IsGone self.new.places other }
        ensures same { IsSameGuide self.old self.new }
        ensures unchanged { OnErr result (self.new ≡ self.old) }
        ensures refused { IfErr result (λ e. IsNotLeft self.old.places place e) }
    {
        let Some(dir) = self.places.get(place) else {
            return Err(GuideError::NoPlace);
        };
        if self.places.has_children(place) {
            return Err(GuideError::HasChildren);
        }
        let (level, around) = (dir.level, dir.around);
        free_down(&mut self.levels, level, around);
        self.places.leave(place);
        Ok(())
    }
}
