//! A guide whose host is asked for what it needs, one path at a time.
ghost use Rattle.std.specs.Prelude.{◌≡◌, IfErr, IfOk, List, OnErr, OnOk, Some, ℕ};
ghost use Rattle.ignore_guide.specs.Answers.{answer_at};
ghost use Rattle.ignore_guide.specs.Guide.{IsSameGuide, IsUnchanged, KeepsPlaces};
ghost use Rattle.ignore_guide.specs.Hosted.{CallRefused, Comes, IsNewPlace, IsToldOf, StepGives, StepPlaces, kind_answer, path_answer, read_answer, told_more};
ghost use Rattle.ignore_guide.specs.Names.{IsAsked, IsRefused};
ghost use Rattle.ignore_guide.specs.Places.{IsGone, IsSamePlaces};
ghost use Rattle.ignore_guide.specs.Told.{IsAlmostFresh, IsFresh};
ghost use Rattle.ignore_guide.specs.declared.error.GuideError.TheVariants.{Memory};
ghost use Rattle.ignore_guide.specs.declared.hosted.Call.TheVariants as calls;
ghost use Rattle.ignore_guide.specs.declared.places.Place.{Place};
ghost use Rattle.ignore_guide.specs.declared.told.Told.{Told};

use crate::error::GuideError;
use crate::guide::{Arrived, Guide};
use crate::judge::is_name;
use crate::missing::{By, Question, Wanted, missing_at_root, missing_in, next_untold};
use crate::places::{Entered, Place};
use crate::survey::{Listed, Survey};
use crate::told::Told;
use ignore_base::Fault;
use ignore_base::internal::join;
use ignore_files::{Bytes, Contents, FileType, Files, Metadata, Name};
use std::alloc::{AllocError, Global};

/// Which directory is to be loaded.
#[derive(Drop)]
pub enum Call {
    /// A root, by its path.
    Root(Name),
    /// The directory of a name in the one at a place.
    Enter(Place, Name),
}

/// A call that waits for answers of its host.
#[derive(Drop)]
pub struct Waiting {
    /// The call.
    pub call: Call,
    /// What was told for it.
    pub told: Told,
    /// What its host is asked.
    pub question: Question,
    /// What it is asked afterwards.
    pub rest: Vec<Question>,
    /// Whether nothing else is missing then.
    pub is_all: bool,
}

/// How far a call has come.
#[derive(Drop)]
pub enum Step {
    /// Its host is asked.
    Wants(Waiting),
    /// The directory has a place.
    Arrived(Arrived),
}

/// What a host tells of a path that it was asked about.
#[derive(Clone, Copy)]
pub struct Given<'g> {
    /// What the path leads to, links followed, if it leads anywhere.
    pub kind: Option<FileType>,
    /// What was read of the file there, or why it wasn't opened.
    pub bytes: Result<&'g [u8], Fault>,
    /// The fault that ended the reading before the file's end, if any.
    pub fault: Option<Fault>,
    /// The canonical path, or why there is none.
    pub path: Result<&'g str, Fault>,
}

impl Guide {
    /// By what its directories are loaded.
    fn by(&self) -> By<'_> {
        By {
            alloc: self.alloc,
            settings: &self.settings,
            outside: &self.outside,
        }
    }

    /// What is still to be asked for a call.
    #[tactic(auto, using(crate::proofs::HostLemmas::memory_refuses))]
    fn missing(&self, call: &Call, told: &Told) -> Result<Vec<Question>, GuideError>
        ensures refused { IfErr result (λ e. CallRefused self.now.places call.now e) }
    {
        match call {
            Call::Root(root) => Ok(missing_at_root(self.by(), told, root.as_str())?),
            Call::Enter(parent, name) => {
                let Some(dir) = self.places.get(*parent) else {
                    return Err(GuideError::NoPlace);
                };
                let path = join(self.alloc, dir.path.as_str(), name.as_str())?;
                Ok(missing_in(self.by(), told, path.as_str())?)
            }
        }
    }

    /// Loads the directory of a call, by what was told.
    fn come(&mut self, call: &Call, told: &Told) -> Result<Arrived, GuideError>
        ensures comes { IfOk result (λ r. Comes ⟦<Told as Files>⟧ told.now call.now self.old r self.new) }
        ensures placed { IfOk result (λ r. IsNewPlace call.now self.old.places r.place self.new.places) }
        ensures as_before { OnErr result (IsSamePlaces self.old.places self.new.places) }
        ensures refused { IfErr result (λ e. CallRefused self.old.places call.now e) }
        ensures unchanged { IfErr result (λ e. IsUnchanged e self.old self.new) }
        ensures kept { KeepsPlaces self.old self.new }
        ensures gone { (place : Place) → IsGone self.old.places place → IsGone self.new.places place }
        ensures same { IsSameGuide self.old self.new }
    {
        match call {
            Call::Root(root) => self.root(told, root.as_str()),
            Call::Enter(parent, name) => self.enter(told, *parent, name.as_str()),
        }
    }

    /// Goes on with a call: its host is asked where something is missing, and else the directory is
    /// loaded.
    fn go(
        &mut self,
        call: Call,
        told: Told,
        rest: Vec<Question>,
        is_all: bool,
    ) -> Result<Step, GuideError>
        ensures gives { IfOk result (λ step. StepGives ⟦<Told as Files>⟧ call told self.old step self.new) }
        ensures placed { IfOk result (λ step. StepPlaces call self.old.places step self.new.places) }
        ensures as_before { OnErr result (IsSamePlaces self.old.places self.new.places) }
        ensures refused { IfErr result (λ e. CallRefused self.old.places call e) }
        ensures unchanged { IfErr result (λ e. IsUnchanged e self.old self.new) }
        ensures kept { KeepsPlaces self.old self.new }
        ensures gone { (place : Place) → IsGone self.old.places place → IsGone self.new.places place }
        ensures same { IsSameGuide self.old self.new }
    {
        let mut rest = rest;
        if let Some(question) = next_untold(&told, &mut rest) {
            return Ok(Step::Wants(Waiting {
                call,
                told,
                question,
                rest,
                is_all,
            }));
        }
        let mut missing = if is_all {
            Vec::new(self.alloc)
        } else {
            self.missing(&call, &told)?
        };
        if let Some(question) = next_untold(&told, &mut missing) {
            return Ok(Step::Wants(Waiting {
                call,
                told,
                question,
                rest: missing,
                is_all,
            }));
        }
        let arrived = self.come(&call, &told)?;
        Ok(Step::Arrived(arrived))
    }

    /// Begins a root, as `root`, by what its host is asked.
    ///
    /// # Errors
    /// Out of memory.
    pub fn ask_root(&mut self, root: &str) -> Result<Step, GuideError>
        ensures gives { IfOk result (λ step. (told : Told) × IsFresh told
            × StepGives ⟦<Told as Files>⟧ (calls.Root root.now) told self.old step self.new) }
        ensures placed { IfOk result (λ step. StepPlaces (calls.Root root.now) self.old.places step self.new.places) }
        ensures as_before { OnErr result (IsSamePlaces self.old.places self.new.places) }
        ensures out_of_memory { IfErr result (λ e. e ≡ Memory) }
        ensures kept { KeepsPlaces self.old self.new }
        ensures gone { (place : Place) → IsGone self.old.places place → IsGone self.new.places place }
        ensures same { IsSameGuide self.old self.new }
    {
        let root = Name::from_str(self.alloc, root)?;
        let told = Told::nothing(self.alloc);
        self.go(Call::Root(root), told, Vec::new(self.alloc), false)
    }

    /// Enters the directory of a name in the one at a place, as `enter`, by what its host is asked.
    /// It isn't asked for what the names lack that the directory lists, where they are told.
    ///
    /// # Errors
    /// Out of memory, a place that is none, and a name that is none.
    pub fn ask_enter(
        &mut self,
        parent: Place,
        name: &str,
        names: Option<&[&str]>,
    ) -> Result<Step, GuideError>
        ensures gives { IfOk result (λ step. (told : Told) × IsAlmostFresh told
            × StepGives ⟦<Told as Files>⟧ (calls.Enter parent name.now) told self.old step self.new) }
        ensures placed { IfOk result (λ step. StepPlaces (calls.Enter parent name.now) self.old.places step self.new.places) }
        ensures as_before { OnErr result (IsSamePlaces self.old.places self.new.places) }
        ensures kept { KeepsPlaces self.old self.new }
        ensures gone { (place : Place) → IsGone self.old.places place → IsGone self.new.places place }
        ensures same { IsSameGuide self.old self.new }
        ensures there { IfOk result (λ step. IsAsked self.old.places parent name.now) }
        ensures refused { IfErr result (λ e. IsRefused self.old.places parent name.now e) }
        ensures unchanged { IfErr result (λ e. IsUnchanged e self.old self.new) }
    {
        let Some(dir) = self.places.get(parent) else {
            return Err(GuideError::NoPlace);
        };
        if !is_name(name) {
            return Err(GuideError::NoName);
        }
        let survey = self.survey(dir, name, names)?;
        let told = Told::lacking(self.alloc, survey.lacked);
        let name = Name::from_str(self.alloc, name)?;
        self.go(
            Call::Enter(parent, name),
            told,
            survey.questions,
            survey.is_all,
        )
    }

    /// Takes down what its host tells of the path that it was asked about, and goes on with the call.
    ///
    /// # Errors
    /// Those of the call, which ends then.
    #[tactic(auto, using(crate::proofs::HostLemmas::memory_refuses))]
    pub fn tell(&mut self, waiting: Waiting, given: &Given<'_>) -> Result<Step, GuideError>
        ensures gives { IfOk result (λ step. (told : Told) × IsToldOf waiting.question given.now waiting.told told
            × StepGives ⟦<Told as Files>⟧ waiting.call told self.old step self.new) }
        ensures placed { IfOk result (λ step. StepPlaces waiting.call self.old.places step self.new.places) }
        ensures as_before { OnErr result (IsSamePlaces self.old.places self.new.places) }
        ensures refused { IfErr result (λ e. CallRefused self.old.places waiting.call e) }
        ensures unchanged { IfErr result (λ e. IsUnchanged e self.old self.new) }
        ensures kept { KeepsPlaces self.old self.new }
        ensures gone { (place : Place) → IsGone self.old.places place → IsGone self.new.places place }
        ensures same { IsSameGuide self.old self.new }
    {
        let mut told = waiting.told;
        take_down(self.alloc, &mut told, waiting.question, given)?;
        self.go(waiting.call, told, waiting.rest, waiting.is_all)
    }

    /// What the names that a directory lists say, where they are told.
    fn survey(
        &self,
        dir: &Entered,
        name: &str,
        names: Option<&[&str]>,
    ) -> Result<Survey, AllocError> {
        let Some(names) = names else {
            return Ok(Survey::nothing(self.alloc));
        };
        let path = join(self.alloc, dir.path.as_str(), name)?;
        let listed = Listed {
            dir: path.as_str(),
            names,
        };
        Survey::of(self.alloc, &self.settings, listed)
    }
}

/// A kind, of which no size is known.
fn kind_answer(kind: Option<FileType>) -> Result<Metadata, Fault>
    ensures { result ≡ kind_answer kind }
{
    match kind {
        Some(file_type) => Ok(Metadata { file_type, len: 0 }),
        None => Err(Fault::NotFound),
    }
}

/// What can be read.
fn read_answer(
    alloc: Global,
    bytes: Result<&[u8], Fault>,
    fault: Option<Fault>,
) -> Result<Result<Contents, Fault>, AllocError>
    ensures { IfOk result (λ answer. answer ≡ read_answer bytes.entry fault) }
{
    match bytes {
        Ok(bytes) => {
            let bytes = Bytes::new(Vec::from_slice(alloc, bytes)?);
            Ok(Ok(Contents { bytes, fault }))
        }
        Err(fault) => Ok(Err(fault)),
    }
}

/// A canonical path.
fn path_answer(alloc: Global, path: Result<&str, Fault>) -> Result<Result<Name, Fault>, AllocError>
    ensures { IfOk result (λ answer. answer ≡ path_answer path.entry) }
{
    match path {
        Ok(path) => Ok(Ok(Name::from_str(alloc, path)?)),
        Err(fault) => Ok(Err(fault)),
    }
}

/// A copy of a path.
fn copy_of(alloc: Global, path: &Name) -> Result<Name, AllocError>
    ensures { IfOk result (λ copy. copy ≡ path.now) }
{
    Name::from_str(alloc, path.as_str())
}

/// Takes down what a host tells of what a path leads to, and of the file there.
fn take_file(
    alloc: Global,
    told: &mut Told,
    path: Name,
    given: &Given<'_>,
) -> Result<(), AllocError>
    ensures kinds { OnOk result ((text : List ℕ) → answer_at told.new.kinds.list.items text
        ≡ told_more path (Some (kind_answer given.now.kind)) (answer_at told.old.kinds.list.items) text) }
    ensures reads { OnOk result ((text : List ℕ) → answer_at told.new.reads.list.items text
        ≡ told_more path (Some (read_answer given.now.bytes given.now.fault)) (answer_at told.old.reads.list.items) text) }
    ensures paths { told.new.paths ≡ told.old.paths }
    ensures lacked { told.new.lacked ≡ told.old.lacked }
{
    let read = read_answer(alloc, given.bytes, given.fault)?;
    told.add_read(copy_of(alloc, &path)?, read)?;
    told.add_kind(path, kind_answer(given.kind))
}

/// Takes down what a host tells of a path. For dependents.
pub fn take_down(
    alloc: Global,
    told: &mut Told,
    question: Question,
    given: &Given<'_>,
) -> Result<(), AllocError>
    ensures { OnOk result (IsToldOf question given.now told.old told.new) }
{
    match question.wanted {
        Wanted::Kind => told.add_kind(question.path, kind_answer(given.kind)),
        Wanted::File => take_file(alloc, told, question.path, given),
        Wanted::Canonical => {
            let answer = path_answer(alloc, given.path)?;
            told.add_path(question.path, answer)
        }
    }
}
