//! The exports of guides for hosts that walk by themselves.

ghost use Rattle.std.specs.Prelude.{◌≡◌, ◌≢◌, List, ℕ, Result, Ok, Err, IfOk, IfErr, length, string_bytes};
ghost use Rattle.ignore_kept.specs.Deciding.{DecidesAll, DecidesTold, codes_put, ReasonsTold};
ghost use Rattle.ignore_kept.specs.Guides.{AtBegun, Came, Done, Enters, Gives, Leaves, OnGuide, Roots, Starts, TellsWanted, came_code, came_place};
ghost use Rattle.ignore_kept.specs.Kinds.{guided_in};
ghost use Rattle.ignore_kept.specs.Parts.{TellsParts};
ghost use Rattle.ignore_kept.specs.Rooms.{put_in};
ghost use Rattle.ignore_kept.specs.Stops.{ended_code};
ghost use Rattle.ignore_kept.specs.declared.kept.Kept.{Kept};
ghost use Rattle.ignore_kept.specs.declared.stopped.Stopped.{Stopped};

use crate::handle::{Handle, close, give_back, lend, open};
use core::mem;
use ignore::guide::Place;
use ignore_kept::asker::{self, Found};
use ignore_kept::deciding::{self, Asked};
use ignore_kept::entering::{self, Entering};
use ignore_kept::entries::Listed;
use ignore_kept::explained::{ToldReason, Why};
use ignore_kept::given::Gift;
use ignore_kept::guided::{self, Wants};
use ignore_kept::parts::{self, Part, ToldPart};
use ignore_kept::room::put;
use ignore_kept::{Kept, Stopped, done};
use std::alloc::Global;

/// Makes a guide by the settings of a builder, and hands out its handle.
#[unsafe(no_mangle)]
pub extern "C" fn ignore_guide_new(alloc: Global, builder: &mut Handle, out: &mut *mut u8) -> u32
    ensures builder { builder.new.value ≡ builder.old.value }
    ensures started { (given : Result Kept Stopped) × Starts builder.old.value given × (result ≡ ended_code given) }
{
    let setup = mem::replace_with(builder, (), |builder, ()| lend(builder));
    let made = boxed(alloc, &setup);
    mem::replace_with(builder, setup, give_back);
    match made {
        Ok(kept) => {
            let (at, _) = Box::into_raw_with_allocator(kept);
            *out = at as *mut u8;
            0
        }
        Err(stopped) => stopped.code(),
    }
}

fn boxed(alloc: Global, setup: &Kept) -> Result<Box<Kept>, Stopped>
    ensures started { IfOk result (λ kept. Starts setup.now (Ok kept.value)) }
    ensures refused { IfErr result (λ e. Starts setup.now (Err e)) }
{
    let kept = guided::start(alloc, setup)?;
    Ok(Box::new(alloc, kept)?)
}

/// Begins a root.
#[unsafe(no_mangle)]
pub extern "C" fn ignore_guide_root(guide: &mut Handle, root: &[u8], place: &mut Place) -> u32
    ensures { Came (OnGuide (Roots root.now) guide.old.value) result place.new guide.new.value }
{
    let (code, at) = mem::replace_with(guide, root, rooted);
    *place = at;
    code
}

fn rooted(guide: Handle, root: &[u8]) -> (Handle, (u32, Place))
    ensures { Came (OnGuide (Roots root.now) guide.value) result.1.0 result.1.1 result.0.value }
{
    let mut kept = open(guide);
    let alloc = *Box::allocator(&kept);
    let came = entering::root(alloc, &mut kept, root);
    (close(kept), told(came))
}

/// What C is told of a directory that came, or didn't so far.
fn told(came: Result<Option<Place>, Stopped>) -> (u32, Place)
    ensures code { result.0 ≡ came_code came }
    ensures place { result.1 ≡ came_place came }
{
    match came {
        Ok(Some(place)) => (0, place),
        Ok(None) => (16, NO_PLACE),
        Err(stopped) => (stopped.code(), NO_PLACE),
    }
}

const NO_PLACE: Place = Place {
    index: 0,
    serial: 0,
};

/// Enters the directory of a name in the one at a place.
#[unsafe(no_mangle)]
pub extern "C" fn ignore_guide_enter(
    guide: &mut Handle,
    parent: &Place,
    name: &[u8],
    names: &[u8],
    place: &mut Place,
) -> u32
    ensures { Came (OnGuide (AtBegun (Enters parent.now name.now names.now)) guide.old.value) result place.new guide.new.value }
{
    let entering = Entering {
        parent: *parent,
        name,
        names,
    };
    let (code, at) = mem::replace_with(guide, entering, entered);
    *place = at;
    code
}

fn entered(guide: Handle, entering: Entering<'_>) -> (Handle, (u32, Place))
    ensures { Came (OnGuide (AtBegun (Enters entering.entry.parent entering.entry.name.now entering.entry.names.now)) guide.value) result.1.0 result.1.1 result.0.value }
{
    let mut kept = open(guide);
    let alloc = *Box::allocator(&kept);
    let came = entering::enter(alloc, &mut kept, entering);
    (close(kept), told(came))
}

/// Tells what the call that waits wants to know, of which path, and the first bytes of that.
#[unsafe(no_mangle)]
pub extern "C" fn ignore_guide_wanted(
    guide: &mut Handle,
    wanted: &mut u32,
    room: &mut [u8],
    whole: &mut usize,
) -> u32
    ensures kept { guide.new.value ≡ guide.old.value }
    ensures told { (path : List ℕ) × TellsWanted (guided_in guide.old.value) result wanted.new path × (whole.new ≡ length path) × (room.new ≡ put_in path room.old) }
{
    let asking = mem::replace_with(guide, (), |guide, ()| asked(guide));
    *wanted = asking.wanted;
    *whole = asking.path.len();
    put(asking.path.as_bytes(), room);
    asking.code
}

fn asked(guide: Handle) -> (Handle, Wants)
    ensures kept { result.0.value ≡ guide.value }
    ensures told { TellsWanted (guided_in guide.value) result.1.code result.1.wanted (string_bytes result.1.path) }
{
    let kept = open(guide);
    let asking = guided::wanted(*Box::allocator(&kept), &kept);
    (close(kept), asking)
}

/// Gives what is wanted, and goes on with the call that waits.
#[unsafe(no_mangle)]
pub extern "C" fn ignore_guide_give(
    guide: &mut Handle,
    kind: u32,
    bytes: &[u8],
    fault: u32,
    place: &mut Place,
) -> u32
    ensures { Came (OnGuide (Gives kind bytes.now fault) guide.old.value) result place.new guide.new.value }
{
    let (code, at) = mem::replace_with(guide, Gift { kind, bytes, fault }, gone_on);
    *place = at;
    code
}

fn gone_on(guide: Handle, gift: Gift<'_>) -> (Handle, (u32, Place))
    ensures { Came (OnGuide (Gives gift.entry.kind gift.entry.bytes.now gift.entry.fault) guide.value) result.1.0 result.1.1 result.0.value }
{
    let mut kept = open(guide);
    let alloc = *Box::allocator(&kept);
    let came = entering::give(alloc, &mut kept, gift);
    (close(kept), told(came))
}

/// What becomes of an entry of the directory at a place.
#[unsafe(no_mangle)]
pub extern "C" fn ignore_guide_decide(
    guide: &mut Handle,
    place: &Place,
    name: &[u8],
    is_dir: bool,
    size: u64,
    found: &mut Found,
) -> u32
    ensures kept { guide.new.value ≡ guide.old.value }
    ensures told { DecidesTold place.now name.now is_dir size guide.old.value result found.new }
{
    let asked = Asked {
        place: *place,
        name,
        is_dir,
        size,
    };
    let answer = mem::replace_with(guide, asked, decided);
    *found = answer.1;
    answer.0
}

fn decided(guide: Handle, asked: Asked<'_>) -> (Handle, (u32, Found))
    ensures kept { result.0.value ≡ guide.value }
    ensures told { DecidesTold asked.entry.place asked.entry.name.now asked.entry.is_dir asked.entry.size guide.value result.1.0 result.1.1 }
{
    let kept = open(guide);
    let given = deciding::decide(&kept, asked);
    (close(kept), (asker::code(&given), asker::rest_of(&given)))
}

/// A listing of the directory at a place.
#[derive(Clone, Copy)]
struct Listing<'l> {
    place: Place,
    listed: Listed<'l>,
}

/// What becomes of each entry of the directory at a place.
#[unsafe(no_mangle)]
pub extern "C" fn ignore_guide_decide_all(
    guide: &mut Handle,
    place: &Place,
    names: &[u8],
    kinds: &[u8],
    sizes: &[u64],
    codes: &mut [u8],
) -> u32
    ensures kept { guide.new.value ≡ guide.old.value }
    ensures told { length codes.old ≡ length kinds.now → (given : Result (List ℕ) Stopped)
        × DecidesAll place.now names.now kinds.now sizes.now guide.old.value given × (result ≡ ended_code given) × (codes.new ≡ codes_put given codes.old) }
    ensures misused { length codes.old ≢ length kinds.now → (result ≡ 9) × (codes.new ≡ codes.old) }
{
    if codes.len() != kinds.len() {
        return Stopped::Misused.code();
    }
    let listing = Listing {
        place: *place,
        listed: Listed {
            names,
            kinds,
            sizes,
        },
    };
    match mem::replace_with(guide, listing, all_decided) {
        Ok(found) => {
            put(&found, codes);
            0
        }
        Err(stopped) => stopped.code(),
    }
}

fn all_decided(guide: Handle, listing: Listing<'_>) -> (Handle, Result<Vec<u8>, Stopped>)
    ensures kept { result.0.value ≡ guide.value }
    ensures told { IfOk result.1 (λ codes. DecidesAll listing.entry.place listing.entry.listed.names.now listing.entry.listed.kinds.now listing.entry.listed.sizes.now guide.value (Ok codes.items)) }
    ensures refused { IfErr result.1 (λ e. DecidesAll listing.entry.place listing.entry.listed.names.now listing.entry.listed.kinds.now listing.entry.listed.sizes.now guide.value (Err e)) }
{
    let kept = open(guide);
    let alloc = *Box::allocator(&kept);
    let found = deciding::decide_all(alloc, &kept, listing.place, listing.listed);
    (close(kept), found)
}

/// What becomes of an entry of the directory at a place, and why.
#[unsafe(no_mangle)]
pub extern "C" fn ignore_guide_why(
    guide: &mut Handle,
    place: &Place,
    name: &[u8],
    is_dir: bool,
    size: u64,
    found: &mut Found,
    why: &mut Why,
    room: &mut [u8],
) -> u32
    ensures kept { guide.new.value ≡ guide.old.value }
    ensures told { (text : List ℕ) × ReasonsTold place.now name.now is_dir size guide.old.value result found.new why.new text × (room.new ≡ put_in text room.old) }
{
    let asked = Asked {
        place: *place,
        name,
        is_dir,
        size,
    };
    let told = mem::replace_with(guide, asked, reasoned);
    *found = told.found;
    *why = told.why;
    put(&told.text, room);
    told.code
}

fn reasoned(guide: Handle, asked: Asked<'_>) -> (Handle, ToldReason)
    ensures kept { result.0.value ≡ guide.value }
    ensures told { ReasonsTold asked.entry.place asked.entry.name.now asked.entry.is_dir asked.entry.size guide.value result.1.code result.1.found result.1.why result.1.text.items }
{
    let kept = open(guide);
    let alloc = *Box::allocator(&kept);
    let told = deciding::why(alloc, &kept, asked);
    (close(kept), told)
}

/// Leaves the directory at a place.
#[unsafe(no_mangle)]
pub extern "C" fn ignore_guide_leave(guide: &mut Handle, place: &Place) -> u32
    ensures { Done (OnGuide (AtBegun (Leaves place.now)) guide.old.value) result guide.new.value }
{
    mem::replace_with(guide, *place, left)
}

fn left(guide: Handle, place: Place) -> (Handle, u32)
    ensures { Done (OnGuide (AtBegun (Leaves place)) guide.value) result.1 result.0.value }
{
    let mut kept = open(guide);
    let code = done(entering::leave(&mut kept, place));
    (close(kept), code)
}

/// Tells a part of what is wrong with the files of rules of the directory that arrived last.
#[unsafe(no_mangle)]
pub extern "C" fn ignore_guide_problem(
    guide: &mut Handle,
    index: usize,
    part: &mut Part,
    room: &mut [u8],
) -> u32
    ensures kept { guide.new.value ≡ guide.old.value }
    ensures told { (text : List ℕ) × TellsParts (guided_in guide.old.value) index result part.new text × (room.new ≡ put_in text room.old) }
{
    let told = mem::replace_with(guide, index, blamed);
    *part = told.part;
    put(&told.text, room);
    told.code
}

fn blamed(guide: Handle, index: usize) -> (Handle, ToldPart)
    ensures kept { result.0.value ≡ guide.value }
    ensures told { TellsParts (guided_in guide.value) index result.1.code result.1.part result.1.text.items }
{
    let kept = open(guide);
    let alloc = *Box::allocator(&kept);
    let told = parts::problem(alloc, &kept, index);
    (close(kept), told)
}

/// Frees a guide.
#[unsafe(no_mangle)]
pub extern "C" fn ignore_guide_free(guide: Handle) {
    let _kept = open(guide);
}
