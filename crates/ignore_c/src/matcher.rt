//! The exports of matchers of single paths.
ghost use Rattle.std.specs.Prelude.{◌≡◌, List, ℕ, Result, Ok, Err, IfOk, IfErr, length, string_bytes};
ghost use Rattle.ignore_kept.specs.Explained.{AsksWhy};
ghost use Rattle.ignore_kept.specs.Matching.{Asks, Builds, ForgetsTold, NormalText};
ghost use Rattle.ignore_kept.specs.Rooms.{put_in};
ghost use Rattle.ignore_kept.specs.Stops.{ended_code};
ghost use Rattle.ignore_kept.specs.declared.kept.Kept.{Kept};
ghost use Rattle.ignore_kept.specs.declared.stopped.Stopped.{Stopped};

use crate::handle::{Handle, close, give_back, lend, open};
use core::mem;
use ignore_kept::asker::{self, Asked, Found};
use ignore_kept::explained::{self, ToldReason, Why};
use ignore_kept::room::put;
use ignore_kept::{Kept, Stopped};
use std::alloc::Global;

/// Makes the matcher of a builder with one root, and hands out its handle.
#[unsafe(no_mangle)]
pub extern "C" fn ignore_matcher_new(
    alloc: Global,
    builder: &mut Handle,
    tree: &mut Handle,
    out: &mut *mut u8,
) -> u32
    ensures builder { builder.new.value ≡ builder.old.value }
    ensures tree { tree.new.value ≡ tree.old.value }
    ensures built { (given : Result Kept Stopped) × Builds builder.old.value tree.old.value given × (result ≡ ended_code given) }
{
    let setup = mem::replace_with(builder, (), |builder, ()| lend(builder));
    let files = mem::replace_with(tree, (), |tree, ()| lend(tree));
    let made = boxed(alloc, &setup, &files);
    mem::replace_with(builder, setup, give_back);
    mem::replace_with(tree, files, give_back);
    match made {
        Ok(kept) => {
            let (at, _) = Box::into_raw_with_allocator(kept);
            *out = at as *mut u8;
            0
        }
        Err(stopped) => stopped.code(),
    }
}

fn boxed(alloc: Global, setup: &Kept, files: &Kept) -> Result<Box<Kept>, Stopped>
    ensures built { IfOk result (λ kept. Builds setup.now files.now (Ok kept.value)) }
    ensures refused { IfErr result (λ e. Builds setup.now files.now (Err e)) }
{
    let kept = asker::build(setup, files)?;
    Ok(Box::new(alloc, kept)?)
}

/// What becomes of a path below the root of a matcher, by a tree.
#[unsafe(no_mangle)]
pub extern "C" fn ignore_matcher_matched(
    matcher: &mut Handle,
    tree: &mut Handle,
    path: &[u8],
    is_dir: bool,
    found: &mut Found,
) -> u32
    ensures tree { tree.new.value ≡ tree.old.value }
    ensures told { Asks matcher.old.value tree.old.value path.now is_dir result found.new matcher.new.value }
{
    let files = mem::replace_with(tree, (), |tree, ()| lend(tree));
    let asked = Asked {
        tree: &files,
        path,
        is_dir,
    };
    let answer = mem::replace_with(matcher, asked, answered);
    mem::replace_with(tree, files, give_back);
    *found = answer.1;
    answer.0
}

fn answered(matcher: Handle, asked: Asked<'_>) -> (Handle, (u32, Found))
    ensures { Asks matcher.value asked.entry.tree.now asked.entry.path.now asked.entry.is_dir result.1.0 result.1.1 result.0.value }
{
    let mut kept = open(matcher);
    let given = asker::ask(&mut kept, asked);
    (close(kept), (asker::code(&given), asker::rest_of(&given)))
}

/// What becomes of a path below the root of a matcher, by a tree, and why.
#[unsafe(no_mangle)]
pub extern "C" fn ignore_matcher_explained(
    matcher: &mut Handle,
    tree: &mut Handle,
    path: &[u8],
    is_dir: bool,
    found: &mut Found,
    why: &mut Why,
    room: &mut [u8],
) -> u32
    ensures tree { tree.new.value ≡ tree.old.value }
    ensures told { (text : List ℕ) × AsksWhy matcher.old.value tree.old.value path.now is_dir result found.new why.new text matcher.new.value × (room.new ≡ put_in text room.old) }
{
    let files = mem::replace_with(tree, (), |tree, ()| lend(tree));
    let asked = Asked {
        tree: &files,
        path,
        is_dir,
    };
    let told = mem::replace_with(matcher, asked, explained);
    mem::replace_with(tree, files, give_back);
    *found = told.found;
    *why = told.why;
    put(&told.text, room);
    told.code
}

fn explained(matcher: Handle, asked: Asked<'_>) -> (Handle, ToldReason)
    ensures { AsksWhy matcher.value asked.entry.tree.now asked.entry.path.now asked.entry.is_dir result.1.code result.1.found result.1.why result.1.text.items result.0.value }
{
    let mut kept = open(matcher);
    let alloc = *Box::allocator(&kept);
    let told = explained::explain(alloc, &mut kept, asked);
    (close(kept), told)
}

/// Forgets what is kept of the directory at a path and of those below it, and counts them.
#[unsafe(no_mangle)]
pub extern "C" fn ignore_matcher_forget(matcher: &mut Handle, dir: &[u8], count: &mut usize) -> u32
    ensures { ForgetsTold matcher.old.value dir.now result count.new matcher.new.value }
{
    let (code, n) = mem::replace_with(matcher, dir, forgotten);
    *count = n;
    code
}

fn forgotten(matcher: Handle, dir: &[u8]) -> (Handle, (u32, usize))
    ensures { ForgetsTold matcher.value dir.now result.1.0 result.1.1 result.0.value }
{
    let mut kept = open(matcher);
    let counted = match asker::forget(&mut kept, dir) {
        Ok(n) => (0, n),
        Err(stopped) => (stopped.code(), 0),
    };
    (close(kept), counted)
}

/// The text by which a matcher knows a path: its length, and its first bytes.
#[unsafe(no_mangle)]
pub extern "C" fn ignore_matcher_normalize(
    matcher: &mut Handle,
    path: &[u8],
    room: &mut [u8],
    whole: &mut usize,
) -> u32
    ensures kept { matcher.new.value ≡ matcher.old.value }
    ensures told { (text : List ℕ) × NormalText matcher.old.value path.now result text × (whole.new ≡ length text) × (room.new ≡ put_in text room.old) }
{
    let (code, text) = mem::replace_with(matcher, path, normalized);
    *whole = text.len();
    put(text.as_bytes(), room);
    code
}

fn normalized(matcher: Handle, path: &[u8]) -> (Handle, (u32, String))
    ensures kept { result.0.value ≡ matcher.value }
    ensures told { NormalText matcher.value path.now result.1.0 (string_bytes result.1.1) }
{
    let kept = open(matcher);
    let alloc = *Box::allocator(&kept);
    let told = match asker::normalize(&kept, path) {
        Ok(Some(text)) => (0, text),
        Ok(None) => (1, String::new(alloc)),
        Err(stopped) => (stopped.code(), String::new(alloc)),
    };
    (close(kept), told)
}

/// Frees a matcher.
#[unsafe(no_mangle)]
pub extern "C" fn ignore_matcher_free(matcher: Handle) {
    let _kept = open(matcher);
}
