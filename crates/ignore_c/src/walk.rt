//! The exports of walks.
ghost use Rattle.std.specs.Prelude.{◌≡◌, List, ℕ, Result, Ok, Err, IfOk, IfErr, length};
ghost use Rattle.ignore_kept.specs.Rooms.{put_in};
ghost use Rattle.ignore_kept.specs.Stops.{ended_code};
ghost use Rattle.ignore_kept.specs.Walking.{Builds, Nexts};
ghost use Rattle.ignore_kept.specs.declared.kept.Kept.{Kept};
ghost use Rattle.ignore_kept.specs.declared.stopped.Stopped.{Stopped};

use crate::handle::{Handle, close, give_back, lend, open};
use core::mem;
use ignore_kept::room::put;
use ignore_kept::walked::{self, ToldItem, WalkEntry};
use ignore_kept::{Kept, Stopped};
use std::alloc::Global;

/// Makes all items of a walk of a builder over a tree, and hands out their handle.
#[unsafe(no_mangle)]
pub extern "C" fn ignore_walk_new(
    alloc: Global,
    builder: &mut Handle,
    tree: &mut Handle,
    out: &mut *mut u8,
) -> u32
    ensures builder { builder.new.value ≡ builder.old.value }
    ensures tree { tree.new.value ≡ tree.old.value }
    ensures built { (given : Result Kept Stopped) × Builds builder.old.value tree.old.value given × (result ≡ ended_code given) }
{
    let setup = mem::replace_with(builder, (), |builder, ()| lend(builder));
    let files = mem::replace_with(tree, (), |tree, ()| lend(tree));
    let made = boxed(alloc, &setup, &files);
    mem::replace_with(builder, setup, give_back);
    mem::replace_with(tree, files, give_back);
    match made {
        Ok(kept) => {
            let (at, _) = Box::into_raw_with_allocator(kept);
            *out = at as *mut u8;
            0
        }
        Err(stopped) => stopped.code(),
    }
}

fn boxed(alloc: Global, setup: &Kept, files: &Kept) -> Result<Box<Kept>, Stopped>
    ensures built { IfOk result (λ kept. Builds setup.now files.now (Ok kept.value)) }
    ensures refused { IfErr result (λ e. Builds setup.now files.now (Err e)) }
{
    let kept = walked::build(setup, files)?;
    Ok(Box::new(alloc, kept)?)
}

/// Tells the next item: what it is, and the first bytes of its path and of the text of its error.
#[unsafe(no_mangle)]
pub extern "C" fn ignore_walk_next(walk: &mut Handle, entry: &mut WalkEntry, room: &mut [u8]) -> u32
    ensures { (text : List ℕ) × Nexts (length room.old) walk.old.value result entry.new text walk.new.value × (room.new ≡ put_in text room.old) }
{
    let told = mem::replace_with(walk, room.len(), next);
    *entry = told.entry;
    put(&told.text, room);
    told.code
}

fn next(walk: Handle, room: usize) -> (Handle, ToldItem)
    ensures { Nexts room walk.value result.1.code result.1.entry result.1.text.items result.0.value }
{
    let mut kept = open(walk);
    let alloc = *Box::allocator(&kept);
    let told = walked::next(alloc, &mut kept, room);
    (close(kept), told)
}

/// Frees a walk.
#[unsafe(no_mangle)]
pub extern "C" fn ignore_walk_free(walk: Handle) {
    let _kept = open(walk);
}
