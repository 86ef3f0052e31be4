//! What C holds: a pointer to a box, which it owns.
ghost use Rattle.std.specs.Prelude.{◌≡◌};
ghost use Rattle.std.specs.Box.Ownership.{box_owns};
ghost use Rattle.ignore_kept.specs.declared.kept.Kept.{Kept};
ghost use Rattle.ignore_c.specs.Owned.{kept_code};

use crate::loose::Loose;
use ignore_kept::Kept;
use std::alloc::Global;
use std::marker::Model;
use std::mem;

/// A handle, as C holds it: one pointer, to what it keeps.
#[repr(C)]
#[derive(Drop)]
pub struct Handle {
    at: *mut u8,
    alloc: Global,
    ghost value: { Kept } by { kept_code },
}

impl Model for Handle {
    ghost use Rattle.std.specs.Box.Ownership.{box_owns};
    ghost use Rattle.ignore_c.specs.Owned.{handle_owns};

    ghost also_owns = { λ h. handle_owns h.alloc h.at h.value };
}

/// The handle of what a box owns.
fn seal(loose: Loose<Kept, Global>) -> Handle
    ensures { result.value ≡ loose.value }
{
    let Loose { at, alloc } = loose;
    Handle {
        at: at as *mut u8,
        alloc,
    }
}

/// The box of what a handle keeps.
fn unseal(handle: Handle) -> Loose<Kept, Global>
    ensures { result.value ≡ handle.value }
{
    let Handle { at, alloc } = handle;
    Loose {
        at: at as *mut Kept,
        alloc,
    }
}

/// The box of what a handle keeps, whose handle is gone.
pub(crate) fn open(handle: Handle) -> Box<Kept>
    ensures { result.value ≡ handle.value }
{
    unseal(handle).into_box()
}

/// The handle of what is in a box.
pub(crate) fn close(kept: Box<Kept>) -> Handle
    ensures { result.value ≡ kept.value }
{
    seal(Loose::of_box(kept))
}

/// What a handle keeps, while a call has it.
pub(crate) fn lend(handle: Handle) -> (Handle, Kept)
    ensures { result.1 ≡ handle.value }
{
    let mut kept = open(handle);
    let lent = mem::replace(&mut *kept, Kept::Lent);
    (close(kept), lent)
}

/// A handle that keeps again what a call had.
pub(crate) fn give_back(handle: Handle, lent: Kept) -> (Handle, ())
    ensures { result.0.value ≡ lent }
{
    let mut kept = open(handle);
    *kept = lent;
    (close(kept), ())
}
