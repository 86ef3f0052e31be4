//! Why a vector gets no answer.
ghost use Rattle.std.specs.Prelude.{◌≡◌};
ghost use Rattle.vectors.specs.declared.trouble.Trouble.TheVariants.{Memory};

use std::alloc::{AllocError, AllocFailed};

/// Why a kind gives no answer.
#[derive(Clone, Copy, Drop)]
pub enum Trouble {
    /// The vector's field of this name is missing or of another form.
    Field(&'static str),
    /// Out of memory.
    Memory,
}

impl From<AllocError> for Trouble {
    ghost from_gives = { λ _ t. t ≡ Memory };

    fn from(_error: AllocError) -> Trouble {
        Trouble::Memory
    }
}

impl<T: Drop> From<AllocFailed<T>> for Trouble {
    ghost from_gives = { λ _ t. t ≡ Memory };

    fn from(_error: AllocFailed<T>) -> Trouble {
        Trouble::Memory
    }
}
