//! One choice of a file type.
ghost use Rattle.std.specs.Prelude.{◌≡◌, ◌∷◌, [], IfOk, map};

use crate::types::definition::FileTypeDef;
use std::alloc::{AllocError, Global};
use std::marker::Model;

/// A choice: the name of a type, and whether it is negated.
#[derive(Drop)]
pub(super) struct Selection {
    name: String,
    negated: bool,
}

impl Model for Selection {
    ghost use Rattle.std.specs.Prelude.{string_bytes};
    ghost use Rattle.ignore_types.specs.Types.{Choice};

    ghost Value = { Choice };

    ghost view = { λ s. record { name = string_bytes s.name; negated = s.negated } };
}

impl Selection {
    pub(super) fn new(alloc: Global, name: &str, negated: bool) -> Result<Selection, AllocError>
        ensures { IfOk result (λ s. s ≡ record { name = name.now; negated = negated }) }
    {
        let name = String::from_str(alloc, name)?;
        Ok(Selection { name, negated })
    }

    pub(super) fn name(&self) -> &str
        ensures { result.now ≡ self.now.name }
    {
        self.name.as_str()
    }

    pub(super) fn is_negated(&self) -> bool
        ensures { result ≡ self.now.negated }
    {
        self.negated
    }
}

/// A selection of each of the types, in their order.
pub(super) fn selections_of(
    alloc: Global,
    types: &[FileTypeDef],
    negated: bool,
) -> Result<Vec<Selection>, AllocError>
    ensures { IfOk result (λ all. all.items ≡ map (λ d. record { name = d.name; negated = negated }) types.now) }
{
    let mut all = Vec::new(alloc);
    for definition in types {
        let selection = Selection::new(alloc, definition.name(), negated)?;
        all.push(selection)?;
    }
    Ok(all)
}

/// A selection of one type.
pub(super) fn selection_of(
    alloc: Global,
    name: &str,
    negated: bool,
) -> Result<Vec<Selection>, AllocError>
    ensures { IfOk result (λ all. all.items ≡ record { name = name.now; negated = negated } ∷ []) }
{
    let mut all = Vec::new(alloc);
    let selection = Selection::new(alloc, name, negated)?;
    all.push(selection)?;
    Ok(all)
}
