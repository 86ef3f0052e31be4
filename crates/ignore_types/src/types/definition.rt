//! One file type.
ghost use Rattle.std.specs.Prelude.{◌≡◌, ◌++◌, ◌∷◌, [], map, string_bytes, OnOk, OnErr, IfOk};
ghost use Rattle.std.specs.Cmp.{partial_equiv_from_equiv};
ghost use Rattle.ignore_types.specs.Types.{same_definition, same_definition-equiv, IsSortedCopy};

use std::alloc::{AllocError, Global};
use std::marker::Model;

/// A file type: a name, and the globs by which a file's name shows that type.
///
/// A matcher's and a builder's `definitions` give them with sorted globs. The one that a match
/// gives has its globs in the order of adding.
#[derive(Debug, Drop)]
pub struct FileTypeDef {
    name: String,
    globs: Vec<String>,
}

impl Model for FileTypeDef {
    ghost use Rattle.std.specs.Prelude.{map, string_bytes};
    ghost use Rattle.ignore_types.specs.Types.{Definition};

    ghost Value = { Definition };

    ghost view = { λ d. record { name = string_bytes d.name; globs = map string_bytes d.globs.items } };
}

impl FileTypeDef {
    pub(super) fn new(alloc: Global, name: &str, glob: &str) -> Result<FileTypeDef, AllocError>
        ensures { IfOk result (λ d. d ≡ record { name = name.now; globs = glob.now ∷ [] }) }
    {
        let name = String::from_str(alloc, name)?;
        let glob = String::from_str(alloc, glob)?;
        let mut globs = Vec::new(alloc);
        globs.push(glob)?;
        Ok(FileTypeDef { name, globs })
    }

    /// The name of the type.
    pub fn name(&self) -> &str
        ensures { result.now ≡ self.now.name }
    {
        self.name.as_str()
    }

    /// The globs of the type.
    pub fn globs(&self) -> &[String]
        ensures { map string_bytes result.now ≡ self.now.globs }
    {
        self.globs.as_slice()
    }

    pub(super) fn push_glob(&mut self, glob: String) -> Result<(), AllocError>
        ensures added { OnOk result (self.new ≡ record { name = self.old.name; globs = self.old.globs ++ string_bytes glob ∷ [] }) }
        ensures unchanged { OnErr result (self.new ≡ self.old) }
    {
        self.globs.push(glob)?;
        Ok(())
    }

    pub(super) fn sort_globs(&mut self)
        ensures { IsSortedCopy self.old self.new }
    {
        self.globs.sort_unstable();
    }
}

impl Clone for FileTypeDef {
    ghost is_clone = { λ d copy. copy ≡ d };

    fn clone(&self) -> Result<FileTypeDef, AllocError> {
        let name = self.name.clone()?;
        let globs = self.globs.clone()?;
        Ok(FileTypeDef { name, globs })
    }
}

impl PartialEq for FileTypeDef {
    ghost eq = { same_definition };

    ghost laws = { partial_equiv_from_equiv same_definition-equiv };

    fn eq(&self, other: &FileTypeDef) -> bool {
        self.name == other.name && self.globs == other.globs
    }
}

impl Eq for FileTypeDef {
    ghost laws = { same_definition-equiv };
}
