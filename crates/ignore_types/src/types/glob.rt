//! What decides a match of file types.
ghost use Rattle.std.specs.Prelude.{◌≡◌, None, Some, option_map};
ghost use Rattle.std.specs.Option.{option_copied};
ghost use Rattle.ignore_types.specs.TypeMatch.{type_glob};

use crate::types::definition::FileTypeDef;
use std::alloc::AllocError;
use std::marker::Model;

/// What decided a match of file types.
#[derive(Debug, Drop)]
pub struct Glob<'a> {
    definition: Option<&'a FileTypeDef>,
    /// Empty without a definition.
    glob: &'a str,
}

impl<'a> Model for Glob<'a> {
    ghost use Rattle.std.specs.Prelude.{Option, option_map};
    ghost use Rattle.std.specs.Option.{option_copied};
    ghost use Rattle.ignore_types.specs.TypeMatch.{TypeGlob, type_glob};

    ghost Value = { Option TypeGlob };

    ghost view = { λ g. option_map (λ d. type_glob d g.glob.now) (option_copied g.definition) };
}

impl<'a> Glob<'a> {
    pub(super) fn of(definition: &'a FileTypeDef, glob: &'a str) -> Glob<'a>
        ensures { result ≡ Some (type_glob definition.now glob.now) }
    {
        Glob {
            definition: Some(definition),
            glob,
        }
    }

    pub(super) fn none() -> Glob<'a>
        ensures { result ≡ None }
    {
        Glob {
            definition: None,
            glob: "",
        }
    }

    /// The type whose glob matched the file's name, with its globs in the order of adding. None
    /// where no glob matched, and the file is ignored since other types were selected.
    pub fn file_type_def(&self) -> Option<&FileTypeDef>
        ensures { option_copied result ≡ option_map (λ g. g.definition) self.now }
    {
        self.definition
    }

    /// The glob of that type that decided: the last of them that matches the file's name.
    pub fn glob(&self) -> Option<&str>
        ensures { option_copied result ≡ option_map (λ g. g.glob) self.now }
    {
        match self.definition {
            Some(_) => Some(self.glob),
            None => None,
        }
    }
}

impl<'a> Clone for Glob<'a> {
    ghost use Rattle.std.specs.Prelude.{◌≡◌};

    ghost is_clone = { λ g copy. copy ≡ g };

    fn clone(&self) -> Result<Glob<'a>, AllocError> {
        Ok(Glob {
            definition: self.definition,
            glob: self.glob,
        })
    }
}
