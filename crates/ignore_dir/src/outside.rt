//! The rules that come from outside of the directories.

use ignore_rules::gitignore::Gitignore;
use ignore_rules::overrides::Override;
use ignore_types::types::Types;
use std::alloc::{AllocError, Global};
use std::marker::Model;

/// Matchers in the order in which they were added, which contracts see as a list.
#[derive(Debug, Drop)]
pub struct Matchers {
    items: Vec<Gitignore>,
}

impl Model for Matchers {
    ghost use Rattle.std.specs.Prelude.{List};
    ghost use Rattle.std.specs.Coded.{coded_list};
    ghost use Rattle.ignore_rules.specs.Rules.{Ruleset};
    ghost use Rattle.ignore_rules.specs.RuleCodes.{ruleset_code};

    ghost Value = { List Ruleset };

    ghost coded = { coded_list ruleset_code };

    ghost view = { λ s. s.items.items };
}

impl Matchers {
    ghost use Rattle.std.specs.Prelude.{◌≡◌, ◌++◌, ◌∷◌, [], OnOk, OnErr};

    /// These matchers. It allocates nothing.
    pub fn new(items: Vec<Gitignore>) -> Matchers
        ensures { result ≡ items.items }
    {
        Matchers { items }
    }

    /// The matchers.
    pub fn as_slice(&self) -> &[Gitignore]
        ensures { result.now ≡ self.now }
    {
        self.items.as_slice()
    }

    /// Appends a matcher.
    ///
    /// # Errors
    /// Out of memory, and then the matchers are as before.
    pub fn push(&mut self, matcher: Gitignore) -> Result<(), AllocError>
        ensures added { OnOk result (self.new ≡ self.old ++ matcher ∷ []) }
        ensures unchanged { OnErr result (self.new ≡ self.old) }
    {
        self.items.push(matcher)?;
        Ok(())
    }
}

impl Clone for Matchers {
    ghost use Rattle.std.specs.Prelude.{◌≡◌};

    ghost is_clone = { λ s c. c ≡ s };

    fn clone(&self) -> Result<Matchers, AllocError> {
        Ok(Matchers {
            items: self.items.clone()?,
        })
    }
}

/// The rules that come from outside of the directories, as they were read.
#[derive(Debug, Drop)]
pub struct Outside {
    /// The globs of a command line.
    pub overrides: Override,
    /// The chosen file types.
    pub types: Types,
    /// The rules of the global file of git's configuration.
    pub global: Gitignore,
    /// The rules of files that were added by name.
    pub explicit: Matchers,
}

impl Outside {
    ghost use Rattle.std.specs.Prelude.{◌≡◌};
    ghost use Rattle.ignore_dir.specs.Standard.{nothing_outside};

    /// No rules from outside. It allocates nothing.
    pub fn empty(alloc: Global) -> Outside
        ensures { result ≡ nothing_outside }
    {
        Outside {
            overrides: Override::empty(alloc),
            types: Types::empty(alloc),
            global: Gitignore::empty(alloc),
            explicit: Matchers::new(Vec::new(alloc)),
        }
    }
}

impl Clone for Outside {
    ghost use Rattle.std.specs.Prelude.{◌≡◌};

    ghost is_clone = { λ s c. c ≡ s };

    fn clone(&self) -> Result<Outside, AllocError> {
        Ok(Outside {
            overrides: self.overrides.clone()?,
            types: self.types.clone()?,
            global: self.global.clone()?,
            explicit: self.explicit.clone()?,
        })
    }
}
