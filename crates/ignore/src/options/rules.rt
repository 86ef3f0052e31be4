//! Roots, and rules from outside of the directories.
ghost use Rattle.std.specs.Prelude.{◌≡◌, List, ℕ, None, Some, IfOk, IfErr, IsOkAnd, OnOk, OnErr, option_map, string_bytes};
ghost use Rattle.ignore_base.specs.declared.fault.Fault.TheVariants.{NoCurrentDir};
ghost use Rattle.ignore_base.specs.Problem.{problem_of, memory, io};
ghost use Rattle.ignore_files.specs.Gives.{IsHonest};
ghost use Rattle.ignore_files.specs.Tree.{Tree};
ghost use Rattle.ignore.specs.Asked.{AddsIgnore, AddsIgnoreBy, base_dir};
ghost use Rattle.ignore.specs.Builder.{with_overrides, with_types, with_custom, with_current_dir, with_root};

use crate::options::WalkOptions;
use ignore_base::Error;
use ignore_files::{Env, Fault, Files, Name};
use ignore_rules::overrides::Override;
use ignore_types::types::Types;

impl WalkOptions {
    /// As `WalkBuilder::add`.
    ///
    /// # Errors
    /// `Error::Memory` alone.
    pub fn add(&mut self, path: &str) -> Result<&mut Self, Error>
        ensures same_reference { IfOk result (λ b. b.ghost_name ≡ self.entry.ghost_name) }
        ensures added { IfOk result (λ b. b.now ≡ with_root self.old path.now) }
        ensures out_of_memory { IfErr result (λ e. problem_of e ≡ memory) }
    {
        self.push_root(path)?;
        Ok(self)
    }

    /// As `WalkBuilder::push_root`. After an error the options are as before.
    ///
    /// # Errors
    /// `Error::Memory` alone.
    pub fn push_root(&mut self, path: &str) -> Result<(), Error>
        ensures added { OnOk result (self.new ≡ with_root self.old path.now) }
        ensures out_of_memory { IfErr result (λ e. problem_of e ≡ memory) }
        ensures unchanged { OnErr result (self.new ≡ self.old) }
    {
        Ok(self.roots.push(path)?)
    }

    /// As `WalkBuilder::overrides`.
    pub fn overrides(&mut self, overrides: Override) -> &mut Self
        ensures same_reference { result.ghost_name ≡ self.entry.ghost_name }
        ensures value { result.now ≡ with_overrides self.old overrides }
    {
        self.overrides = overrides;
        self
    }

    /// As `WalkBuilder::types`.
    pub fn types(&mut self, types: Types) -> &mut Self
        ensures same_reference { result.ghost_name ≡ self.entry.ghost_name }
        ensures value { result.now ≡ with_types self.old types }
    {
        self.types = types;
        self
    }

    /// As `WalkBuilder::current_dir`.
    pub fn current_dir(&mut self, dir: String) -> &mut Self
        ensures same_reference { result.ghost_name ≡ self.entry.ghost_name }
        ensures value { result.now ≡ with_current_dir self.old (string_bytes dir) }
    {
        self.current_dir = Some(Name::new(dir));
        self
    }

    /// As `WalkBuilder::add_custom_ignore_filename`.
    ///
    /// # Errors
    /// `Error::Memory` alone.
    pub fn add_custom_ignore_filename(&mut self, name: &str) -> Result<&mut Self, Error>
        ensures same_reference { IfOk result (λ b. b.ghost_name ≡ self.entry.ghost_name) }
        ensures added { IfOk result (λ b. b.now ≡ with_custom self.old name.now) }
        ensures out_of_memory { IfErr result (λ e. problem_of e ≡ memory) }
    {
        self.push_custom_ignore_filename(name)?;
        Ok(self)
    }

    /// As `WalkBuilder::push_custom_ignore_filename`. After an error the options are as before.
    ///
    /// # Errors
    /// `Error::Memory` alone.
    pub fn push_custom_ignore_filename(&mut self, name: &str) -> Result<(), Error>
        ensures added { OnOk result (self.new ≡ with_custom self.old name.now) }
        ensures out_of_memory { IfErr result (λ e. problem_of e ≡ memory) }
        ensures unchanged { OnErr result (self.new ≡ self.old) }
    {
        let settings = &mut self.settings;
        settings.inner.custom.push(name)?;
        Ok(())
    }

    /// As `WalkBuilder::add_ignore`.
    ///
    /// # Errors
    /// `Error::Memory` alone, and then the options are as before.
    pub fn add_ignore<F: Files>(
        &mut self,
        files: &F,
        env: &Env,
        path: &str,
    ) -> Result<Option<Error>, Error>
        ensures read { (tree : Tree) → IsHonest F.Files files.now tree
            → IfOk result (λ e. AddsIgnore tree env.now path.now self.old self.new (option_map problem_of e)) }
        ensures answered { (dir : List ℕ) → base_dir self.old env.now ≡ Some dir
            → IfOk result (λ e. AddsIgnoreBy (F.contents_gives files.now path.now) path.now dir self.old self.new
            (option_map problem_of e)) }
        ensures unknown { base_dir self.old env.now ≡ None
            → IsOkAnd result (λ e. (option_map problem_of e ≡ Some (io NoCurrentDir)) × (self.new ≡ self.old)) }
        ensures out_of_memory { IfErr result (λ e. problem_of e ≡ memory) }
        ensures unchanged { OnErr result (self.new ≡ self.old) }
    {
        let Some(dir) = self.base_dir(env) else {
            return Ok(Some(Error::from(Fault::NoCurrentDir)));
        };
        let (rules, error) = self.explicit_rules(files, dir, path)?;
        self.explicit.push(rules)?;
        Ok(error)
    }
}
