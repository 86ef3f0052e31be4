//! File types in text order of their names.
ghost use Rattle.std.specs.Prelude.{◌≡◌, [], OnOk, OnErr, IfOk, map, string_bytes};
ghost use Rattle.std.specs.Option.{option_copied};
ghost use Rattle.ignore_types.specs.Types.{IsAscending, definition_of, globs_of, with_glob, with_globs, with_sources, with_names, has_all};
ghost use Rattle.ignore_types.specs.Types.{without, IsSortedCopy};
ghost use Rattle.std.specs.List.{AllZip};
ghost use Rattle.ignore_types.specs.PlaceSteps.{IsPlace};
ghost use Rattle.ignore_types.specs.Defaults.{with_rows};
ghost use Rattle.ignore_types.specs.AllDefaults.{all_default_rows};

use crate::default_types::DefaultType;
use crate::types::definition::FileTypeDef;
use crate::types::rows::{fifth_rows, first_rows, fourth_rows, second_rows, third_rows};
use std::alloc::{AllocError, Global};
use std::marker::Model;

/// File types in text order of their names, no name twice.
#[derive(Drop)]
pub(super) struct Definitions {
    sorted: Vec<FileTypeDef>,
}

impl Model for Definitions {
    ghost use Rattle.std.specs.Prelude.{List};
    ghost use Rattle.ignore_types.specs.Types.{Definition, IsAscending};

    ghost Value = { List Definition };

    ghost view = { λ d. d.sorted.items };

    ghost invariant = { λ d. IsAscending d.sorted.items };
}

impl Definitions {
    pub(super) fn new(alloc: Global) -> Definitions
        ensures { result ≡ [] }
    {
        Definitions {
            sorted: Vec::new(alloc),
        }
    }

    pub(super) fn as_slice(&self) -> &[FileTypeDef]
        ensures value { result.now ≡ self.now }
        ensures ascending { IsAscending self.now }
    {
        self.sorted.as_slice()
    }

    pub(super) fn get(&self, name: &str) -> Option<&FileTypeDef>
        ensures { option_copied result ≡ definition_of name.now self.now }
    {
        match place(self.as_slice(), name) {
            Ok(i) => Some(&self.sorted[i]),
            Err(_) => None,
        }
    }

    pub(super) fn add(&mut self, name: &str, glob: &str) -> Result<(), AllocError>
        ensures added { OnOk result (self.new ≡ with_glob name.now glob.now self.old) }
        ensures unchanged { OnErr result (self.new ≡ self.old) }
    {
        let alloc = *self.sorted.allocator();
        match place(self.sorted.as_slice(), name) {
            Ok(i) => {
                let glob = String::from_str(alloc, glob)?;
                self.sorted[i].push_glob(glob)?;
            }
            Err(i) => {
                let definition = FileTypeDef::new(alloc, name, glob)?;
                self.sorted.insert(i, definition)?;
            }
        }
        Ok(())
    }

    fn add_each(&mut self, name: &str, globs: &[String]) -> Result<(), AllocError>
        ensures { OnOk result (self.new ≡ with_globs name.now (map string_bytes globs.now) self.old) }
    {
        for glob in globs {
            self.add(name, glob.as_str())?;
        }
        Ok(())
    }

    fn add_type(&mut self, name: &str, source: &str) -> Result<(), AllocError>
        ensures { OnOk result (self.new ≡ with_globs name.now (globs_of source.now self.old) self.old) }
    {
        let Some(definition) = self.get(source) else {
            return Ok(());
        };
        let source = definition.clone()?;
        self.add_each(name, source.globs())
    }

    /// These types, with the globs of each of the sources in turn appended to those of the name.
    pub(super) fn with_types(&self, name: &str, sources: &[&str]) -> Result<Definitions, AllocError>
        ensures { IfOk result (λ ds. ds ≡ with_sources name.now (map (λ s. s.now) sources.now) self.now) }
    {
        let mut definitions = self.clone()?;
        for source in sources {
            definitions.add_type(name, source)?;
        }
        Ok(definitions)
    }

    fn add_names(&mut self, names: &[&str], globs: &[&str]) -> Result<(), AllocError>
        ensures { OnOk result (self.new ≡ with_names (map (λ n. n.now) names.now) (map (λ g. g.now) globs.now) self.old) }
    {
        for name in names {
            self.add_texts(name, globs)?;
        }
        Ok(())
    }

    fn add_texts(&mut self, name: &str, globs: &[&str]) -> Result<(), AllocError>
        ensures { OnOk result (self.new ≡ with_globs name.now (map (λ g. g.now) globs.now) self.old) }
    {
        for glob in globs {
            self.add(name, glob)?;
        }
        Ok(())
    }

    /// These types with the globs of each row, in turn, for each of its names.
    pub(super) fn with_rows(&self, rows: &[DefaultType]) -> Result<Definitions, AllocError>
        ensures { IfOk result (λ ds. ds ≡ with_rows (map (λ r. (map (λ n. n.now) r.0.now, map (λ g. g.now) r.1.now)) rows.now) self.now) }
    {
        let mut definitions = self.clone()?;
        definitions.add_rows(rows)?;
        Ok(definitions)
    }

    /// These types with the globs of each row of the whole table, in turn, for each of its names.
    pub(super) fn with_all_rows(&self) -> Result<Definitions, AllocError>
        ensures { IfOk result (λ ds. ds ≡ with_rows all_default_rows self.now) }
    {
        let mut definitions = self.clone()?;
        definitions.add_rows(first_rows())?;
        definitions.add_rows(second_rows())?;
        definitions.add_rows(third_rows())?;
        definitions.add_rows(fourth_rows())?;
        definitions.add_rows(fifth_rows())?;
        Ok(definitions)
    }

    fn add_rows(&mut self, rows: &[DefaultType]) -> Result<(), AllocError>
        ensures { OnOk result (self.new
            ≡ with_rows (map (λ r. (map (λ n. n.now) r.0.now, map (λ g. g.now) r.1.now)) rows.now) self.old) }
    {
        for (names, globs) in rows {
            self.add_names(names, globs)?;
        }
        Ok(())
    }

    /// Copies of these types, with the globs of each sorted.
    pub(super) fn sorted_copies(&self) -> Result<Vec<FileTypeDef>, AllocError>
        ensures copies { IfOk result (λ ds. AllZip IsSortedCopy self.now ds.items) }
        ensures by_name { IfOk result (λ ds. IsAscending ds.items) }
    {
        copies_of(*self.sorted.allocator(), self.as_slice())
    }

    pub(super) fn has_all(&self, names: &[&str]) -> bool
        ensures { result ≡ has_all (map (λ n. n.now) names.now) self.now }
    {
        for name in names {
            if self.get(name).is_none() {
                return false;
            }
        }
        true
    }

    pub(super) fn remove(&mut self, name: &str)
        ensures { self.new ≡ without name.now self.old }
    {
        if let Ok(i) = place(self.sorted.as_slice(), name) {
            self.sorted.remove(i);
        }
    }

    pub(super) fn clone(&self) -> Result<Definitions, AllocError>
        ensures { IfOk result (λ copy. copy ≡ self.now) }
    {
        let sorted = self.sorted.clone()?;
        Ok(Definitions { sorted })
    }
}

fn place(sorted: &[FileTypeDef], name: &str) -> Result<usize, usize>
    requires { IsAscending sorted.now }
    ensures { IsPlace name.now sorted.now result }
{
    sorted.binary_search_by(|definition| definition.name().cmp(name))
}

fn copies_of(alloc: Global, types: &[FileTypeDef]) -> Result<Vec<FileTypeDef>, AllocError>
    ensures { IfOk result (λ ds. AllZip IsSortedCopy types.now ds.items) }
{
    let mut copies = Vec::new(alloc);
    for definition in types {
        let mut copy = definition.clone()?;
        copy.sort_globs();
        copies.push(copy)?;
    }
    Ok(copies)
}
