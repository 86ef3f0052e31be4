//! Matchers of single paths, by plain settings.
ghost use Rattle.std.specs.Prelude.{◌≡◌, All, IfOk, map, option_map, string_bytes};
ghost use Rattle.ignore_query.specs.Fresh.{KeepsNothing};
ghost use Rattle.ignore.specs.Matchers.{asked_by, asked_at};

use crate::options::WalkOptions;
use ignore_dir::Outside;
use ignore_files::Env;
use ignore_query::IncrementalIgnore;
use std::alloc::{AllocError, Global};

impl WalkOptions {
    /// A matcher for each root, by these rules from outside, and the working directory.
    pub(crate) fn matchers_by(
        &self,
        outside: &Outside,
        env: &Env,
    ) -> Result<Vec<IncrementalIgnore>, AllocError>
        ensures value { IfOk result (λ ms. map asked_by ms.items ≡ asked_at self.now outside.now env.now.current_dir) }
        ensures empty { IfOk result (λ ms. All (λ m. KeepsNothing m.cache) ms.items) }
    {
        let mut matchers = Vec::new(self.settings.allocator());
        for root in self.roots.as_slice() {
            matchers.push(self.matcher(outside, root.as_str(), env)?)?;
        }
        Ok(matchers)
    }

    /// A matcher for one root.
    fn matcher(
        &self,
        outside: &Outside,
        root: &str,
        env: &Env,
    ) -> Result<IncrementalIgnore, AllocError>
        ensures value { IfOk result (λ m. asked_by m ≡ (self.now.settings, outside.now, root.now, env.now.current_dir)) }
        ensures empty { IfOk result (λ m. KeepsNothing m.cache) }
    {
        let alloc = self.settings.allocator();
        let root = String::from_str(alloc, root)?;
        let dir = dir_of(alloc, env)?;
        let settings = self.settings.get().clone()?;
        let outside = outside.clone()?;
        Ok(IncrementalIgnore::new(settings, outside, root, dir))
    }
}

/// The working directory, if it is known.
fn dir_of(alloc: Global, env: &Env) -> Result<Option<String>, AllocError>
    ensures value { IfOk result (λ dir. option_map string_bytes dir ≡ env.now.current_dir) }
{
    match &env.current_dir {
        Some(dir) => Ok(Some(String::from_str(alloc, dir.as_str())?)),
        None => Ok(None),
    }
}
