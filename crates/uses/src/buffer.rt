//! An editor: rules that stand in a buffer and not yet in a file. A `Files` of the caller's own.
ghost use Rattle.std.specs.Prelude.{◌≡◌, IfOk, IfErr, None, Ok, option_map};
ghost use Rattle.ignore.specs.Words.{BuildsAnswer, begun, folder_of, memory, problem_of};

use ignore::files::{Bytes, Contents, Files, Identity, Listing, Metadata, Name, Refusal};
use ignore::gitignore::Gitignore;
use ignore::{Error, Fault};
use std::alloc::Global;

/// Files of which each that is read has the text of a buffer, and that answer nothing else.
#[derive(Clone, Copy)]
pub struct Buffer<'b> {
    text: &'b str,
}

impl Files for Buffer<'_> {
    ghost use Rattle.uses.specs.Buffers.{IsText};

    ghost contents_gives = { λ buffer path answer. IsText buffer.text.now answer };

    fn stat(&self, _alloc: Global, _path: &str, _follow: bool) -> Result<Metadata, Refusal> {
        Err(Refusal::Fault(Fault::NotFound))
    }

    fn list(&self, _alloc: Global, _path: &str) -> Result<Listing, Refusal> {
        Err(Refusal::Fault(Fault::NotFound))
    }

    fn contents(&self, alloc: Global, _path: &str) -> Result<Contents, Refusal> {
        let mut bytes = Vec::new(alloc);
        bytes.extend_from_slice(self.text.as_bytes())?;
        Ok(Contents {
            bytes: Bytes::new(bytes),
            fault: None,
        })
    }

    fn canonical(&self, _alloc: Global, _path: &str) -> Result<Name, Refusal> {
        Err(Refusal::Fault(Fault::NotFound))
    }

    fn identity(
        &self,
        _alloc: Global,
        _path: &str,
        _follow: bool,
    ) -> Result<Option<Identity>, Refusal> {
        Err(Refusal::Fault(Fault::NotFound))
    }
}

/// The rules of a buffer that is to be saved at a path, and what is wrong with its lines.
///
/// # Errors
/// `Error::Memory` alone.
pub fn rules_of_buffer(
    alloc: Global,
    path: &str,
    text: &str,
) -> Result<(Gitignore, Option<Error>), Error>
    ensures read { IfOk result (λ r.
        BuildsAnswer path.now (Ok (record { bytes = text.now; fault = None })) (begun (folder_of path.now)) r.0
        (option_map problem_of r.1)) }
    ensures out_of_memory { IfErr result (λ e. problem_of e ≡ memory) }
{
    let buffer = Buffer { text };
    Gitignore::new(alloc, &buffer, path)
}
