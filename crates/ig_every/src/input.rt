//! Standard input as a file.
ghost use Rattle.std.specs.Prelude.{◌≡◌};

use ignore_files::{Bytes, Contents, Fault, Files, Identity, Listing, Metadata, Name, Refusal};
use std::alloc::Global;

/// Files of which each that is read has these bytes, and that answer nothing else.
#[derive(Clone, Copy)]
pub(crate) struct Input<'b> {
    pub(crate) bytes: &'b [u8],
}

impl Files for Input<'_> {
    ghost use Rattle.ig_every.specs.Reading.{IsInput};

    ghost contents_gives = { λ input path answer. IsInput input.bytes.now answer };

    fn stat(&self, _alloc: Global, _path: &str, _follow: bool) -> Result<Metadata, Refusal> {
        Err(Refusal::Fault(Fault::NotFound))
    }

    fn list(&self, _alloc: Global, _path: &str) -> Result<Listing, Refusal> {
        Err(Refusal::Fault(Fault::NotFound))
    }

    fn contents(&self, alloc: Global, _path: &str) -> Result<Contents, Refusal> {
        let mut bytes = Vec::new(alloc);
        bytes.extend_from_slice(self.bytes)?;
        Ok(Contents {
            bytes: Bytes::new(bytes),
            fault: None,
        })
    }

    fn canonical(&self, _alloc: Global, _path: &str) -> Result<Name, Refusal> {
        Err(Refusal::Fault(Fault::NotFound))
    }

    fn identity(
        &self,
        _alloc: Global,
        _path: &str,
        _follow: bool,
    ) -> Result<Option<Identity>, Refusal> {
        Err(Refusal::Fault(Fault::NotFound))
    }
}
