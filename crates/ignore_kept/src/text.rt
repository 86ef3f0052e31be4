//! A text of rules, which stands for a file.
ghost use Rattle.std.specs.Prelude.{◌≡◌};

use ignore::Fault;
use ignore::files::{Bytes, Contents, Files, Identity, Listing, Metadata, Name, Refusal};
use std::alloc::Global;

/// Files of which each that is read has these bytes, and that answer nothing else.
#[derive(Clone, Copy)]
pub struct Text<'t> {
    pub bytes: &'t [u8],
}

impl Files for Text<'_> {
    ghost use Rattle.ignore_kept.specs.Lines.{IsText};

    ghost contents_gives = { λ text path answer. IsText text.bytes.now answer };

    fn stat(&self, _alloc: Global, _path: &str, _follow: bool) -> Result<Metadata, Refusal> {
        Err(Refusal::Fault(Fault::NotFound))
    }

    fn list(&self, _alloc: Global, _path: &str) -> Result<Listing, Refusal> {
        Err(Refusal::Fault(Fault::NotFound))
    }

    fn contents(&self, alloc: Global, _path: &str) -> Result<Contents, Refusal> {
        let mut bytes = Vec::new(alloc);
        bytes.extend_from_slice(self.bytes)?;
        Ok(Contents {
            bytes: Bytes::new(bytes),
            fault: None,
        })
    }

    fn canonical(&self, _alloc: Global, _path: &str) -> Result<Name, Refusal> {
        Err(Refusal::Fault(Fault::NotFound))
    }

    fn identity(
        &self,
        _alloc: Global,
        _path: &str,
        _follow: bool,
    ) -> Result<Option<Identity>, Refusal> {
        Err(Refusal::Fault(Fault::NotFound))
    }
}
