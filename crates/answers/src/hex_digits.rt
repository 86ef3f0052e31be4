//! Bytes as vectors write them: two hex digits each.

use crate::answer::Written;
use hex::FromHexError;
use ignore_files::Bytes;
use serde_json::Value;
use std::alloc::{AllocError, Global};
use vectors::Trouble;

/// The bytes of a hex text, which stands in the field of this name.
pub fn bytes_of(alloc: Global, text: &str, name: &'static str) -> Result<Vec<u8>, Trouble> {
    match hex::decode(alloc, text) {
        Ok(bytes) => Ok(bytes),
        Err(FromHexError::OutOfMemory) => Err(Trouble::Memory),
        Err(_) => Err(Trouble::Field(name)),
    }
}

impl Written for &Bytes {
    fn written(self, alloc: Global) -> Result<Value, AllocError> {
        Ok(Value::String(hex::encode(alloc, self.as_slice())?))
    }
}
