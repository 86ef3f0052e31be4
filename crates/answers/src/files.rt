//! What trees of files answer, as vectors write it.

use crate::answer::{Items, Written};
use ignore_files::{FileType, Identity, Listed, TreeError};
use serde_json::Value;
use std::alloc::{AllocError, Global};

/// The number of a refusal.
impl Written for TreeError {
    fn written(self, _alloc: Global) -> Result<Value, AllocError> {
        Ok(Value::from(self as u8))
    }
}

/// What is listed: `["entry", "a", "Dir"]`, or `["fault", "BadName"]`.
impl Written for &Listed {
    fn written(self, alloc: Global) -> Result<Value, AllocError> {
        let mut items = Items::new(alloc);
        match self {
            Listed::Entry { name, file_type } => put_entry(&mut items, name.as_str(), *file_type),
            Listed::Fault(fault) => {
                items.put("fault");
                items.put(*fault);
            }
        }
        items.value()
    }
}

fn put_entry(items: &mut Items, name: &str, file_type: FileType) {
    items.put("entry");
    items.put(name);
    items.put(file_type);
}

impl Written for Identity {
    fn written(self, alloc: Global) -> Result<Value, AllocError> {
        let mut items = Items::new(alloc);
        items.put(self.device);
        items.put(self.inode);
        items.value()
    }
}

/// Its name.
impl Written for FileType {
    fn written(self, alloc: Global) -> Result<Value, AllocError> {
        let name = match self {
            FileType::File => "File",
            FileType::Dir => "Dir",
            FileType::Symlink => "Symlink",
            FileType::Other => "Other",
        };
        name.written(alloc)
    }
}
