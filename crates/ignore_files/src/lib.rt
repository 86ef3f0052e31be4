//! A tree of files by five answers: the trait, its types, trees in memory and the machine's
//! files; and the environment of a run (`Env`), which is handed in.
#![tactic(auto)]

mod ask;
mod disk;
mod entries;
mod env;
mod files;
pub mod internal;
pub mod laws;
mod machine;
mod memory;
mod process;
mod records;
mod shown;
mod stat;
mod table;
mod tree_error;
mod types;

pub use disk::DiskFiles;
pub use entries::{RuntimeEntries, RuntimeEntry};
pub use env::Env;
pub use files::Files;
pub use ignore_base::Fault;
pub use machine::Machine;
pub use memory::MemoryTree;
pub use process::Process;
pub use stat::Stat;
pub use table::{Row, RowEntry, RowKind, TableMachine};
pub use tree_error::TreeError;
pub use types::{Bytes, Contents, FileType, Identity, Listed, Listing, Metadata, Name, Refusal};
