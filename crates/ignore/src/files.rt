//! Trees of files: the trait that a caller's tree has, the files of a machine, a tree in memory,
//! and the environment of a run, by hand or of a process.

pub use ignore_files::{
    Bytes, Contents, DiskFiles, Env, FileType, Files, Identity, Listed, Listing, Machine,
    MemoryTree, Metadata, Name, Process, Refusal, Row, RowEntry, RowKind, Stat, TableMachine,
    TreeError,
};
