//! File types: globs under a name, and which of them are chosen.
mod builder;
mod chosen;
mod definition;
mod definitions;
mod fields;
mod glob;
pub mod laws;
mod matcher;
mod name;
mod rows;
mod selection;

pub use builder::TypesBuilder;
pub use definition::FileTypeDef;
pub use glob::Glob;
pub use matcher::Types;
