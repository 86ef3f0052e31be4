//! The rules of gitignore files, as gitignore(5) describes them: lines are parsed to rules, and the
//! last rule that matches a path decides.

mod builder;
mod file;
mod glob;
mod global;
mod kept;
pub mod laws;
mod line;
mod matcher;
mod open;
mod origin;
mod parents;

pub use builder::GitignoreBuilder;
pub use file::first_line;
pub use glob::Glob;
pub use ignore_excludes::gitconfig_excludes_path;
pub use matcher::Gitignore;
