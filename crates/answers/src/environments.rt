//! Environments of vectors.

use ignore_base::internal::join;
use ignore_files::{Env, Name};
use serde_json::Value;
use std::alloc::{AllocError, Global};
use vectors::Trouble;

/// The environment of the variables that an object has; `null` is one that isn't set.
pub fn environment(alloc: Global, value: &Value) -> Result<Env, Trouble> {
    Ok(Env {
        current_dir: variable(alloc, value, "current_dir")?,
        home: variable(alloc, value, "home")?,
        xdg_config_home: variable(alloc, value, "xdg_config_home")?,
        git_config_global: variable(alloc, value, "git_config_global")?,
        git_config_system: variable(alloc, value, "git_config_system")?,
    })
}

/// The variable that the member of this name is.
pub fn variable(alloc: Global, value: &Value, name: &'static str) -> Result<Option<Name>, Trouble> {
    match value.get(name) {
        Some(Value::Null) => Ok(None),
        Some(Value::String(text)) => Ok(Some(name_of(alloc, text.as_str())?)),
        _ => Err(Trouble::Field(name)),
    }
}

/// A copy of a text.
pub fn name_of(alloc: Global, text: &str) -> Result<Name, AllocError> {
    Ok(Name::new(String::from_str(alloc, text)?))
}

/// The paths that the rules from outside are asked of: git's configurations, as the variables of an
/// environment name them, and the excludes file that these lead to.
pub fn outside_paths(
    alloc: Global,
    env: &Env,
    excludes: Option<String>,
) -> Result<Vec<String>, AllocError> {
    let mut paths = Vec::new(alloc);
    push_below(alloc, &mut paths, &env.home, ".gitconfig")?;
    push_below(alloc, &mut paths, &env.home, ".config/git/config")?;
    push_below(alloc, &mut paths, &env.xdg_config_home, "git/config")?;
    push_below(alloc, &mut paths, &env.git_config_global, "")?;
    push_below(alloc, &mut paths, &env.git_config_system, "")?;
    paths.push(String::from_str(alloc, "/etc/gitconfig")?)?;
    if let Some(path) = excludes {
        paths.push(path)?;
    }
    Ok(paths)
}

/// Appends the path below a folder, where a variable names one; the variable's own path for the
/// empty one.
fn push_below(
    alloc: Global,
    paths: &mut Vec<String>,
    variable: &Option<Name>,
    path: &str,
) -> Result<(), AllocError> {
    if let Some(folder) = variable {
        let folder = folder.as_str();
        paths.push(if path.is_empty() {
            String::from_str(alloc, folder)?
        } else {
            join(alloc, folder, path)?
        })?;
    }
    Ok(())
}
