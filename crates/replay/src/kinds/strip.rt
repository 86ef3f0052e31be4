//! What the calls on paths as texts answer.

use answers::{Answer, but_for_memory};
use ignore_base::text as paths;
use serde_json::Value;
use std::alloc::Global;
use vectors::{Trouble, text};

/// Answers each call of a root and a path.
pub fn answer(alloc: Global, input: &Value) -> Result<Value, Trouble> {
    let root = text(input, "root")?;
    let path = text(input, "path")?;
    let joined = but_for_memory(paths::join(alloc, root, path))?;
    let mut answer = Answer::new(alloc);
    put_readings(&mut answer, root, path);
    answer.put("join", &joined);
    Ok(answer.value()?)
}

fn put_readings(answer: &mut Answer, root: &str, path: &str) {
    answer.put("file_name", paths::file_name(path));
    answer.put("is_clean_path", paths::is_clean_path(path));
    answer.put("is_hidden", paths::is_hidden(path));
    answer.put("builder_root", paths::trim_root(root));
    answer.put("is_clean_root", paths::is_clean_root(root));
    answer.put("strip", paths::strip(root, path));
    answer.put("strip_prefix", paths::strip_prefix(root, path));
}
