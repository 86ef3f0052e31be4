//! Adding a node to a tree in memory.
ghost use Rattle.std.specs.Prelude.{◌≡◌, OnOk, OnErr, IfErr, Ok};
ghost use Rattle.ignore_files.specs.Memory.{parent_for};
ghost use Rattle.ignore_files.specs.Changes.{with_node};

use crate::memory::node::{Kind, Node};
use crate::tree_error::TreeError;
use crate::types::Name;
use ignore_base::text::last_component;

/// Adds a node to the directory at the place `parent`, which is the one for its path. After an
/// `Err` nothing has changed.
pub fn add_node(
    nodes: &mut Vec<Node>,
    parent: usize,
    path: &str,
    kind: Kind,
    len: u64,
) -> Result<(), TreeError>
    requires { parent_for nodes.old.items path.now ≡ Ok parent }
    ensures added { OnOk result (nodes.new.items ≡ with_node nodes.old.items path.now kind len parent) }
    ensures out_of_memory { IfErr result (λ e. e ≡ TreeError.Memory) }
    ensures unchanged { OnErr result (nodes.new.items ≡ nodes.old.items) }
{
    let alloc = *nodes.allocator();
    let place = nodes.len();
    let file_type = kind.file_type();
    let name = Name::new(String::from_str(alloc, last_component(path))?);
    let path = Name::new(String::from_str(alloc, path)?);
    nodes.push(Node::new(place, parent, path, kind, len))?;
    match nodes[parent].list_named(name, file_type, place) {
        Ok(()) => Ok(()),
        Err(_) => {
            let _ = nodes.pop();
            Err(TreeError::Memory)
        }
    }
}
