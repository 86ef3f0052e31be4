//! The canonical paths of nodes: from `/`, by names alone.
ghost use Rattle.std.specs.Prelude.{◌≡◌, ◌∷◌, [], count_by};
ghost use Rattle.ignore_files.specs.Memory.{is_canonical_path, child, place_of, any_kind, is_file_node, is_directory, sought, folder_sought};
ghost use Rattle.ignore_files.specs.Memory.{parent_for, node_below};
ghost use Rattle.ignore_files.specs.declared.memory.node.Node.{Node};

use crate::memory::node::{Kind, Node};
use crate::memory::resolve::is_dir;
use crate::tree_error::TreeError;
use ignore_base::text::{folder_of, is_proper};

/// Whether the path is `/`, or `/` and names joined by single slashes.
pub fn is_canonical_path(path: &str) -> bool
    ensures { result ≡ is_canonical_path path.now }
{
    match path.strip_prefix('/') {
        None => false,
        Some(rest) => rest.is_empty() || rest.split('/').all(|component| is_proper(component)),
    }
}

/// The node under a name in the directory at a place.
pub fn child(nodes: &[Node], here: usize, name: &str) -> Option<usize>
    ensures { result ≡ child nodes.now here name.now }
{
    match nodes.get(here) {
        None => None,
        Some(n) => match &n.kind {
            Kind::Dir(entries) => entries.get(name),
            Kind::File(_) => None,
            Kind::Link(_) => None,
        },
    }
}

/// Where one component leads: an empty one is skipped.
fn component_below(nodes: &[Node], here: usize, component: &str) -> Option<usize>
    ensures { result ≡ node_below nodes.now here (component.now ∷ []) }
{
    if component.is_empty() {
        Some(here)
    } else {
        child(nodes, here, component)
    }
}

/// The node at this path of names, if there is one.
pub fn place_of(nodes: &[Node], path: &str) -> Option<usize>
    ensures { result ≡ place_of nodes.now path.now }
{
    let mut here = 0;
    let mut rest = path;
    while let Some((component, after)) = rest.split_once('/') {
        here = component_below(nodes, here, component)?;
        rest = after;
    }
    component_below(nodes, here, rest)
}

/// The place of the directory that a path is in.
#[tactic(auto, using(crate::proofs::Places::place_of_folder))]
pub fn folder_place(nodes: &[Node], path: &str) -> Result<usize, TreeError>
    ensures { result ≡ folder_sought nodes.now path.now }
{
    if !is_canonical_path(path) {
        return Err(TreeError::NotClean);
    }
    match place_of(nodes, folder_of(path)) {
        Some(place) if is_dir(nodes, place) => Ok(place),
        _ => Err(TreeError::NoParent),
    }
}

/// The place of the directory in which a node may be added at a path.
pub fn parent_for(nodes: &[Node], path: &str) -> Result<usize, TreeError>
    ensures { result ≡ parent_for nodes.now path.now }
{
    let parent = folder_place(nodes, path)?;
    match place_of(nodes, path) {
        Some(_) => Err(TreeError::Exists),
        None => Ok(parent),
    }
}

/// The place of a path, for a node of any kind.
pub fn any_place(nodes: &[Node], path: &str) -> Result<usize, TreeError>
    ensures { result ≡ sought any_kind nodes.now path.now }
{
    if !is_canonical_path(path) {
        return Err(TreeError::NotClean);
    }
    match place_of(nodes, path) {
        None => Err(TreeError::Missing),
        Some(place) => match nodes.get(place) {
            None => Err(TreeError::Missing),
            Some(_) => Ok(place),
        },
    }
}

/// The place of a path, where a directory is there.
pub fn dir_place(nodes: &[Node], path: &str) -> Result<usize, TreeError>
    ensures { result ≡ sought is_directory nodes.now path.now }
{
    let place = any_place(nodes, path)?;
    if nodes[place].kind.is_dir() {
        Ok(place)
    } else {
        Err(TreeError::Missing)
    }
}

/// The place of a path, where a file is there.
pub fn file_place(nodes: &[Node], path: &str) -> Result<usize, TreeError>
    ensures { result ≡ sought is_file_node nodes.now path.now }
{
    let place = any_place(nodes, path)?;
    if nodes[place].kind.is_file() {
        Ok(place)
    } else {
        Err(TreeError::Missing)
    }
}

/// How many of the nodes are directories.
pub fn count_dirs(nodes: &[Node]) -> usize
    ensures { result ≡ count_by (λ n. is_directory n.kind) nodes.now }
{
    nodes.iter().filter(|n| n.kind.is_dir()).count()
}
