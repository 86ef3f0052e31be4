//! Resolving a path in a tree in memory.

ghost use Rattle.std.specs.Prelude.{◌≡◌, ◌≤◌, [], ◌∷◌, IfOk, MatchResult, Ok, Err, option_map};
ghost use Rattle.ignore_base.specs.Paths.{components};
ghost use Rattle.ignore_files.specs.Memory.{is_dir_at};
ghost use Rattle.ignore_files.specs.Resolve.{enter, link_at, walk, resolved, node_found};

use crate::memory::node::{Kind, Node};
use ignore_base::Fault;

/// How many links may be followed to resolve one path.
pub const LINKS: usize = 40;

/// The node that a path leads to, and how many more links may be followed.
#[derive(Clone, Copy, Debug)]
pub struct Reached {
    /// The place of the node.
    pub node: usize,
    /// How many more links may be followed.
    pub links: usize,
}

/// Whether a directory is at the place.
pub fn is_dir(nodes: &[Node], place: usize) -> bool
    ensures { result ≡ is_dir_at nodes.now place }
{
    match nodes.get(place) {
        Some(n) => n.kind.is_dir(),
        None => false,
    }
}

/// Where one component leads from a place, links not followed.
fn enter(nodes: &[Node], here: usize, component: &str) -> Result<usize, Fault>
    ensures { result ≡ enter nodes.now here component.now }
{
    if component.is_empty() || component == "." {
        return Ok(here);
    }
    match nodes.get(here) {
        None => Err(Fault::NotADirectory),
        Some(n) => match &n.kind {
            Kind::File(_) => Err(Fault::NotADirectory),
            Kind::Link(_) => Err(Fault::NotADirectory),
            Kind::Dir(entries) => {
                if component == ".." {
                    Ok(n.parent)
                } else {
                    entries.get(component).ok_or(Fault::NotFound)
                }
            }
        },
    }
}

/// The target of the link at a place, if one is there, and the place where the target begins.
fn link_at<'a>(nodes: &'a [Node], place: usize) -> Option<(usize, &'a str)>
    ensures { option_map (λ l. (l.0, l.1.now)) result ≡ link_at nodes.now place }
{
    match nodes.get(place) {
        None => None,
        Some(n) => match &n.kind {
            Kind::Dir(_) => None,
            Kind::File(_) => None,
            Kind::Link(target) => {
                let target = target.as_str();
                if target.starts_with('/') {
                    Some((0, target))
                } else {
                    Some((n.parent, target))
                }
            }
        },
    }
}

/// Where one component leads from a place. A link there is followed where `follow` is set.
#[cycle(resolve)]
fn step(
    nodes: &[Node],
    links: usize,
    follow: bool,
    here: usize,
    component: &str,
) -> Result<Reached, Fault>
    ensures value { result ≡ walk nodes.now follow links (component.now ∷ []) here }
    ensures fewer { IfOk result (λ reached. reached.links ≤ links) }
{
    let node = enter(nodes, here, component)?;
    if !follow {
        return Ok(Reached { node, links });
    }
    match link_at(nodes, node) {
        None => Ok(Reached { node, links }),
        Some((start, target)) => {
            if links == 0 {
                Err(Fault::LinkLimit)
            } else if target.is_empty() {
                Err(Fault::NotFound)
            } else {
                walk(nodes, links - 1, true, start, target)
            }
        }
    }
}

/// Where the components of a text lead from a place. A link in last place is followed where
/// `follow` is set.
#[cycle(resolve)]
pub fn walk(
    nodes: &[Node],
    links: usize,
    follow: bool,
    start: usize,
    text: &str,
) -> Result<Reached, Fault>
    ensures value { result ≡ walk nodes.now follow links (components text.now) start }
    ensures fewer { IfOk result (λ reached. reached.links ≤ links) }
{
    let mut reached = Reached { node: start, links };
    let mut rest = text;
    while let Some((component, after)) = rest.split_once('/') {
        reached = step(nodes, reached.links, true, reached.node, component)?;
        if !is_dir(nodes, reached.node) {
            return Err(Fault::NotADirectory);
        }
        rest = after;
    }
    step(nodes, reached.links, follow, reached.node, rest)
}

/// The place to which a path leads. A relative one begins at the working directory `cwd`.
pub fn resolve(nodes: &[Node], cwd: &str, path: &str, follow: bool) -> Result<usize, Fault>
    ensures { result ≡ resolved cwd.now nodes.now path.now follow }
{
    if path.is_empty() {
        return Err(Fault::NotFound);
    }
    let start = if path.starts_with('/') {
        Reached {
            node: 0,
            links: LINKS,
        }
    } else {
        walk(nodes, LINKS, true, 0, cwd)?
    };
    Ok(walk(nodes, start.links, follow, start.node, path)?.node)
}

/// The node that a path leads to.
pub fn find_node<'a>(
    nodes: &'a [Node],
    cwd: &str,
    path: &str,
    follow: bool,
) -> Result<&'a Node, Fault>
    ensures { MatchResult result (λ n. node_found cwd.now nodes.now path.now follow ≡ Ok n.now)
        (λ e. node_found cwd.now nodes.now path.now follow ≡ Err e) }
{
    let place = resolve(nodes, cwd, path, follow)?;
    nodes.get(place).ok_or(Fault::NotFound)
}
