//! The nodes of a glob: its positions in the order of writing, each with the one that comes next.
ghost use Rattle.std.specs.Prelude.{◌≡◌, ◌+◌, ◌++◌, ◌∷◌, [], IsTrue, ◌↔◌, length, IfOk};
ghost use Rattle.std.specs.Arc.{arc_slice_items};
ghost use Rattle.ignore_glob.specs.Glob.{start, then, done};
ghost use Rattle.ignore_glob.specs.Nodes.{fork_at, token_width, width, branches_width, entry, entries, fork};
ghost use Rattle.ignore_glob.specs.DoesMatch.{is_lone_start};
ghost use Rattle.ignore_glob.specs.NodeLists.{token_nodes, tokens_nodes, branches_nodes, glob_nodes, node_view, nodes_view};
ghost use Rattle.ignore_glob.specs.View.{view, tokens_view, branches_view};

use crate::glob::node::Node;
use crate::glob::token::{Class, Token};
use std::alloc::{AllocError, Global};

/// How many positions a token has; out of memory where they are more than a list can have.
#[cycle(width)]
#[tactic(auto, using(crate::proofs::Views::view_equations))]
fn token_width(token: &Token) -> Result<usize, AllocError>
    ensures { IfOk result (λ n. n ≡ token_width (view token.now)) }
{
    match token {
        Token::Literal(_) => Ok(1),
        Token::Any => Ok(1),
        Token::Star => Ok(1),
        Token::Class(_) => Ok(1),
        Token::RecursiveStart => Ok(2),
        Token::RecursiveMiddle => Ok(2),
        Token::RecursiveEnd => Ok(2),
        Token::Alternates(branches) => {
            let inner = branches_width(branches)?;
            plus(1, inner)
        }
    }
}

/// The sum of two lengths, or out of memory where a list can't be so long.
fn plus(n: usize, more: usize) -> Result<usize, AllocError>
    ensures { IfOk result (λ sum. sum ≡ n + more) }
{
    match n.checked_add(more) {
        Some(sum) => Ok(sum),
        None => Err(AllocError),
    }
}

/// How many positions tokens have.
#[cycle(width)]
fn width(tokens: &[Token]) -> Result<usize, AllocError>
    ensures { IfOk result (λ n. n ≡ width (tokens_view tokens.now)) }
{
    let mut total = 0;
    let mut rest = tokens;
    while let Some((first, more)) = rest.split_first() {
        let here = token_width(first)?;
        total = plus(total, here)?;
        rest = more;
    }
    Ok(total)
}

/// How many positions branches have.
#[cycle(width)]
fn branches_width(branches: &[Vec<Token>]) -> Result<usize, AllocError>
    ensures { IfOk result (λ n. n ≡ branches_width (branches_view branches.now)) }
{
    let mut total = 0;
    let mut rest = branches;
    while let Some((first, more)) = rest.split_first() {
        let here = width(first)?;
        total = plus(total, here)?;
        rest = more;
    }
    Ok(total)
}

/// The first position of these tokens, which stand at `at`; of no tokens `end`, which comes next.
fn entry(tokens: &[Token], at: usize, end: usize) -> usize
    ensures { result ≡ entry (tokens_view tokens.now) at end }
{
    match tokens.split_first() {
        Some(_) => at,
        None => end,
    }
}

/// Where the fork of these branches leads, the first of which stands at `first`: to the first
/// position of each; without a branch to `end`.
fn fork(
    alloc: Global,
    branches: &[Vec<Token>],
    first: usize,
    end: usize,
) -> Result<Vec<usize>, AllocError>
    ensures { IfOk result (λ firsts. firsts.items ≡ fork (branches_view branches.now) first end) }
{
    let mut firsts = Vec::new(alloc);
    match branches.split_first() {
        Some(_) => push_entries(&mut firsts, branches, first, end)?,
        None => firsts.push(end)?,
    }
    Ok(firsts)
}

fn push_entries(
    firsts: &mut Vec<usize>,
    branches: &[Vec<Token>],
    first: usize,
    end: usize,
) -> Result<(), AllocError>
    ensures { IfOk result (λ _. firsts.new.items ≡ firsts.old.items ++ entries (branches_view branches.now) first end) }
{
    let mut at = first;
    let mut rest = branches;
    while let Some((branch, more)) = rest.split_first() {
        firsts.push(entry(branch, at, end))?;
        let width = width(branch)?;
        at = plus(at, width)?;
        rest = more;
    }
    Ok(())
}

/// Puts the nodes of a token at the end, where `next` comes next.
#[cycle(compile)]
#[tactic(auto, using(crate::proofs::Views::view_equations))]
fn push_token(nodes: &mut Vec<Node>, token: &Token, next: usize) -> Result<(), AllocError>
    ensures { IfOk result (λ _. nodes_view nodes.new.items
        ≡ nodes_view nodes.old.items ++ token_nodes (view token.now) (length nodes.old.items) next) }
{
    match token {
        Token::Literal(c) => push_one(nodes, Node::Literal(*c, next)),
        Token::Any => push_one(nodes, Node::Any(next)),
        Token::Star => push_one(nodes, Node::Star(next)),
        Token::RecursiveStart => push_two(nodes, Node::Start(next), Node::UntilSlash(next)),
        Token::RecursiveMiddle => push_two(nodes, Node::Middle(next), Node::UntilSlash(next)),
        Token::RecursiveEnd => push_two(nodes, Node::End(next), Node::UntilEnd(next)),
        Token::Class(class) => {
            let copy = copy_of(class)?;
            push_one(nodes, Node::Class(copy, next))
        }
        Token::Alternates(branches) => push_braces(nodes, branches, next),
    }
}

fn push_one(nodes: &mut Vec<Node>, node: Node) -> Result<(), AllocError>
    ensures { IfOk result (λ _. nodes_view nodes.new.items ≡ nodes_view nodes.old.items ++ node_view node ∷ []) }
{
    nodes.push(node)?;
    Ok(())
}

fn push_two(nodes: &mut Vec<Node>, first: Node, second: Node) -> Result<(), AllocError>
    ensures { IfOk result (λ _. nodes_view nodes.new.items ≡ nodes_view nodes.old.items ++ node_view first ∷ node_view second ∷ []) }
{
    nodes.push(first)?;
    nodes.push(second)?;
    Ok(())
}

fn copy_of(class: &Class) -> Result<Class, AllocError>
    ensures negated { IfOk result (λ copy. copy.negated ≡ class.now.negated) }
    ensures ranges { IfOk result (λ copy. arc_slice_items copy.ranges ≡ arc_slice_items class.now.ranges) }
{
    let ranges = class.ranges.clone()?;
    Ok(Class {
        negated: class.negated,
        ranges,
    })
}

/// Puts the nodes of braces at the end: their fork, then branch after branch.
#[cycle(compile)]
fn push_braces(
    nodes: &mut Vec<Node>,
    branches: &[Vec<Token>],
    next: usize,
) -> Result<(), AllocError>
    ensures { IfOk result (λ _. nodes_view nodes.new.items
        ≡ nodes_view nodes.old.items ++ fork_at (fork (branches_view branches.now) (length nodes.old.items + 1) next)
        ∷ branches_nodes (branches_view branches.now) (length nodes.old.items + 1) next) }
{
    let firsts = fork(*nodes.allocator(), branches, nodes.len() + 1, next)?;
    nodes.push(Node::Fork(firsts))?;
    let mut rest = branches;
    while let Some((branch, more)) = rest.split_first() {
        push_tokens(nodes, branch, next)?;
        rest = more;
    }
    Ok(())
}

/// Puts the nodes of tokens at the end, where `end` comes next.
#[cycle(compile)]
fn push_tokens(nodes: &mut Vec<Node>, tokens: &[Token], end: usize) -> Result<(), AllocError>
    ensures { IfOk result (λ _. nodes_view nodes.new.items
        ≡ nodes_view nodes.old.items ++ tokens_nodes (tokens_view tokens.now) (length nodes.old.items) end) }
{
    let mut rest = tokens;
    while let Some((first, more)) = rest.split_first() {
        let here = token_width(first)?;
        let after = plus(nodes.len(), here)?;
        push_token(nodes, first, entry(more, after, end))?;
        rest = more;
    }
    Ok(())
}

/// Whether the whole glob is one recursive start.
fn is_lone_start(tokens: &[Token]) -> bool
    ensures { result ≡ is_lone_start (tokens_view tokens.now) }
{
    match tokens {
        [first, rest @ ..] => is_start(first) && rest.is_empty(),
        [] => false,
    }
}

fn is_start(token: &Token) -> bool
    ensures { IsTrue result ↔ (view token.now ≡ start) }
{
    match token {
        Token::RecursiveStart => true,
        Token::Literal(_)
        | Token::Any
        | Token::Star
        | Token::RecursiveMiddle
        | Token::RecursiveEnd
        | Token::Class(_)
        | Token::Alternates(_) => false,
    }
}

/// The nodes of a whole glob.
pub fn nodes_of(alloc: Global, tokens: &[Token]) -> Result<Vec<Node>, AllocError>
    ensures { IfOk result (λ nodes. nodes_view nodes.items ≡ glob_nodes (tokens_view tokens.now)) }
{
    let end = width(tokens)?;
    let mut nodes = Vec::with_capacity(alloc, end)?;
    if is_lone_start(tokens) {
        push_two(&mut nodes, Node::Start(2), Node::UntilEnd(2))?;
        return Ok(nodes);
    }
    push_tokens(&mut nodes, tokens, end)?;
    Ok(nodes)
}
