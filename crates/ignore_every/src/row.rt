//! The states of a table.
ghost use Rattle.std.specs.Prelude.{◌≡◌, ◌≤◌, ℕ, IsTrue, IfSome, Some, None, false};
ghost use Rattle.ignore_every.specs.Machines.{IsIn};
ghost use Rattle.ignore_every.specs.Rows.{next_of, decider_of, taking_of};

/// One state of a table.
#[derive(Debug, Drop)]
pub struct Row {
    /// Where each letter leads, where that is known.
    pub next: Vec<Option<usize>>,
    /// The rule that decides for a file.
    pub file: Option<usize>,
    /// The rule that decides for a directory.
    pub dir: Option<usize>,
    /// The rules whose globs take what leads here, in order.
    pub taking: Vec<usize>,
}

/// Where a state leads by a letter, where that is known.
pub(crate) fn next_of(rows: &[Row], state: usize, letter: usize) -> Option<usize>
    ensures { result ≡ next_of rows.now state letter }
{
    match rows.get(state) {
        Some(row) => match row.next.get(letter) {
            Some(target) => *target,
            None => None,
        },
        None => None,
    }
}

/// The rule that decides at a state, if there is such a state.
pub(crate) fn decider_of(rows: &[Row], state: usize, is_dir: bool) -> Option<Option<usize>>
    ensures { result ≡ decider_of rows.now state is_dir }
{
    match rows.get(state) {
        Some(row) => {
            if is_dir {
                Some(row.dir)
            } else {
                Some(row.file)
            }
        }
        None => None,
    }
}

/// The rules whose globs take what leads to a state, if there is such a state.
pub(crate) fn taking_of(rows: &[Row], state: usize) -> Option<&[usize]>
    ensures is { IfSome result (λ known. taking_of rows.now state ≡ Some known.now) }
    ensures isnt { result ≡ None → taking_of rows.now state ≡ None }
{
    match rows.get(state) {
        Some(row) => Some(row.taking.as_slice()),
        None => None,
    }
}

/// Whether an index is in a list.
pub(crate) fn is_in(indices: &[usize], wanted: usize) -> bool
    ensures yes { IsTrue result → IsIn indices.now wanted }
    ensures no { result ≡ false → IsIn indices.now wanted → ⊥ }
{
    for index in indices {
        if *index == wanted {
            return true;
        }
    }
    false
}

/// How many letters the row of a state goes to.
pub(crate) fn row_length(rows: &[Row], state: usize) -> usize
    ensures { (letter : ℕ) → result ≤ letter → next_of rows.now state letter ≡ None }
{
    match rows.get(state) {
        Some(row) => row.next.len(),
        None => 0,
    }
}

/// Whether there is a number, and it is this one.
pub(crate) fn is_some_of(number: Option<usize>, wanted: usize) -> bool
    ensures yes { IsTrue result → number ≡ Some wanted }
    ensures no { result ≡ false → number ≡ Some wanted → ⊥ }
{
    match number {
        Some(found) => found == wanted,
        None => false,
    }
}

/// Whether two numbers are both absent or are the same.
pub(crate) fn is_same(a: Option<usize>, b: Option<usize>) -> bool
    ensures yes { IsTrue result → a ≡ b }
    ensures no { result ≡ false → a ≡ b → ⊥ }
{
    match a {
        Some(x) => is_some_of(b, x),
        None => b.is_none(),
    }
}
