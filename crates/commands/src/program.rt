//! What the `main` of a program does around a run: the words after its name, and a buffer before its
//! output.
ghost use Rattle.std.specs.Prelude.{◌≡◌, ◌≤◌, ◌⊎◌, ⊤, List, [], Option, None, Some, IfErr, IfOk, IfSome, drop, map, string_bytes};
ghost use Rattle.std.specs.Io.Buffered.{writer_contents};
ghost use Rattle.std.specs.Io.KnownBytes.{Appends, Keeps};
ghost use Rattle.std.specs.Iterator.{Drains, IsFinite};
ghost use Rattle.ignore_base.specs.Text.{Path};
ghost use Rattle.ignore_files.specs.Gives.{IsHonest};
ghost use Rattle.ignore_files.specs.Tree.{Tree};
ghost use Rattle.ignore_walk.specs.Entry.{Item};
ghost use Rattle.commands.specs.Checking.{AreAnswers, AreAnswersSoFar, AreFirst, Checked, Checks, line_for, report_for, with_next};
ghost use Rattle.commands.specs.Listing.{Lists, lines_of, reports_of};
ghost use Rattle.commands.specs.Matching.{Prints};
ghost use Rattle.commands.specs.Stops.{BreaksOff, EndsReported, EndsReportedAfter, GoneReported, GoneReportedAfter, GoneUnreported, GoneUnreportedAfter, SaidBy, reason};
ghost use Rattle.commands.specs.Walking.{AreBegunOf, AreListedOf};
ghost use Rattle.commands.specs.Words.{Question, command_of, of_check, of_list, of_match};

use crate::run::run;
use crate::stop::{Stop, report_stop};
use crate::world::World;
use ignore_files::Files;
use std::alloc::{AllocError, Global};
use std::io::{BufWriter, Write};

/// How many bytes of the output are kept before they are written.
const CAPACITY: usize = 64 * 1024;

/// All words but the first, which is the program's name.
pub fn words_after_name<T: Drop, I: Iterator<Item = T>>(
    alloc: Global,
    words: I,
) -> Result<Vec<T>, AllocError>
    requires ends { I.can_next words × IsFinite (I.remaining words) }
    ensures value { IfOk result (λ rest. (all : List T) × Drains I.next_gives words all × (rest.items ≡ drop 1 all)) }
{
    let mut all = all_words(alloc, words)?;
    if !all.is_empty() {
        let _name = all.remove(0);
    }
    Ok(all)
}

/// All words.
fn all_words<T: Drop, I: Iterator<Item = T>>(alloc: Global, words: I) -> Result<Vec<T>, AllocError>
    requires ends { I.can_next words × IsFinite (I.remaining words) }
    ensures value { IfOk result (λ all. Drains I.next_gives words all.items) }
{
    let mut all = Vec::new(alloc);
    for word in words {
        all.push(word)?;
    }
    Ok(all)
}

/// Runs the words as [`run`] does, with a buffer before the output. It returns the status, and the
/// output where all that was written stands on it. Where memory doesn't suffice for the buffer, or
/// it can't be written, there is none, the status is 2, and the reason is reported last. A writer of
/// std may fail by any error.
///
/// # Errors
/// Why the run ended, where that can't be written to `err`. The status is then 2 too.
pub fn run_buffered<F: Files, W: Write + Drop, E: Write>(
    world: &World<'_, F>,
    words: &[String],
    out: W,
    err: &mut E,
) -> Result<(u8, Option<W>), Stop>
    ensures wrong { command_of (map string_bytes words.now) ≡ None
        → IfOk result (λ r. (r.0 ≡ 2) × IfSome r.1 (λ w. Appends (W.contents out) (W.contents w) [])) }
    ensures prints { (question : Question) → command_of (map string_bytes words.now) ≡ Some (of_match question)
        → IfOk result (λ r. IfSome r.1 (λ w. Prints question r.0 (Appends (W.contents out) (W.contents w))
        (Appends (E.contents err.old) (E.contents err.new))
        ⊎ ((r.0 ≡ 2) × EndsReported (SaidBy (λ kind. ⊤)) question (Appends (W.contents out) (W.contents w))
        (Appends (E.contents err.old) (E.contents err.new))))) }
    ensures lists { (roots : List Path) → command_of (map string_bytes words.now) ≡ Some (of_list roots)
        → IfOk result (λ r. IfSome r.1 (λ w. ((items : List Item) × Lists items r.0
        (Appends (W.contents out) (W.contents w)) (Appends (E.contents err.old) (E.contents err.new))
        × AreListedOf F.Files world.now.files.now world.now.env.now roots items)
        ⊎ ((r.0 ≡ 2) × (items : List Item) × (next : Option Item) × EndsReportedAfter (SaidBy (λ kind. ⊤)) lines_of reports_of items next
        (Appends (W.contents out) (W.contents w)) (Appends (E.contents err.old) (E.contents err.new))
        × AreBegunOf F.Files world.now.files.now world.now.env.now roots items next))) }
    ensures checks { (root : Path) (paths : List Path) → command_of (map string_bytes words.now) ≡ Some (of_check root paths)
        → IfOk result (λ r. IfSome r.1 (λ w. ((all : List Checked) × Checks paths all r.0
        (Appends (W.contents out) (W.contents w)) (Appends (E.contents err.old) (E.contents err.new))
        × ((tree : Tree) → IsHonest F.Files world.now.files.now tree → AreAnswers tree world.now.env.now root all))
        ⊎ ((r.0 ≡ 2) × (all : List Checked) × (next : Option Checked) × AreFirst paths (with_next all next)
        × EndsReportedAfter (SaidBy (λ kind. ⊤)) line_for report_for all next (Appends (W.contents out) (W.contents w))
        (Appends (E.contents err.old) (E.contents err.new))
        × ((tree : Tree) → IsHonest F.Files world.now.files.now tree → AreAnswersSoFar tree world.now.env.now root (with_next all next))))) }
    ensures usage { command_of (map string_bytes words.now) ≡ None
        → IfOk result (λ r. Appends (E.contents err.old) (E.contents err.new) (reason Stop.Usage)
        ⊎ ((r.1 ≡ None) × Appends (E.contents err.old) (E.contents err.new) (reason Stop.Memory))) }
    ensures usage_unreported { command_of (map string_bytes words.now) ≡ None
        → IfErr result (λ stop. ((stop ≡ Stop.Usage) ⊎ (stop ≡ Stop.Memory))
        × BreaksOff [] (reason stop) (Appends (E.contents err.old) (E.contents err.new))) }
    ensures gone { (question : Question) → command_of (map string_bytes words.now) ≡ Some (of_match question)
        → IfOk result (λ r. r.1 ≡ None → GoneReported question (Appends (E.contents err.old) (E.contents err.new))) }
    ensures unreported { (question : Question) → command_of (map string_bytes words.now) ≡ Some (of_match question)
        → IfErr result (GoneUnreported question (Appends (E.contents err.old) (E.contents err.new))) }
    ensures gone_list { (roots : List Path) → command_of (map string_bytes words.now) ≡ Some (of_list roots)
        → IfOk result (λ r. r.1 ≡ None → (items : List Item) × (next : Option Item)
        × GoneReportedAfter reports_of items next (Appends (E.contents err.old) (E.contents err.new))
        × (AreBegunOf F.Files world.now.files.now world.now.env.now roots items next
        ⊎ AreListedOf F.Files world.now.files.now world.now.env.now roots items)) }
    ensures unreported_list { (roots : List Path) → command_of (map string_bytes words.now) ≡ Some (of_list roots)
        → IfErr result (λ stop. (items : List Item) × (next : Option Item)
        × GoneUnreportedAfter reports_of items next (Appends (E.contents err.old) (E.contents err.new)) stop
        × (AreBegunOf F.Files world.now.files.now world.now.env.now roots items next
        ⊎ AreListedOf F.Files world.now.files.now world.now.env.now roots items)) }
    ensures gone_check { (root : Path) (paths : List Path) → command_of (map string_bytes words.now) ≡ Some (of_check root paths)
        → IfOk result (λ r. r.1 ≡ None → (all : List Checked) × (next : Option Checked) × AreFirst paths (with_next all next)
        × GoneReportedAfter report_for all next (Appends (E.contents err.old) (E.contents err.new))
        × ((tree : Tree) → IsHonest F.Files world.now.files.now tree → AreAnswersSoFar tree world.now.env.now root (with_next all next))) }
    ensures unreported_check { (root : Path) (paths : List Path) → command_of (map string_bytes words.now) ≡ Some (of_check root paths)
        → IfErr result (λ stop. (all : List Checked) × (next : Option Checked) × AreFirst paths (with_next all next)
        × GoneUnreportedAfter report_for all next (Appends (E.contents err.old) (E.contents err.new)) stop
        × ((tree : Tree) → IsHonest F.Files world.now.files.now tree → AreAnswersSoFar tree world.now.env.now root (with_next all next))) }
    ensures flushed { IfOk result (λ r. r.1 ≡ None → r.0 ≡ 2) }
    ensures status { IfOk result (λ r. r.0 ≤ 2) }
{
    let Ok(mut buffered) = BufWriter::with_capacity(world.alloc, CAPACITY, out) else {
        return Ok((report_stop(err, Stop::Memory)?, None));
    };
    let status = run(world, words, &mut buffered, err)?;
    match flushed(buffered) {
        Some(out) => Ok((status, Some(out))),
        None if status < 2 => Ok((report_stop(err, Stop::Write)?, None)),
        None => Ok((status, None)),
    }
}

/// The writer after a buffer, once all of the buffer is written and flushed; none where that fails.
#[tactic(auto, using(crate::proofs::BufferLemmas::keeps_on))]
fn flushed<W: Write + Drop>(mut buffered: BufWriter<W>) -> Option<W>
    ensures { IfSome result (λ w. Keeps (writer_contents W.contents buffered) (W.contents w)) }
{
    if buffered.flush().is_err() {
        return None;
    }
    match buffered.into_inner() {
        Ok(out) => Some(out),
        Err(_) => None,
    }
}
