//! How much a command found, and how much it reported.
ghost use Rattle.std.specs.Prelude.{◌≡◌, ◌+◌, OnOk, IfErr};
ghost use Rattle.std.specs.Io.KnownBytes.{Appends};
ghost use Rattle.ig_commands.specs.Counts.{capped, one_more, stats_line, status_of};

use crate::stop::Stop;
use ig_options::Options;
use std::io::Write;

/// What became of an item: whether something was reported, and whether it is an entry that is
/// listed.
#[derive(Clone, Copy)]
pub(crate) struct Seen {
    pub(crate) reported: bool,
    pub(crate) found: bool,
}

/// How many times something was reported, and how many entries were found that are listed. Each
/// number stops at the greatest one.
#[derive(Clone, Copy)]
pub(crate) struct Counts {
    pub(crate) reported: u64,
    pub(crate) found: u64,
}

impl Counts {
    /// Nothing was found, and so much was reported.
    pub(crate) fn begun(reported: u64) -> Counts
        ensures reported { result.reported ≡ reported }
        ensures found { result.found ≡ 0 }
    {
        Counts { reported, found: 0 }
    }

    /// The sums of these counts and others.
    pub(crate) fn and(self, others: Counts) -> Counts
        ensures reported { result.reported ≡ capped (self.reported + others.reported) }
        ensures found { result.found ≡ capped (self.found + others.found) }
    {
        Counts {
            reported: self.reported.saturating_add(others.reported),
            found: self.found.saturating_add(others.found),
        }
    }

    /// The counts with an item more.
    pub(crate) fn with(self, seen: Seen) -> Counts
        ensures reported { result.reported ≡ one_more self.reported seen.reported }
        ensures found { result.found ≡ one_more self.found seen.found }
    {
        Counts {
            reported: self.reported.saturating_add(u64::from(seen.reported)),
            found: self.found.saturating_add(u64::from(seen.found)),
        }
    }
}

/// The status: 2 where something was reported, else 0 where something was found, and else 1.
pub(crate) fn status_of(counts: Counts) -> u8
    ensures { result ≡ status_of counts.reported counts.found }
{
    if counts.reported > 0 {
        2
    } else if counts.found > 0 {
        0
    } else {
        1
    }
}

/// Reports the counts, where that is asked for.
pub(crate) fn report_counts<E: Write>(
    options: &Options,
    counts: Counts,
    err: &mut E,
) -> Result<(), Stop>
    ensures reports { OnOk result (Appends (E.contents err.old) (E.contents err.new)
        (stats_line options.now.stats counts.reported counts.found)) }
    ensures ended { IfErr result (λ stop. stop ≡ Stop.Silence) }
{
    if !options.stats {
        return Ok(());
    }
    let (found, reported) = (counts.found, counts.reported);
    match writeln!(err, "ig: {found} found, {reported} reported") {
        Ok(()) => Ok(()),
        Err(_) => Err(Stop::Silence),
    }
}
