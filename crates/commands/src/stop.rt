//! Why a run ends early, and the report of it.
ghost use Rattle.std.specs.Prelude.{◌≡◌, ◌≢◌, IfOk, IfErr};
ghost use Rattle.std.specs.Io.KnownBytes.{Appends};
ghost use Rattle.commands.specs.Stops.{IsUnreported, reason};

use crate::writing::write_line;
use std::io::Write;

/// The usage, which is written for wrong arguments.
const USAGE: &str = "usage: igwalk match ROOT RULES PATH d|f | list ROOT.. | check ROOT PATH..";

/// Why a run ends early.
#[derive(Clone, Copy)]
pub enum Stop {
    /// The arguments are wrong.
    Usage,
    /// Out of memory.
    Memory,
    /// The answer can't be written.
    Write,
    /// The errors can't be written, so nothing more is reported.
    Silence,
}

/// Reports why a run ended, and returns its status, or why it ended where that can't be written:
/// then a beginning of it is, and of silence nothing.
pub fn report_stop<E: Write>(err: &mut E, stop: Stop) -> Result<u8, Stop>
    ensures reports { IfOk result (λ status. (status ≡ 2) × (stop ≢ Stop.Silence)
        × Appends (E.contents err.old) (E.contents err.new) (reason stop)) }
    ensures unreported { IfErr result (λ why. (why ≡ stop)
        × IsUnreported (Appends (E.contents err.old) (E.contents err.new)) stop) }
{
    let reported = match stop {
        Stop::Usage => write_line(USAGE, err),
        Stop::Memory => write_line("igwalk: out of memory", err),
        Stop::Write => write_line("igwalk: cannot write", err),
        Stop::Silence => return Err(stop),
    };
    match reported {
        Ok(()) => Ok(2),
        Err(_) => Err(stop),
    }
}
