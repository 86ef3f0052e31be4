//! Why a command ends early, and the report of it.
ghost use Rattle.std.specs.Prelude.{◌≡◌, ◌≢◌, IfOk, IfErr};
ghost use Rattle.std.specs.Io.KnownBytes.{Appends};
ghost use Rattle.ig_commands.specs.Stops.{reason, stop_status, unwritten_text};

use std::io::Write;

/// Why an output can't be written.
#[derive(Clone, Copy)]
pub enum Unwritten {
    /// The device is full.
    Full,
    /// The user may write no more on the device.
    Quota,
    /// A file may not become so large.
    TooLarge,
    /// Anything else.
    Other,
}

/// The text of why an output can't be written, after a colon; empty where it isn't known.
fn unwritten_text(why: Unwritten) -> &'static str
    ensures { result.now ≡ unwritten_text why }
{
    match why {
        Unwritten::Full => ": no space left on the device",
        Unwritten::Quota => ": the quota of the device is exceeded",
        Unwritten::TooLarge => ": the file would be too large",
        Unwritten::Other => "",
    }
}

/// Why a command ends early.
#[derive(Clone, Copy)]
pub enum Stop {
    /// Out of memory.
    Memory,
    /// Standard input can't be read.
    Read,
    /// The output can't be written, for this reason.
    Write(Unwritten),
    /// Nobody reads the output any more: the pipe that it goes to is closed.
    Closed,
    /// The errors can't be written, so nothing more is reported.
    Silence,
}

/// Reports why a command ended, and returns its status: 2, or 0 where nobody reads the output any
/// more, of which nothing is reported.
///
/// # Errors
/// Why it ended, where that can't be written.
pub fn report_stop<E: Write>(err: &mut E, stop: Stop) -> Result<u8, Stop>
    ensures reports { IfOk result (λ status. (status ≡ stop_status stop) × (stop ≢ Stop.Silence)
        × Appends (E.contents err.old) (E.contents err.new) (reason stop)) }
    ensures unreported { IfErr result (λ why. (why ≡ stop) × (stop ≢ Stop.Closed)) }
{
    let reported = match stop {
        Stop::Memory => writeln!(err, "ig: out of memory"),
        Stop::Read => writeln!(err, "ig: cannot read standard input"),
        Stop::Write(why) => writeln!(err, "ig: cannot write{}", unwritten_text(why)),
        Stop::Closed => return Ok(0),
        Stop::Silence => return Err(stop),
    };
    match reported {
        Ok(()) => Ok(2),
        Err(_) => Err(stop),
    }
}
