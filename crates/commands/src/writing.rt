//! Bytes that are written as far as an output takes them.
ghost use Rattle.std.specs.Prelude.{◌≡◌, [], ◌∷◌, ◌++◌, OnErr, OnOk, IfErr};
ghost use Rattle.std.specs.Io.KnownBytes.{Appends};
ghost use Rattle.commands.specs.Stops.{BreaksOff, SaidBy};

use crate::output::Output;
use crate::stop::Stop;
use std::io::ErrorKind;

/// How many writes of a text may be interrupted.
const MOST_INTERRUPTS: u64 = u64::MAX;

/// Writes bytes, as [`write_whole`] does.
pub fn write_bytes<W: Output>(bytes: &[u8], out: &mut W) -> Result<(), Stop>
    ensures writes { OnOk result (Appends (W.contents out.old) (W.contents out.new) bytes.now) }
    ensures cut { OnErr result (BreaksOff [] bytes.now (Appends (W.contents out.old) (W.contents out.new))) }
    ensures ended { IfErr result (λ stop. stop ≡ Stop.Write) }
    ensures said { IfErr result (SaidBy (W.fails out.new)) }
{
    match write_whole(bytes, out) {
        Ok(()) => Ok(()),
        Err(_) => Err(Stop::Write),
    }
}

/// Writes bytes, in as many writes as it takes; one that was interrupted is tried again. After
/// another failed write, or one that takes no byte, none is tried: a beginning of the bytes is
/// written then.
///
/// # Errors
/// The kind of the error by which the last write failed, or `WriteZero`, where that took no byte.
pub fn write_whole<W: Output>(bytes: &[u8], out: &mut W) -> Result<(), ErrorKind>
    ensures writes { OnOk result (Appends (W.contents out.old) (W.contents out.new) bytes.now) }
    ensures cut { OnErr result (BreaksOff [] bytes.now (Appends (W.contents out.old) (W.contents out.new))) }
    ensures said { IfErr result (W.fails out.new) }
{
    let mut written = 0;
    let mut interrupts = MOST_INTERRUPTS;
    while written < bytes.len() {
        match out.write(&bytes[written..]) {
            Ok(0) => return Err(ErrorKind::WriteZero),
            Ok(n) => written += n,
            Err(error) => {
                let kind = error.kind();
                if interrupts == 0 || kind != ErrorKind::Interrupted {
                    return Err(kind);
                }
                interrupts -= 1;
            }
        }
    }
    Ok(())
}

/// Writes a text on a line, as [`write_bytes`] does.
#[tactic(auto, using(crate::proofs::StopLemmas::cut_first, crate::proofs::StopLemmas::cut_on))]
pub fn write_line<W: Output>(text: &str, out: &mut W) -> Result<(), Stop>
    ensures writes { OnOk result (Appends (W.contents out.old) (W.contents out.new) (text.now ++ 10 ∷ [])) }
    ensures cut { OnErr result (BreaksOff [] (text.now ++ 10 ∷ []) (Appends (W.contents out.old) (W.contents out.new))) }
    ensures ended { IfErr result (λ stop. stop ≡ Stop.Write) }
    ensures said { IfErr result (SaidBy (W.fails out.new)) }
{
    write_bytes(text.as_bytes(), out)?;
    write_bytes(b"\n", out)
}
