//! The calls that a command makes of its output.
ghost use Rattle.std.specs.Prelude.{◌≡◌, ◌<◌, IfErr, IfSome, Ok, OnOk, length};
ghost use Rattle.std.specs.Io.{WritesAtMost};
ghost use Rattle.std.specs.Io.KnownBytes.{Appends, Keeps, WriteAppends};
ghost use Rattle.std.specs.IoError.{error_kind};

use std::fmt::Display;
use std::io;
use std::io::ErrorKind;

/// What a command asks of its output, in the terms of std, and what that may answer.
///
/// A contract sees the bytes that the output has, where these are known (`contents`), and the kinds of
/// errors by which a call may have failed, when the output is as it is then (`fails`). So what is promised of a failed write comes
/// from the output. At a writer of std any kind is allowed after each call, since std states nothing
/// of its errors.
pub trait Output {
    ghost use Rattle.std.specs.Prelude.{None, Option, ⊤};
    ghost use Rattle.std.specs.declared.io.ErrorKind.{ErrorKind};
    ghost use Rattle.ignore_base.specs.Text.{Bytes};

    ghost contents: { Self → Option Bytes } = { λ _. None };

    ghost fails: { Self → ErrorKind → Type 0 } = { λ _ _. ⊤ };

    /// Writes some of these bytes, and returns how many. Where it takes none of some, that is an error
    /// too, of the kind `WriteZero`.
    fn write(&mut self, bytes: &[u8]) -> io::Result<usize>
        ensures bound { WritesAtMost result bytes.now }
        ensures bytes { WriteAppends (contents self.old) (contents self.new) result bytes.now }
        ensures said { IfErr result (λ error. fails self.new (error_kind error)) }
        ensures none_taken { result ≡ Ok 0 → 0 < length bytes.now → fails self.new ErrorKind.WriteZero };

    /// Writes what is displayed.
    fn write_fmt<D: Display>(&mut self, text: D) -> io::Result<()>
    where
        D: Drop,
        ensures bytes { OnOk result (IfSome (D.output text) (Appends (contents self.old) (contents self.new))) }
        ensures said { IfErr result (λ error. fails self.new (error_kind error)) };

    /// Writes what it still keeps.
    fn flush(&mut self) -> io::Result<()>
        ensures bytes { Keeps (contents self.old) (contents self.new) }
        ensures said { IfErr result (λ error. fails self.new (error_kind error)) };
}

impl<W: io::Write> Output for W {
    ghost contents = { W.Write.contents };

    fn write(&mut self, bytes: &[u8]) -> io::Result<usize> {
        io::Write::write(self, bytes)
    }

    fn write_fmt<D: Display>(&mut self, text: D) -> io::Result<()>
    where
        D: Drop,
    {
        io::Write::write_fmt(self, text)
    }

    fn flush(&mut self) -> io::Result<()> {
        io::Write::flush(self)
    }
}
