//! Calls of a device, each made again where a signal interrupted it.

ghost use Rattle.std.specs.Prelude.{◌≡◌, ◌≢◌, ◌↔◌, IsTrue, IfErr};
ghost use Rattle.std.specs.Io.{ReadsAtMost, WritesAtMost};
ghost use Rattle.std.specs.Io.KnownBytes.{ReadConsumes, WriteAppends, Keeps};
ghost use Rattle.std.specs.IoError.{error_kind};
ghost use Rattle.std.specs.declared.io.ErrorKind.TheVariants.{Interrupted};

use std::io::{Error, ErrorKind, Read, Result, Write};

/// Reads some bytes.
pub(crate) fn read_retrying<R: Read>(from: &mut R, buf: &mut [u8]) -> Result<usize>
    ensures bound { ReadsAtMost result buf.new }
    ensures bytes { ReadConsumes (R.remaining from.old) (R.remaining from.new) result buf.new }
    ensures retried { IfErr result (λ e. error_kind e ≢ Interrupted) }
{
    // Bounded, since every function has to return.
    for _ in 0..u64::MAX {
        match from.read(buf) {
            Err(error) if is_interrupted(&error) => {}
            done => return done,
        }
    }
    Err(Error::from(ErrorKind::TimedOut))
}

/// Writes some of the bytes.
pub(crate) fn write_retrying<W: Write>(to: &mut W, buf: &[u8]) -> Result<usize>
    ensures bound { WritesAtMost result buf.now }
    ensures bytes { WriteAppends (W.contents to.old) (W.contents to.new) result buf.now }
    ensures retried { IfErr result (λ e. error_kind e ≢ Interrupted) }
{
    for _ in 0..u64::MAX {
        match to.write(buf) {
            Err(error) if is_interrupted(&error) => {}
            done => return done,
        }
    }
    Err(Error::from(ErrorKind::TimedOut))
}

/// Has a writer that keeps bytes let them go out.
pub(crate) fn flush_retrying<W: Write>(to: &mut W) -> Result<()>
    ensures bytes { Keeps (W.contents to.old) (W.contents to.new) }
    ensures retried { IfErr result (λ e. error_kind e ≢ Interrupted) }
{
    for _ in 0..u64::MAX {
        match to.flush() {
            Err(error) if is_interrupted(&error) => {}
            done => return done,
        }
    }
    Err(Error::from(ErrorKind::TimedOut))
}

/// Whether a signal interrupted the call.
fn is_interrupted(error: &Error) -> bool
    ensures { IsTrue result ↔ (error_kind error.now ≡ Interrupted) }
{
    error.kind() == ErrorKind::Interrupted
}
