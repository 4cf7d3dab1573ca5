//! Readers and writers whose bytes and failures are counted.

ghost use Rattle.std.specs.Prelude.{◌≡◌, ◌≢◌, IfErr};
ghost use Rattle.std.specs.Io.{ReadsAtMost, WritesAtMost};
ghost use Rattle.std.specs.Io.KnownBytes.{ReadConsumes, WriteAppends, Keeps};
ghost use Rattle.std.specs.IoError.{error_kind};
ghost use Rattle.std.specs.declared.io.ErrorKind.TheVariants.{Interrupted};
ghost use Rattle.cp_stream.specs.Tap.{inner_of, failures_of, bytes_of, CountsRead, CountsWrite, CountsFlush};

use crate::retry::{flush_retrying, read_retrying, write_retrying};
use std::io::{Read, Result, Write};

/// A reader or a writer, with the number of its calls that failed and of the bytes that went through,
/// each of which goes on at 0 after `u64::MAX`. A call failed if it gave an error of any kind, or if
/// it is a write that took 0 bytes. A call that a signal interrupted is made again, and hasn't failed.
#[derive(Drop)]
pub struct Tap<T> {
    inner: T,
    failures: u64,
    bytes: u64,
}

impl<T: Drop> Tap<T> {
    /// A tap whose counts are 0.
    pub fn new(inner: T) -> Tap<T>
        ensures inner { inner_of result ≡ inner }
        ensures failures { failures_of result ≡ 0 }
        ensures bytes { bytes_of result ≡ 0 }
    {
        Tap {
            inner,
            failures: 0,
            bytes: 0,
        }
    }

    /// How many calls failed.
    pub fn failures(&self) -> u64
        ensures { result ≡ failures_of self.now }
    {
        self.failures
    }

    /// How many bytes went through.
    pub fn bytes(&self) -> u64
        ensures { result ≡ bytes_of self.now }
    {
        self.bytes
    }

    /// The reader or the writer itself.
    pub fn into_inner(self) -> T
        ensures { result ≡ inner_of self }
    {
        self.inner
    }
}

impl<R: Read> Read for Tap<R> {
    ghost remaining = { λ tap. R.remaining (inner_of tap) };

    fn read(&mut self, buf: &mut [u8]) -> Result<usize>
        ensures bound { ReadsAtMost result buf.new }
        ensures bytes { ReadConsumes (R.remaining (inner_of self.old)) (R.remaining (inner_of self.new)) result buf.new }
        ensures counts { CountsRead self.old self.new result }
        ensures retried { IfErr result (λ e. error_kind e ≢ Interrupted) }
    {
        match read_retrying(&mut self.inner, buf) {
            Ok(count) => {
                self.bytes = self.bytes.wrapping_add(count as u64);
                Ok(count)
            }
            Err(error) => {
                self.failures = self.failures.wrapping_add(1);
                Err(error)
            }
        }
    }
}

impl<W: Write> Write for Tap<W> {
    ghost contents = { λ tap. W.contents (inner_of tap) };

    fn write(&mut self, buf: &[u8]) -> Result<usize>
        ensures bound { WritesAtMost result buf.now }
        ensures bytes { WriteAppends (W.contents (inner_of self.old)) (W.contents (inner_of self.new)) result buf.now }
        ensures counts { CountsWrite self.old self.new result }
        ensures retried { IfErr result (λ e. error_kind e ≢ Interrupted) }
    {
        match write_retrying(&mut self.inner, buf) {
            // A writer that takes nothing would be asked for ever.
            Ok(0) => {
                self.failures = self.failures.wrapping_add(1);
                Ok(0)
            }
            Ok(count) => {
                self.bytes = self.bytes.wrapping_add(count as u64);
                Ok(count)
            }
            Err(error) => {
                self.failures = self.failures.wrapping_add(1);
                Err(error)
            }
        }
    }

    fn flush(&mut self) -> Result<()>
        ensures bytes { Keeps (W.contents (inner_of self.old)) (W.contents (inner_of self.new)) }
        ensures counts { CountsFlush self.old self.new result }
        ensures retried { IfErr result (λ e. error_kind e ≢ Interrupted) }
    {
        match flush_retrying(&mut self.inner) {
            Ok(()) => Ok(()),
            Err(error) => {
                self.failures = self.failures.wrapping_add(1);
                Err(error)
            }
        }
    }
}
