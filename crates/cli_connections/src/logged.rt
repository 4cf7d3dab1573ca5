//! A connection whose messages are noted.

use crate::log::{Log, MessageDirection};
use std::cell::RefCell;
use std::io::{self, ErrorKind, Read, Write};

/// A reader or a writer whose bytes are noted.
#[derive(Drop)]
pub(crate) struct Logged<'a, T> {
    device: T,
    log: &'a RefCell<Log>,
}

impl<'a, T> Logged<'a, T> {
    /// This reader or writer.
    pub(crate) fn new(device: T, log: &'a RefCell<Log>) -> Logged<'a, T> {
        Logged { device, log }
    }
}

impl<'a, R: Read> Read for Logged<'a, R> {
    fn read(&mut self, buf: &mut [u8]) -> io::Result<usize> {
        let count = self.device.read(buf)?;
        note(self.log, MessageDirection::Received, &buf[..count])?;
        Ok(count)
    }
}

impl<'a, W: Write> Write for Logged<'a, W> {
    fn write(&mut self, buf: &[u8]) -> io::Result<usize> {
        let count = self.device.write(buf)?;
        note(self.log, MessageDirection::Sent, &buf[..count])?;
        Ok(count)
    }

    fn flush(&mut self) -> io::Result<()> {
        self.device.flush()
    }
}

/// Notes bytes that went this way.
fn note(log: &RefCell<Log>, direction: MessageDirection, bytes: &[u8]) -> io::Result<()> {
    match log.try_borrow_mut() {
        Ok(mut log) => {
            let noted = log.note(direction, bytes);
            drop(log);
            noted
        }
        // The client reads and writes in turn, so this can't be.
        Err(_) => Err(io::Error::from(ErrorKind::Other)),
    }
}
