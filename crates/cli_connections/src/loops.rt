//! What `loop` does: it serves the bytes of a file over a connection of which both ends are here.

use crate::objects::{Unserved, serve_objects};
use cp_commands::{BROKEN, BUFFER, Plan, STDIN, act, failed};
use cp_frame::Mode;
use cp_words::Limits;
use std::alloc::Global;
use std::fs::File;
use std::io::{self, BufWriter, ErrorKind, Read, Write};
use std::net::{Ipv4Addr, Net, Shutdown, SocketAddr, TcpListener, TcpStream};

/// The most bytes that `loop_bytes` takes, and the most that it lets be answered: this many fit the
/// buffers of a connection whose ends take turns.
pub const LONGEST_LOOP: usize = 16_384;

/// Serves the bytes of the file at a path as `loop_bytes` does. A file that can't be read is a device that failed.
pub fn loop_file(rt: &HostRuntime, mode: Mode, path: &str) -> u8 {
    let looped = match bytes_at(rt, path) {
        Ok(bytes) => {
            let status = loop_buffered(rt, &bytes, mode);
            drop(bytes);
            status
        }
        Err(error) => Err(error),
    };
    looped.unwrap_or_else(|error| failed(rt, path, error))
}

/// Serves a Desk and a Cell over a connection that is made for it: its client writes these bytes, and
/// then reads what was answered. Each message of the answer goes to `out` as a line, and a line that
/// says why it stopped to `err`. The status is that of `act`; bytes past `LONGEST_LOOP` are too long,
/// and a longer answer is a device that failed.
pub fn loop_bytes<N, W: Write, E: Write>(
    rt: &N,
    bytes: &[u8],
    mode: Mode,
    out: &mut W,
    err: &mut E,
) -> u8
where
    N: Net<Listener = TcpListener, Stream = TcpStream> + AllocGlobal,
{
    if bytes.len() > LONGEST_LOOP {
        let _ = writeln!(err, "too long");
        return BROKEN;
    }
    match Loop::begin(rt, bytes) {
        Ok(connection) => connection.end(rt.alloc(), mode, out, err),
        Err(error) => {
            let _ = writeln!(err, "device: 127.0.0.1: {error}");
            BROKEN
        }
    }
}

/// A connection of which both ends are here.
#[derive(Drop)]
struct Loop {
    client: TcpStream,
    server: TcpStream,
    /// The bytes that the client wrote.
    written: u64,
}

impl Loop {
    /// A new connection, to which the client has written these bytes.
    fn begin<N>(rt: &N, bytes: &[u8]) -> io::Result<Loop>
    where
        N: Net<Listener = TcpListener, Stream = TcpStream>,
    {
        let address = SocketAddr::from((Ipv4Addr::LOCALHOST, 0));
        let listener = TcpListener::bind(rt, address)?;
        let mut client = TcpStream::connect(rt, listener.local_addr()?)?;
        client.write_all(bytes)?;
        let (server, _) = listener.accept()?;
        Ok(Loop {
            client,
            server,
            written: bytes.len() as u64,
        })
    }

    /// Serves the bytes, and shows the answer, after a fault too.
    fn end<W: Write, E: Write>(self, alloc: Global, mode: Mode, out: &mut W, err: &mut E) -> u8 {
        let Loop {
            mut client,
            server,
            written,
        } = self;
        // The client keeps its writing end, so the bytes' number is what ends them.
        let from = (&server).take(written);
        // Nobody reads yet, so a longer answer would fill the buffers and wait for ever.
        let to = Capped::new(&server, LONGEST_LOOP);
        let served = serve_objects(alloc, from, to, mode);
        // The answer ends here. A connection that is closed with unread bytes is reset instead.
        if let Err(error) = server.shutdown(Shutdown::Write) {
            let _ = writeln!(err, "device: 127.0.0.1: {error}");
            return BROKEN;
        }
        let limits = Limits::standard();
        let show = Plan::Show { mode, limits };
        match served {
            Ok(_) => act(alloc, &show, &mut client, out, err),
            Err(fault) => {
                let _ = act(alloc, &show, &mut client, out, &mut io::sink());
                Unserved(fault).tell(err)
            }
        }
    }
}

/// A writer that takes this many bytes more, and then fails.
#[derive(Drop)]
struct Capped<W> {
    inner: W,
    left: usize,
}

impl<W: Write> Capped<W> {
    /// The writer, for this many bytes.
    fn new(inner: W, left: usize) -> Capped<W> {
        Capped { inner, left }
    }
}

impl<W: Write> Write for Capped<W> {
    fn write(&mut self, buf: &[u8]) -> io::Result<usize> {
        if self.left == 0 {
            return Err(io::Error::from(ErrorKind::StorageFull));
        }
        let most = buf.len().min(self.left);
        let written = self.inner.write(&buf[..most])?;
        self.left -= written;
        Ok(written)
    }

    fn flush(&mut self) -> io::Result<()> {
        self.inner.flush()
    }
}

/// The bytes of a file, of which no more are read than show that they are too long.
fn bytes_at(rt: &HostRuntime, path: &str) -> io::Result<Vec<u8>> {
    if path == STDIN {
        return first_bytes(rt.alloc(), rt.stdin());
    }
    first_bytes(rt.alloc(), File::open(rt, path)?)
}

/// The first bytes that a device gives, one more than may be looped.
fn first_bytes<R: Read + Drop>(alloc: Global, from: R) -> io::Result<Vec<u8>> {
    let mut bytes = Vec::new(alloc);
    let mut from = from.take(LONGEST_LOOP as u64 + 1);
    let read = from.read_to_end(&mut bytes);
    drop(from);
    match read {
        Ok(_) => Ok(bytes),
        Err(error) => {
            drop(bytes);
            Err(error)
        }
    }
}

/// Serves these bytes, and prints what was answered.
fn loop_buffered(rt: &HostRuntime, bytes: &[u8], mode: Mode) -> io::Result<u8> {
    let mut out = BufWriter::with_capacity(rt.alloc(), BUFFER, io::writer(rt))?;
    let mut err = rt.stderr();
    let status = loop_bytes(rt, bytes, mode, &mut out, &mut err);
    drop(out);
    Ok(status)
}
