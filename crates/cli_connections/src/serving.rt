//! What `serve` does: it serves connections one after another, many at once, or a pair of streams.

use crate::hosted::serve_hosted;
use crate::objects::{Ending, Unserved, serve_objects};
use cp_commands::{ACCEPTED, BROKEN, ServePlan};
use cp_frame::Mode;
use cp_serve::ServeFault;
use cp_stream::StreamFault;
use std::alloc::Global;
use std::io::{ErrorKind, Read, Write};
use std::net::{Ipv4Addr, Net, Shutdown, SocketAddr, TcpListener, TcpStream};
use std::time::Duration;

/// The seconds for which the peer's close, or more of what comes before it, is waited for.
const PATIENCE: u64 = 2;

/// The most pieces that are dropped before it.
const PIECES: usize = 64;

/// Serves a Desk and a Cell to each connection, or to the peer behind standard input and output. Of one that isn't served to its
/// end a line of standard error says why. The status is that of `act` for the first of these.
pub fn serve(rt: &HostRuntime, plan: &ServePlan) -> u8 {
    let mut err = rt.stderr();
    match plan {
        ServePlan::InTurn { mode, port, count } => serve_port(rt, *port, *count, *mode, &mut err),
        ServePlan::Hosted { address, service } => serve_hosted(rt, address, service, &mut err),
        ServePlan::Pipe { mode } => {
            match serve_objects(rt.alloc(), rt.stdin(), rt.stdout(), *mode) {
                Ok(_) => ACCEPTED,
                Err(fault) => Unserved(fault).tell(&mut err),
            }
        }
    }
}

/// Serves connections on a port of 127.0.0.1, as `serve_connections` does. A port that can't be bound is
/// a device that failed.
pub fn serve_port<N, E: Write>(rt: &N, port: u16, count: u32, mode: Mode, err: &mut E) -> u8
where
    N: Net<Listener = TcpListener, Stream = TcpStream> + AllocGlobal,
{
    let address = SocketAddr::from((Ipv4Addr::LOCALHOST, port));
    let listener = match TcpListener::bind(rt, address) {
        Ok(listener) => listener,
        Err(error) => {
            let _ = writeln!(err, "device: {address}: {error}");
            return BROKEN;
        }
    };
    serve_connections(rt.alloc(), &listener, count, mode, err)
}

/// Serves connections one after another, each with a Desk and a Cell of its own. Of one that isn't
/// served to its end a line says why, and names its peer; the next is taken. The status is that of
/// `act` for the first of these.
/// It blocks, and serves one at a time: `serve`'s contract says what is written for what was read, which a host's doesn't.
pub fn serve_connections<E: Write>(
    alloc: Global,
    listener: &TcpListener,
    count: u32,
    mode: Mode,
    err: &mut E,
) -> u8 {
    let mut first = ACCEPTED;
    for _ in 0..count {
        let status = serve_next(alloc, listener, mode, err);
        if first == ACCEPTED {
            first = status;
        }
    }
    first
}

/// Serves the next connection, and says how it ended.
fn serve_next<E: Write>(alloc: Global, listener: &TcpListener, mode: Mode, err: &mut E) -> u8 {
    let (stream, peer) = match listener.accept() {
        Ok(connection) => connection,
        Err(error) => {
            let _ = writeln!(err, "device: no connection: {error}");
            return BROKEN;
        }
    };
    match serve_stream(alloc, &stream, mode) {
        Ok(()) => ACCEPTED,
        Err(fault) => {
            let unserved = Unserved(fault);
            let _ = writeln!(err, "{unserved} (peer {peer})");
            unserved.status()
        }
    }
}

/// Serves a connection, and closes it.
fn serve_stream(alloc: Global, stream: &TcpStream, mode: Mode) -> Result<(), ServeFault> {
    // What was sent goes out at once, as the peer may wait for it.
    stream.set_nodelay(true)?;
    let served = serve_objects(alloc, stream, stream, mode);
    part(stream, served);
    served?;
    Ok(())
}

/// Closes a connection that was served, so that its peer can read what it was sent. A stream that is closed with unread bytes is
/// reset: so one that was at fault is told that nothing more comes, and what it still sends is dropped until it closes. One that
/// sent an Abort closes by itself, and some peers fail if they are closed on before.
fn part(stream: &TcpStream, served: Result<Ending, ServeFault>) {
    match served {
        Ok(Ending::Ended) | Err(ServeFault::Stream(StreamFault::Device(_))) => (),
        Ok(Ending::ByPeer) => wait_for_close(stream),
        Ok(Ending::ByFault) | Err(_) => {
            let _ = stream.shutdown(Shutdown::Write);
            wait_for_close(stream);
        }
    }
}

/// Drops what the peer sends until it closes, for a bounded time.
fn wait_for_close(mut stream: &TcpStream) {
    let patience = Some(Duration::from_secs(PATIENCE));
    // Without it the wait could have no end.
    if stream.set_read_timeout(patience).is_err() {
        return;
    }
    let mut piece = [0u8; 4_096];
    for _ in 0..PIECES {
        match stream.read(&mut piece) {
            Ok(0) => break,
            Ok(_) => (),
            Err(error) if error.kind() == ErrorKind::Interrupted => (),
            Err(_) => break,
        }
    }
}
