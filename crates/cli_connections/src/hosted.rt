//! Serving connections of an address or of a path, many at once.

use crate::counted::{Calls, CountedSample, counted_objects, new_calls};
use crate::figures::ServiceFigures;
use cp_commands::{ACCEPTED, BROKEN, FIGURES_EVERY, ListenAddress, REFUSED, Service};
use cp_objects::ServantObject;
use cp_session::SessionLimits;
use cp_words::Limits;
use net_host::{End, Host, HostConfig, HostEvent, HostLimits, WhenFull};
use net_sockets::{Listener, Peer};
use std::alloc::{AllocGlobal, Global};
use std::fs::Files;
use std::io::{self, Write};
use std::net::Net;
use std::time::Clock;

/// A host of sample objects.
type SampleHost = Host<ServantObject<CountedSample>>;

/// Serves connections, each with a Desk and a Cell of its own, as many at once as the service says. When it listens, a line of
/// `err` says where: `listening on ADDRESS:PORT`, or `listening on PATH`.
///
/// Of each connection that isn't served to its end, or that meets a limit, a line of `err` says why, and names its peer. The
/// status is that of the first of these: 1 where something was refused, 2 where a stream failed. An Abort, of either side, ends a
/// connection with status 0. A place that can't be listened on is a device that failed.
pub(crate) fn serve_hosted<N, E: Write>(
    rt: &N,
    place: &ListenAddress,
    service: &Service<'_>,
    err: &mut E,
) -> u8
where
    N: Net + Files + Clock + AllocGlobal,
{
    match serve_all(rt, place, service, err) {
        Ok(status) => status,
        Err(error) => {
            let _ = writeln!(err, "device: {place}: {error}");
            BROKEN
        }
    }
}

/// The plan of a service's host.
fn host_plan(service: &Service<'_>) -> HostConfig {
    let standard = SessionLimits::standard();
    let idle = match service.idle {
        Some(seconds) => seconds as u64 * 1_000,
        None => standard.idle,
    };
    HostConfig {
        mode: service.mode,
        messages: Limits::standard(),
        limits: HostLimits {
            connections: service.at_once as usize,
            // Further connections wait, as they do at `serve`.
            when_full: WhenFull::Wait,
            session: SessionLimits { idle, ..standard },
            ..HostLimits::standard()
        },
        count: service.count.map(|count| count as u64),
    }
}

/// Serves all connections, and gives the status.
fn serve_all<N, E: Write>(
    rt: &N,
    place: &ListenAddress,
    service: &Service<'_>,
    err: &mut E,
) -> io::Result<u8>
where
    N: Net + Files + Clock + AllocGlobal,
{
    let listener = listener_at(rt, place, err)?;
    let listener = if service.behind_proxy {
        listener.behind_proxy()
    } else {
        listener
    };
    let host = Host::new(rt, host_plan(service), listener)?;
    serve_host(rt, host, service, err)
}

/// Serves the connections of a host, and gives the status.
fn serve_host<N, E: Write>(
    rt: &N,
    mut host: SampleHost,
    service: &Service<'_>,
    err: &mut E,
) -> io::Result<u8>
where
    N: Net + Files + Clock + AllocGlobal,
{
    let served = match new_calls(rt.alloc()) {
        Ok(calls) => {
            let mut figures = ServiceFigures::new(service);
            let served = run(rt, &mut host, &mut figures, &calls, err);
            drop(calls);
            served
        }
        Err(error) => Err(io::Error::from(error)),
    };
    drop(host);
    served
}

/// Serves the connections of a host until the last has ended, and gives the status.
fn run<N, E: Write>(
    rt: &N,
    host: &mut SampleHost,
    figures: &mut ServiceFigures<'_>,
    calls: &Calls,
    err: &mut E,
) -> io::Result<u8>
where
    N: Net + Files + Clock + AllocGlobal,
{
    if figures.is_told() {
        // The first numbers are there at once.
        host.wake_after(rt, 0)?;
    }
    let mut first = ACCEPTED;
    for _ in 0..u64::MAX {
        let Some(news) = host.next(rt)? else {
            break;
        };
        figures.note(&news);
        let is_woken = matches!(&news, HostEvent::Woken);
        let status = hear(rt.alloc(), host, &news, calls, err);
        drop(news);
        if first == ACCEPTED {
            first = status;
        }
        if is_woken {
            figures.tell(rt, host.figures(), calls, err);
            host.wake_after(rt, FIGURES_EVERY)?;
        }
    }
    figures.tell(rt, host.figures(), calls, err);
    figures.tell_line(host.figures(), calls, err);
    Ok(first)
}

/// Does what news of a connection asks, and gives the status that it leads to. One that can't be served has ended by that; the
/// others go on.
fn hear<E: Write>(
    alloc: Global,
    host: &mut SampleHost,
    news: &HostEvent,
    calls: &Calls,
    err: &mut E,
) -> u8 {
    match news {
        HostEvent::Connected { peer, .. } => match admit(alloc, host, calls) {
            Ok(()) => ACCEPTED,
            Err(error) => report(&End::Failed(error), *peer, err),
        },
        HostEvent::Refused { .. } | HostEvent::Woken => ACCEPTED,
        HostEvent::Ended { peer, end, .. } => report(end, *peer, err),
    }
}

/// Serves the connection that came last with a Desk and a Cell.
fn admit(alloc: Global, host: &mut SampleHost, calls: &Calls) -> io::Result<()> {
    host.admit(counted_objects(alloc, calls)?)
}

/// Listens, and says where.
fn listener_at<N: Net + Files, E: Write>(
    rt: &N,
    place: &ListenAddress,
    err: &mut E,
) -> io::Result<Listener> {
    let listener = match place {
        ListenAddress::Address(address) => Listener::bind(rt, *address)?,
        ListenAddress::Path(path) => Listener::bind_path(rt, path)?,
    };
    match tell_place(&listener, place, err) {
        Ok(()) => Ok(listener),
        Err(error) => {
            drop(listener);
            Err(error)
        }
    }
}

/// Says where it is listened.
fn tell_place<E: Write>(listener: &Listener, place: &ListenAddress, err: &mut E) -> io::Result<()> {
    match listener.address()? {
        Some(address) => writeln!(err, "listening on {address}"),
        None => writeln!(err, "listening on {place}"),
    }
}

/// Says how a connection ended, where it wasn't served to its end, and gives its status.
fn report<E: Write>(end: &End, peer: Peer, err: &mut E) -> u8 {
    let status = status_of(end);
    if status != ACCEPTED {
        let _ = writeln!(err, "{end} (peer {peer})");
    }
    status
}

/// The status that an end leads to.
fn status_of(end: &End) -> u8 {
    match end {
        End::Ended | End::Closed(_) => ACCEPTED,
        End::Fault(_) | End::Limit(_) => REFUSED,
        End::Failed(_) => BROKEN,
    }
}
