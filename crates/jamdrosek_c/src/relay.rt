//! A relay of one direction, which C feeds.

ghost use Rattle.std.specs.Prelude.{◌≡◌, ◌≢◌, None};
ghost use Rattle.c_handles.specs.Limits.{bounds_of};
ghost use Rattle.jamdrosek_c.specs.Reader.{mode_of, IsAllowedFor};
ghost use Rattle.jamdrosek_c.specs.Relay as relays;
ghost use Rattle.jamdrosek_c.specs.Relay.{Opens, FeedsThrough, EndsThrough, TellsStop};

use crate::tell::{CLOSED, DONE, NO_MEMORY, mode_of};
use c_handles::{
    Bytes, CallFault, LimitNumbers, MethodNumbers, MethodRules, NOWHERE, RelayHandle, RelayState,
    Spot,
};
use cp_frame::Mode;
use cp_relay::{Output, RelayCause, RelayFault};
use std::alloc::Global;

/// Opens a relay of a stream in the packed form or the plain one, of which nothing has come. The rules name methods: these alone may be
/// called, or all others. A relay that the handle had is let go.
#[unsafe(no_mangle)]
pub extern "C" fn jd_relay_open(
    alloc: Global,
    relay: &mut RelayHandle,
    packed: bool,
    output: u8,
    limits: &LimitNumbers,
    methods: &[MethodNumbers],
    only: bool,
) -> u32
    ensures opened { result ≡ 0 → Opens (mode_of packed) (relays.output_of output) (bounds_of limits.now) methods.now only relay.new.value }
    ensures same { result ≢ 0 → relay.new.value ≡ relay.old.value }
    ensures allowed { IsAllowedFor (bounds_of limits.now) result }
{
    let Some(limits) = limits.limits() else {
        return CallFault::Limits.code();
    };
    let Ok(methods) = Vec::from_slice(alloc, methods) else {
        return NO_MEMORY;
    };
    let rules = MethodRules { methods, only };
    let state = RelayState::new(alloc, mode_of(packed), output_of(output), limits, rules);
    match Box::new(alloc, state) {
        Ok(state) => {
            relay.put(state);
            DONE
        }
        Err(_) => NO_MEMORY,
    }
}

/// Takes the next piece of the stream, and lends what goes out of it, as `Relay::feed`. At a fault also after how many bytes it is, and
/// what is to blame; what came before it is lent.
#[unsafe(no_mangle)]
pub extern "C" fn jd_relay_feed(
    alloc: Global,
    relay: &mut RelayHandle,
    piece: &[u8],
    bytes: &mut Bytes,
    at: &mut u64,
    spot: &mut Spot,
) -> u32
    ensures { FeedsThrough relay.old.value relay.new.value piece.now bytes.new at.new spot.new result }
{
    match relay.take(alloc) {
        Some(mut state) => {
            let fed = state.feed(piece);
            *bytes = Bytes::of_buffer(&state.lent);
            relay.put(state);
            tell_stop(fed, at, spot)
        }
        None => {
            *bytes = Bytes::of(&[]);
            *at = 0;
            *spot = NOWHERE;
            CLOSED
        }
    }
}

/// Ends the stream, after a message, as `Relay::finish`. At a fault also after how many bytes it is, and what is to blame.
#[unsafe(no_mangle)]
pub extern "C" fn jd_relay_end(
    alloc: Global,
    relay: &mut RelayHandle,
    at: &mut u64,
    spot: &mut Spot,
) -> u32
    ensures { EndsThrough relay.old.value relay.new.value at.new spot.new result }
{
    match relay.take(alloc) {
        Some(mut state) => {
            let ended = state.end();
            relay.put(state);
            tell_stop(ended, at, spot)
        }
        None => {
            *at = 0;
            *spot = NOWHERE;
            CLOSED
        }
    }
}

/// Lets go of the relay, if there is one, and leaves the handle closed.
#[unsafe(no_mangle)]
pub extern "C" fn jd_relay_close(alloc: Global, relay: &mut RelayHandle)
    ensures { relay.new.value ≡ None }
{
    relay.close(alloc);
}

/// What goes out for a message.
fn output_of(output: u8) -> Output
    ensures { result ≡ relays.output_of output }
{
    match output {
        0 => Output::AsRead,
        1 => Output::Anew(Mode::Plain),
        _ => Output::Anew(Mode::Packed),
    }
}

/// Why a relay stopped.
fn fault_of(why: RelayCause) -> CallFault
    ensures { result ≡ relays.fault_of why }
{
    match why {
        RelayCause::Refused(refusal) => CallFault::Refused(refusal),
        RelayCause::Forbidden => CallFault::Forbidden,
    }
}

/// Whether a relay goes on, or why and after how many bytes it stopped.
fn tell_stop(done: Result<(), RelayFault>, at: &mut u64, spot: &mut Spot) -> u32
    ensures { TellsStop done at.new spot.new result }
{
    match done {
        Ok(()) => {
            *at = 0;
            *spot = NOWHERE;
            DONE
        }
        Err(fault) => {
            let why = fault_of(fault.why);
            *at = fault.at;
            *spot = why.spot();
            why.code()
        }
    }
}
