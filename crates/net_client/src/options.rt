//! How a client connects.

ghost use Rattle.std.specs.Prelude.{◌≡◌, ◌^◌, None};

use std::time::Duration;

/// How a client connects, and how long it waits.
#[derive(Clone, Copy)]
pub struct ConnectOptions {
    /// How long each address of a host is tried, over TCP. `None`: as long as the system tries.
    pub connecting: Option<Duration>,
    /// The longest time in which no byte moves, either way, while a call waits: past it the call fails with `TimedOut`. `None`: no limit,
    /// as for calls that may take long.
    pub silence: Option<Duration>,
    /// The most bytes that are taken in, in a write that has to wait, before they are asked for. Where more came the write fails with
    /// `QuotaExceeded`. So a peer that sends without end, and reads nothing, doesn't fill the memory.
    pub ahead: usize,
}

impl ConnectOptions {
    /// 30 seconds for each address, no limit of silence, and 1 GiB that is taken in.
    pub fn standard() -> ConnectOptions
        ensures ahead { result.ahead ≡ 2 ^ 30 }
        ensures silence { result.silence ≡ None }
    {
        ConnectOptions {
            connecting: Some(Duration::from_secs(30)),
            silence: None,
            ahead: 1_073_741_824,
        }
    }
}
