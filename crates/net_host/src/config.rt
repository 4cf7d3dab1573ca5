//! How connections are served.

ghost use Rattle.std.specs.Prelude.{◌≡◌};
ghost use Rattle.net_host.specs.Connecting.{own_options_of};
ghost use Rattle.net_host.specs.Floor.{options_of};
ghost use Rattle.net_host.specs.Limits.{standard_plan};

use crate::limits::HostLimits;
use cp_frame::Mode;
use cp_session::SessionOptions;
use cp_words::Limits;

/// How a host serves its connections.
#[derive(Clone, Copy)]
pub struct HostConfig {
    /// The form of the frames, both ways.
    pub mode: Mode,
    /// The limits within which messages are read.
    pub messages: Limits,
    pub limits: HostLimits,
    /// How many connections come, in all. `None`: no end.
    pub count: Option<u64>,
}

impl HostConfig {
    /// Plain frames, the standard limits of messages and of a host, and no end of connections.
    pub fn standard() -> HostConfig
        ensures { result ≡ standard_plan }
    {
        HostConfig {
            mode: Mode::Plain,
            messages: Limits::standard(),
            limits: HostLimits::standard(),
            count: None,
        }
    }

    /// How the session of a connection goes that is made from here. It is not closed for silence.
    pub(crate) fn own_session(&self) -> SessionOptions
        ensures { result ≡ own_options_of self.now }
    {
        let mut options = self.session();
        options.limits.idle = u64::MAX;
        options
    }

    /// How the session of a connection goes. Nobody but its objects holds its imports.
    pub(crate) fn session(&self) -> SessionOptions
        ensures { result ≡ options_of self.now }
    {
        SessionOptions {
            mode: self.mode,
            messages: self.messages,
            bootstrap: Some(0),
            may_call: true,
            releases_idle: true,
            limits: self.limits.session,
        }
    }
}
