//! Many connections in one process, each with objects of its own.
#![tactic(auto)]

mod allowance;
mod config;
mod connecting;
mod end;
mod event_loop;
mod figures;
mod host;
mod hosted_connection;
mod laws;
mod limits;
mod pending;
mod time;

pub use config::HostConfig;
pub use end::End;
pub use figures::HostFigures;
pub use host::{Host, HostEvent, SessionHost};
pub use laws::{
    delivers_in_order, fails_once, keeps_within, reported_once, sleeps_past_none, wakes_its_own,
};
pub use limits::{HostLimits, WhenFull};
