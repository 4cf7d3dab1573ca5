//! The calls that a program in C makes; `embed/jamdrosek.h` says how.
//!
//! A slice crosses as a pointer and then a length, an allocator as nothing. A call answers the number of a fault, or 0.
#![tactic(auto)]

mod codec;
mod connection;
mod reader;
mod relay;
mod tell;
mod text;

pub use codec::{Checked, jd_check, jd_pack, jd_unpack};
pub use connection::{
    jd_connection_answer, jd_connection_bootstrap, jd_connection_call, jd_connection_cap,
    jd_connection_close, jd_connection_content, jd_connection_end, jd_connection_fail,
    jd_connection_fault, jd_connection_finish, jd_connection_forget, jd_connection_next,
    jd_connection_open, jd_connection_outgoing, jd_connection_promise, jd_connection_reason,
    jd_connection_receive, jd_connection_release, jd_connection_resolve, jd_connection_uses,
    jd_connection_wrote,
};
pub use reader::{
    jd_reader_canonical, jd_reader_check, jd_reader_check_canonical, jd_reader_close,
    jd_reader_copy, jd_reader_end, jd_reader_message, jd_reader_needs, jd_reader_next,
    jd_reader_open, jd_reader_recut, jd_reader_write,
};
pub use relay::{jd_relay_close, jd_relay_end, jd_relay_feed, jd_relay_open};
pub use tell::Step;
pub use text::jd_text;
