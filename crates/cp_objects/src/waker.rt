//! Who is to be woken.

/// An object of a session, to be woken: then it is polled and asked for calls, though nothing comes to it.
#[derive(Clone, Copy)]
pub struct Waker {
    /// The number that the driver gave the session.
    pub session: u64,
    pub object: u32,
}
