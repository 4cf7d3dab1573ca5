//! How far tail calls are.

/// How far a call of the peer's is whose results go to the peer itself.
#[derive(Clone, Copy)]
pub enum Progress {
    /// No question takes its results.
    Untaken,
    /// This question takes its results, once they are there.
    Taken(Taker),
    /// A question took its results.
    Given,
    /// It was finished before it had results and a question took them.
    GivenUp,
}

/// A question of this end that takes the results of a call.
#[derive(Clone, Copy)]
pub struct Taker {
    pub question: u32,
    /// What its Return says of the capabilities in its params.
    pub release_param_caps: bool,
    /// Whether the call whose results it takes is finished.
    pub is_finished: bool,
}
