//! Whose a question is.

/// The object that made a call, by its number, and the number with which it is told what the call came to.
#[derive(Clone, Copy)]
pub struct QuestionOwner {
    pub number: u32,
    pub call_id: u64,
}
