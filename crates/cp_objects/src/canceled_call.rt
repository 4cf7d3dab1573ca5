//! Calls that objects give up.

/// A call that an object made and gave up: whose it is, and the number with which the object would be told what it came to.
#[derive(Clone, Copy)]
pub struct CanceledCall {
    pub number: u32,
    pub call_id: u64,
}
