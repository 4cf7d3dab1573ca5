//! What is to be done of promises.

use cp_refs::Cap;

/// What is to be done of a promise of an object's, by the number that `Objects` gave it.
#[derive(Drop)]
pub enum PromiseRequest {
    /// The vat is to make a promise for this number.
    Make(u32),
    /// The promise of this number is to come to this.
    Resolve { number: u32, value: Cap },
}
