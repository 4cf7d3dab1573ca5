//! An object whose answers are given beforehand.

ghost use Rattle.std.specs.Prelude.{◌≡◌};

use crate::servant::{Reply, Servant, Settled};
use cp_refs::Request;
use std::alloc::AllocError;
use std::collections::VecDeque;

/// Answers calls and polls from two lists, in order, and then by `Later` and `None`.
#[derive(Drop)]
pub struct Script {
    replies: VecDeque<Reply>,
    settled: VecDeque<Option<Settled>>,
}

impl Script {
    /// A Script that answers calls and polls by these, in order.
    pub fn new(replies: Vec<Reply>, settled: Vec<Option<Settled>>) -> Script
        ensures calls { result.replies.items ≡ replies.items }
        ensures polls { result.settled.items ≡ settled.items }
    {
        Script {
            replies: VecDeque::from_vec(replies),
            settled: VecDeque::from_vec(settled),
        }
    }
}

impl Servant for Script {
    ghost use Rattle.cp_servants.specs.Servant.{seen_as};
    ghost use Rattle.cp_servants.specs.Samples.{script, samples};

    ghost kind = { seen_as (λ s. script s.replies.items s.settled.items) samples };

    fn call(&mut self, _ticket: u64, _request: Request) -> Result<Reply, AllocError> {
        Ok(self.replies.pop_front().unwrap_or(Reply::Later))
    }

    fn poll(&mut self) -> Result<Option<Settled>, AllocError> {
        match self.settled.pop_front() {
            Some(settled) => Ok(settled),
            None => Ok(None),
        }
    }

    fn has_more(&self) -> bool {
        !self.settled.is_empty()
    }
}
