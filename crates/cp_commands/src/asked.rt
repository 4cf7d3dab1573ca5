//! The questions of one direction of a connection, by which the Returns of the other direction are shown.

use cp_frame::{FrameReader, Mode};
use cp_rpc::MessageIn;
use cp_schema::MethodNumber;
use cp_stream::{Refusal, view_in};
use cp_words::{Limits, Segments};
use std::alloc::{AllocError, Global};
use std::collections::BTreeMap;

/// The methods that a stream calls, by their questions.
#[derive(Drop)]
pub struct Asked {
    methods: BTreeMap<Occurrence, MethodNumber>,
}

/// A question, by its number and how often that came before.
#[derive(Clone, Copy, PartialEq, Eq, PartialOrd, Ord)]
struct Occurrence {
    number: u32,
    earlier: u32,
}

/// How often each question's number has come. A number is used again only after its Return, so that each Return of a number
/// answers the question that has come as often.
#[derive(Drop)]
pub(crate) struct Occurrences {
    counts: BTreeMap<u32, u32>,
}

impl Asked {
    /// The questions of a stream, up to its end.
    pub fn read(alloc: Global, bytes: &[u8], mode: Mode, limits: Limits) -> Result<Asked, Refusal> {
        let mut asked = Asked {
            methods: BTreeMap::new(alloc),
        };
        let mut questions = Occurrences::new(alloc);
        let mut reader = FrameReader::new(alloc, mode, limits);
        for (_, segments) in &reader.feed(bytes)? {
            asked.add(&mut questions, segments, limits)?;
        }
        reader.finish()?;
        Ok(asked)
    }

    /// Adds the question that a message asks, if it asks one.
    fn add(
        &mut self,
        questions: &mut Occurrences,
        segments: &Segments,
        limits: Limits,
    ) -> Result<(), Refusal> {
        match view_in(segments, limits)? {
            MessageIn::Bootstrap(bootstrap) => {
                let _ = questions.next(bootstrap.question_id)?;
            }
            MessageIn::Call(call) => {
                let question = questions.next(call.question_id)?;
                let (interface, method) = (call.interface_id, call.method_id);
                let _ = self
                    .methods
                    .insert(question, MethodNumber { interface, method })?;
            }
            _ => {}
        }
        Ok(())
    }

    /// The method that the next Return of this number answers, if it answers a call.
    pub(crate) fn answered(
        &self,
        returns: &mut Occurrences,
        number: u32,
    ) -> Result<Option<MethodNumber>, AllocError> {
        let question = returns.next(number)?;
        Ok(self.methods.get(&question).copied())
    }
}

impl Occurrences {
    pub(crate) fn new(alloc: Global) -> Occurrences {
        Occurrences {
            counts: BTreeMap::new(alloc),
        }
    }

    /// Counts a number once more.
    fn next(&mut self, number: u32) -> Result<Occurrence, AllocError> {
        let earlier = self.counts.get(&number).copied().unwrap_or(0);
        let _ = self.counts.insert(number, earlier.wrapping_add(1))?;
        Ok(Occurrence { number, earlier })
    }
}
