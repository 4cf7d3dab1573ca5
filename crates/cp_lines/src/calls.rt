//! Calls and what they came to, as an application names them, read.

use crate::reader::Reader;
use crate::wrong::Wrong;
use cp_refs::{Cap, Caps, Outcome, Path};
use cp_tree::Whole;
use std::alloc::Global;

/// A call as words name it.
#[derive(Drop)]
pub struct WrittenCall {
    /// What is called. None says that no target is named.
    pub target: Option<Cap>,
    pub interface: u64,
    pub method: u16,
    /// Its params. `None` says that they are elsewhere, or that there are none.
    pub params: Option<(Whole, Caps)>,
}

/// The call of a line: `TARGET i=H m=N {T caps[..]}`, of which the target and the params may lack. `Err` says where it isn't
/// one.
pub fn call_of(alloc: Global, line: &str) -> Result<WrittenCall, Wrong> {
    let mut reader = Reader::new(alloc, line);
    let call = reader.written_call();
    reader.end(call)
}

/// The capability of a line. `Err` says where it isn't one.
pub fn cap_of(alloc: Global, line: &str) -> Result<Cap, Wrong> {
    let mut reader = Reader::new(alloc, line);
    let cap = reader.cap();
    reader.end(cap)
}

/// The content and the capabilities of a line, `{T caps[..]}`. `Err` says where it isn't one.
pub fn payload_of(alloc: Global, line: &str) -> Result<(Whole, Caps), Wrong> {
    let mut reader = Reader::new(alloc, line);
    reader.skip("{");
    let payload = reader.content();
    reader.end(payload)
}

/// What a call came to: `{T caps[..]}`, `exception E` or `canceled`. `Err` says where a line isn't that.
pub fn outcome_of(alloc: Global, line: &str) -> Result<Outcome, Wrong> {
    let mut reader = Reader::new(alloc, line);
    let outcome = reader.outcome();
    reader.end(outcome)
}

impl<'a> Reader<'a> {
    fn written_call(&mut self) -> WrittenCall {
        let target = if self.is_next("i=") {
            None
        } else {
            let cap = self.cap();
            self.skip(" ");
            Some(cap)
        };
        self.skip("i=");
        let interface = self.large();
        self.skip(" m=");
        let method = self.small();
        let params = if self.takes(" ") {
            self.skip("{");
            Some(self.content())
        } else {
            None
        };
        WrittenCall {
            target,
            interface,
            method,
            params,
        }
    }

    fn outcome(&mut self) -> Outcome {
        if self.takes("exception ") {
            return Outcome::Failed(self.exception());
        }
        if self.takes("canceled") {
            return Outcome::Canceled;
        }
        self.skip_last("{", "an outcome");
        let (content, caps) = self.content();
        Outcome::Results { content, caps }
    }

    /// A content and its capabilities, after the bracket.
    fn content(&mut self) -> (Whole, Caps) {
        let content = self.whole();
        self.skip(" caps[");
        let mut caps = Vec::new(self.alloc);
        for place in 0..=self.most() {
            if !self.goes_on(place, "]}") {
                break;
            }
            let cap = self.cap();
            self.push(&mut caps, cap);
        }
        (content, Caps::new(caps))
    }

    fn cap(&mut self) -> Cap {
        if self.takes("none") {
            Cap::None
        } else if self.takes("object:") {
            Cap::Object(self.number())
        } else if self.takes("promise:") {
            Cap::Promise(self.number())
        } else if self.takes("import:") {
            Cap::Import(self.number())
        } else if self.takes("question:") {
            let question = self.number();
            Cap::Pipelined(question, self.path())
        } else {
            self.skip_last("broken:", "a capability");
            Cap::Broken(self.exception())
        }
    }

    fn path(&mut self) -> Path {
        self.skip("[");
        let mut fields = Vec::new(self.alloc);
        for place in 0..=self.most() {
            if !self.goes_on(place, "]") {
                break;
            }
            let field = self.small();
            self.push(&mut fields, field);
        }
        Path::new(fields)
    }
}
