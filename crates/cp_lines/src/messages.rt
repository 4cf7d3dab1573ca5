//! Messages, as `show` prints them, read.

use crate::reader::Reader;
use crate::wrong::Wrong;
use cp_rpc::{
    Bootstrap, Call, CapTable, Descriptor, Disembargo, DisembargoContext, Exception, ExceptionKind,
    Finish, Message, Op, OtherWhich, Payload, PromisedAnswer, Release, Resolution, Resolve, Return,
    Returned, SendResultsTo, Target, Text, Transform,
};
use cp_tree::UnknownEnumerant;
use std::alloc::Global;

/// The message of a line, which `show` prints for it. `Err` says where it isn't one, or that memory ran out there.
pub fn message_of(alloc: Global, line: &str) -> Result<Message, Wrong> {
    let mut reader = Reader::new(alloc, line);
    let message = reader.message();
    reader.end(message)
}

/// Parts of messages.
impl<'a> Reader<'a> {
    /// A number past those of a union's members.
    fn past<const LAST: u16>(&mut self) -> Option<UnknownEnumerant<LAST>> {
        let past = UnknownEnumerant::new(self.small());
        if past.is_none() {
            self.miss("a number past those that are known");
        }
        past
    }

    fn exception_kind(&mut self) -> ExceptionKind {
        if self.takes("failed") {
            ExceptionKind::Failed
        } else if self.takes("overloaded") {
            ExceptionKind::Overloaded
        } else if self.takes("disconnected") {
            ExceptionKind::Disconnected
        } else if self.takes("unimplemented") {
            ExceptionKind::Unimplemented
        } else {
            self.skip_last("unknown:", "an exception's type");
            match self.past() {
                Some(number) => ExceptionKind::Unknown(number),
                None => ExceptionKind::Failed,
            }
        }
    }

    pub(crate) fn exception(&mut self) -> Exception {
        let kind = self.exception_kind();
        self.skip(" ");
        let reason = self.text();
        let trace = if self.takes(" trace ") {
            self.text()
        } else {
            Text::new(String::new(self.alloc))
        };
        Exception {
            kind,
            reason,
            trace,
        }
    }

    fn op(&mut self) -> Op {
        if self.takes("noop") {
            Op::Noop
        } else if self.takes("unknown:") {
            match self.past() {
                Some(number) => Op::Unknown(number),
                None => Op::Noop,
            }
        } else {
            Op::GetPointerField(self.small())
        }
    }

    fn promised_answer(&mut self) -> PromisedAnswer {
        let question_id = self.number();
        self.skip("[");
        let mut ops = Vec::new(self.alloc);
        for place in 0..=self.most() {
            if !self.goes_on(place, "]") {
                break;
            }
            let op = self.op();
            self.push(&mut ops, op);
        }
        PromisedAnswer {
            question_id,
            transform: Transform::new(ops),
        }
    }

    fn target(&mut self) -> Target {
        if self.takes("import:") {
            Target::ImportedCap(self.number())
        } else if self.takes("answer:") {
            Target::PromisedAnswer(self.promised_answer())
        } else {
            self.skip_last("unknown:", "a target");
            match self.past() {
                Some(number) => Target::Unknown(number),
                None => Target::ImportedCap(0),
            }
        }
    }

    fn descriptor(&mut self) -> Descriptor {
        if self.takes("none") {
            Descriptor::None
        } else if self.takes("senderHosted:") {
            Descriptor::SenderHosted(self.number())
        } else if self.takes("senderPromise:") {
            Descriptor::SenderPromise(self.number())
        } else if self.takes("receiverHosted:") {
            Descriptor::ReceiverHosted(self.number())
        } else if self.takes("receiverAnswer:") {
            Descriptor::ReceiverAnswer(self.promised_answer())
        } else if self.takes("thirdPartyHosted:") {
            Descriptor::ThirdPartyHosted(self.whole())
        } else {
            self.skip_last("unknown:", "a descriptor");
            match self.past() {
                Some(number) => Descriptor::Unknown(number),
                None => Descriptor::None,
            }
        }
    }

    fn cap_table(&mut self) -> CapTable {
        self.skip(" caps[");
        let mut descriptors = Vec::new(self.alloc);
        for place in 0..=self.most() {
            if !self.goes_on(place, "]}") {
                break;
            }
            let descriptor = self.descriptor();
            self.push(&mut descriptors, descriptor);
        }
        CapTable::new(descriptors)
    }

    fn payload(&mut self) -> Payload {
        self.skip("{");
        Payload {
            content: self.whole(),
            cap_table: self.cap_table(),
        }
    }

    fn send_results_to(&mut self) -> SendResultsTo {
        if self.takes("caller") {
            SendResultsTo::Caller
        } else if self.takes("yourself") {
            SendResultsTo::Yourself
        } else if self.takes("unknown:") {
            match self.past() {
                Some(number) => SendResultsTo::Unknown(number),
                None => SendResultsTo::Caller,
            }
        } else {
            self.skip_last("thirdParty:", "where results go");
            SendResultsTo::ThirdParty(self.whole())
        }
    }

    fn returned(&mut self) -> Returned {
        if self.takes("results ") {
            Returned::Results(self.payload())
        } else if self.takes("exception ") {
            Returned::Exception(self.exception())
        } else if self.takes("canceled") {
            Returned::Canceled
        } else if self.takes("resultsSentElsewhere") {
            Returned::ResultsSentElsewhere
        } else if self.takes("acceptFromThirdParty ") {
            Returned::AcceptFromThirdParty(self.whole())
        } else if self.takes("takeFromOtherQuestion ") {
            Returned::TakeFromOtherQuestion(self.number())
        } else {
            self.skip_last("unknown ", "what a call came to");
            match self.past() {
                Some(number) => Returned::Unknown(number),
                None => Returned::Canceled,
            }
        }
    }

    fn resolution(&mut self) -> Resolution {
        if self.takes("cap ") {
            Resolution::Cap(self.descriptor())
        } else if self.takes("exception ") {
            Resolution::Exception(self.exception())
        } else {
            self.skip_last("unknown ", "what a promise came to");
            match self.past() {
                Some(number) => Resolution::Unknown(number),
                None => Resolution::Cap(Descriptor::None),
            }
        }
    }

    fn context(&mut self) -> DisembargoContext {
        if self.takes("senderLoopback ") {
            DisembargoContext::SenderLoopback(self.number())
        } else if self.takes("receiverLoopback ") {
            DisembargoContext::ReceiverLoopback(self.number())
        } else if self.takes("provide ") {
            DisembargoContext::Provide(self.number())
        } else if self.takes("unknown ") {
            match self.past() {
                Some(number) => DisembargoContext::Unknown(number),
                None => DisembargoContext::Accept,
            }
        } else {
            self.skip_last("accept", "a context");
            DisembargoContext::Accept
        }
    }
}

/// Messages.
impl<'a> Reader<'a> {
    fn call(&mut self) -> Call {
        let question_id = self.number();
        self.skip(" to=");
        let target = self.target();
        self.skip(" i=");
        let interface_id = self.large();
        self.skip(" m=");
        let method_id = self.small();
        self.skip(" results=");
        let send_results_to = self.send_results_to();
        self.skip(" params=");
        Call {
            question_id,
            method_id,
            send_results_to,
            interface_id,
            target,
            params: self.payload(),
        }
    }

    fn return_message(&mut self) -> Return {
        let answer_id = self.number();
        self.skip(" releaseParamCaps=");
        let release_param_caps = self.truth();
        self.skip(" ");
        Return {
            answer_id,
            release_param_caps,
            returned: self.returned(),
        }
    }

    fn finish(&mut self) -> Finish {
        let question_id = self.number();
        self.skip(" releaseResultCaps=");
        Finish {
            question_id,
            release_result_caps: self.truth(),
        }
    }

    fn resolve(&mut self) -> Resolve {
        let promise_id = self.number();
        self.skip(" ");
        Resolve {
            promise_id,
            resolution: self.resolution(),
        }
    }

    fn release(&mut self) -> Release {
        let id = self.number();
        self.skip(" count=");
        Release {
            id,
            reference_count: self.number(),
        }
    }

    fn disembargo(&mut self) -> Disembargo {
        let target = self.target();
        self.skip(" ");
        Disembargo {
            context: self.context(),
            target,
        }
    }

    fn other(&mut self) -> Message {
        let which = OtherWhich::new(self.small());
        self.skip(" ");
        let body = self.whole();
        match which {
            Some(which) => Message::Other { which, body },
            None => {
                self.miss("a message of another kind");
                Message::Unimplemented(body)
            }
        }
    }

    fn message(&mut self) -> Message {
        if self.takes("call q=") {
            Message::Call(self.call())
        } else if self.takes("return a=") {
            Message::Return(self.return_message())
        } else if self.takes("finish q=") {
            Message::Finish(self.finish())
        } else if self.takes("resolve p=") {
            Message::Resolve(self.resolve())
        } else if self.takes("release id=") {
            Message::Release(self.release())
        } else if self.takes("disembargo to=") {
            Message::Disembargo(self.disembargo())
        } else if self.takes("bootstrap q=") {
            let question_id = self.number();
            Message::Bootstrap(Bootstrap { question_id })
        } else if self.takes("abort ") {
            Message::Abort(self.exception())
        } else if self.takes("unimplemented ") {
            Message::Unimplemented(self.whole())
        } else if self.takes("other ") {
            self.other()
        } else {
            self.miss("a message");
            // The fault counts; a value is needed all the same.
            Message::Bootstrap(Bootstrap { question_id: 0 })
        }
    }
}
