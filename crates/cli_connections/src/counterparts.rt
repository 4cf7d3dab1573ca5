//! What stands here for the questions and the capabilities of a recording.

use cp_client::Question;
use cp_reading::View;
use cp_recordings::{Moment, Side, Traffic};
use cp_refs::{Cap, Caps, Outcome, Path, Request};
use cp_rpc::{
    CallView, CapTableView, DescriptorView, MessageView, Op, PromisedAnswerView, ResolutionView,
    ResolveView, ReturnView, ReturnedView, Source, TargetView,
};
use cp_schema::MethodNumber;
use cp_tables::Entries;
use std::alloc::{AllocError, Global};

/// A question of the recording: the one here, if it could be asked, and its method, if it is a call's.
#[derive(Clone, Copy)]
pub(crate) struct MadeQuestion {
    pub(crate) question: Option<Question>,
    pub(crate) method: Option<MethodNumber>,
}

/// The results in which a capability came first: their question in the recording, and its place in their table.
#[derive(Clone, Copy)]
struct FirstSeen {
    question: u32,
    place: u16,
}

/// An import here.
#[derive(Clone, Copy)]
struct Import {
    first: FirstSeen,
    /// How many outcomes named it.
    outcomes: u32,
    /// For how many imports of the recording it stands.
    stands: u32,
}

/// What stands here for the questions and the imports of a recording's client.
#[derive(Drop)]
pub(crate) struct Counterparts {
    alloc: Global,
    /// What is open in the recording.
    traffic: Traffic,
    /// By the numbers of the recording: its questions up to their Finish, and the imports here that stand for its imports.
    made: Entries<MadeQuestion>,
    stand_ins: Entries<u32>,
    /// How the imports of the recording came first.
    first_seen: Entries<FirstSeen>,
    /// The imports here that outcomes named.
    imports: Entries<Import>,
}

impl Counterparts {
    /// Those of a recording of which nothing was read.
    pub(crate) fn new(alloc: Global) -> Counterparts {
        Counterparts {
            alloc,
            traffic: Traffic::new(alloc),
            made: Entries::new(alloc),
            stand_ins: Entries::new(alloc),
            first_seen: Entries::new(alloc),
            imports: Entries::new(alloc),
        }
    }

    /// Takes the next message of the recording.
    pub(crate) fn take(&mut self, moment: Moment, message: &MessageView) -> Result<(), AllocError> {
        let _ = self.traffic.take(moment, message)?;
        Ok(())
    }

    /// Notes a question that was asked.
    pub(crate) fn ask(&mut self, number: u32, made: MadeQuestion) -> Result<(), AllocError> {
        self.made.put(number, made)
    }

    /// The question of a number, if it isn't finished.
    pub(crate) fn question(&self, number: u32) -> Option<MadeQuestion> {
        self.made.get(number).copied()
    }

    /// Forgets a question that is finished, and gives the one here.
    pub(crate) fn finish(&mut self, number: u32) -> Option<Question> {
        self.made.remove(number)?.question
    }

    /// What a call asks for, with capabilities of this connection.
    pub(crate) fn request(&self, call: &CallView<View<'_>>) -> Result<Request, AllocError> {
        let caps = self.caps(&call.params.cap_table)?;
        match call.params.content.whole(self.alloc) {
            Ok(content) => Ok(Request {
                interface: call.interface_id,
                method: call.method_id,
                content,
                caps,
            }),
            Err(error) => {
                drop(caps);
                Err(error)
            }
        }
    }

    /// The capabilities of params. The recorded client's own objects aren't here, so null goes in their place.
    fn caps(&self, table: &CapTableView<View<'_>>) -> Result<Caps, AllocError> {
        let mut caps = Vec::new(self.alloc);
        for i in 0..table.len() {
            let cap = match table.descriptor(i) {
                DescriptorView::ReceiverHosted(id) => self.import(id),
                DescriptorView::ReceiverAnswer(answer) => self.pipelined(&answer)?,
                _ => None,
            };
            caps.push(cap.unwrap_or(Cap::None))?;
        }
        Ok(Caps::new(caps))
    }

    /// What a call goes to, if that is here.
    pub(crate) fn target(&self, target: &TargetView<View<'_>>) -> Result<Option<Cap>, AllocError> {
        match target {
            TargetView::ImportedCap(id) => Ok(self.import(*id)),
            TargetView::PromisedAnswer(answer) => self.pipelined(answer),
            TargetView::Unknown(_) => Ok(None),
        }
    }

    /// What stands for an import of the recording, if it came.
    fn import(&self, id: u32) -> Option<Cap> {
        match self.stand_ins.get(id) {
            Some(import) => Some(Cap::Import(*import)),
            None => None,
        }
    }

    /// The question here of one that isn't finished, if it could be asked.
    fn asked(&self, number: u32) -> Option<Question> {
        self.made.get(number)?.question
    }

    /// What a question will give at a path, if it could be asked.
    fn pipelined(&self, answer: &PromisedAnswerView<View<'_>>) -> Result<Option<Cap>, AllocError> {
        let Some(question) = self.asked(answer.question_id) else {
            return Ok(None);
        };
        let mut path = Vec::new(self.alloc);
        for i in 0..answer.transform.len() {
            if let Op::GetPointerField(field) = answer.transform.op(i) {
                path.push(field)?;
            }
        }
        Ok(Some(Cap::Pipelined(question.number, Path::new(path))))
    }

    /// The outcome that the recording has, each capability by where it came first. `None`: it isn't one, as that of a tail call.
    pub(crate) fn recorded(
        &mut self,
        returned: &ReturnView<View<'_>>,
    ) -> Result<Option<Outcome>, AllocError> {
        Ok(match &returned.returned {
            ReturnedView::Results(payload) => {
                let caps = self.recorded_caps(returned.answer_id, &payload.cap_table)?;
                match payload.content.whole(self.alloc) {
                    Ok(content) => Some(Outcome::Results { content, caps }),
                    Err(error) => {
                        drop(caps);
                        return Err(error);
                    }
                }
            }
            ReturnedView::Exception(exception) => {
                Some(Outcome::Failed(exception.exception(self.alloc)?))
            }
            ReturnedView::Canceled => Some(Outcome::Canceled),
            _ => None,
        })
    }

    /// The capabilities of recorded results, each by where it came first.
    fn recorded_caps(
        &mut self,
        question: u32,
        table: &CapTableView<View<'_>>,
    ) -> Result<Caps, AllocError> {
        let mut caps = Vec::new(self.alloc);
        for i in 0..table.len() {
            let cap = match hosted_id(&table.descriptor(i)) {
                Some(id) => self.recorded_cap(id, FirstSeen::at(question, i))?,
                None => Cap::None,
            };
            caps.push(cap)?;
        }
        Ok(Caps::new(caps))
    }

    /// An import of the recording by where it came first, which is here if it is new.
    fn recorded_cap(&mut self, id: u32, here: FirstSeen) -> Result<Cap, AllocError> {
        let first = self.first_seen.get(id).copied().unwrap_or(here);
        self.first_seen.put(id, first)?;
        first.cap(self.alloc)
    }

    /// An outcome that came, each capability of the peer by where it came first. It stands for the one in its place of the recorded Return.
    pub(crate) fn came(
        &mut self,
        returned: &ReturnView<View<'_>>,
        outcome: Outcome,
    ) -> Result<Outcome, AllocError> {
        let Outcome::Results { content, caps } = outcome else {
            return Ok(outcome);
        };
        let named = self.came_caps(returned, &caps);
        drop(caps);
        match named {
            Ok(caps) => Ok(Outcome::Results { content, caps }),
            Err(error) => {
                drop(content);
                Err(error)
            }
        }
    }

    /// The capabilities of results that came, each by where it came first.
    fn came_caps(
        &mut self,
        returned: &ReturnView<View<'_>>,
        came: &Caps,
    ) -> Result<Caps, AllocError> {
        let mut caps = Vec::new(self.alloc);
        for (i, cap) in came.caps().iter().enumerate() {
            let cap = match cap {
                Cap::Import(import) => self.came_cap(returned, i, *import)?,
                _ => Cap::None,
            };
            caps.push(cap)?;
        }
        Ok(Caps::new(caps))
    }

    /// An import here that one more outcome names, at a place of its table, by where it came first.
    fn came_cap(
        &mut self,
        returned: &ReturnView<View<'_>>,
        place: usize,
        id: u32,
    ) -> Result<Cap, AllocError> {
        let first = self.name(id, FirstSeen::at(returned.answer_id, place))?;
        self.stand(returned_id(returned, place), id)?;
        first.cap(self.alloc)
    }

    /// Notes that one more outcome names an import here. Says where it came first: here, if it is new.
    fn name(&mut self, id: u32, here: FirstSeen) -> Result<FirstSeen, AllocError> {
        let import = self.imports.get(id).copied().unwrap_or(Import::new(here));
        let outcomes = import.outcomes.saturating_add(1);
        self.imports.put(id, Import { outcomes, ..import })?;
        Ok(import.first)
    }

    /// Has an import here stand for one of the recording.
    fn stand(&mut self, recorded: Option<u32>, number: u32) -> Result<(), AllocError> {
        let Some(id) = recorded else {
            return Ok(());
        };
        let _ = self.leave(id);
        if let Some(import) = self.imports.get_mut(number) {
            import.stands = import.stands.saturating_add(1);
        }
        self.stand_ins.put(id, number)
    }

    /// Has nothing stand for an import of the recording any more. Gives the import here that stood for it, if it stands for no other.
    fn leave(&mut self, id: u32) -> Option<u32> {
        let number = self.stand_ins.remove(id)?;
        let import = self.imports.get_mut(number)?;
        import.stands = import.stands.saturating_sub(1);
        if import.stands == 0 {
            Some(number)
        } else {
            None
        }
    }

    /// Forgets an import of the recording that its client holds no more. Gives the import here that stood for it alone, and how many
    /// outcomes named that.
    pub(crate) fn give_up(&mut self, id: u32) -> Option<(u32, u32)> {
        if self.traffic.end(Side::Client).holdings.contains(id) {
            return None;
        }
        let _ = self.first_seen.remove(id);
        let number = self.leave(id)?;
        let import = self.imports.remove(number)?;
        Some((number, import.outcomes))
    }

    /// The imports of the recording for which something stands, though its client holds them no more.
    pub(crate) fn unheld(&self) -> Result<Vec<u32>, AllocError> {
        let holdings = &self.traffic.end(Side::Client).holdings;
        let mut unheld = Vec::new(self.alloc);
        for (id, _) in self.stand_ins.iter() {
            if !holdings.contains(*id) {
                unheld.push(*id)?;
            }
        }
        Ok(unheld)
    }

    /// Notes what a promise of the recording came to: calls of that go to the promise here.
    pub(crate) fn resolve(&mut self, resolve: &ResolveView<View<'_>>) -> Result<(), AllocError> {
        let ResolutionView::Cap(descriptor) = &resolve.resolution else {
            return Ok(());
        };
        match self.stand_ins.get(resolve.promise_id).copied() {
            Some(import) => self.stand(hosted_id(descriptor), import),
            None => Ok(()),
        }
    }
}

impl FirstSeen {
    /// At a place of the table of a question's results.
    fn at(question: u32, place: usize) -> FirstSeen {
        let place = place.min(u16::MAX as usize) as u16;
        FirstSeen { question, place }
    }

    /// A capability of which the name says it: `question:N[PLACE]`.
    fn cap(self, alloc: Global) -> Result<Cap, AllocError> {
        let question = Question {
            number: self.question,
        };
        question.at(alloc, &[self.place])
    }
}

impl Import {
    /// One that no outcome named so far.
    fn new(first: FirstSeen) -> Import {
        Import {
            first,
            outcomes: 0,
            stands: 0,
        }
    }
}

/// The number of the export that a recorded Return has at a place of its table.
fn returned_id(returned: &ReturnView<View<'_>>, place: usize) -> Option<u32> {
    let ReturnedView::Results(payload) = &returned.returned else {
        return None;
    };
    let table = &payload.cap_table;
    if place < table.len() {
        hosted_id(&table.descriptor(place))
    } else {
        None
    }
}

/// The number of the sender's export that a descriptor gives, if it gives one.
fn hosted_id(descriptor: &DescriptorView<View<'_>>) -> Option<u32> {
    match descriptor {
        DescriptorView::SenderHosted(id) | DescriptorView::SenderPromise(id) => Some(*id),
        _ => None,
    }
}
