//! The questions of a connection, and the capabilities that its ends hold.

ghost use Rattle.std.specs.Prelude.{◌≡◌, [], IfOk, OnOk, min};
ghost use Rattle.std.specs.FinMap as map;
ghost use Rattle.cp_rpc.specs.Viewed.{viewed, viewed_call, viewed_return, viewed_resolve, viewed_descriptor};
ghost use Rattle.cp_recordings.specs.Traffic.{asking, answering, finishing, closing, holding, holding_all, giving_up, giving_up_all, hosted, hosted_id, new_question, called, returned_to, resolved, taken_by, taken, end_of};

use crate::ids::Ids;
use crate::session::Moment;
use crate::side::Side;
use cp_reading::View;
use cp_rpc::{
    CallView, CapTableView, DescriptorView, MessageIn, MessageView, ResolutionView, ResolveView,
    ReturnView, ReturnedView,
};
use cp_schema::MethodNumber;
use cp_tables::Entries;
use std::alloc::{AllocError, Global};

/// A question that isn't both answered and finished.
#[derive(Clone, Copy)]
pub struct Question {
    /// The method that is called; none of a Bootstrap.
    pub method: Option<MethodNumber>,
    /// When it was asked, in microseconds since the connection came.
    pub time: u64,
    /// Whether its Return came.
    pub is_answered: bool,
    /// Whether its Finish came, and if it did whether that gives up what the results name.
    pub finish: Option<bool>,
}

/// How a capability that is held came first.
#[derive(Clone, Copy)]
pub enum CapSource {
    /// In the results of the holder's question of this number.
    Results(u32, Option<MethodNumber>),
    /// In the params of the other end's question of this number.
    Params(u32, Option<MethodNumber>),
    /// As what the other end's promise of this number came to.
    Promise(u32),
}

impl CapSource {
    /// The method of the question in whose params or results it came.
    pub fn method(self) -> Option<MethodNumber> {
        match self {
            CapSource::Results(_, method) => method,
            CapSource::Params(_, method) => method,
            CapSource::Promise(_) => None,
        }
    }
}

/// A capability that an end holds: how often it was given and not given up, and how it came first.
#[derive(Clone, Copy)]
pub struct Holding {
    pub count: u64,
    pub source: CapSource,
}

/// What is open of an end.
#[derive(Drop)]
pub struct EndState {
    /// Its questions that aren't both answered and finished, by their numbers.
    pub questions: Entries<Question>,
    /// What the params of these lend, and what their results gave.
    pub(crate) lent: Entries<Ids>,
    pub(crate) given: Entries<Ids>,
    /// What it holds, by the numbers of the other end's exports.
    pub holdings: Entries<Holding>,
}

/// What is open of a connection.
#[derive(Drop)]
pub struct Traffic {
    alloc: Global,
    pub(crate) client: EndState,
    pub(crate) server: EndState,
}

impl Traffic {
    /// That of a connection on which nothing was sent.
    pub fn new(alloc: Global) -> Traffic {
        Traffic {
            alloc,
            client: EndState::new(alloc),
            server: EndState::new(alloc),
        }
    }

    /// What is open of an end.
    pub fn end(&self, side: Side) -> &EndState
        ensures { result.now ≡ end_of self.now side }
    {
        match side {
            Side::Client => &self.client,
            Side::Server => &self.server,
        }
    }

    /// Takes the next message. Gives the question that it answers, if it is the Return of one.
    ///
    /// # Errors
    ///
    /// Memory ran out, and what is open isn't known any more.
    pub fn take(
        &mut self,
        moment: Moment,
        message: &MessageView,
    ) -> Result<Option<Question>, AllocError>
        ensures { IfOk result (λ answered. taken_by self.old self.new moment answered (viewed message.now)) }
    {
        let (alloc, time) = (self.alloc, moment.time);
        match moment.side {
            Side::Client => self.client.take(&mut self.server, alloc, time, message),
            Side::Server => self.server.take(&mut self.client, alloc, time, message),
        }
    }
}

impl Question {
    /// A question that was asked at a time.
    fn new(method: Option<MethodNumber>, time: u64) -> Question
        ensures { result ≡ new_question method time }
    {
        Question {
            method,
            time,
            is_answered: false,
            finish: None,
        }
    }
}

impl EndState {
    /// An end that asked nothing and holds nothing.
    fn new(alloc: Global) -> EndState {
        EndState {
            questions: Entries::new(alloc),
            lent: Entries::new(alloc),
            given: Entries::new(alloc),
            holdings: Entries::new(alloc),
        }
    }

    /// Sends a message to the other end. Gives the question that it answers, if it is the Return of one.
    fn take(
        &mut self,
        other: &mut EndState,
        alloc: Global,
        time: u64,
        message: &MessageView,
    ) -> Result<Option<Question>, AllocError>
        ensures { IfOk result (λ answered. record { own = self.new; other = other.new; answered = answered } ≡ taken self.old other.old time (viewed message.now)) }
    {
        match message {
            MessageIn::Bootstrap(bootstrap) => {
                let question = Question::new(None, time);
                self.ask(bootstrap.question_id, question, Ids::new(alloc))?;
            }
            MessageIn::Call(call) => self.call(other, alloc, time, call)?,
            MessageIn::Return(returned) => return self.answer(other, alloc, returned),
            MessageIn::Finish(finish) => {
                self.finish(finish.question_id, finish.release_result_caps)?;
            }
            MessageIn::Resolve(resolve) => other.learn(resolve)?,
            MessageIn::Release(release) => {
                self.give_up(release.id, release.reference_count as u64)?;
            }
            MessageIn::Unimplemented(_) => (),
            MessageIn::Abort(_) => (),
            MessageIn::Disembargo(_) => (),
            MessageIn::Other { .. } => (),
        }
        Ok(None)
    }

    /// Sends a call, whose params lend capabilities to the other end.
    fn call(
        &mut self,
        other: &mut EndState,
        alloc: Global,
        time: u64,
        call: &CallView<View<'_>>,
    ) -> Result<(), AllocError>
        ensures { OnOk result (record { own = self.new; other = other.new; answered = None } ≡ called self.old other.old time (viewed_call (λ t. t) call.now)) }
    {
        let (interface, method) = (call.interface_id, call.method_id);
        let method = Some(MethodNumber { interface, method });
        let lent = hosted(alloc, &call.params.cap_table)?;
        let held = other.hold_all(&lent, CapSource::Params(call.question_id, method));
        if held.is_err() {
            drop(lent);
            return held;
        }
        self.ask(call.question_id, Question::new(method, time), lent)
    }

    /// Sends a Return, to a question of the other end if it has one of that number that isn't answered.
    fn answer(
        &mut self,
        other: &mut EndState,
        alloc: Global,
        returned: &ReturnView<View<'_>>,
    ) -> Result<Option<Question>, AllocError>
        ensures { IfOk result (λ answered. record { own = self.new; other = other.new; answered = answered } ≡ returned_to self.old other.old (viewed_return (λ t. t) returned.now)) }
    {
        let number = returned.answer_id;
        let question = match other.questions.get(number) {
            Some(question) if !question.is_answered => *question,
            _ => return Ok(None),
        };
        if returned.release_param_caps {
            if let Some(lent) = other.lent.remove(number) {
                let done = self.give_up_all(&lent);
                drop(lent);
                done?;
            }
        }
        let given = match &returned.returned {
            ReturnedView::Results(payload) => hosted(alloc, &payload.cap_table)?,
            _ => Ids::new(alloc),
        };
        other.receive(number, question, given)?;
        Ok(Some(question))
    }

    /// Asks a question whose params lend these capabilities.
    fn ask(&mut self, number: u32, question: Question, lent: Ids) -> Result<(), AllocError>
        ensures { OnOk result (self.new ≡ asking self.old number question lent) }
    {
        drop(self.given.remove(number));
        self.lent.put(number, lent)?;
        self.questions.put(number, question)
    }

    /// Receives the Return of a question, with these capabilities. Those that were given up before they came aren't held.
    fn receive(&mut self, number: u32, question: Question, given: Ids) -> Result<(), AllocError>
        ensures { OnOk result (self.new ≡ answering self.old number question given) }
    {
        let source = CapSource::Results(number, question.method);
        match question.finish {
            Some(true) => {
                drop(given);
                drop(self.close(number));
                Ok(())
            }
            Some(false) => {
                drop(self.close(number));
                let held = self.hold_all(&given, source);
                drop(given);
                held
            }
            None => {
                let held = self.hold_all(&given, source);
                if held.is_err() {
                    drop(given);
                    return held;
                }
                self.given.put(number, given)?;
                self.questions.put(
                    number,
                    Question {
                        is_answered: true,
                        ..question
                    },
                )
            }
        }
    }

    /// Finishes a question, which may give up what its results named.
    fn finish(&mut self, number: u32, gives_up: bool) -> Result<(), AllocError>
        ensures { OnOk result (self.new ≡ finishing self.old number gives_up) }
    {
        let Some(question) = self.questions.get(number).copied() else {
            return Ok(());
        };
        if !question.is_answered {
            return self.questions.put(
                number,
                Question {
                    finish: Some(gives_up),
                    ..question
                },
            );
        }
        let given = self.close(number);
        if !gives_up {
            drop(given);
            return Ok(());
        }
        let Some(given) = given else {
            return Ok(());
        };
        let done = self.give_up_all(&given);
        drop(given);
        done
    }

    /// Forgets a question that is answered and finished. Gives what its results gave.
    fn close(&mut self, number: u32) -> Option<Ids>
        ensures closed { self.new ≡ closing self.old number }
        ensures given { result ≡ map.get self.old.given number }
    {
        let _ = self.questions.remove(number);
        drop(self.lent.remove(number));
        self.given.remove(number)
    }

    /// Learns what a promise of the other end came to, which may be a capability that is held then.
    fn learn(&mut self, resolve: &ResolveView<View<'_>>) -> Result<(), AllocError>
        ensures { OnOk result (self.new ≡ resolved self.old (viewed_resolve (λ t. t) resolve.now)) }
    {
        let ResolutionView::Cap(descriptor) = &resolve.resolution else {
            return Ok(());
        };
        match hosted_id(descriptor) {
            Some(id) => self.hold(id, CapSource::Promise(resolve.promise_id)),
            None => Ok(()),
        }
    }

    /// Holds these capabilities once more each.
    fn hold_all(&mut self, ids: &Ids, source: CapSource) -> Result<(), AllocError>
        ensures { OnOk result (self.new ≡ holding_all self.old ids.now source) }
    {
        for i in 0..ids.len() {
            self.hold(ids.id(i), source)?;
        }
        Ok(())
    }

    /// Holds a capability once more.
    fn hold(&mut self, id: u32, source: CapSource) -> Result<(), AllocError>
        ensures { OnOk result (self.new ≡ holding self.old id source) }
    {
        let holding = match self.holdings.get(id) {
            Some(held) => Holding {
                count: held.count.saturating_add(1),
                source: held.source,
            },
            None => Holding { count: 1, source },
        };
        self.holdings.put(id, holding)
    }

    /// Gives these capabilities up once each.
    fn give_up_all(&mut self, ids: &Ids) -> Result<(), AllocError>
        ensures { OnOk result (self.new ≡ giving_up_all self.old ids.now) }
    {
        for i in 0..ids.len() {
            self.give_up(ids.id(i), 1)?;
        }
        Ok(())
    }

    /// Gives a capability up so often.
    fn give_up(&mut self, id: u32, count: u64) -> Result<(), AllocError>
        ensures { OnOk result (self.new ≡ giving_up self.old id count) }
    {
        match self.holdings.get(id).copied() {
            Some(held) if count < held.count => self.holdings.put(
                id,
                Holding {
                    count: held.count - count,
                    source: held.source,
                },
            ),
            _ => {
                let _ = self.holdings.remove(id);
                Ok(())
            }
        }
    }
}

/// The numbers of the sender's exports that a table gives, in its order.
fn hosted(alloc: Global, table: &CapTableView<View<'_>>) -> Result<Ids, AllocError>
    ensures { IfOk result (λ ids. ids ≡ hosted table.now) }
{
    let mut ids = Ids::new(alloc);
    for i in 0..table.len() {
        ids.add(hosted_id(&table.descriptor(i)))?;
    }
    Ok(ids)
}

/// The number of the sender's export that a descriptor gives, if it gives one.
fn hosted_id(descriptor: &DescriptorView<View<'_>>) -> Option<u32>
    ensures { result ≡ hosted_id (viewed_descriptor (λ t. t) descriptor.now) }
{
    match descriptor {
        DescriptorView::SenderHosted(id) => Some(*id),
        DescriptorView::SenderPromise(id) => Some(*id),
        DescriptorView::None => None,
        DescriptorView::ReceiverHosted(_) => None,
        DescriptorView::ReceiverAnswer(_) => None,
        DescriptorView::ThirdPartyHosted(_) => None,
        DescriptorView::Unknown(_) => None,
    }
}
