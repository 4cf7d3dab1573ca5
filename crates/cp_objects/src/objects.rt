//! The objects of a connection, with those that they make.

ghost use Rattle.std.specs.Prelude.{◌≡◌, Some, None, true, false, IsSome, IfOk, OnOk};
ghost use Rattle.std.specs.FinMap as maps;
ghost use Rattle.cp_vat_machine.specs.InUse.{caps_of};
ghost use Rattle.cp_servants.specs.declared.servant.Settled.{Settled};
ghost use Rattle.cp_servants.specs.Outcomes.{named_imports};
ghost use Rattle.cp_servants.specs.Requests.{request_of};
ghost use Rattle.cp_objects.specs.AnyObject.{any_object};
ghost use Rattle.cp_objects.specs.Objects.{NextCalls, Calls, Ends, EndsAll, HandsSettled, AsksNextCall, IsToldEnd, Polls, Responds, adding, adopting, alone, answering, asking, awoken, changing, departed_of, failing, first_number, followed, followed_last, following, following_last, giving_held, giving_up_import, handing_over, held_by, in_session, joining, objects_of, lending, losing, noting, own_of, placing, replying_held, resting, settled, settled_last, settling, waking, with_those_made};
ghost use Rattle.cp_objects.specs.Context.{next_number, own_object};
ghost use Rattle.cp_objects.specs.Counts.{those_in};
ghost use Rattle.cp_objects.specs.Members.{earlier, newborn, without_next_calls};
ghost use Rattle.cp_objects.specs.declared.context.ObjectEffect.TheVariants as effects;

use crate::any_object::AnyObject;
use crate::canceled_call::CanceledCall;
use crate::context::{Context, NewCap, ObjectEffect};
use crate::departed::Departed;
use crate::later::DroppedCall;
use crate::letters::{Letter, LetterBody};
use crate::members::{
    add_next_call, drop_next_calls, give_up, give_up_import, has_next_call, held_of, hold, holds,
    keep, let_go, set_alarm, take_next_call,
};
use crate::number_set::NumberSet;
use crate::numbers::Numbers;
use crate::object_entry::ObjectEntry;
use crate::param_caps::ParamCaps;
use crate::pending_answers::PendingAnswers;
use crate::promises::Promises;
use crate::served_object::ServedObject;
use crate::session_cap::SessionCap;
use crate::waker::Waker;
use cp_refs::{Caps, Outcome};
use cp_servants::{OutgoingCall, Reply, RequestView, Settled, dropped_call, named_imports};
use cp_tables::Entries;
use cp_vat_machine::Ids;
use std::alloc::{AllocError, Global};
use std::collections::VecDeque;

/// The objects of a connection, with the objects and promises that they make, by their numbers. Numbers go up, and none is given twice:
/// so a name of an object that is gone never reaches another.
///
/// # When an object is dropped
///
/// What the program adds stays. Any other object is dropped once
///
/// - nothing of its connection refers to it: the vat doesn't, and no call of it waits to be taken;
/// - it owes no answer, and waits for the outcome of no call of its own, made or yet to be made;
/// - each promise that it made is resolved;
/// - no object keeps it (`Context::keep`, `Context::keep_for`), and the params of no call name it that isn't answered yet.
///
/// It is told so (`ServedObject::ended`). Then its time to be woken goes with it, and what it kept; and the imports that it held are given up.
/// Where the connection ends all objects go so, in the order of their numbers.
///
/// A promise that is resolved is forgotten once nothing of the connection refers to it, no object keeps it, and the params of no call name
/// it that isn't answered yet. Objects name a promise of this end as an object: one of theirs, and the results of a call that wasn't answered
/// when a call of the peer's named them.
///
/// # Which objects are polled
///
/// Those that were made, called, told or woken since they were polled last, those whose last poll gave something, and those that say
/// `has_more` after it.
#[derive(Drop)]
pub struct Objects<O> {
    pub(crate) alloc: Global,
    pub(crate) members: Entries<ObjectEntry<AnyObject<O>>>,
    pub(crate) context: Context<O>,
    /// The objects below this number were added by the program.
    pub(crate) stays: u32,
    /// The objects that are to be polled.
    pub(crate) awake: NumberSet,
    pub(crate) pending_answers: PendingAnswers,
    pub(crate) param_caps: ParamCaps,
    pub(crate) promises: Promises,
    /// What calls came to by `Context::settle`, in order.
    pub(crate) settled: VecDeque<Settled>,
    /// The imports that objects gave up beside what they answered, in order.
    pub(crate) given_up: Numbers,
    /// The calls that objects made and gave up, in order.
    pub(crate) canceled: VecDeque<CanceledCall>,
    /// What goes to other sessions of the host, in order.
    pub(crate) letters: VecDeque<Letter>,
    /// The object that makes the calls of other sessions, once there is one.
    pub(crate) forwarder: Option<u32>,
    /// No object is to be woken before this time.
    pub(crate) first_alarm: Option<u64>,
}

impl<O: ServedObject<Makes = O>> Objects<O> {
    /// No objects.
    pub fn new(alloc: Global) -> Objects<O>
        ensures { objects_of result ≡ alone }
    {
        Objects {
            alloc,
            members: Entries::new(alloc),
            context: Context::new(alloc),
            stays: 0,
            awake: NumberSet::new(alloc),
            pending_answers: PendingAnswers::new(alloc),
            param_caps: ParamCaps::new(alloc),
            promises: Promises::new(alloc),
            settled: VecDeque::new(alloc),
            given_up: Numbers::new(alloc),
            canceled: VecDeque::new(alloc),
            letters: VecDeque::new(alloc),
            forwarder: None,
            first_alarm: None,
        }
    }

    /// Adds an object that stays as long as the connection. Those that were made before stay too: so add all first, and the bootstrap
    /// object, which is object 0, before the others.
    ///
    /// # Errors
    ///
    /// Memory ran out, or there were 2^32 objects.
    pub fn add(&mut self, object: O) -> Result<SessionCap, AllocError>
        ensures cap { IfOk result (λ cap. cap ≡ own_object (next_number (objects_of self.old).context) (objects_of self.old).context) }
        ensures added { OnOk result (objects_of self.new ≡ adding object (objects_of self.old)) }
    {
        let cap = self.context.make(object)?;
        self.join()?;
        self.stays = self.context.next();
        Ok(cap)
    }

    /// They are those of a session of this number. A driver gives each of its sessions one of its own, before anything comes.
    pub fn set_session(&mut self, session: u64)
        ensures { objects_of self.new ≡ in_session session (objects_of self.old) }
    {
        self.context.set_session(session);
    }

    /// The number of their session.
    pub fn session(&self) -> u64
        ensures { result ≡ (objects_of self.now).context.this.session }
    {
        self.context.session()
    }

    /// How many objects there are.
    pub fn len(&self) -> usize
        ensures { result ≡ maps.len self.now.members }
    {
        self.members.iter().len()
    }

    /// Calls an object.
    pub(crate) fn call(
        &mut self,
        number: u32,
        ticket: u64,
        request: RequestView<'_>,
    ) -> Result<Reply, AllocError>
        requires { IsSome (maps.get self.old.members number) }
        ensures { IfOk result (λ reply. Calls (any_object O.makes) number ticket (request_of request.entry) reply (objects_of self.old) (objects_of self.new)) }
    {
        let imports = named_imports(self.alloc, &request.caps)?;
        self.adopt_each(&request.caps)?;
        let RequestView {
            interface,
            method,
            content,
            caps,
        } = request;
        let caps = self.promises.named_each(caps);
        let named = Numbers::local_in(self.alloc, &caps)?;
        let request = RequestView {
            interface,
            method,
            content,
            caps,
        };
        self.context.enter(number);
        let member = self.members.entry_mut(number);
        member.holds.add_each(imports.ids())?;
        let said = member.object.call(ticket, request, &mut self.context)?;
        let reply = self.own_reply(number, said)?;
        self.follow_call(number, ticket, named, &reply)?;
        Ok(reply)
    }

    /// Polls an object.
    pub(crate) fn poll(&mut self, number: u32) -> Result<Option<Settled>, AllocError>
        requires { IsSome (maps.get self.old.members number) }
        ensures { IfOk result (λ given. Polls (any_object O.makes) number given (objects_of self.old) (objects_of self.new)) }
    {
        self.context.enter(number);
        let member = self.members.entry_mut(number);
        let said = member.object.poll(&mut self.context)?;
        let has_more = member.object.has_more();
        let given = self.own(number, said)?;
        self.note_poll(number, &given, has_more);
        self.settle(number)?;
        Ok(given)
    }

    /// The next call of an object: the first that it is yet to make. Where there is none, it is asked before.
    pub(crate) fn next_call(&mut self, number: u32) -> Result<Option<OutgoingCall>, AllocError>
        requires { IsSome (maps.get self.old.members number) }
        ensures { IfOk result (λ call. NextCalls (any_object O.makes) number call (objects_of self.old) (objects_of self.new)) }
    {
        if has_next_call(&self.members, number) {
            return Ok(take_next_call(&mut self.members, number));
        }
        self.ask_object(number)?;
        Ok(take_next_call(&mut self.members, number))
    }

    /// Tells an object what a call of its own came to.
    pub(crate) fn on_response(
        &mut self,
        number: u32,
        call_id: u64,
        outcome: Outcome,
    ) -> Result<(), AllocError>
        requires { IsSome (maps.get self.old.members number) }
        ensures { OnOk result (Responds (any_object O.makes) number call_id outcome (objects_of self.old) (objects_of self.new)) }
    {
        let imports = given_imports(self.alloc, &outcome)?;
        self.adopt_given(&outcome)?;
        let outcome = self.promises.named_outcome(outcome);
        self.context.enter(number);
        let member = self.members.entry_mut(number);
        member.holds.add_each(imports.ids())?;
        member.asked = member.asked.saturating_sub(1);
        member
            .object
            .on_response(call_id, outcome, &mut self.context)?;
        self.awake.insert(number)?;
        self.settle(number)
    }

    /// The calls that an object is yet to make aren't made.
    pub(crate) fn drop_next_calls(&mut self, number: u32)
        ensures { objects_of self.new ≡ changing number without_next_calls (objects_of self.old) }
    {
        drop_next_calls(self.alloc, &mut self.members, number);
    }

    /// Has an object polled, if it is there.
    pub(crate) fn wake(&mut self, number: u32) -> Result<(), AllocError>
        ensures { OnOk result (objects_of self.new ≡ waking number (objects_of self.old)) }
    {
        if self.members.contains(number) {
            self.awake.insert(number)?;
        }
        Ok(())
    }

    /// Tells an object its end, does what it did then, and drops it.
    pub(crate) fn end(&mut self, number: u32) -> Result<Departed, AllocError>
        requires { IsSome (maps.get self.old.members number) }
        ensures { IfOk result (λ departed. Ends (any_object O.makes) number departed (objects_of self.old) (objects_of self.new)) }
    {
        let told = self.tell_end(number);
        // It is told once, so it goes where memory ran out, too.
        let departed = self.remove(number);
        match told {
            Ok(()) => Ok(departed),
            Err(error) => {
                drop(departed);
                Err(error)
            }
        }
    }

    /// Tells each object its end, in the order of the numbers, does what it did then, and drops it.
    pub(crate) fn end_all(&mut self) -> Result<(), AllocError>
        ensures { OnOk result (EndsAll (any_object O.makes) (objects_of self.old) (objects_of self.new)) }
    {
        for _ in 0..u64::MAX {
            let Some(number) = self.first_number() else {
                return Ok(());
            };
            drop(self.end(number)?);
        }
        Err(AllocError)
    }

    /// Takes out what a call came to first that wasn't settled by a poll. Where there is none, a later call that was dropped fails.
    pub(crate) fn next_settled(&mut self) -> Result<Option<Settled>, AllocError>
        ensures { IfOk result (λ given. HandsSettled given (objects_of self.old) (objects_of self.new)) }
    {
        if let Some(settled) = self.settled.pop_front() {
            return Ok(Some(settled));
        }
        for _ in 0..u64::MAX {
            let Some(DroppedCall { ticket, gives_up }) = self.context.next_dropped() else {
                return Ok(None);
            };
            if let Some(owner) = self.pending_answers.owner(ticket) {
                let failed = self.fail_dropped(owner, ticket, gives_up)?;
                return Ok(Some(failed));
            }
        }
        Err(AllocError)
    }

    /// What follows of a call of an object.
    fn follow_call(
        &mut self,
        number: u32,
        ticket: u64,
        named: Numbers,
        reply: &Reply,
    ) -> Result<(), AllocError>
        ensures { OnOk result (objects_of self.new ≡ settled number (awoken number (noting number ticket named reply.now (objects_of self.old)))) }
    {
        self.note_reply(number, ticket, named, reply)?;
        self.awake.insert(number)?;
        self.settle(number)
    }

    /// Notes what an object gave up, or that it owes an answer to a call whose params name these.
    fn note_reply(
        &mut self,
        number: u32,
        ticket: u64,
        named: Numbers,
        reply: &Reply,
    ) -> Result<(), AllocError>
        ensures { OnOk result (objects_of self.new ≡ noting number ticket named reply.now (objects_of self.old)) }
    {
        match reply {
            Reply::Now { gives_up, .. } => {
                let_go(&mut self.members, number, gives_up.ids());
                Ok(())
            }
            Reply::Later => {
                self.pending_answers.put(ticket, number)?;
                self.lend(ticket, named)
            }
        }
    }

    /// Notes what the params of a call name that is answered later, if they name something.
    fn lend(&mut self, ticket: u64, named: Numbers) -> Result<(), AllocError>
        ensures { OnOk result (objects_of self.new ≡ lending ticket named (objects_of self.old)) }
    {
        if named.is_empty() {
            return Ok(());
        }
        self.param_caps.put(ticket, named)
    }

    /// The promises that an outcome names have numbers from now on, by which objects name them.
    fn adopt_given(&mut self, outcome: &Outcome) -> Result<(), AllocError>
        ensures adopted { OnOk result (objects_of self.new ≡ adopting (caps_of outcome.now) (objects_of self.old)) }
        ensures members { self.new.members ≡ self.old.members }
    {
        match outcome {
            Outcome::Results { caps, .. } => self.adopt_each(caps),
            Outcome::Failed(_) | Outcome::Canceled => Ok(()),
        }
    }

    /// The promises that a table names have numbers from now on, by which objects name them.
    fn adopt_each(&mut self, caps: &Caps) -> Result<(), AllocError>
        ensures adopted { OnOk result (objects_of self.new ≡ adopting caps.now (objects_of self.old)) }
        ensures members { self.new.members ≡ self.old.members }
    {
        let next = self.promises.adopt_each(caps, self.context.next())?;
        self.context.set_next(next);
        Ok(())
    }

    /// What an object replied, but that it gives up only imports that it holds: it may have given one up before.
    fn own_reply(&self, number: u32, said: Reply) -> Result<Reply, AllocError>
        ensures { IfOk result (λ reply. reply ≡ replying_held (held_by number (objects_of self.now)) said) }
    {
        match said {
            Reply::Now { outcome, gives_up } => {
                match held_of(self.alloc, &self.members, number, gives_up.ids()) {
                    Ok(gives_up) => Ok(Reply::Now { outcome, gives_up }),
                    Err(error) => {
                        drop(outcome);
                        Err(error)
                    }
                }
            }
            Reply::Later => Ok(Reply::Later),
        }
    }

    /// What an object settled, if it was to settle that, but that it gives up only imports that it holds.
    fn own(&self, number: u32, said: Option<Settled>) -> Result<Option<Settled>, AllocError>
        ensures { IfOk result (λ given. given ≡ own_of number (held_by number (objects_of self.now)) said self.now.pending_answers) }
    {
        let Some(settled) = said else {
            return Ok(None);
        };
        if self.pending_answers.is_of(settled.ticket, number) {
            return Ok(Some(self.giving_held(number, settled)?));
        }
        drop(settled);
        Ok(None)
    }

    /// What a call comes to that an object owes the answer of, but that this gives up only imports that the object holds.
    fn giving_held(&self, number: u32, settled: Settled) -> Result<Settled, AllocError>
        ensures { IfOk result (λ given. given ≡ giving_held (held_by number (objects_of self.now)) settled) }
    {
        let Settled {
            ticket,
            outcome,
            gives_up,
        } = settled;
        match held_of(self.alloc, &self.members, number, gives_up.ids()) {
            Ok(gives_up) => Ok(Settled {
                ticket,
                outcome,
                gives_up,
            }),
            Err(error) => {
                drop(outcome);
                Err(error)
            }
        }
    }

    /// Notes what a poll of an object gave, or whether it may give more.
    fn note_poll(&mut self, number: u32, given: &Option<Settled>, has_more: bool)
        ensures gave { (settled : Settled) → given.now ≡ Some settled → objects_of self.new ≡ answering number settled (objects_of self.old) }
        ensures more { given.now ≡ None → has_more ≡ true → objects_of self.new ≡ objects_of self.old }
        ensures rests { given.now ≡ None → has_more ≡ false → objects_of self.new ≡ resting number (objects_of self.old) }
    {
        match given {
            Some(settled) => self.note_settled(number, settled),
            None if has_more => {}
            None => self.awake.remove(number),
        }
    }

    /// Notes what a call came to that an object owes the answer of.
    fn note_settled(&mut self, number: u32, settled: &Settled)
        ensures { objects_of self.new ≡ answering number settled.now (objects_of self.old) }
    {
        let_go(&mut self.members, number, settled.gives_up.ids());
        self.pending_answers.remove(settled.ticket);
        self.param_caps.remove(settled.ticket);
    }

    /// A call that an object owes the answer of was dropped, so it fails.
    fn fail_dropped(
        &mut self,
        number: u32,
        ticket: u64,
        gives_up: Ids,
    ) -> Result<Settled, AllocError>
        ensures failed { IfOk result (λ failed. failed ≡ failing ticket (those_in gives_up (held_by number (objects_of self.old)))) }
        ensures answered { OnOk result (objects_of self.new ≡ answering number (failing ticket (those_in gives_up (held_by number (objects_of self.old)))) (objects_of self.old)) }
    {
        let settled = Settled {
            ticket,
            outcome: dropped_call(self.alloc)?,
            gives_up,
        };
        let held = self.giving_held(number, settled)?;
        self.note_settled(number, &held);
        Ok(held)
    }

    /// The first object, by the numbers, if there is one.
    fn first_number(&self) -> Option<u32>
        ensures { result ≡ first_number (objects_of self.now) }
    {
        match self.members.iter().next() {
            Some((number, _)) => Some(*number),
            None => None,
        }
    }

    /// Tells an object its end, and does what it did then.
    fn tell_end(&mut self, number: u32) -> Result<(), AllocError>
        requires { IsSome (maps.get self.old.members number) }
        ensures { OnOk result (IsToldEnd (any_object O.makes) number (objects_of self.old) (objects_of self.new)) }
    {
        self.context.enter(number);
        let member = self.members.entry_mut(number);
        member.object.ended(&mut self.context)?;
        self.settle_last(number)
    }

    /// Drops an object. Gives the imports that it held, and the calls that it is yet to make.
    fn remove(&mut self, number: u32) -> Departed
        ensures departed { result ≡ departed_of number (objects_of self.old) }
        ensures gone { objects_of self.new ≡ losing number (objects_of self.old) }
    {
        self.awake.remove(number);
        drop(self.context.stands.remove(number));
        match self.members.remove(number) {
            Some(member) => member.into_departed(),
            None => Departed::none(self.alloc),
        }
    }

    /// Asks an object for a call, which it is to make before those that it sends meanwhile.
    fn ask_object(&mut self, number: u32) -> Result<(), AllocError>
        requires { IsSome (maps.get self.old.members number) }
        ensures { OnOk result (AsksNextCall (any_object O.makes) number (objects_of self.old) (objects_of self.new)) }
    {
        self.context.enter(number);
        let member = self.members.entry_mut(number);
        let said = member.object.next_call(&mut self.context)?;
        self.note_call(number, said)?;
        self.settle(number)
    }

    /// Notes a call that an object asks for, if it does.
    fn note_call(&mut self, number: u32, said: Option<OutgoingCall>) -> Result<(), AllocError>
        ensures { OnOk result (objects_of self.new ≡ asking number said (objects_of self.old)) }
    {
        match said {
            Some(next_call) => add_next_call(&mut self.members, number, next_call),
            None => Ok(()),
        }
    }

    /// Does what an object wanted beside what it answered.
    pub(crate) fn settle(&mut self, number: u32) -> Result<(), AllocError>
        ensures { OnOk result (objects_of self.new ≡ settled number (objects_of self.old)) }
    {
        self.join()?;
        let effects = self.context.take_effects();
        self.follow_each(number, effects)
    }

    /// Does what an object wanted last. What it made isn't kept.
    fn settle_last(&mut self, number: u32) -> Result<(), AllocError>
        ensures { OnOk result (objects_of self.new ≡ settled_last number (objects_of self.old)) }
    {
        self.context.drop_made()?;
        let effects = self.context.take_effects();
        self.follow_each_last(number, effects)
    }

    /// Does what an object wanted last, in order.
    fn follow_each_last(
        &mut self,
        number: u32,
        effects: Vec<ObjectEffect>,
    ) -> Result<(), AllocError>
        ensures { OnOk result (objects_of self.new ≡ followed_last number effects.items (objects_of self.old)) }
    {
        for effect in effects {
            self.follow_last(number, effect)?;
        }
        Ok(())
    }

    /// Does what an object wanted last, but that another one keeps something: it may go before it is known to be kept.
    fn follow_last(&mut self, number: u32, effect: ObjectEffect) -> Result<(), AllocError>
        ensures { OnOk result (objects_of self.new ≡ following_last number effect (objects_of self.old)) }
    {
        match effect {
            ObjectEffect::Keep { .. } => Ok(()),
            other => self.follow(number, other),
        }
    }

    /// Does what an object wanted, in order.
    fn follow_each(&mut self, number: u32, effects: Vec<ObjectEffect>) -> Result<(), AllocError>
        ensures { OnOk result (objects_of self.new ≡ followed number effects.items (objects_of self.old)) }
    {
        for effect in effects {
            self.follow(number, effect)?;
        }
        Ok(())
    }

    /// Does what an object wanted.
    fn follow(&mut self, number: u32, effect: ObjectEffect) -> Result<(), AllocError>
        ensures { OnOk result (objects_of self.new ≡ following number effect (objects_of self.old)) }
    {
        match effect {
            ObjectEffect::Keep { keeper, kept } => keep(&mut self.members, keeper, kept),
            ObjectEffect::HandOver { keeper, import } => self.hand_over(number, keeper, import),
            ObjectEffect::GiveUp(kept) => {
                give_up(&mut self.members, number, kept);
                Ok(())
            }
            ObjectEffect::GiveUpImport(import) => self.give_up_held(number, import),
            ObjectEffect::Wake(waker) => self.pass_on(waker),
            ObjectEffect::WakeAt(time) => {
                set_alarm(&mut self.members, number, Some(time));
                self.first_alarm = Some(earlier(self.first_alarm, time));
                Ok(())
            }
            ObjectEffect::Resolve(promise, value) => self.promises.resolve(promise, value),
            ObjectEffect::Call(next_call) => add_next_call(&mut self.members, number, next_call),
            ObjectEffect::Cancel(call_id) => self.give_up_call(number, call_id),
            ObjectEffect::Settle(settled) => self.settle_call(settled),
            ObjectEffect::Lend(shared) => self.lend_cap(number, shared),
            ObjectEffect::Post(letter) => {
                self.letters.push_back(letter)?;
                Ok(())
            }
        }
    }

    /// A call comes to this that an object owes the answer of, if one does.
    fn settle_call(&mut self, settled: Settled) -> Result<(), AllocError>
        ensures { OnOk result (objects_of self.new ≡ settling settled (objects_of self.old)) }
    {
        let Some(owner) = self.pending_answers.owner(settled.ticket) else {
            drop(settled);
            return Ok(());
        };
        let held = self.giving_held(owner, settled)?;
        self.note_settled(owner, &held);
        self.settled.push_back(held)?;
        Ok(())
    }

    /// An object gives an import up beside what it answers, if it holds it: else another one's hold would go.
    pub(crate) fn give_up_held(&mut self, number: u32, import: u32) -> Result<(), AllocError>
        ensures { OnOk result (objects_of self.new ≡ giving_up_import number import (objects_of self.old)) }
    {
        if !holds(&self.members, number, import) {
            return Ok(());
        }
        give_up_import(&mut self.members, number, import);
        self.given_up.add(import)
    }

    /// Has another object hold an import in place of one that holds it, if it is there.
    pub(crate) fn hand_over(
        &mut self,
        number: u32,
        keeper: u32,
        import: u32,
    ) -> Result<(), AllocError>
        ensures { OnOk result (objects_of self.new ≡ handing_over number keeper import (objects_of self.old)) }
    {
        if self.members.contains(keeper) && holds(&self.members, number, import) {
            give_up_import(&mut self.members, number, import);
            return hold(&mut self.members, keeper, import);
        }
        Ok(())
    }

    /// Has an object woken, here or in another session.
    fn pass_on(&mut self, waker: Waker) -> Result<(), AllocError>
        ensures { OnOk result (objects_of self.new ≡ following 0 (effects.Wake waker) (objects_of self.old)) }
    {
        if waker.session == self.context.waker().session {
            return self.wake(waker.object);
        }
        self.letters.push_back(Letter {
            to: waker.session,
            body: LetterBody::Wake(waker.object),
        })?;
        Ok(())
    }

    /// The objects and promises that were made are there from now on, each under the next number.
    pub(crate) fn join(&mut self) -> Result<(), AllocError>
        ensures { OnOk result (objects_of self.new ≡ with_those_made (objects_of self.old)) }
    {
        let made = self.context.take_made();
        for new_cap in made {
            self.join_one(new_cap)?;
        }
        Ok(())
    }

    /// One object or promise more is there, under the next number.
    fn join_one(&mut self, new_cap: NewCap<O>) -> Result<(), AllocError>
        ensures { OnOk result (objects_of self.new ≡ joining new_cap (objects_of self.old)) }
    {
        let number = self.context.next();
        let Some(next) = number.checked_add(1) else {
            drop(new_cap);
            return Err(AllocError);
        };
        self.context.set_next(next);
        match new_cap {
            NewCap::Object(object) => self.join_object(number, AnyObject::Own(object)),
            NewCap::Promise => self.promises.make(number, self.context.waker().object),
            NewCap::Proxy(shared) => self.join_proxy(number, shared),
        }
    }

    /// One object more is there, and is to be polled.
    pub(crate) fn join_object(
        &mut self,
        number: u32,
        object: AnyObject<O>,
    ) -> Result<(), AllocError>
        ensures { OnOk result (objects_of self.new ≡ awoken number (placing number (newborn object) (objects_of self.old))) }
    {
        self.members
            .put(number, ObjectEntry::new(self.alloc, object))?;
        self.awake.insert(number)
    }
}

/// The imports that an outcome names, each once.
fn given_imports(alloc: Global, outcome: &Outcome) -> Result<Ids, AllocError>
    ensures { IfOk result (λ ids. ids ≡ named_imports (caps_of outcome.now)) }
{
    match outcome {
        Outcome::Results { caps, .. } => named_imports(alloc, caps),
        Outcome::Failed(_) | Outcome::Canceled => Ok(Ids::new(Vec::new(alloc))),
    }
}

/// The earlier of two times.
pub(crate) fn earlier(first: Option<u64>, time: u64) -> u64
    ensures { result ≡ earlier first time }
{
    match first {
        Some(first) => first.min(time),
        None => time,
    }
}
