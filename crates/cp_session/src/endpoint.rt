//! A connection, with what is done for its objects after each message.

ghost use Rattle.std.specs.Prelude.{◌≡◌, ◌<◌, ◌≤◌, ◌↔◌, Err, IsSome, IsTrue, IfOk, IfErr, OnErr, OnOk, Some, length, nat_lt, true, false};
ghost use Rattle.cp_refs.specs.declared.call.Origin.TheVariants as origins;
ghost use Rattle.cp_dispatch.specs.Canceling.{Cancels};
ghost use Rattle.cp_dispatch.specs.Finishing as own;
ghost use Rattle.cp_dispatch.specs.Finishing.{GivesBackEach};
ghost use Rattle.cp_dispatch.specs.Receiving.{IsCutShort};
ghost use Rattle.cp_dispatch.specs.Work.{GivesBack, Lives, begun};
ghost use Rattle.cp_dispatch.specs.WorkOf.{work_of};
ghost use Rattle.cp_connection.specs.Doing.{Acts, answered};
ghost use Rattle.cp_connection.specs.Link.{Link};
ghost use Rattle.cp_vat_machine.specs.InUse.{caps_of};
ghost use Rattle.cp_vat_machine.specs.declared.event.Event.TheVariants as machine;
ghost use Rattle.cp_vat_machine.specs.declared.event.Value.TheVariants as values;
ghost use Rattle.cp_frame.specs.Reader.{taken_of};
ghost use Rattle.cp_session.specs.Asking.{AsksPeer};
ghost use Rattle.cp_session.specs.EmptyPolls.{renewed};
ghost use Rattle.cp_session.specs.Kept.{kept_of};
ghost use Rattle.cp_session.specs.Search.{IsDue, MayHoldIdle, Seeks};
ghost use Rattle.cp_session.specs.Refusing.{Refuses};
ghost use Rattle.cp_session.specs.Serves.{CountsPoll, Ends, Follows, HasGiven, has_acted, IsUnended, MayGive, Polls, Takes, WorksOn};
ghost use Rattle.cp_session.specs.Service.{first_search, new_service, service_of, with_link};
ghost use Rattle.cp_session.specs.Sweep.{Sweeps, SweepsAll, SweepsInTime};

use crate::empty_polls::EmptyPolls;
use crate::options::SessionOptions;
use crate::search::Search;
use crate::sweep::{Sweep, has_come};
use cp_connection::{Connection, ConnectionFault, Excess};
use cp_dispatch::{Dispatcher, SessionEvent};
use cp_objects::ObjectTable;
use cp_refs::{Origin, Outcome};
use std::alloc::{AllocError, Global};

/// The bytes that an entry of a vat takes at most, its content aside, and those that a promise takes.
const ENTRY: u64 = 640;

const PROMISE: u64 = 272;

/// A connection, with what is still to be done for its objects.
#[derive(Drop)]
pub(crate) struct Endpoint {
    pub(crate) connection: Connection,
    pub(crate) work: Dispatcher,
    /// When imports and promises are sought that nobody holds, if they are.
    search: Option<Search>,
    /// An object gave what was awaited when all were polled last.
    gave: bool,
    sweep: Sweep,
    empty_polls: EmptyPolls,
}

impl Endpoint {
    /// One to which nothing came.
    pub(crate) fn new(alloc: Global, options: &SessionOptions) -> Endpoint
        ensures { service_of result ≡ new_service options.now }
    {
        Endpoint {
            connection: Connection::with_tail_calls(
                alloc,
                options.mode,
                options.messages,
                options.bootstrap,
            ),
            work: objects_that(options.may_call, alloc),
            search: search_if(options.releases_idle),
            gave: false,
            sweep: Sweep::new(),
            empty_polls: EmptyPolls::new(),
        }
    }

    /// Takes a piece up to the end of a message, and says how many bytes. After a message each object is polled once.
    pub(crate) fn receive<H: ObjectTable>(
        &mut self,
        objects: &mut H,
        piece: &[u8],
        now: u64,
    ) -> Result<usize, ConnectionFault>
        ensures takes { IfOk result (λ count. Takes H.table now (service_of self.old) piece.now count (service_of self.new) objects.old objects.new) }
        ensures some { IfOk result (λ count. 0 < length piece.now → 0 < count) }
        ensures few { IfOk result (λ count. count ≤ length piece.now) }
        ensures cut { IfErr result (λ fault. IsCutShort self.old.connection piece.now fault self.new.connection objects.old objects.new) }
    {
        let (count, has_ended) = self.work.receive(&mut self.connection, objects, piece)?;
        self.follow(objects, has_ended, now)?;
        Ok(count)
    }

    /// Ends the peer's bytes, and polls each object once.
    pub(crate) fn end<H: ObjectTable>(
        &mut self,
        objects: &mut H,
        now: u64,
    ) -> Result<(), ConnectionFault>
        ensures ends { OnOk result (Ends H.table now (service_of self.old) (service_of self.new) objects.old objects.new) }
        ensures unended { IfErr result (λ fault. IsUnended self.old.connection fault self.new.connection objects.old objects.new) }
    {
        self.connection.end()?;
        self.empty_polls.renew();
        self.round(objects, now)?;
        Ok(())
    }

    /// Does what happened asks of the objects, and polls each of them once. Counts the poll.
    pub(crate) fn poll<H: ObjectTable>(
        &mut self,
        objects: &mut H,
        now: u64,
    ) -> Result<(), AllocError>
        ensures works { OnOk result (WorksOn H.table now (service_of self.old) (service_of self.new) objects.old objects.new) }
        ensures lives { Lives self.old.connection self.new.connection }
    {
        let waiting = self.connection.held().events;
        let sent = self.connection.stats().sent;
        self.work.work_off(&mut self.connection, objects)?;
        self.round(objects, now)?;
        let acted = self.has_acted(waiting, sent);
        self.count_poll(acted | self.gave)
    }

    /// Whether events were worked off or messages sent, since so many waited and so many had been sent.
    fn has_acted(&self, waiting: usize, sent: u64) -> bool
        ensures { result ≡ has_acted waiting sent self.now.connection }
    {
        (waiting > 0) | (self.connection.stats().sent > sent)
    }

    /// Counts a poll that gave something, or nothing. The program is told once of too many that gave nothing.
    fn count_poll(&mut self, gave: bool) -> Result<(), AllocError>
        ensures counts { OnOk result (CountsPoll gave (service_of self.old) (service_of self.new)) }
        ensures same { self.new.connection ≡ self.old.connection }
    {
        let is_restless = self.empty_polls.note(gave);
        if is_restless {
            return self.work.note(SessionEvent::Restless);
        }
        Ok(())
    }

    /// Something came: empty polls are counted anew.
    pub(crate) fn stir(&mut self)
        ensures { self.new ≡ record self.old { empty_polls = renewed self.old.empty_polls } }
    {
        self.empty_polls.renew();
    }

    /// Asks the peer for what it gives, and gives the question up at once: it answers all the same, if it is there.
    pub(crate) fn ask(&mut self)
        ensures asks { AsksPeer self.old.connection self.new.connection }
        ensures same { self.new ≡ record self.old { connection = self.new.connection } }
    {
        match self.connection.bootstrap() {
            Ok(question) => {
                let _ = self.connection.finish(question);
            }
            Err(_) => {}
        }
    }

    /// Gives an import back that an outcome named to the program.
    pub(crate) fn give_back(&mut self, import: u32) -> Result<(), ConnectionFault>
        ensures back { GivesBack import (service_of self.old).work (answered (λ _. values.Nothing) result) (service_of self.new).work }
        ensures same { service_of self.new ≡ record (service_of self.old) { work = (service_of self.new).work } }
    {
        self.work.give_back(&mut self.connection, import)
    }

    /// Finishes a question of the program's, and takes its outcome out of the events, if it is one.
    pub(crate) fn finish(&mut self, question: u32) -> Result<Option<Outcome>, ConnectionFault>
        ensures finishes { IfOk result (λ untaken. own.Finishes question untaken (service_of self.old).work (service_of self.new).work) }
        ensures unfinished { IfErr result (λ fault. Acts self.old.connection (machine.Finish question) (Err fault) self.new.connection) }
        ensures same { OnOk result (service_of self.new ≡ record (service_of self.old) { work = (service_of self.new).work }) }
        ensures rest { OnErr result (service_of self.new ≡ with_link (service_of self.old) self.new.connection) }
    {
        self.work.finish(&mut self.connection, question)
    }

    /// Gives back what an outcome named to the program.
    pub(crate) fn give_back_each(&mut self, outcome: &Outcome) -> Result<(), AllocError>
        ensures back { OnOk result (GivesBackEach (caps_of outcome.now) (service_of self.old).work (service_of self.new).work) }
        ensures same { service_of self.new ≡ record (service_of self.old) { work = (service_of self.new).work } }
        ensures lives { Lives self.old.connection self.new.connection }
    {
        self.work.give_back_each(&mut self.connection, outcome)
    }

    /// Tells the object that is to answer this question of the program's that it was given up, if there is one, and works off what follows.
    pub(crate) fn cancel<H: ObjectTable>(
        &mut self,
        objects: &mut H,
        question: u32,
    ) -> Result<(), AllocError>
        ensures cancels { OnOk result (Cancels H.table (Some (origins.Own question)) (service_of self.old).work (service_of self.new).work objects.old objects.new) }
        ensures same { service_of self.new ≡ record (service_of self.old) { work = (service_of self.new).work } }
        ensures lives { Lives self.old.connection self.new.connection }
    {
        self.work
            .cancel(&mut self.connection, objects, Some(Origin::Own(question)))
    }

    /// Tells the peer what is too much, if something is: the connection is aborted for that.
    pub(crate) fn refuse(&mut self, excess: Option<Excess>)
        ensures refuses { Refuses excess self.old.connection self.new.connection }
        ensures same { self.new ≡ record self.old { connection = self.new.connection } }
    {
        match excess {
            Some(excess) => self.connection.abort(excess),
            None => {}
        }
    }

    /// Whether a poll may give more, though nothing more comes.
    pub(crate) fn has_more<H: ObjectTable>(&self, objects: &H) -> bool
        ensures more { result ≡ true → MayGive H.table (service_of self.now) objects.now }
        ensures none { result ≡ false → HasGiven H.table (service_of self.now) objects.now }
    {
        self.gave
            || self.connection.held().events > 0
            || (!self.empty_polls.are_many() && objects.has_more())
    }

    /// Whether the connection ended.
    pub(crate) fn has_ended(&self) -> bool
        ensures { IsTrue result ↔ IsSome self.now.connection.fault }
    {
        self.connection.fault().is_some()
    }

    /// Whether a message has come in part.
    pub(crate) fn is_open(&self) -> bool
        ensures { result ≡ nat_lt 0 (taken_of self.now.connection.reading) }
    {
        self.connection.held().came > 0
    }

    /// The bytes that are kept: of the open message, of what waits to be written, `ENTRY` for each entry of the vat and each object that
    /// may go, `PROMISE` for each promise, and of the contents that the vat keeps and that weren't taken.
    pub(crate) fn kept<H: ObjectTable>(&self, objects: &H) -> u64
        ensures { result ≡ kept_of (service_of self.now).work (H.table.guests objects.now) }
    {
        let held = self.connection.held();
        let bytes = held.came.saturating_add(held.unwritten as u64);
        let entries = (held.entries as u64).saturating_add(objects.guests() as u64);
        let entries = entries.saturating_mul(ENTRY);
        let promises = (held.promises as u64).saturating_mul(PROMISE);
        let tables = entries.saturating_add(promises);
        let happened = self.connection.event_memory();
        let untaken = happened.saturating_add(self.work.event_memory());
        let contents = held.contents.saturating_add(untaken);
        bytes.saturating_add(tables).saturating_add(contents)
    }

    /// Where a message ended, polls each object once.
    fn follow<H: ObjectTable>(
        &mut self,
        objects: &mut H,
        has_ended: bool,
        now: u64,
    ) -> Result<(), AllocError>
        ensures follows { OnOk result (Follows H.table now has_ended (service_of self.old) (service_of self.new) objects.old objects.new) }
        ensures lives { Lives self.old.connection self.new.connection }
    {
        if !has_ended {
            return Ok(());
        }
        self.stir();
        self.round(objects, now)
    }

    /// Polls each object once, and then lets imports and promises go that nobody holds, where it is due.
    fn round<H: ObjectTable>(&mut self, objects: &mut H, now: u64) -> Result<(), AllocError>
        ensures polls { OnOk result (Polls H.table now (service_of self.old) (service_of self.new) objects.old objects.new) }
        ensures lives { Lives self.old.connection self.new.connection }
    {
        self.gave = self.work.round(&mut self.connection, objects)?;
        self.release_idle(objects)?;
        self.sweep_objects(objects, now)
    }

    /// When objects are to be sought that nothing refers to, though no message comes.
    pub(crate) fn sweep_time(&self) -> Option<u64>
        ensures { result ≡ self.now.sweep.at }
    {
        self.sweep.at
    }

    /// Time passed: seeks objects and promises that nothing refers to, where it is time for that.
    pub(crate) fn tick<H: ObjectTable>(
        &mut self,
        objects: &mut H,
        now: u64,
    ) -> Result<(), AllocError>
        ensures sweeps { OnOk result (SweepsInTime H.table now (service_of self.old) (service_of self.new) objects.old objects.new) }
        ensures lives { Lives self.old.connection self.new.connection }
    {
        if !has_come(self.sweep.at, now) {
            return Ok(());
        }
        self.sweep_all(objects, now)
    }

    /// Drops the objects and promises that nothing refers to, where messages or time paid for it, and else later.
    fn sweep_objects<H: ObjectTable>(&mut self, objects: &mut H, now: u64) -> Result<(), AllocError>
        ensures sweeps { OnOk result (Sweeps H.table now (service_of self.old) (service_of self.new) objects.old objects.new) }
        ensures lives { Lives self.old.connection self.new.connection }
    {
        if objects.guests() == 0 {
            return Ok(());
        }
        if self.sweep.is_due(self.connection.stats().messages, now) {
            return self.sweep_all(objects, now);
        }
        self.sweep = self.sweep.later(now);
        Ok(())
    }

    /// Drops the objects and promises that nothing refers to, and works off what that leads to.
    fn sweep_all<H: ObjectTable>(&mut self, objects: &mut H, now: u64) -> Result<(), AllocError>
        ensures sweeps { OnOk result (SweepsAll H.table now (service_of self.old) (service_of self.new) objects.old objects.new) }
        ensures lives { Lives self.old.connection self.new.connection }
    {
        let before = objects.guests();
        self.work.drop_idle(&mut self.connection, objects)?;
        self.work.work_off(&mut self.connection, objects)?;
        let messages = self.connection.stats().messages;
        self.sweep = Sweep::after(before, objects.guests(), messages, now);
        Ok(())
    }

    /// Where it is due, lets the imports and promises go that nothing of the vat uses and that no object has.
    fn release_idle<H: ObjectTable>(&mut self, objects: &H) -> Result<(), AllocError>
        ensures seeks { OnOk result (Seeks H.table objects.now (service_of self.old) (service_of self.new)) }
        ensures lives { Lives self.old.connection self.new.connection }
    {
        if !self.is_due(objects) {
            return Ok(());
        }
        // `idle` names these and what promises came to, so the vat needs no further call for this.
        self.work.release_idle(&mut self.connection, objects)?;
        let held = self.connection.held();
        let messages = self.connection.stats().messages;
        self.search = Some(Search::after(held.imports, held.promises, messages));
        Ok(())
    }

    /// Whether imports and promises are sought now that nobody holds.
    fn is_due<H: ObjectTable>(&self, objects: &H) -> bool
        ensures { IsTrue result ↔ IsDue H.table objects.now self.now.search (service_of self.now).work }
    {
        match self.search {
            Some(search) => {
                self.may_hold_idle(objects) && search.is_due(self.connection.stats().messages)
            }
            None => false,
        }
    }

    /// Whether there are more imports than objects hold, or promises that none knows.
    fn may_hold_idle<H: ObjectTable>(&self, objects: &H) -> bool
        ensures { IsTrue result ↔ MayHoldIdle H.table objects.now (service_of self.now).work }
    {
        let held = self.connection.held();
        self.work.held_imports() < held.imports || objects.unknown_promises(held.promises) > 0
    }
}

/// Nothing is owed to objects, which may call or not.
fn objects_that(may_call: bool, alloc: Global) -> Dispatcher
    ensures { (link : Link) → work_of result link ≡ begun may_call link }
{
    if may_call {
        Dispatcher::that_call(alloc)
    } else {
        Dispatcher::new(alloc)
    }
}

/// Nothing was sought, if something is.
fn search_if(releases_idle: bool) -> Option<Search>
    ensures { result ≡ first_search releases_idle }
{
    if releases_idle {
        Some(Search::new())
    } else {
        None
    }
}
