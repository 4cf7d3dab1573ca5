//! Calls, as methods of objects have them.

ghost use Rattle.std.specs.Prelude.{◌≡◌, [], Some, true, false, IfOk, OnOk, OnErr};
ghost use Rattle.cp_objects.specs.Context.{keeping, keeping_for, context_of, shared_of, sharing};
ghost use Rattle.cp_objects.specs.SessionCap.{IsTakenIf, are_of, is_of};
ghost use Rattle.cp_interfaces.specs.Calls.{import_of};
ghost use Rattle.cp_interfaces.specs.Replies.{given_up, with_import};
ghost use Rattle.cp_interfaces.specs.ServiceCalls.{reply_for};

use crate::call::MethodCall;
use crate::cap_table::CapTable;
use crate::client::TypedClient;
use crate::fault::MethodFault;
use crate::later::LaterAnswer;
use crate::replies::{given_up, refuse, reply};
use crate::results::Results;
use crate::shared::SharedClient;
use crate::target::CallTarget;
use cp_objects::{Context, ReferenceError, SessionCap};
use cp_servants::Reply;
use cp_vat_machine::Ids;
use std::alloc::{AllocError, Global};

/// What a method of an object returns. `Ok` says that its results are written, or that they come later.
pub type MethodResult = Result<(), MethodFault>;

/// A call of a method: its params, and its results, to be written.
pub struct ServiceCall<'c, P, R> {
    pub params: P,
    pub results: R,
    alloc: Global,
    of: &'c MethodCall<'c>,
    /// The imports of the params that the object keeps.
    keeps: Vec<u32>,
    /// Whether a poll will say what it comes to.
    is_later: bool,
}

impl<'c, P, R> ServiceCall<'c, P, R> {
    /// A call with these params, whose results are to be written. The object keeps none of the params yet.
    pub fn new(
        alloc: Global,
        of: &'c MethodCall<'c>,
        params: P,
        results: R,
    ) -> ServiceCall<'c, P, R>
        ensures params { result.params ≡ params }
        ensures results { result.results ≡ results }
        ensures call { result.of.now ≡ of.now }
        ensures nothing { (result.keeps.items ≡ []) × (result.is_later ≡ false) }
    {
        ServiceCall {
            params,
            results,
            alloc,
            of,
            keeps: Vec::new(alloc),
            is_later: false,
        }
    }

    /// The table of the capabilities that its params name.
    pub fn caps(&self) -> CapTable<'_>
        ensures caps { result.caps.now ≡ self.now.of.now.request.caps }
        ensures session { result.session ≡ self.now.of.now.session }
    {
        self.of.caps()
    }

    /// The object keeps this capability of the params, until it says `Context::give_up` of it. All others are given up with the answer: if
    /// they were kept until the object says so, each call could leak.
    pub fn keep<M: Drop>(
        &mut self,
        target: &CallTarget,
        context: &mut Context<M>,
    ) -> Result<(), ReferenceError>
        ensures kept { OnOk result (self.new.keeps.items ≡ with_import (import_of target.now.cap) self.old.keeps.items) }
        ensures noted { OnOk result (context_of context.new ≡ keeping target.now.cap (context_of context.old)) }
        ensures own { IsTakenIf (is_of (context_of context.old).this.session target.now) result }
        ensures left { OnErr result (self.new.keeps.items ≡ self.old.keeps.items) }
        ensures parts { (self.new.params ≡ self.old.params) × (self.new.results ≡ self.old.results) }
        ensures call { (self.new.of.now ≡ self.old.of.now) × (self.new.is_later ≡ self.old.is_later) }
    {
        context.keep(target.cap())?;
        Ok(self.keep_import(target)?)
    }

    /// Another object of the connection, as one that was made just now, keeps this capability of the params until it is dropped.
    pub fn keep_for<M: Drop>(
        &mut self,
        object: &SessionCap,
        target: &CallTarget,
        context: &mut Context<M>,
    ) -> Result<(), ReferenceError>
        ensures kept { OnOk result (self.new.keeps.items ≡ with_import (import_of target.now.cap) self.old.keeps.items) }
        ensures noted { OnOk result (context_of context.new ≡ keeping_for object.now.cap target.now.cap (context_of context.old)) }
        ensures own { IsTakenIf (are_of (context_of context.old).this.session object.now target.now) result }
        ensures left { OnErr result (self.new.keeps.items ≡ self.old.keeps.items) }
        ensures parts { (self.new.params ≡ self.old.params) × (self.new.results ≡ self.old.results) }
        ensures call { (self.new.of.now ≡ self.old.of.now) × (self.new.is_later ≡ self.old.is_later) }
    {
        context.keep_for(object, target.cap())?;
        Ok(self.keep_import(target)?)
    }

    /// A capability of the params as all connections of the host may name it (`Context::share`). It isn't given up with the answer, and the
    /// object needn't give it up: it stays as long as what this gives, or a copy of that.
    pub fn share<C: TypedClient, M: Drop>(
        &mut self,
        client: C,
        context: &mut Context<M>,
    ) -> Result<SharedClient<C>, ReferenceError>
        ensures shared { IfOk result (λ shared. shared.cap ≡ shared_of (C.called client).cap (context_of context.old)) }
        ensures kept { OnOk result (self.new.keeps.items ≡ with_import (import_of (C.called client).cap) self.old.keeps.items) }
        ensures noted { OnOk result (context_of context.new ≡ sharing (C.called client).cap (context_of context.old)) }
        ensures own { IsTakenIf (is_of (context_of context.old).this.session (C.called client)) result }
        ensures left { OnErr result (self.new.keeps.items ≡ self.old.keeps.items) }
        ensures parts { (self.new.params ≡ self.old.params) × (self.new.results ≡ self.old.results) }
        ensures call { (self.new.of.now ≡ self.old.of.now) × (self.new.is_later ≡ self.old.is_later) }
    {
        let target = client.into_target();
        let cap = context.share(target.cap())?;
        self.keep_import(&target)?;
        Ok(SharedClient::new(cap))
    }

    /// The call is answered later, by what this gives: the object, or another of its connection, stores it. What was written of its
    /// results is dropped.
    pub fn later<M: Drop>(&mut self, context: &mut Context<M>) -> Result<LaterAnswer<R>, AllocError>
        ensures ticket { IfOk result (λ later. later.call.ticket ≡ self.old.of.now.ticket) }
        ensures given_up { IfOk result (λ later. later.call.gives_up ≡ given_up self.old.keeps.items self.old.of.now.request.caps) }
        ensures place { context_of context.new ≡ context_of context.old }
        ensures later { OnOk result (self.new.is_later ≡ true) }
        ensures left { OnErr result (self.new.is_later ≡ self.old.is_later) }
        ensures parts { (self.new.params ≡ self.old.params) × (self.new.results ≡ self.old.results) }
        ensures call { (self.new.of.now ≡ self.old.of.now) × (self.new.keeps.items ≡ self.old.keeps.items) }
    {
        let keeps = Ids::new(Vec::from_slice(self.alloc, self.keeps.as_slice())?);
        let gives_up = given_up(self.alloc, &self.of.request.caps, &keeps)?;
        let call = context.later(self.of.ticket, gives_up)?;
        self.is_later = true;
        Ok(LaterAnswer::new(call))
    }

    /// An import isn't given up with the answer.
    fn keep_import(&mut self, target: &CallTarget) -> Result<(), AllocError>
        ensures kept { OnOk result (self.new.keeps.items ≡ with_import (import_of target.now.cap) self.old.keeps.items) }
        ensures left { OnErr result (self.new.keeps.items ≡ self.old.keeps.items) }
        ensures parts { (self.new.params ≡ self.old.params) × (self.new.results ≡ self.old.results) }
        ensures call { (self.new.of.now ≡ self.old.of.now) × (self.new.is_later ≡ self.old.is_later) }
    {
        if let Some(import) = target.import() {
            self.keeps.push(import)?;
        }
        Ok(())
    }
}

impl<P: Drop, R: Results> ServiceCall<'_, P, R> {
    /// What goes to the peer for this call, where its method returned this. `Err`: memory ran out.
    pub fn reply(self, call: &MethodCall<'_>, done: MethodResult) -> Result<Reply, AllocError>
        ensures { IfOk result (λ reply. reply_for R.content R.names call.now.request.caps self.entry done ≡ Some reply) }
    {
        let ServiceCall {
            params,
            results,
            alloc,
            of,
            keeps,
            is_later,
        } = self;
        drop(params);
        match done {
            Ok(()) if is_later => {
                drop(results);
                Ok(Reply::Later)
            }
            Ok(()) => match results.into_outcome(alloc, of.session) {
                Ok(outcome) => reply(alloc, call, outcome, &Ids::new(keeps)),
                Err(fault) => refuse(alloc, call, MethodFault::from(fault)),
            },
            Err(fault) => {
                drop(results);
                refuse(alloc, call, fault)
            }
        }
    }
}
