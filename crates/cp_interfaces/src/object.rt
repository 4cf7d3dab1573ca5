//! Objects of interfaces that may make others.

ghost use Rattle.std.specs.Prelude.{IfOk, OnOk};
ghost use Rattle.cp_objects.specs.ServedObject.{ServedObjectKind, any_served_object};
ghost use Rattle.cp_interfaces.specs.Services.{NextCalls, HasEnd, OnCancel, OnResponse, Polls, at};

use crate::fault::MethodFault;
use cp_objects::Context;
use cp_refs::Outcome;
use cp_servants::{OutgoingCall, Settled};

/// An object that has the methods of an interface, and what else a `ServedObject` may do. An object that does nothing but in its methods says
/// what it `Makes`, and `false` of `has_more`. A fault of what isn't a call ends the serving.
pub trait ServiceObject: Drop {
    /// The one type of all objects of the connection.
    type Makes: Drop;

    /// What objects of this kind do, calls aside: what these do is said method by method. Of an object that doesn't say it
    /// nothing is known.
    ghost kind: { ServedObjectKind Self Self.Makes } = { any_served_object };

    /// Says what one of the calls came to that were to be answered later, if any did.
    fn poll(&mut self, context: &mut Context<Self::Makes>) -> Result<Option<Settled>, MethodFault>
        ensures { IfOk result (λ given. Polls kind (at self.old context.old) given (at self.new context.new)) }
    {
        // The contract allows this of every kind, so this body serves any object.
        let _ = context;
        Ok(None)
    }

    /// Whether a further poll may give more, though nothing more comes to the object: `false` for one that gives all as it is called.
    fn has_more(&self) -> bool
        ensures { kind.says_more result self.now };

    /// The next call that the object makes, if it makes one more: it is asked once all calls that it sent (`Context::send`) are made.
    fn next_call(
        &mut self,
        context: &mut Context<Self::Makes>,
    ) -> Result<Option<OutgoingCall>, MethodFault>
        ensures { IfOk result (λ call. NextCalls kind (at self.old context.old) call (at self.new context.new)) }
    {
        let _ = context;
        Ok(None)
    }

    /// What a call of the object's came to, with the call's number. It is dropped here.
    fn on_response(
        &mut self,
        call_id: u64,
        outcome: Outcome,
        context: &mut Context<Self::Makes>,
    ) -> Result<(), MethodFault>
        ensures { OnOk result (OnResponse kind (at self.old context.old) call_id outcome (at self.new context.new)) }
    {
        let _ = (call_id, outcome);
        let _ = context;
        Ok(())
    }

    /// The peer gave a call up that the object is to answer later, and takes no results of it. To stop working for it, drop its
    /// `LaterAnswer` (that of this `ticket`): then nothing is kept of the call. Calls that the peer made on its results fail then.
    fn on_cancel(
        &mut self,
        ticket: u64,
        context: &mut Context<Self::Makes>,
    ) -> Result<(), MethodFault>
        ensures { OnOk result (OnCancel kind (at self.old context.old) ticket (at self.new context.new)) }
    {
        let _ = ticket;
        let _ = context;
        Ok(())
    }

    /// The object goes, as nobody refers to it any more or its connection ended. It may wake others and call; what it makes isn't kept.
    fn ended(&mut self, context: &mut Context<Self::Makes>) -> Result<(), MethodFault>
        ensures { OnOk result (HasEnd kind (at self.old context.old) (at self.new context.new)) }
    {
        let _ = context;
        Ok(())
    }
}
