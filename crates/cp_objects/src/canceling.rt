//! Calls that are given up before they are answered.

ghost use Rattle.std.specs.Prelude.{◌≡◌, IfOk, OnOk, IsSome};
ghost use Rattle.std.specs.FinMap as maps;
ghost use Rattle.cp_objects.specs.AnyObject.{any_object};
ghost use Rattle.cp_objects.specs.Canceling.{Cancels, IsToldCancel};
ghost use Rattle.cp_objects.specs.Objects.{giving_up_call, objects_of};

use crate::canceled_call::CanceledCall;
use crate::members::{drop_next_call, is_to_call};
use crate::objects::Objects;
use crate::served_object::ServedObject;
use std::alloc::AllocError;

impl<O: ServedObject<Makes = O>> Objects<O> {
    /// Tells the object that owes the answer of this call that nobody waits for it any more, if there is one. Says which.
    pub(crate) fn cancel(&mut self, ticket: u64) -> Result<Option<u32>, AllocError>
        ensures { IfOk result (λ told. Cancels (any_object O.makes) ticket told (objects_of self.old) (objects_of self.new)) }
    {
        let Some(owner) = self.pending_answers.owner(ticket) else {
            return Ok(None);
        };
        if !self.members.contains(owner) {
            return Ok(None);
        }
        self.tell_cancel(owner, ticket)?;
        Ok(Some(owner))
    }

    /// An object gives up a call of its own, which isn't made, or is to be finished.
    pub(crate) fn give_up_call(&mut self, number: u32, call_id: u64) -> Result<(), AllocError>
        ensures { OnOk result (objects_of self.new ≡ giving_up_call number call_id (objects_of self.old)) }
    {
        if is_to_call(&self.members, number, call_id) {
            drop_next_call(&mut self.members, number, call_id);
            return Ok(());
        }
        self.canceled.push_back(CanceledCall { number, call_id })?;
        Ok(())
    }

    /// Tells an object that a call was given up, and does what it did then.
    fn tell_cancel(&mut self, number: u32, ticket: u64) -> Result<(), AllocError>
        requires { IsSome (maps.get self.old.members number) }
        ensures { OnOk result (IsToldCancel (any_object O.makes) number ticket (objects_of self.old) (objects_of self.new)) }
    {
        self.context.enter(number);
        let member = self.members.entry_mut(number);
        member.object.on_cancel(ticket, &mut self.context)?;
        self.awake.insert(number)?;
        self.settle(number)
    }
}
