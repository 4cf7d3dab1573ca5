//! The objects and promises that nothing of their connection refers to.

ghost use Rattle.std.specs.Prelude.{◌≡◌, IfOk, length, nat_lt};
ghost use Rattle.cp_objects.specs.Numbers.{is_number};
ghost use Rattle.cp_objects.specs.Objects.{AreKept, idle_of, is_held, is_idle, is_loose, objects_of, loose_of};

use crate::any_object::AnyObject;
use crate::number_set::{NumberSet, insert_each};
use crate::object_entry::ObjectEntry;
use crate::objects::Objects;
use crate::served_object::ServedObject;
use cp_vat_machine::Ids;
use std::alloc::AllocError;

impl<O: ServedObject<Makes = O>> Objects<O> {
    /// The objects that go unless the connection refers to them, rising.
    pub(crate) fn idle(&self) -> Result<Ids, AllocError>
        ensures { IfOk result (λ idle. idle ≡ idle_of (objects_of self.now)) }
    {
        let kept = self.kept()?;
        let mut idle = Vec::new(self.alloc);
        for (number, member) in self.members.iter() {
            if self.is_idle(&kept, *number, member) {
                idle.push(*number)?;
            }
        }
        Ok(Ids::new(idle))
    }

    /// Whether an object goes, unless the connection refers to it, where objects keep these.
    fn is_idle(&self, kept: &NumberSet, number: u32, member: &ObjectEntry<AnyObject<O>>) -> bool
        ensures { AreKept (objects_of self.now) kept.now → result ≡ is_idle (objects_of self.now) number member.now }
    {
        number >= self.stays
            && member.asked == 0
            && !self.is_forwarder(number)
            && !self.is_held(kept, number)
    }

    /// Whether an object makes the calls that other sessions forward. It stays.
    fn is_forwarder(&self, number: u32) -> bool
        ensures { result ≡ is_number number self.now.forwarder }
    {
        match self.forwarder {
            Some(forwarder) => forwarder == number,
            None => false,
        }
    }

    /// The vat's promises that go unless the vat uses them, rising.
    pub(crate) fn loose_promises(&self) -> Result<Ids, AllocError>
        ensures { IfOk result (λ loose. loose ≡ loose_of (objects_of self.now)) }
    {
        let kept = self.kept()?;
        let mut loose = Vec::new(self.alloc);
        for (id, number) in self.promises.names.iter() {
            if self.is_loose(&kept, *number) {
                loose.push(*id)?;
            }
        }
        Ok(Ids::new(loose))
    }

    /// Whether a promise goes, unless the vat uses it, where objects keep these.
    fn is_loose(&self, kept: &NumberSet, number: u32) -> bool
        ensures { AreKept (objects_of self.now) kept.now → result ≡ is_loose (objects_of self.now) number }
    {
        !self.promises.makers.contains(number) && !self.is_held(kept, number)
    }

    /// Whether an object owes an answer, or made a promise that isn't resolved; or the params of a call that isn't answered name it, or
    /// another keeps it. While an outcome is to be handed out each is held.
    fn is_held(&self, kept: &NumberSet, number: u32) -> bool
        ensures { AreKept (objects_of self.now) kept.now → result ≡ is_held (objects_of self.now) number }
    {
        self.has_settled()
            || self.pending_answers.owes(number)
            || self.param_caps.names(number)
            || kept.contains(number)
    }

    /// Whether an outcome is to be handed out, which may name any.
    fn has_settled(&self) -> bool
        ensures { result ≡ nat_lt 0 (length (objects_of self.now).settled) }
    {
        self.settled.len() > 0
    }

    /// The objects that made a promise which isn't resolved, and the objects and promises that objects keep.
    fn kept(&self) -> Result<NumberSet, AllocError>
        ensures { IfOk result (AreKept (objects_of self.now)) }
    {
        let mut kept = NumberSet::new(self.alloc);
        self.promises.insert_makers(&mut kept)?;
        for (_, member) in self.members.iter() {
            insert_each(&mut kept, member.keeps.numbers())?;
        }
        Ok(kept)
    }
}
