//! The objects that are to be woken at a time.

ghost use Rattle.std.specs.Prelude.{◌≡◌, None, IfOk, OnOk};
ghost use Rattle.std.specs.FinMap as maps;
ghost use Rattle.cp_objects.specs.Members.{is_later};
ghost use Rattle.cp_objects.specs.Objects.{due_among, first_of, objects_of, next_alarm, ringing, rung, rung_at, woken};

use crate::members::set_alarm;
use crate::objects::{Objects, earlier};
use crate::served_object::ServedObject;
use std::alloc::AllocError;

impl<O: ServedObject<Makes = O>> Objects<O> {
    /// Wakes the objects whose time has come.
    pub(crate) fn wake_due(&mut self) -> Result<(), AllocError>
        ensures { OnOk result (objects_of self.new ≡ woken (objects_of self.old)) }
    {
        let now = self.context.now();
        match self.first_alarm {
            Some(first) if first <= now => self.ring(now),
            _ => Ok(()),
        }
    }

    /// Wakes the objects that are to be woken by this time.
    fn ring(&mut self, now: u64) -> Result<(), AllocError>
        ensures { OnOk result (objects_of self.new ≡ rung_at now (objects_of self.old)) }
    {
        let due = self.due(now)?;
        let first = self.next_alarm(now);
        self.ring_each(&due)?;
        self.first_alarm = first;
        Ok(())
    }

    /// The objects whose time has come, in order.
    fn due(&self, now: u64) -> Result<Vec<u32>, AllocError>
        ensures { IfOk result (λ due. due.items ≡ due_among now (maps.entries self.now.members)) }
    {
        let mut due = Vec::new(self.alloc);
        for (number, member) in self.members.iter() {
            if !is_later(now, member.alarm) {
                due.push(*number)?;
            }
        }
        Ok(due)
    }

    /// The first time that is to come.
    fn next_alarm(&self, now: u64) -> Option<u64>
        ensures { result ≡ next_alarm now None (maps.entries self.now.members) }
    {
        let mut first = None;
        for (_, member) in self.members.iter() {
            first = first_of(now, first, member.alarm);
        }
        first
    }

    /// The times of these objects have come.
    fn ring_each(&mut self, due: &[u32]) -> Result<(), AllocError>
        ensures { OnOk result (objects_of self.new ≡ rung due.now (objects_of self.old)) }
    {
        for number in due {
            self.ring_one(*number)?;
        }
        Ok(())
    }

    /// The time of this object has come.
    fn ring_one(&mut self, number: u32) -> Result<(), AllocError>
        ensures { OnOk result (objects_of self.new ≡ ringing number (objects_of self.old)) }
    {
        set_alarm(&mut self.members, number, None);
        self.awake.insert(number)
    }
}

/// Whether a time, if there is one, is to come yet.
fn is_later(now: u64, time: Option<u64>) -> bool
    ensures { result ≡ is_later now time }
{
    match time {
        Some(time) => now < time,
        None => true,
    }
}

/// The first time that is to come, with one more.
fn first_of(now: u64, first: Option<u64>, time: Option<u64>) -> Option<u64>
    ensures { result ≡ first_of now first time }
{
    match time {
        Some(time) if now < time => Some(earlier(first, time)),
        _ => first,
    }
}
