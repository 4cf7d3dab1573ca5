//! What changes of the objects of a connection.

ghost use Rattle.std.specs.Prelude.{◌≡◌, ◌≢◌, ◌∷◌, ◌++◌, [], true, false, IfOk, OnOk, drop, nat_lt, slice_get};
ghost use Rattle.cp_tables.specs.Table.{with_change};
ghost use Rattle.cp_objects.specs.Counts.{those_in, times};
ghost use Rattle.cp_objects.specs.Members.{has_call, held_in, next_calls_of, not_to_call, to_call, waiting_less, without_next_calls};
ghost use Rattle.cp_objects.specs.Numbers.{is_among, without, without_each};

use crate::call_queue::CallQueue;
use crate::numbers::Numbers;
use crate::object_entry::ObjectEntry;
use cp_servants::OutgoingCall;
use cp_tables::Entries;
use cp_vat_machine::Ids;
use std::alloc::{AllocError, Global};
use std::mem;

/// An object keeps another once more.
pub(crate) fn keep<O>(
    members: &mut Entries<ObjectEntry<O>>,
    number: u32,
    kept: u32,
) -> Result<(), AllocError>
    ensures { OnOk result (members.new ≡ with_change members.old number (λ m. record m { keeps = m.keeps ++ kept ∷ [] })) }
{
    match members.get_mut(number) {
        Some(member) => member.keeps.add(kept),
        None => Ok(()),
    }
}

/// An object keeps another once less.
pub(crate) fn give_up<O>(members: &mut Entries<ObjectEntry<O>>, number: u32, kept: u32)
    ensures { members.new ≡ with_change members.old number (λ m. record m { keeps = without kept m.keeps }) }
{
    if let Some(member) = members.get_mut(number) {
        member.keeps.remove(kept);
    }
}

/// An object gives up imports that it held.
pub(crate) fn let_go<O>(members: &mut Entries<ObjectEntry<O>>, number: u32, imports: &[u32])
    ensures { members.new ≡ with_change members.old number (λ m. record m { holds = without_each imports.now m.holds }) }
{
    if let Some(member) = members.get_mut(number) {
        member.holds.remove_each(imports);
    }
}

/// Those of these imports that an object holds, each as often as it does at most.
pub(crate) fn held_of<O>(
    alloc: Global,
    members: &Entries<ObjectEntry<O>>,
    number: u32,
    imports: &[u32],
) -> Result<Ids, AllocError>
    ensures { IfOk result (λ held. held ≡ those_in imports.now (held_in number members.now)) }
{
    match members.get(number) {
        Some(member) => member.holds.those_of(alloc, imports),
        None => Numbers::new(alloc).those_of(alloc, imports),
    }
}

/// Whether an object holds an import.
pub(crate) fn holds<O>(members: &Entries<ObjectEntry<O>>, number: u32, import: u32) -> bool
    ensures { result ≡ is_among import (held_in number members.now) }
{
    match members.get(number) {
        Some(member) => member.holds.contains(import),
        None => false,
    }
}

/// Whether an object holds an import more often than once.
pub(crate) fn holds_twice<O>(members: &Entries<ObjectEntry<O>>, number: u32, import: u32) -> bool
    ensures { result ≡ nat_lt 1 (times import (held_in number members.now)) }
{
    match members.get(number) {
        Some(member) => member.holds.times(import) > 1,
        None => false,
    }
}

/// An object holds an import once more.
pub(crate) fn hold<O>(
    members: &mut Entries<ObjectEntry<O>>,
    number: u32,
    import: u32,
) -> Result<(), AllocError>
    ensures { OnOk result (members.new ≡ with_change members.old number (λ m. record m { holds = m.holds ++ import ∷ [] })) }
{
    match members.get_mut(number) {
        Some(member) => member.holds.add(import),
        None => Ok(()),
    }
}

/// An object holds an import once less.
pub(crate) fn give_up_import<O>(members: &mut Entries<ObjectEntry<O>>, number: u32, import: u32)
    ensures { members.new ≡ with_change members.old number (λ m. record m { holds = without import m.holds }) }
{
    if let Some(member) = members.get_mut(number) {
        member.holds.remove(import);
    }
}

/// An object is to make one call more.
pub(crate) fn add_next_call<O>(
    members: &mut Entries<ObjectEntry<O>>,
    number: u32,
    next_call: OutgoingCall,
) -> Result<(), AllocError>
    ensures { OnOk result (members.new ≡ with_change members.old number (to_call next_call)) }
{
    match members.get_mut(number) {
        Some(member) => {
            member.asked = member.asked.saturating_add(1);
            member.next_calls.push(next_call)
        }
        None => {
            drop(next_call);
            Ok(())
        }
    }
}

/// Whether an object is yet to make a call.
pub(crate) fn has_next_call<O>(members: &Entries<ObjectEntry<O>>, number: u32) -> bool
    ensures some { result ≡ true → next_calls_of number members.now ≢ [] }
    ensures none { result ≡ false → next_calls_of number members.now ≡ [] }
{
    match members.get(number) {
        Some(member) => !member.next_calls.is_empty(),
        None => false,
    }
}

/// Takes out the call that an object is to make first, if there is one.
pub(crate) fn take_next_call<O>(
    members: &mut Entries<ObjectEntry<O>>,
    number: u32,
) -> Option<OutgoingCall>
    ensures first { result ≡ slice_get (next_calls_of number members.old) 0 }
    ensures rest { members.new ≡ with_change members.old number (λ m. record m { next_calls = drop 1 m.next_calls }) }
{
    match members.get_mut(number) {
        Some(member) => member.next_calls.pop(),
        None => None,
    }
}

/// Whether an object is yet to make a call of this number.
pub(crate) fn is_to_call<O>(members: &Entries<ObjectEntry<O>>, number: u32, call_id: u64) -> bool
    ensures { result ≡ has_call call_id (next_calls_of number members.now) }
{
    match members.get(number) {
        Some(member) => member.next_calls.has(call_id),
        None => false,
    }
}

/// A call that an object is yet to make isn't made, so it waits for no outcome of it.
pub(crate) fn drop_next_call<O>(members: &mut Entries<ObjectEntry<O>>, number: u32, call_id: u64)
    ensures { members.new ≡ with_change members.old number (not_to_call call_id) }
{
    if let Some(member) = members.get_mut(number) {
        member.next_calls.remove(call_id);
        member.asked = member.asked.saturating_sub(1);
    }
}

/// An object waits for one outcome less.
pub(crate) fn wait_for_one_less<O>(members: &mut Entries<ObjectEntry<O>>, number: u32)
    ensures { members.new ≡ with_change members.old number waiting_less }
{
    if let Some(member) = members.get_mut(number) {
        member.asked = member.asked.saturating_sub(1);
    }
}

/// The calls that an object is yet to make aren't made, so it waits for no outcome of these.
pub(crate) fn drop_next_calls<O>(alloc: Global, members: &mut Entries<ObjectEntry<O>>, number: u32)
    ensures { members.new ≡ with_change members.old number without_next_calls }
{
    if let Some(member) = members.get_mut(number) {
        let next_calls = mem::replace(&mut member.next_calls, CallQueue::new(alloc));
        member.asked = member.asked.saturating_sub(next_calls.len() as u64);
        drop(next_calls);
    }
}

/// An object is to be woken at this time, or at none.
pub(crate) fn set_alarm<O>(members: &mut Entries<ObjectEntry<O>>, number: u32, alarm: Option<u64>)
    ensures { members.new ≡ with_change members.old number (λ m. record m { alarm = alarm }) }
{
    if let Some(member) = members.get_mut(number) {
        member.alarm = alarm;
    }
}
