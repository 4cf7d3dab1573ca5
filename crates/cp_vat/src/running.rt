//! A list of events, done by one vat.

ghost use Rattle.std.specs.Prelude.{◌≡◌, ◌≤◌, [], vec_len, vec_capacity};
ghost use Rattle.cp_vat_machine.specs.Step.{Step};
ghost use Rattle.cp_vat_machine.specs.declared.event.Value.TheVariants as values;
ghost use Rattle.cp_vat_laws.specs.Sizes.{AreWritable};
ghost use Rattle.cp_vat.specs.Running.{Continues, Restates, Runs};
ghost use Rattle.cp_vat.specs.Stepping.{answered, effects_of};

use crate::vat::Vat;
use cp_refs::PromiseId;
use cp_vat_machine::{Acted, Event, Idle, Ran, Value, VatFault};
use std::alloc::Global;

/// Does events in order on a new vat, which gives this object to a Bootstrap, and stops at the first
/// refusal. Capacity for what they give is made before the first; where that is refused, no event is done,
/// and V10 is reported at place 0. What was done is in order: calls on a promise reach what it came to in
/// the order in which they came, each once.
pub fn run(alloc: Global, bootstrap: Option<u32>, events: Vec<Event>) -> Ran
    ensures { Runs bootstrap events.items result.done.items result.refused }
{
    let Ok(mut done) = Vec::with_capacity(alloc, events.len()) else {
        return Ran {
            done: Vec::new(alloc),
            refused: Some((0, VatFault::OutOfMemory)),
        };
    };
    let mut vat = Vat::new(alloc, bootstrap);
    let refused = act_on_all(&mut vat, events, &mut done);
    Ran { done, refused }
}

impl Vat {
    /// Does an event.
    ///
    /// # Errors
    ///
    /// Those of the call that the event is.
    pub fn act(&mut self, event: Event) -> Result<Acted<Value>, VatFault>
        ensures step { Step self.old event (answered (λ value. value) result) (effects_of result) self.new }
        ensures writable { AreWritable (effects_of result) }
    {
        match event {
            Event::Receive(message) => nothing(self.receive(message)),
            Event::Bootstrap => question(self.bootstrap()),
            Event::Call(cap, request) => question(self.call(cap, request)),
            Event::Answer(origin, outcome) => nothing(self.answer(origin, outcome)),
            Event::Promise => promise(self.promise()),
            Event::Resolve(id, cap) => nothing(self.resolve(id, cap)),
            Event::Finish(id) => nothing(self.finish(id)),
            Event::Release(id) => nothing(self.release(id)),
            Event::Forget(id) => nothing(self.forget(id)),
            Event::Idle => idle(self.idle()),
        }
    }
}

/// Does events in order, and stops at the first refusal, whose place and fault it gives.
fn act_on_all(
    vat: &mut Vat,
    events: Vec<Event>,
    done: &mut Vec<Acted<Value>>,
) -> Option<(usize, VatFault)>
    requires none { done.old.items ≡ [] }
    requires capacity { vec_len events ≤ vec_capacity done.old }
    ensures { Continues vat.old events.items done.new.items result }
{
    for event in events {
        match vat.act(event) {
            // Its capacity was made before the first event.
            Ok(acted) => done.push(acted).unwrap(),
            Err(fault) => return Some((done.len(), fault)),
        }
    }
    None
}

/// What a call gave, with its value as one of all.
fn nothing(given: Result<Acted<()>, VatFault>) -> Result<Acted<Value>, VatFault>
    ensures { Restates (λ _. values.Nothing) given result }
{
    let Acted { effects, .. } = given?;
    let value = Value::Nothing;
    Ok(Acted { value, effects })
}

fn question(given: Result<Acted<u32>, VatFault>) -> Result<Acted<Value>, VatFault>
    ensures { Restates (λ q. values.Question q) given result }
{
    let Acted { value, effects } = given?;
    let value = Value::Question(value);
    Ok(Acted { value, effects })
}

fn promise(given: Result<Acted<PromiseId>, VatFault>) -> Result<Acted<Value>, VatFault>
    ensures { Restates (λ p. values.Promise p) given result }
{
    let Acted { value, effects } = given?;
    let value = Value::Promise(value);
    Ok(Acted { value, effects })
}

fn idle(given: Result<Acted<Idle>, VatFault>) -> Result<Acted<Value>, VatFault>
    ensures { Restates (λ i. values.Idle i.imports i.promises) given result }
{
    let Acted { value, effects } = given?;
    let Idle { imports, promises } = value;
    let value = Value::Idle { imports, promises };
    Ok(Acted { value, effects })
}
