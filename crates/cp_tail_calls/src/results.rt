//! Results that no question took yet.

ghost use Rattle.std.specs.Prelude.{◌≡◌};
ghost use Rattle.cp_refs.specs.Memory.{counted};
ghost use Rattle.cp_tail_calls.specs.Results.{descriptor_memory, return_memory, returned_memory, table_memory};

use cp_messages::{CapTable, Descriptor, Return, Returned};
use cp_refs::bytes::{lowered, raised};
use cp_refs::{content_memory, exception_memory};
use cp_tables::Entries;
use std::alloc::{AllocError, Global};
use std::marker::Model;

/// What a descriptor takes itself, with what malloc adds for the block below it.
const PLACE: u64 = 96;

/// Results of calls that no question took yet, by their calls, and how many bytes of memory they take. Contracts see the results
/// alone.
pub(crate) struct UntakenResults {
    returns: Entries<Return>,
    bytes: u64,
}

// Not derived: a function that lets one go calls this one, and need not prove the drop of all that it holds.
impl Drop for UntakenResults {
    fn drop(self) {
        let UntakenResults {
            returns: _,
            bytes: _,
        } = self;
    }
}

impl Model for UntakenResults {
    ghost use Rattle.std.specs.Prelude.{◌≡◌};
    ghost use Rattle.std.specs.Coded.{coded_ℕ};
    ghost use Rattle.std.specs.FinMap as map;
    ghost use Rattle.cp_messages.specs.contracts.returned.Return as returned;
    ghost use Rattle.cp_messages.specs.declared.returned.Return.{Return};
    ghost use Rattle.cp_tables.specs.Table.{Table};
    ghost use Rattle.cp_tail_calls.specs.Results.{returns_memory};

    ghost Value = { Table Return };

    ghost coded = { map.code coded_ℕ returned.the_row.coded };

    ghost view = { λ r. r.returns };

    ghost invariant = { λ r. r.bytes ≡ returns_memory r.returns };
}

impl UntakenResults {
    ghost use Rattle.std.specs.Prelude.{◌≡◌, ◌↔◌, IsSome, IsTrue, OnErr, OnOk, option_copied};
    ghost use Rattle.std.specs.FinMap as map;
    ghost use Rattle.cp_refs.specs.Memory.{counted};
    ghost use Rattle.cp_tail_calls.specs.Results.{memory_at, returns_memory};

    /// No results.
    pub(crate) fn new(alloc: Global) -> UntakenResults
        ensures { result ≡ map.empty }
    {
        UntakenResults {
            returns: Entries::new(alloc),
            bytes: 0,
        }
    }

    /// The bytes of memory that all results take.
    pub(crate) fn memory(&self) -> u64
        ensures { result ≡ returns_memory self.now }
    {
        self.bytes
    }

    /// The results of a call.
    pub(crate) fn get(&self, call: u32) -> Option<&Return>
        ensures { option_copied result ≡ map.get self.now call }
    {
        self.returns.get(call)
    }

    /// Whether there are results of a call.
    pub(crate) fn contains(&self, call: u32) -> bool
        ensures { IsTrue result ↔ IsSome (map.get self.now call) }
    {
        self.returns.contains(call)
    }

    /// Puts the results of a call, in place of earlier ones.
    pub(crate) fn put(&mut self, call: u32, results: Return) -> Result<(), AllocError>
        ensures put { OnOk result (self.new ≡ map.insert self.old call results) }
        ensures err { OnErr result (self.new ≡ self.old) }
    {
        // Counted before they are put, so that what is kept is always counted.
        let others = lowered(self.bytes, self.memory_of(call));
        let bytes = raised(others, return_memory(&results))?;
        self.returns.put(call, results)?;
        self.bytes = bytes;
        Ok(())
    }

    /// Takes the results of a call out.
    pub(crate) fn remove(&mut self, call: u32) -> Option<Return>
        ensures value { result ≡ map.get self.old call }
        ensures removed { self.new ≡ map.remove self.old call }
    {
        self.bytes = lowered(self.bytes, self.memory_of(call));
        self.returns.remove(call)
    }

    /// The bytes of memory that the results of a call take, if there are some.
    fn memory_of(&self, call: u32) -> u64
        ensures { result ≡ counted (memory_at (map.get self.now call)) }
    {
        match self.returns.get(call) {
            Some(results) => return_memory(results),
            None => 0,
        }
    }
}

fn return_memory(results: &Return) -> u64
    ensures { result ≡ counted (return_memory results.now) }
{
    returned_memory(&results.returned)
}

fn returned_memory(returned: &Returned) -> u64
    ensures { result ≡ counted (returned_memory returned.now) }
{
    match returned {
        Returned::Results(payload) => {
            let table = table_memory(&payload.cap_table);
            table.saturating_add(content_memory(&payload.content))
        }
        Returned::Exception(exception) => exception_memory(exception),
        Returned::AcceptFromThirdParty(tree) => content_memory(tree),
        Returned::Canceled
        | Returned::ResultsSentElsewhere
        | Returned::TakeFromOtherQuestion(_)
        | Returned::Unknown(_) => 0,
    }
}

fn table_memory(table: &CapTable) -> u64
    ensures { result ≡ counted (table_memory table.now) }
{
    let descriptors = table.descriptors();
    let mut bytes: u64 = 0;
    for descriptor in descriptors {
        bytes = bytes.saturating_add(descriptor_memory(descriptor));
    }
    bytes
}

fn descriptor_memory(descriptor: &Descriptor) -> u64
    ensures { result ≡ counted (descriptor_memory descriptor.now) }
{
    match descriptor {
        Descriptor::ReceiverAnswer(answer) => {
            let operations = (answer.transform.ops().len() as u64).saturating_mul(4);
            PLACE.saturating_add(operations)
        }
        Descriptor::ThirdPartyHosted(tree) => PLACE.saturating_add(content_memory(tree)),
        Descriptor::None
        | Descriptor::SenderHosted(_)
        | Descriptor::SenderPromise(_)
        | Descriptor::ReceiverHosted(_)
        | Descriptor::Unknown(_) => PLACE,
    }
}
