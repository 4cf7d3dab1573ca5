//! What is kept of an outcome.

ghost use Rattle.std.specs.Prelude.{◌≡◌, IfOk};
ghost use Rattle.cp_tree.specs.NodeOf.{node_of};
ghost use Rattle.cp_refs.specs.Kept.{GiveSame, IsKeptOf, kept_tree, part_at, part_memory, table_in};
ghost use Rattle.cp_refs.specs.Memory.{counted};
ghost use Rattle.cp_refs.specs.Steps.{IsStepOf};

use crate::cap::{Cap, Caps};
use crate::memory::{caps_memory, exception_memory, tree_memory};
use crate::outcome::{Outcome, cap_along, failed, null_capability};
use crate::pointers::pointers_of;
use crate::route::Route;
use crate::values::Step;
use cp_messages::Exception;
use cp_tree::{Tree, TreeRef, Whole};
use std::alloc::{AllocError, Global};
use std::marker::Model;
use std::snapshot::Snapshot;

/// What is kept of an outcome: what it gives at each path, and its capability table. Contracts see it as
/// the outcome itself, whose data isn't kept.
/// The data goes into the Return or to the application, and is copied nowhere. By the snapshot every
/// definition still speaks of the whole outcome.
pub struct KeptOutcome {
    part: Reachable,
    /// It takes no bytes: contracts alone read it.
    outcome: Snapshot<Outcome>,
}

// Not derived: a crate that lets one go calls this function, and need not prove the drop of all that it holds.
impl Drop for KeptOutcome {
    fn drop(self) {
        let KeptOutcome {
            part: _,
            outcome: _,
        } = self;
    }
}

impl Model for KeptOutcome {
    ghost use Rattle.cp_refs.specs.Kept.{IsKeptOf};
    ghost use Rattle.cp_refs.specs.contracts.outcome.Outcome.{the_row};
    ghost use Rattle.cp_refs.specs.declared.outcome.Outcome.{Outcome};

    ghost Value = { Outcome };

    ghost coded = { the_row.coded };

    ghost view = { λ k. k.outcome.value };

    ghost invariant = { λ k. IsKeptOf k.outcome.value k.part };
}

impl KeptOutcome {
    ghost use Rattle.std.specs.Prelude.{◌≡◌, IfOk};
    ghost use Rattle.cp_refs.specs.At.{cap_at};
    ghost use Rattle.cp_refs.specs.Kept.{kept_memory, table_of};
    ghost use Rattle.cp_refs.specs.Memory.{counted};
    ghost use Rattle.cp_refs.specs.Steps.{IsStepOf};

    /// What is to be kept of an outcome. Its data isn't copied.
    pub fn of(alloc: Global, outcome: &Outcome) -> Result<KeptOutcome, AllocError>
        ensures { IfOk result (λ k. k ≡ outcome.now) }
    {
        let part = part_of(alloc, outcome)?;
        let outcome = Snapshot::of(outcome);
        Ok(KeptOutcome { part, outcome })
    }

    /// Its capability table, lent. Where it has none there are no capabilities.
    pub fn caps(&self) -> &[Cap]
        ensures { result.now ≡ table_of self.now }
    {
        table_in(&self.part)
    }

    /// What it gives at a path of pointer fields (rpc.capnp, `PromisedAnswer.transform`): of results the
    /// capability there, of an exception one that fails with it.
    pub fn at(&self, alloc: Global, path: &[u16]) -> Result<Cap, AllocError>
        ensures { IfOk result (λ c. c ≡ cap_at self.now path.now) }
    {
        part_at(alloc, &self.part, path)
    }

    /// The bytes of memory that it takes.
    pub fn memory(&self) -> u64
        ensures { result ≡ counted (kept_memory self.now) }
    {
        part_memory(&self.part)
    }

    /// The step of what it gives at a path.
    pub(crate) fn step(&self, alloc: Global, path: &[u16]) -> Result<Step<'_>, AllocError>
        ensures { IfOk result (IsStepOf (cap_at self.now path.now)) }
    {
        step_of_part(alloc, &self.part, path)
    }
}

/// What of an outcome gives capabilities.
#[derive(Drop)]
enum Reachable {
    /// Of results the structs and capabilities of their content, and their capability table.
    Results { pointers: Tree, caps: Caps },
    Failed(Exception),
    Canceled,
}

fn part_of(alloc: Global, outcome: &Outcome) -> Result<Reachable, AllocError>
    ensures { IfOk result (IsKeptOf outcome.now) }
{
    Ok(match outcome {
        Outcome::Results { content, caps } => Reachable::Results {
            pointers: pointers_in(alloc, content, caps)?,
            caps: caps.copy(alloc)?,
        },
        Outcome::Failed(exception) => Reachable::Failed(exception.copy(alloc)?),
        Outcome::Canceled => Reachable::Canceled,
    })
}

/// The pointers of a content. Where there are no capabilities it isn't looked at.
fn pointers_in(alloc: Global, content: &Whole, caps: &Caps) -> Result<Tree, AllocError>
    ensures gives { IfOk result (λ t. GiveSame caps.now (node_of t) content.now) }
    ensures kept { IfOk result (λ t. node_of t ≡ kept_tree caps.now content.now) }
{
    if caps.caps().is_empty() {
        return Ok(Tree::Null);
    }
    let pointers = pointers_of(alloc, content.tree())?;
    Ok(pointers)
}

fn part_memory(part: &Reachable) -> u64
    ensures { result ≡ counted (part_memory part.now) }
{
    match part {
        Reachable::Results { pointers, caps } => {
            tree_memory(TreeRef::Tree(pointers)).saturating_add(caps_memory(caps))
        }
        Reachable::Failed(exception) => exception_memory(exception),
        Reachable::Canceled => 0,
    }
}

fn table_in(part: &Reachable) -> &[Cap]
    ensures { result.now ≡ table_in part.now }
{
    match part {
        Reachable::Results { caps, .. } => caps.caps(),
        Reachable::Failed(_) | Reachable::Canceled => &[],
    }
}

fn part_at(alloc: Global, part: &Reachable, path: &[u16]) -> Result<Cap, AllocError>
    ensures { IfOk result (λ c. c ≡ part_at part.now path.now) }
{
    match part {
        Reachable::Results { pointers, caps } => match cap_along(pointers, caps, path) {
            Some(cap) => cap.copy(alloc),
            None => Ok(Cap::None),
        },
        Reachable::Failed(exception) => Ok(Cap::Broken(exception.copy(alloc)?)),
        Reachable::Canceled => Ok(Cap::Broken(failed(alloc, "canceled")?)),
    }
}

fn step_of_part<'a>(
    alloc: Global,
    part: &'a Reachable,
    path: &[u16],
) -> Result<Step<'a>, AllocError>
    ensures { IfOk result (IsStepOf (part_at part.now path.now)) }
{
    match part {
        Reachable::Results { pointers, caps } => match cap_along(pointers, caps, path) {
            Some(cap) => Ok(Step::Leads(cap)),
            None => Ok(Step::Ends(Route::Fail(null_capability(alloc)?))),
        },
        Reachable::Failed(exception) => Ok(Step::Ends(Route::Fail(exception.copy(alloc)?))),
        Reachable::Canceled => Ok(Step::Ends(Route::Fail(failed(alloc, "canceled")?))),
    }
}
