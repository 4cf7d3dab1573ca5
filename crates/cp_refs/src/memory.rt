//! How many bytes of memory trees, capabilities and what has them take, as they are counted: no less than what they take, and no
//! more than twice that, some tens of bytes of each content aside.

ghost use Rattle.std.specs.Prelude.{◌≡◌};
ghost use Rattle.cp_tree.specs.Lent.{bodies_in, body_in, elements_in, node_in, row_in};
ghost use Rattle.cp_tree.specs.NodeOf.{bodies_of, nodes_of};
ghost use Rattle.cp_refs.specs.Memory.{bodies_memory, caps_memory, counted, elements_memory, exception_memory, gate_memory, path_memory, row_memory, struct_memory, tree_memory};

use crate::call::{Request, WaitingCall};
use crate::cap::{Cap, Caps, Path};
use crate::outcome::Outcome;
use crate::route::Gate;
use cp_messages::Exception;
use cp_tree::{BodiesRef, BodyRef, ListRef, RowRef, Top, TreeRef, Whole};

/// What a tree in a row, an element of a composite list or a capability takes itself, at most 64 bytes, with what malloc adds for the
/// blocks below it.
const PLACE: u64 = 96;

/// What a call that waits takes itself beside its answer or question, with what malloc and the tables add.
const CALL: u64 = 192;

impl Cap {
    ghost use Rattle.std.specs.Prelude.{◌≡◌};
    ghost use Rattle.cp_refs.specs.Memory.{cap_memory, counted};

    /// The bytes of memory that it takes.
    pub fn memory(&self) -> u64
        ensures { result ≡ counted (cap_memory self.now) }
    {
        match self {
            Cap::Pipelined(_, path) => PLACE.saturating_add(path_memory(path)),
            Cap::Broken(exception) => PLACE.saturating_add(exception_memory(exception)),
            Cap::None | Cap::Object(_) | Cap::Promise(_) | Cap::Import(_) => PLACE,
        }
    }
}

impl Request {
    ghost use Rattle.std.specs.Prelude.{◌≡◌};
    ghost use Rattle.cp_refs.specs.Memory.{counted, request_memory};

    /// The bytes of memory that its content and its capability table take.
    pub fn memory(&self) -> u64
        ensures { result ≡ counted (request_memory self.now) }
    {
        content_memory(&self.content).saturating_add(caps_memory(&self.caps))
    }
}

impl WaitingCall {
    ghost use Rattle.std.specs.Prelude.{◌≡◌};
    ghost use Rattle.cp_refs.specs.Contents.{call_memory};
    ghost use Rattle.cp_refs.specs.Memory.{counted};

    /// The bytes of memory that what it asks for and the path that it waits for take.
    pub fn memory(&self) -> u64
        ensures { result ≡ counted (call_memory self.now) }
    {
        let request = CALL.saturating_add(self.request.memory());
        request.saturating_add(gate_memory(&self.gate))
    }
}

impl Outcome {
    ghost use Rattle.std.specs.Prelude.{◌≡◌};
    ghost use Rattle.cp_refs.specs.Memory.{counted, outcome_memory};

    /// The bytes of memory that its content and its capability table take, or its exception.
    pub fn memory(&self) -> u64
        ensures { result ≡ counted (outcome_memory self.now) }
    {
        match self {
            Outcome::Results { content, caps } => {
                content_memory(content).saturating_add(caps_memory(caps))
            }
            Outcome::Failed(exception) => exception_memory(exception),
            Outcome::Canceled => 0,
        }
    }
}

/// The bytes of memory that a content takes.
pub fn content_memory(content: &Whole) -> u64
    ensures { result ≡ counted (tree_memory content.now) }
{
    tree_memory(TreeRef::Tree(content.tree()))
}

/// The bytes of memory that the texts of an exception take.
pub fn exception_memory(exception: &Exception) -> u64
    ensures { result ≡ counted (exception_memory exception.now) }
{
    let reason = exception.reason.as_str().len() as u64;
    reason.saturating_add(exception.trace.as_str().len() as u64)
}

/// What a tree takes beside its own place. Of a list of numbers nothing is looked at but its length.
#[cycle(memory)]
pub(crate) fn tree_memory(tree: TreeRef) -> u64
    ensures { result ≡ counted (tree_memory (node_in tree.entry)) }
{
    match tree.top() {
        Top::Null | Top::Cap(_) => 0,
        Top::List(list) => elements_memory(list),
        Top::Struct(body) => struct_memory(body),
        Top::Ptrs(row) => row_memory(row),
        Top::Structs(list) => bodies_memory(list.items),
    }
}

#[cycle(memory)]
fn struct_memory(body: BodyRef) -> u64
    ensures { result ≡ counted (struct_memory (body_in body.entry)) }
{
    let words = (body.words.len() as u64).saturating_mul(8);
    words.saturating_add(row_memory(body.ptrs))
}

#[cycle(memory)]
fn row_memory(trees: RowRef) -> u64
    ensures { result ≡ counted (row_memory (nodes_of (row_in trees.entry))) }
{
    let mut bytes: u64 = 0;
    for tree in trees {
        let placed = bytes.saturating_add(PLACE);
        bytes = placed.saturating_add(tree_memory(tree));
    }
    bytes
}

#[cycle(memory)]
fn bodies_memory(bodies: BodiesRef) -> u64
    ensures { result ≡ counted (bodies_memory (bodies_of (bodies_in bodies.entry))) }
{
    let mut bytes: u64 = 0;
    for body in bodies {
        let placed = bytes.saturating_add(PLACE);
        bytes = placed.saturating_add(struct_memory(body));
    }
    bytes
}

fn elements_memory(list: ListRef) -> u64
    ensures { result ≡ counted (elements_memory (elements_in list.entry)) }
{
    match list {
        ListRef::Voids(_) => 0,
        ListRef::Bits(items) => items.len() as u64,
        ListRef::Bytes(items) => items.len() as u64,
        ListRef::TwoBytes(items) => (items.len() as u64).saturating_mul(2),
        ListRef::FourBytes(items) => (items.len() as u64).saturating_mul(4),
        ListRef::Words(items) => (items.len() as u64).saturating_mul(8),
    }
}

pub(crate) fn caps_memory(caps: &Caps) -> u64
    ensures { result ≡ counted (caps_memory caps.now) }
{
    let caps = caps.caps();
    let mut bytes: u64 = 0;
    for cap in caps {
        bytes = bytes.saturating_add(cap.memory());
    }
    bytes
}

fn gate_memory(gate: &Gate) -> u64
    ensures { result ≡ counted (gate_memory gate.now) }
{
    match gate {
        Gate::Answer(_, path) | Gate::Question(_, path) => path_memory(path),
        Gate::Promise(_) | Gate::Embargo(_) => 0,
    }
}

fn path_memory(path: &Path) -> u64
    ensures { result ≡ counted (path_memory path.now) }
{
    (path.fields().len() as u64).saturating_mul(2)
}
