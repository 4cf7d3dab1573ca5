//! Owned trees, read from messages.

ghost use Rattle.std.specs.Prelude.{◌≡◌, ◌<◌, ◌≤◌, ◌+◌, ◌*◌, Err, IfOk, IfErr, ◌≢◌};
ghost use Rattle.cp_reading.specs.Answers.{Answers, IsRefusalOf};
ghost use Rattle.cp_reading.specs.Denotes.{Root};
ghost use Rattle.cp_reading.specs.FirstFault.{IsFirstFault};
ghost use Rattle.cp_reading.specs.declared.fault.TreeFault.{TreeFault};
ghost use Rattle.cp_tree.specs.Node.{Node};
ghost use Rattle.cp_reading.specs.Visited.{pointers};
ghost use Rattle.cp_reading.specs.declared.fault.TreeFault.TheVariants.{OutOfMemory};

use crate::build::whole_of;
use crate::fault::TreeFault;
use crate::view::View;
use crate::visits::Visits;
use cp_tree::Object;
use cp_words::{Limits, Segments};
use std::alloc::Global;
use std::marker::Brand;
use std::sync::ledger::{Blank, Ledger};

/// The message's tree, owned: what word 0 of segment 0 stands for (encoding specification,
/// "Messages"). All that is reachable is checked against the limits before memory is taken. A
/// fault from G1 to G9 is the first in reading order, and names its pointer word; G10 is an
/// allocation failure.
pub fn read_root(alloc: Global, segments: &Segments, limits: Limits) -> Result<Object, TreeFault>
    // What is read is the message's tree.
    ensures found { IfOk result (λ t. Root segments.now limits t) }
    // The message's tree is read, unless memory runs out.
    ensures only { (t : Node) → Root segments.now limits t → Answers result t }
    // A fault is one that the message has, or an allocation failure.
    ensures fault { IfErr result (IsRefusalOf segments.now limits) }
    // It is the message's first in reading order, or an allocation failure.
    ensures first { IfErr result (λ e. e ≢ OutOfMemory → IsFirstFault segments.now limits e) }
    // The message's first fault is reported, whether or not memory would have sufficed.
    ensures reported { (fault : TreeFault) → IsFirstFault segments.now limits fault → result ≡ Err fault }
{
    read_uncounted::<Brand>(alloc, segments, limits, Blank::new(1))
}

/// As `read_root`, and counts each pointer word that it visits: all are gone over once to check
/// them, and once more to build the tree. Words of landing pads aren't counted; a far pointer has at most
/// two.
pub fn read_counted<L: Ledger>(
    alloc: Global,
    segments: &Segments,
    limits: Limits,
    visits: &mut Visits<L>,
) -> Result<Object, TreeFault>
    // What is read is the message's tree.
    ensures found { IfOk result (λ t. Root segments.now limits t) }
    // The message's tree is read, unless memory runs out.
    ensures only { (t : Node) → Root segments.now limits t → Answers result t }
    // A fault is one that the message has, or an allocation failure.
    ensures fault { IfErr result (IsRefusalOf segments.now limits) }
    // It is the message's first in reading order, or an allocation failure.
    ensures first { IfErr result (λ e. e ≢ OutOfMemory → IsFirstFault segments.now limits e) }
    // The message's first fault is reported, whether or not memory would have sufficed.
    ensures reported { (fault : TreeFault) → IsFirstFault segments.now limits fault → result ≡ Err fault }
    // A tree's root word is visited once, and each pointer word below it twice.
    ensures exact { IfOk result (λ t. visits.new ≡ visits.old + 1 + 2 * pointers t) }
    // A refused message has been gone over once, and no further than the traversal limit.
    ensures refused { IfErr result (λ e. e ≢ OutOfMemory → visits.new ≤ visits.old + 1 + limits.traversal) }
    // No pass visits more than one word beyond the traversal limit.
    ensures few { visits.new ≤ visits.old + 2 * (1 + limits.traversal) }
{
    let root = View::root_counted(segments, limits, visits)?;
    // The check takes no memory, so a refused message costs none; the tree is built afterwards.
    match whole_of(alloc, &root, visits)?.into_object() {
        Ok(object) => Ok(object),
        // A root that was checked is a struct.
        Err(_) => unreachable!(),
    }
}

/// As `read_root`, by a count that is dropped.
fn read_uncounted<L: Ledger>(
    alloc: Global,
    segments: &Segments,
    limits: Limits,
    blank: Blank,
) -> Result<Object, TreeFault>
    requires name { blank.name ≡ L.name }
    requires parts { blank.parts ≡ L.parts }
    requires some { 0 < blank.parts }
    ensures found { IfOk result (λ t. Root segments.now limits t) }
    ensures only { (t : Node) → Root segments.now limits t → Answers result t }
    ensures fault { IfErr result (IsRefusalOf segments.now limits) }
    ensures first { IfErr result (λ e. e ≢ OutOfMemory → IsFirstFault segments.now limits e) }
    ensures reported { (fault : TreeFault) → IsFirstFault segments.now limits fault → result ≡ Err fault }
{
    read_counted(alloc, segments, limits, &mut Visits::<L>::new(blank))
}
