//! The bytes that are to be written.

ghost use Rattle.std.specs.Prelude.{◌≡◌, ◌≤◌, [], OnOk, OnErr, length, take, drop, vec_capacity};
ghost use Rattle.cp_words.specs.Limits.{standard};
ghost use Rattle.cp_stream.specs.Write.{IsNotLaidOut, IsUnwrittenFor};
ghost use Rattle.cp_vat_laws.specs.Sizes.{IsWritable};
ghost use Rattle.cp_connection.specs.Effects.{Puts};
ghost use Rattle.cp_connection.specs.Outgoing.{most_spare, most_words};

use cp_frame::Mode;
use cp_rpc::Message;
use cp_stream::{Refusal, put_message};
use cp_tree::WriteFault;
use cp_words::Limits;
use std::alloc::{AllocError, Global};
use std::marker::Model;

/// The most bytes for which an empty block keeps its memory.
/// A larger block goes back to the system: with 1 MiB, results of that size took new pages at each call.
const KEPT: usize = 2_097_152;

/// The most words for which the memory that messages are laid out in is kept: as many bytes.
const KEPT_WORDS: usize = KEPT / 8;

/// Frames that are to be written, of which a front may have been.
#[derive(Drop)]
pub(crate) struct Outgoing {
    alloc: Global,
    block: Vec<u8>,
    /// The bytes of the block that were written.
    written: usize,
    /// Memory in which the next message is laid out. It holds no words.
    words: Vec<u64>,
}

impl Model for Outgoing {
    ghost use Rattle.std.specs.Prelude.{List, ℕ, drop};
    ghost use Rattle.cp_connection.specs.Outgoing.{KeepsLittle};

    ghost Value = { List ℕ };

    ghost view = { λ o. drop o.written o.block.items };

    ghost invariant = { λ o. KeepsLittle o.written o.block o.words };
}

impl Outgoing {
    /// Nothing is to be written.
    pub(crate) fn new(alloc: Global) -> Outgoing
        ensures { result ≡ [] }
    {
        Outgoing {
            alloc,
            block: Vec::new(alloc),
            written: 0,
            words: Vec::new(alloc),
        }
    }

    /// The bytes that weren't written, in order.
    pub(crate) fn bytes(&self) -> &[u8]
        ensures { result.now ≡ self.now }
    {
        &self.block[self.written..]
    }

    /// How many there are.
    pub(crate) fn len(&self) -> usize
        ensures { result ≡ length self.now }
    {
        self.block.len() - self.written
    }

    /// Notes that the first of them were written.
    pub(crate) fn wrote(&mut self, count: usize)
        ensures { self.new ≡ drop count self.old }
    {
        if count < self.len() {
            self.written += count;
        } else {
            // Past the end means all: the count is the device's.
            self.clear();
        }
    }

    /// Puts the frame of a message after them, in one segment within the standard limits. Where it can't be made,
    /// they stay as they were.
    pub(crate) fn put(&mut self, message: &Message, mode: Mode) -> Result<(), AllocError>
        requires writable { IsWritable message.now }
        ensures put { OnOk result (Puts mode message.now self.old self.new) }
        ensures same { OnErr result (self.new ≡ self.old) }
    {
        self.move_up();
        put_after(self.alloc, &mut self.block, &mut self.words, message, mode)
    }

    /// Takes back what was put after the first of them.
    pub(crate) fn truncate(&mut self, length: usize)
        ensures { self.new ≡ take length self.old }
    {
        if length == 0 {
            self.clear();
        } else if length < self.len() {
            self.block.truncate(self.written + length);
        }
    }

    /// Takes all of them away. Little memory stays for later frames.
    fn clear(&mut self)
        ensures { self.new ≡ [] }
    {
        self.written = 0;
        self.block.clear();
        keep_little(self.alloc, &mut self.block, KEPT);
    }

    /// Moves them to the block's front, once more of it was written than is left.
    fn move_up(&mut self)
        ensures { self.new ≡ self.old }
    {
        // Only then, so that each byte moves once on average.
        let left = self.len();
        if left <= self.written {
            self.block.copy_within(self.written.., 0);
            self.block.truncate(left);
            self.written = 0;
        }
    }
}

/// Puts the frame of a message after a block, laid out in the memory of `words`. Where it can't be made, the block
/// stays as it was.
fn put_after(
    alloc: Global,
    block: &mut Vec<u8>,
    words: &mut Vec<u64>,
    message: &Message,
    mode: Mode,
) -> Result<(), AllocError>
    requires writable { IsWritable message.now }
    ensures put { OnOk result (Puts mode message.now block.old.items block.new.items) }
    ensures same { OnErr result (block.new.items ≡ block.old.items) }
    ensures spare { block.new.items ≡ [] → vec_capacity block.new ≤ most_spare }
    ensures words { vec_capacity words.new ≤ most_words }
{
    // A peer need not share this end's own limits, so what goes out keeps to the standard ones.
    let put = put_message(alloc, block, words, message, mode, Limits::standard());
    keep_little(alloc, block, KEPT);
    keep_little(alloc, words, KEPT_WORDS);
    match put {
        Ok(()) => Ok(()),
        Err(refusal) => Err(refusal_fault(refusal, message)),
    }
}

/// Lets the memory of a list without items go, if it has room for more than this many.
fn keep_little<T: Drop>(alloc: Global, list: &mut Vec<T>, most: usize)
    ensures same { list.new.items ≡ list.old.items }
    ensures little { list.new.items ≡ [] → vec_capacity list.new ≤ most }
{
    if list.is_empty() && list.capacity() > most {
        *list = Vec::new(alloc);
    }
}

/// Why a message's frame isn't made: memory ran out.
fn refusal_fault(refusal: Refusal, message: &Message) -> AllocError
    requires writable { IsWritable message.now }
    requires refusal { IsUnwrittenFor standard standard.frame_words 1 message.now refusal }
{
    match refusal {
        Refusal::Frame(_) => AllocError,
        Refusal::Write(fault) => write_fault(fault, message),
        // Only reading refuses so.
        Refusal::Tree(_) | Refusal::Schema(_) => unreachable!(),
    }
}

/// Why a message isn't laid out: memory ran out.
fn write_fault(fault: WriteFault, message: &Message) -> AllocError
    requires writable { IsWritable message.now }
    requires fault { IsNotLaidOut standard standard.frame_words 1 message.now fault }
{
    match fault {
        WriteFault::OutOfMemory => AllocError,
        // Each message of the vat is within the standard limits.
        _ => unreachable!(),
    }
}
