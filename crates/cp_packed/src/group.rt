//! The packed form, byte by byte: a group of which a part has come (encoding specification,
//! "Packing").

ghost use Rattle.std.specs.Prelude.{◌≡◌, ◌^◌, ◌⊎◌, ◌≢◌, ◌++◌, ◌∷◌, [], ◌<◌, ◌≤◌, ◌↔◌, IfOk, OnOk, IsTrue, length, take, replicate};
ghost use Rattle.std.specs.Int.{from_le_bytes, w64};
ghost use Rattle.cp_packed.specs.Unpacking.{Pending, IsPending, nothing, next, given_by, settled, still, brought, header_of, laid_by, laid, pending_of};

use std::alloc::{AllocError, Global};

/// How many bytes a raw word has.
const WORD: usize = 8;

/// This many words that are all the same.
#[derive(Clone, Copy)]
pub struct Run {
    /// The word that all are.
    pub word: u64,
    /// How many words there are, perhaps none.
    pub count: usize,
}

/// A group of which a part has come.
#[derive(Drop)]
pub struct OpenGroup {
    /// The bytes of it that aren't whole words: its tag and what follows, or those of the next word
    /// of a raw run.
    pub part: Vec<u8>,
    /// How many words of a raw run are still to come.
    pub run: usize,
}

/// How many bytes a group with this tag has, before the further words of a raw run.
pub fn header(tag: u8) -> usize
    ensures { result ≡ header_of tag }
{
    match tag {
        0 => 2,
        255 => 10,
        _ => 1 + tag.count_ones() as usize,
    }
}

/// The bytes of a word that are known from its tag and the first bytes written, up to the first that
/// isn't, and how many these are.
pub fn spread(tag: u8, written: &[u8]) -> ([u8; 8], usize)
    ensures known { take result.1 result.0 ≡ laid_by 8 tag written.now }
    ensures word { from_le_bytes w64 result.0 ≡ from_le_bytes w64 (laid_by 8 tag written.now) }
    ensures count { result.1 ≡ length (laid_by 8 tag written.now) }
{
    let mut bytes = [0; 8];
    let mut bits = tag;
    let mut next = 0;
    for place in 0..8 {
        if bits % 2 == 1 {
            if next == written.len() {
                return (bytes, place);
            }
            bytes[place] = written[next];
            next += 1;
        }
        bits /= 2;
    }
    (bytes, 8)
}

impl OpenGroup {
    /// Nothing of a group.
    pub fn new(alloc: Global) -> OpenGroup
        ensures { pending_of result ≡ nothing }
    {
        OpenGroup {
            part: Vec::new(alloc),
            run: 0,
        }
    }

    /// Nothing of a group has come.
    pub fn is_empty(&self) -> bool
        ensures { IsTrue result ↔ (pending_of self.now ≡ nothing) }
    {
        self.part.is_empty() && self.run == 0
    }

    /// How many bytes it still needs at the least; two, where nothing of it has come.
    pub fn needs(&self) -> usize
        requires { IsPending (pending_of self.now) }
        ensures { result ≡ still self.now.run self.now.part.items }
    {
        if 0 < self.run {
            8 * self.run - self.part.len()
        } else if self.part.is_empty() {
            2
        } else {
            header(self.part[0]) - self.part.len()
        }
    }

    /// Takes one byte, and gives the words that it brings. The error is an allocation failure.
    pub fn take(&mut self, byte: u8) -> Result<Run, AllocError>
        requires { IsPending (pending_of self.old) }
        ensures state { OnOk result (pending_of self.new ≡ next (pending_of self.old) byte) }
        ensures words { IfOk result (λ run. replicate run.count run.word ≡ brought (pending_of self.old) byte) }
        ensures range { IfOk result (λ run. run.word < 2 ^ 64) }
    {
        self.part.push(byte)?;
        if 0 < self.run {
            Ok(self.close_word())
        } else {
            Ok(self.close_header())
        }
    }

    /// Gives a word of a raw run, if it is whole.
    fn close_word(&mut self) -> Run
        requires { 0 < self.old.run }
        ensures state { pending_of self.new ≡ settled self.old.run self.old.part.items }
        ensures words { replicate result.count result.word ≡ given_by self.old.run self.old.part.items }
        ensures range { result.word < 2 ^ 64 }
    {
        if self.part.len() != WORD {
            return Run { word: 0, count: 0 };
        }
        // All eight bytes are written, as under the tag 255.
        let (bytes, _) = spread(255, &self.part);
        self.part.clear();
        self.run -= 1;
        Run {
            word: u64::from_le_bytes(bytes),
            count: 1,
        }
    }

    /// Gives the first words of a group, if they are known.
    fn close_header(&mut self) -> Run
        requires none { self.old.run ≡ 0 }
        requires some { 0 < length self.old.part.items }
        ensures state { pending_of self.new ≡ settled 0 self.old.part.items }
        ensures words { replicate result.count result.word ≡ given_by 0 self.old.part.items }
        ensures range { result.word < 2 ^ 64 }
    {
        let tag = self.part[0];
        if self.part.len() != header(tag) {
            return Run { word: 0, count: 0 };
        }
        let (bytes, _) = spread(tag, &self.part[1..]);
        let count = if tag == 0 {
            self.part[1] as usize + 1
        } else {
            1
        };
        if tag == 255 {
            self.run = self.part[9] as usize;
        }
        self.part.clear();
        Run {
            word: u64::from_le_bytes(bytes),
            count,
        }
    }

    /// The bytes that are certain to come next in the words, and how many these are.
    pub fn laid(&self) -> ([u8; 8], usize)
        requires { IsPending (pending_of self.now) }
        ensures known { take result.1 result.0 ≡ laid (pending_of self.now) }
        ensures count { result.1 ≡ length (laid (pending_of self.now)) }
    {
        if 0 < self.run {
            spread(255, &self.part)
        } else if self.part.is_empty() {
            ([0; 8], 0)
        } else {
            spread(self.part[0], &self.part[1..])
        }
    }
}
