//! Trees, as `show` prints them, read.

use crate::reader::Reader;
use cp_tree::{Body, Tree, Whole};

/// The greatest depth of a tree.
const DEPTH: u32 = 64;

/// Trees.
impl<'a> Reader<'a> {
    /// A tree of this depth at most.
    #[cycle(tree)]
    fn tree(&mut self, depth: u32) -> Tree {
        if self.takes("null") {
            return Tree::Null;
        }
        if self.takes("cap:") {
            return Tree::Cap(self.number());
        }
        // A line could nest without end.
        if depth == 0 {
            self.miss("a tree that is less deep");
            return Tree::Null;
        }
        let inner = depth - 1;
        if self.takes("(") {
            Tree::Struct(self.body(inner))
        } else if self.takes("ptrs[") {
            Tree::Ptrs(self.row(inner, "]"))
        } else if self.takes("structs:") {
            self.structs(inner)
        } else {
            self.list()
        }
    }

    /// A struct whose trees have this depth at most, after its bracket.
    #[cycle(tree)]
    fn body(&mut self, depth: u32) -> Body {
        let words = self.words(";");
        let ptrs = self.row(depth, ")");
        Body { words, ptrs }
    }

    /// Trees of this depth at most, up to the row's end.
    #[cycle(tree)]
    fn row(&mut self, depth: u32, end: &'static str) -> Vec<Tree> {
        let mut row = Vec::new(self.alloc);
        for place in 0..=self.most() {
            if !self.goes_on(place, end) {
                break;
            }
            let tree = self.tree(depth);
            self.push(&mut row, tree);
        }
        row
    }

    /// A list of structs whose trees have this depth at most, after its name.
    #[cycle(tree)]
    fn structs(&mut self, depth: u32) -> Tree {
        let words = self.small();
        self.skip(",");
        let ptrs = self.small();
        self.skip("[");
        let mut items = Vec::new(self.alloc);
        for place in 0..=self.most() {
            if !self.goes_on(place, "]") {
                break;
            }
            self.skip("(");
            let item = self.body(depth);
            self.push(&mut items, item);
        }
        Tree::Structs { words, ptrs, items }
    }

    /// A list without pointers.
    fn list(&mut self) -> Tree {
        if self.takes("void:") {
            Tree::Voids(self.number())
        } else if self.takes("bits[") {
            Tree::Bits(self.bits())
        } else if self.takes("bytes[") {
            Tree::Bytes(self.bytes())
        } else if self.takes("halves[") {
            Tree::Halves(self.halves())
        } else if self.takes("quads[") {
            Tree::Quads(self.quads())
        } else if self.takes("words[") {
            Tree::Words(self.words("]"))
        } else {
            self.miss("a tree");
            Tree::Null
        }
    }

    /// Words, up to the row's end.
    fn words(&mut self, end: &'static str) -> Vec<u64> {
        let mut words = Vec::new(self.alloc);
        for place in 0..=self.most() {
            if !self.goes_on(place, end) {
                break;
            }
            let word = self.element(8);
            self.push(&mut words, word);
        }
        words
    }

    /// Elements of four bytes.
    fn quads(&mut self) -> Vec<u32> {
        let mut quads = Vec::new(self.alloc);
        for place in 0..=self.most() {
            if !self.goes_on(place, "]") {
                break;
            }
            let quad = u32::try_from(self.element(4)).unwrap_or(0);
            self.push(&mut quads, quad);
        }
        quads
    }

    /// Elements of two bytes.
    fn halves(&mut self) -> Vec<u16> {
        let mut halves = Vec::new(self.alloc);
        for place in 0..=self.most() {
            if !self.goes_on(place, "]") {
                break;
            }
            let half = u16::try_from(self.element(2)).unwrap_or(0);
            self.push(&mut halves, half);
        }
        halves
    }

    /// Bytes.
    fn bytes(&mut self) -> Vec<u8> {
        let digits = self.digits();
        match hex::decode(self.alloc, digits) {
            Ok(bytes) => {
                self.skip("]");
                bytes
            }
            Err(_) => {
                self.miss("an even number of digits");
                Vec::new(self.alloc)
            }
        }
    }

    /// Bits.
    fn bits(&mut self) -> Vec<bool> {
        let mut bits = Vec::new(self.alloc);
        for _ in 0..=self.most() {
            let before = self.rest();
            match self.byte() {
                Some(b'0') => self.push(&mut bits, false),
                Some(b'1') => self.push(&mut bits, true),
                Some(b']') => return bits,
                _ => self.miss_at(before, "0, 1 or ]"),
            }
        }
        bits
    }

    pub(crate) fn whole(&mut self) -> Whole {
        match Whole::new(self.tree(DEPTH)) {
            Ok(whole) => whole,
            Err(_) => {
                self.miss("a tree that a message can hold");
                Whole::null()
            }
        }
    }
}
