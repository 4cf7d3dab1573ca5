//! Lists of what pointers stand for, to be written: texts, data, capabilities, and other lists.

ghost use Rattle.std.specs.Prelude.{◌≡◌, ◌+◌, ◌≤◌, ◌^◌, true, false, [], ◌∷◌, ◌++◌, Err, IfOk, OnOk, OnErr, length};
ghost use Rattle.cp_tree.specs.Node.{Node};
ghost use Rattle.cp_servants.specs.Naming.{pointer_naming, with_named};
ghost use Rattle.cp_interfaces.specs.Tables.{IsFull, may_name, naming};
ghost use Rattle.cp_interfaces.specs.declared.naming_error.NamingError.TheVariants as naming_errors;
ghost use Rattle.cp_builder.specs.Drafts.{bytes_tree, text_tree};
ghost use Rattle.cp_builder.specs.declared.fault.BuildError.TheVariants.{TooLong};
ghost use Rattle.cp_interfaces.specs.Lists.{AddsOne, pointers_tree};

use crate::cap_table_builder::CapTableBuilder;
use crate::naming_error::NamingError;
use crate::target::CallTarget;
use cp_builder::{BuildError, FieldValue, bytes_of, pointers_of, text_of};
use cp_fields::{DataReader, List, TextReader, WrongKind};
use cp_tree::Whole;
use std::alloc::Global;
use std::marker::PhantomData;

/// A list of texts, to be written.
pub struct TextListBuilder {
    alloc: Global,
    pub items: Vec<Whole>,
}

// Not derived, nor are the next ones: a crate that lets one go calls this function, and need not prove the drop of all that it holds.
impl Drop for TextListBuilder {
    fn drop(self) {
        let TextListBuilder { alloc: _, items: _ } = self;
    }
}

impl TextListBuilder {
    /// No text yet.
    pub fn new(alloc: Global) -> TextListBuilder
        ensures { result.items.items ≡ [] }
    {
        TextListBuilder {
            alloc,
            items: Vec::new(alloc),
        }
    }

    /// Adds a copy of a text at the end.
    pub fn push(&mut self, text: &str) -> Result<(), BuildError>
        ensures pushed { OnOk result (self.new.items.items ≡ self.old.items.items ++ text_tree text.now ∷ []) }
        ensures left { OnErr result (self.new.items.items ≡ self.old.items.items) }
        ensures long { result ≡ Err TooLong → 2 ^ 29 ≤ length text.now + 1 }
    {
        self.items.push(text_of(self.alloc, text)?)?;
        Ok(())
    }

    /// The list of them.
    pub fn into_whole(self) -> Result<Whole, BuildError>
        ensures list { IfOk result (λ whole. whole ≡ pointers_tree self.items.items) }
        ensures long { result ≡ Err TooLong → 2 ^ 29 ≤ length self.items.items }
    {
        let TextListBuilder { alloc, items } = self;
        pointers_of(alloc, items)
    }
}

/// A list of data, to be written.
pub struct DataListBuilder {
    alloc: Global,
    pub items: Vec<Whole>,
}

impl Drop for DataListBuilder {
    fn drop(self) {
        let DataListBuilder { alloc: _, items: _ } = self;
    }
}

impl DataListBuilder {
    /// No data yet.
    pub fn new(alloc: Global) -> DataListBuilder
        ensures { result.items.items ≡ [] }
    {
        DataListBuilder {
            alloc,
            items: Vec::new(alloc),
        }
    }

    /// Adds data at the end.
    pub fn push(&mut self, bytes: Vec<u8>) -> Result<(), BuildError>
        ensures pushed { OnOk result (self.new.items.items ≡ self.old.items.items ++ bytes_tree bytes.items ∷ []) }
        ensures left { OnErr result (self.new.items.items ≡ self.old.items.items) }
        ensures long { result ≡ Err TooLong → 2 ^ 29 ≤ length bytes.items }
    {
        self.items.push(bytes_of(bytes)?)?;
        Ok(())
    }

    /// The list of them.
    pub fn into_whole(self) -> Result<Whole, BuildError>
        ensures list { IfOk result (λ whole. whole ≡ pointers_tree self.items.items) }
        ensures long { result ≡ Err TooLong → 2 ^ 29 ≤ length self.items.items }
    {
        let DataListBuilder { alloc, items } = self;
        pointers_of(alloc, items)
    }
}

/// A list of capabilities, to be written.
pub struct CapListBuilder {
    alloc: Global,
    pub items: Vec<Whole>,
}

impl Drop for CapListBuilder {
    fn drop(self) {
        let CapListBuilder { alloc: _, items: _ } = self;
    }
}

impl CapListBuilder {
    /// No capability yet.
    pub fn new(alloc: Global) -> CapListBuilder
        ensures { result.items.items ≡ [] }
    {
        CapListBuilder {
            alloc,
            items: Vec::new(alloc),
        }
    }

    /// Adds a capability at the end, and to the table of the struct whose list it is. Where memory runs out the table may have it
    /// already.
    pub fn push(
        &mut self,
        table: &mut CapTableBuilder,
        target: CallTarget,
    ) -> Result<(), NamingError>
        ensures pushed { OnOk result (self.new.items.items ≡ self.old.items.items ++ pointer_naming table.old.caps target.cap ∷ []) }
        ensures added { OnOk result (table.new ≡ naming table.old target) }
        ensures left { OnErr result (self.new.items.items ≡ self.old.items.items) }
        ensures full { result ≡ Err naming_errors.TooLong → IsFull table.old }
        ensures own { OnOk result (may_name table.old target ≡ true) }
        ensures other { result ≡ Err naming_errors.OtherSession → may_name table.old target ≡ false }
    {
        self.items.push(table.add(target.into_cap())?)?;
        Ok(())
    }

    /// The list of them.
    pub fn into_whole(self) -> Result<Whole, BuildError>
        ensures list { IfOk result (λ whole. whole ≡ pointers_tree self.items.items) }
        ensures long { result ≡ Err TooLong → 2 ^ 29 ≤ length self.items.items }
    {
        let CapListBuilder { alloc, items } = self;
        pointers_of(alloc, items)
    }
}

impl<'a> FieldValue<List<'a, Result<TextReader<'a>, WrongKind>>> for TextListBuilder {
    ghost stands = { λ l t. t ≡ pointers_tree l.items.items };

    ghost is_long = { λ l. 2 ^ 29 ≤ length l.items.items };

    fn into_whole(self, _alloc: Global) -> Result<Whole, BuildError>
        ensures value { IfOk result (λ whole. whole ≡ pointers_tree self.items.items) }
        ensures long { result ≡ Err TooLong → 2 ^ 29 ≤ length self.items.items }
    {
        TextListBuilder::into_whole(self)
    }
}

impl<'a> FieldValue<List<'a, Result<DataReader<'a>, WrongKind>>> for DataListBuilder {
    ghost stands = { λ l t. t ≡ pointers_tree l.items.items };

    ghost is_long = { λ l. 2 ^ 29 ≤ length l.items.items };

    fn into_whole(self, _alloc: Global) -> Result<Whole, BuildError>
        ensures value { IfOk result (λ whole. whole ≡ pointers_tree self.items.items) }
        ensures long { result ≡ Err TooLong → 2 ^ 29 ≤ length self.items.items }
    {
        DataListBuilder::into_whole(self)
    }
}

impl<'a> FieldValue<List<'a, Result<Option<u32>, WrongKind>>> for CapListBuilder {
    ghost stands = { λ l t. t ≡ pointers_tree l.items.items };

    ghost is_long = { λ l. 2 ^ 29 ≤ length l.items.items };

    fn into_whole(self, _alloc: Global) -> Result<Whole, BuildError>
        ensures value { IfOk result (λ whole. whole ≡ pointers_tree self.items.items) }
        ensures long { result ≡ Err TooLong → 2 ^ 29 ≤ length self.items.items }
    {
        CapListBuilder::into_whole(self)
    }
}

/// A list of lists, to be written, each an `L`.
pub struct ListsBuilder<L> {
    alloc: Global,
    pub items: Vec<Whole>,
    of: PhantomData<L>,
}

impl<L> Drop for ListsBuilder<L> {
    fn drop(self) {
        let ListsBuilder {
            alloc: _,
            items: _,
            of: _,
        } = self;
    }
}

impl<L> ListsBuilder<L> {
    /// No list yet.
    pub fn new(alloc: Global) -> ListsBuilder<L>
        ensures { result.items.items ≡ [] }
    {
        ListsBuilder {
            alloc,
            items: Vec::new(alloc),
            of: PhantomData,
        }
    }

    /// Adds a list at the end.
    pub fn push<'a, T>(&mut self, list: L) -> Result<(), BuildError>
    where
        L: FieldValue<List<'a, T>>,
        ensures pushed { OnOk result (AddsOne (L.stands list) self.old.items.items self.new.items.items) }
        ensures left { OnErr result (self.new.items.items ≡ self.old.items.items) }
        ensures long { result ≡ Err TooLong → L.is_long list }
    {
        self.items.push(list.into_whole(self.alloc)?)?;
        Ok(())
    }

    /// The list of them.
    pub fn into_whole(self) -> Result<Whole, BuildError>
        ensures list { IfOk result (λ whole. whole ≡ pointers_tree self.items.items) }
        ensures long { result ≡ Err TooLong → 2 ^ 29 ≤ length self.items.items }
    {
        let ListsBuilder {
            alloc,
            items,
            of: _,
        } = self;
        pointers_of(alloc, items)
    }
}

impl<'a, T, L: FieldValue<List<'a, T>>> FieldValue<List<'a, Result<List<'a, T>, WrongKind>>>
    for ListsBuilder<L> {
    ghost stands = { λ l t. t ≡ pointers_tree l.items.items };

    ghost is_long = { λ l. 2 ^ 29 ≤ length l.items.items };

    fn into_whole(self, _alloc: Global) -> Result<Whole, BuildError>
        ensures value { IfOk result (λ whole. whole ≡ pointers_tree self.items.items) }
        ensures long { result ≡ Err TooLong → 2 ^ 29 ≤ length self.items.items }
    {
        ListsBuilder::into_whole(self)
    }
}
