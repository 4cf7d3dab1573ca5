//! Capabilities as numbers.

ghost use Rattle.std.specs.Prelude.{◌≡◌, [], ◌∷◌, ◌++◌, IfOk, IfErr, OnOk};
ghost use Rattle.std.specs.List.{AllZip};
ghost use Rattle.c_handles.specs.Caps.{numbers_of, of_kind, Names, IsNotNamed, AreNotNamed};

use crate::buffer::fill;
use crate::code::CallFault;
use cp_refs::{Cap, Caps, Path, failed};
use std::alloc::{AllocError, Global};

/// The most fields that a path has.
const FIELDS: usize = 16;

/// A capability as the application of one end names it.
#[repr(C)]
#[derive(Clone, Copy, PartialEq, Eq)]
pub struct CapNumbers {
    /// 0 null, 1 an object, 2 a promise of this end, 3 an import, 4 what a question will give at a path, 5 one that fails.
    pub kind: u32,
    /// The object, the promise, the import or the question.
    pub number: u32,
    /// How many fields the path has.
    pub fields: usize,
    /// The path of pointer fields from a question's content on.
    pub path: [u16; FIELDS],
}

impl CapNumbers {
    /// Null.
    pub const NONE: CapNumbers = CapNumbers {
        kind: 0,
        number: 0,
        fields: 0,
        path: [0; FIELDS],
    };

    /// The numbers of a capability: the first 16 fields of a path, which has no more on a connection, and of one that fails only that
    /// it does.
    pub fn of(cap: &Cap) -> CapNumbers
        ensures { result ≡ numbers_of cap.now }
    {
        match cap {
            Cap::None => of_kind(0, 0),
            Cap::Object(object) => of_kind(1, *object),
            Cap::Promise(promise) => of_kind(2, *promise),
            Cap::Import(import) => of_kind(3, *import),
            Cap::Pipelined(question, path) => {
                let mut first = [0; FIELDS];
                let fields = fill(&mut first, path.fields());
                CapNumbers {
                    kind: 4,
                    number: *question,
                    fields,
                    path: first,
                }
            }
            Cap::Broken(_) => of_kind(5, 0),
        }
    }

    /// The capability of these numbers. One that fails does so with the reason `broken`.
    ///
    /// # Errors
    ///
    /// `Argument` where the kind is past 5, or the path past 16 fields; F6.
    pub fn cap(&self, alloc: Global) -> Result<Cap, CallFault>
        ensures named { IfOk result (Names self.now) }
        ensures unnamed { IfErr result (IsNotNamed self.now) }
    {
        match self.kind {
            0 => Ok(Cap::None),
            1 => Ok(Cap::Object(self.number)),
            2 => Ok(Cap::Promise(self.number)),
            3 => Ok(Cap::Import(self.number)),
            4 => {
                if FIELDS < self.fields {
                    return Err(CallFault::Argument);
                }
                let fields = Vec::from_slice(alloc, &self.path[..self.fields])?;
                Ok(Cap::Pipelined(self.number, Path::new(fields)))
            }
            5 => Ok(Cap::Broken(failed(alloc, "broken")?)),
            _ => Err(CallFault::Argument),
        }
    }
}

/// The capabilities of these numbers, in order.
pub(crate) fn caps_of(alloc: Global, table: &[CapNumbers]) -> Result<Caps, CallFault>
    ensures named { IfOk result (AllZip Names table.now) }
    ensures unnamed { IfErr result (AreNotNamed table.now) }
{
    let mut caps = Vec::with_capacity(alloc, table.len())?;
    match name_all(alloc, table, &mut caps) {
        Ok(()) => Ok(Caps::new(caps)),
        Err(fault) => {
            drop(caps);
            Err(fault)
        }
    }
}

/// Puts the capabilities of these numbers into a table that has none, in order.
fn name_all(alloc: Global, table: &[CapNumbers], caps: &mut Vec<Cap>) -> Result<(), CallFault>
    requires none { caps.old.items ≡ [] }
    ensures named { OnOk result (AllZip Names table.now caps.new.items) }
    ensures unnamed { IfErr result (AreNotNamed table.now) }
{
    'naming: for numbers in table {
        let cap = numbers.cap(alloc)?;
        push_cap(caps, cap)?;
    }
    Ok(())
}

/// Puts one more at the end.
fn push_cap(caps: &mut Vec<Cap>, cap: Cap) -> Result<(), AllocError>
    ensures { OnOk result (caps.new.items ≡ caps.old.items ++ cap ∷ []) }
{
    caps.push(cap)?;
    Ok(())
}

/// A kind and a number alone.
fn of_kind(kind: u32, number: u32) -> CapNumbers
    ensures { result ≡ of_kind kind number }
{
    CapNumbers {
        kind,
        number,
        ..CapNumbers::NONE
    }
}
