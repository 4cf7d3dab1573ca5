//! The types of fields, constants and elements.

use crate::fault::RequestFault;
use cp_schema_capnp::{TypeAnyPointerWhich, TypeReader, TypeWhich};

/// The deepest that lists may lie within one another.
const DEEPEST: u32 = 16;

/// A type: lists of lists, as many as `lists` says, of elements of the type `of`.
#[derive(Clone, Copy)]
pub struct Type {
    pub lists: u32,
    pub of: Base,
    /// The parameter of a generic that it is. Bound to nothing, that is a pointer of any kind, as `of` says.
    pub parameter: Option<Parameter>,
}

/// A parameter of a generic, by the node of that and by its number there.
#[derive(Clone, Copy)]
pub struct Parameter {
    pub scope: u64,
    pub index: u16,
}

/// A type that isn't one of lists. Numbers have their widths in bits, named types their nodes.
#[derive(Clone, Copy)]
pub enum Base {
    Void,
    Bool,
    Signed(u32),
    Unsigned(u32),
    Float(u32),
    Text,
    Data,
    Enum(u64),
    Struct(u64),
    Interface(u64),
    AnyPointer,
}

/// A type.
pub(crate) fn type_of(view: &TypeReader<'_>) -> Result<Type, RequestFault> {
    let (lists, inner) = innermost(view)?;
    Ok(Type {
        lists,
        of: base_of(&inner, inner.which()),
        parameter: parameter_of(&inner),
    })
}

/// As how many lists of lists a type is, and of what.
pub(crate) fn innermost<'n>(view: &TypeReader<'n>) -> Result<(u32, TypeReader<'n>), RequestFault> {
    inside(view, DEEPEST)
}

/// The same of lists no deeper than this.
fn inside<'n>(view: &TypeReader<'n>, deepest: u32) -> Result<(u32, TypeReader<'n>), RequestFault> {
    if deepest == 0 {
        return Err(RequestFault::TooDeep);
    }
    match view.which() {
        TypeWhich::List => {
            let (lists, inner) = inside(&view.list().element_type()?, deepest - 1)?;
            Ok((lists.saturating_add(1), inner))
        }
        _ => Ok((
            0,
            TypeReader {
                body: view.body.reborrow(),
            },
        )),
    }
}

/// The parameter of a generic that a type is.
fn parameter_of(view: &TypeReader<'_>) -> Option<Parameter> {
    if view.which() != TypeWhich::AnyPointer {
        return None;
    }
    let any = view.any_pointer();
    match any.which() {
        TypeAnyPointerWhich::Parameter => {
            let parameter = any.parameter();
            Some(Parameter {
                scope: parameter.scope_id(),
                index: parameter.parameter_index(),
            })
        }
        _ => None,
    }
}

/// A type that isn't one of lists.
fn base_of(view: &TypeReader<'_>, which: TypeWhich) -> Base {
    match which {
        TypeWhich::Void => Base::Void,
        TypeWhich::Bool => Base::Bool,
        TypeWhich::Int8 => Base::Signed(8),
        TypeWhich::Int16 => Base::Signed(16),
        TypeWhich::Int32 => Base::Signed(32),
        TypeWhich::Int64 => Base::Signed(64),
        TypeWhich::Uint8 => Base::Unsigned(8),
        TypeWhich::Uint16 => Base::Unsigned(16),
        TypeWhich::Uint32 => Base::Unsigned(32),
        TypeWhich::Uint64 => Base::Unsigned(64),
        TypeWhich::Float32 => Base::Float(32),
        TypeWhich::Float64 => Base::Float(64),
        TypeWhich::Text => Base::Text,
        TypeWhich::Data => Base::Data,
        TypeWhich::Enum => Base::Enum(view.enum_().type_id()),
        TypeWhich::Struct => Base::Struct(view.struct_().type_id()),
        TypeWhich::Interface => Base::Interface(view.interface().type_id()),
        // Types that a newer schema.capnp has are among these.
        _ => Base::AnyPointer,
    }
}
