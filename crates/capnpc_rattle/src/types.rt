//! How fields of each type are read and set, by the names of their templates.

use cp_schema::{Base, Slot, Type};

/// The name of a type that isn't one of lists, and the width of its numbers.
pub fn base_of(of: Base) -> (&'static str, u32) {
    match of {
        Base::Void => ("void", 0),
        Base::Bool => ("bool", 1),
        Base::Signed(width) => ("signed", width),
        Base::Unsigned(width) => ("unsigned", width),
        Base::Float(width) => ("float", width),
        Base::Enum(_) => ("enum", 16),
        Base::Text => ("text", 0),
        Base::Data => ("data", 0),
        Base::Struct(_) => ("struct", 0),
        Base::Interface(_) => ("cap", 0),
        Base::AnyPointer => ("any", 0),
    }
}

/// Whether a pointer of this type may be of another kind, as the schema's.
pub fn can_fail(of: Type) -> bool {
    of.lists > 0
        || matches!(
            of.of,
            Base::Text | Base::Data | Base::Struct(_) | Base::Interface(_)
        )
}

/// Whether a value of this type is lent by its message.
pub fn is_lent(of: Type) -> bool {
    of.lists > 0
        || matches!(
            of.of,
            Base::Text | Base::Data | Base::Struct(_) | Base::AnyPointer
        )
}

/// The size of the elements of a list of this type.
pub fn size_of(of: Type) -> &'static str {
    match of.of {
        _ if of.lists > 1 => "Pointer",
        Base::Void => "Void",
        Base::Bool => "Bit",
        Base::Struct(_) => "Composite",
        Base::Text | Base::Data | Base::Interface(_) | Base::AnyPointer => "Pointer",
        _ => match base_of(of.of).1 {
            8 => "Byte",
            16 => "TwoBytes",
            32 => "FourBytes",
            _ => "EightBytes",
        },
    }
}

/// What builds a list of numbers of this width: its name in definitions, and in code.
pub fn elements_of(width: u32) -> (&'static str, &'static str) {
    match width {
        1 => ("bits", "bits"),
        8 => ("bytes", "bytes"),
        16 => ("halves", "two_bytes"),
        32 => ("quads", "four_bytes"),
        _ => ("words", "words"),
    }
}

/// How a field is set.
#[derive(Clone, Copy)]
pub struct Setting {
    /// The name of its templates, but for what is added where it has a default.
    pub form: &'static str,
    /// What kind of value it is set to.
    pub kind: &'static str,
    /// Whether it is a pointer.
    pub points: bool,
    /// Whether it may fail.
    pub fails: bool,
}

/// How a field is set. A pointer's default isn't looked at: null stands for it, and setting replaces all of it.
pub fn setting_of(slot: &Slot) -> Setting {
    let (form, kind) = match (slot.of.lists, slot.of.of) {
        (_, Base::Void | Base::AnyPointer) => ("whole", "pointer"),
        (0, Base::Text) => ("text", "copied"),
        (0, Base::Data) => ("data", "long"),
        (0, Base::Interface(_)) => ("cap", "pointer"),
        (0, Base::Struct(_)) => ("struct", "pointer"),
        (0, of) => (base_of(of).0, "number"),
        (1, Base::Struct(_)) => ("structs", "pointer"),
        (1, Base::Bool | Base::Unsigned(_)) => ("numbers", "long"),
        (1, Base::Enum(_)) => ("enum_list", "slice"),
        (1, Base::Signed(_)) => ("signed_list", "slice"),
        (1, Base::Float(_)) => ("float_list", "slice"),
        (_, Base::Enum(_)) => ("whole", "pointer"),
        _ => ("built", "built"),
    };
    Setting {
        form,
        kind,
        points: kind != "number",
        fails: kind != "number" && kind != "pointer",
    }
}
