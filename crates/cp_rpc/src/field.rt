//! The pointer fields of a struct.

ghost use Rattle.std.specs.Prelude.{◌≡◌, length, List, [], ◌∷◌, IfOk, IfErr};
ghost use Rattle.cp_tree.specs.Node.{Node};
ghost use Rattle.cp_tree.specs.Seen.{pointee_of};
ghost use Rattle.cp_messages.specs.Fields.{IsStructField, IsTextField, items_of, struct_faults, list_faults, text_faults};

use crate::source::{Source, SourceKind};
use cp_messages::{Field, SchemaFault};

/// A field of a struct's type: null, or a struct.
#[inline(always)]
pub(crate) fn struct_field<S: Source>(t: &S, i: u32, field: Field) -> Result<S, SchemaFault>
    requires { IsStructField (S.seen t.now) }
    ensures found { IfOk result (λ x. (S.seen x ≡ pointee_of (S.seen t.now) i) × IsStructField (S.seen x)) }
    ensures inside { IfOk result (λ x. (inside : Node → List SchemaFault) → struct_faults field inside (S.seen x) ≡ inside (S.seen x)) }
    ensures fault { IfErr result (λ f. (inside : Node → List SchemaFault) → struct_faults field inside (pointee_of (S.seen t.now) i) ≡ f ∷ []) }
{
    let x = t.pointer(i);
    match x.source_kind() {
        SourceKind::Null | SourceKind::Struct => Ok(x),
        _ => Err(SchemaFault::Kind(field)),
    }
}

/// A field that is a list of structs: null, or a composite list.
#[inline(always)]
pub(crate) fn list_field<S: Source>(t: &S, i: u32, field: Field) -> Result<S, SchemaFault>
    requires { IsStructField (S.seen t.now) }
    ensures found { IfOk result (λ x. S.seen x ≡ pointee_of (S.seen t.now) i) }
    ensures inside { IfOk result (λ x. (inside : List Node → List SchemaFault) → list_faults field inside (S.seen x) ≡ inside (items_of (S.seen x))) }
    ensures fault { IfErr result (λ f. (inside : List Node → List SchemaFault) → list_faults field inside (pointee_of (S.seen t.now) i) ≡ f ∷ []) }
{
    let x = t.pointer(i);
    match x.source_kind() {
        SourceKind::Null | SourceKind::Items(_) => Ok(x),
        _ => Err(SchemaFault::Kind(field)),
    }
}

/// A field of the type Text: null, or a list of bytes that holds a text.
pub(crate) fn text_field<S: Source>(t: &S, i: u32, field: Field) -> Result<S, SchemaFault>
    requires { IsStructField (S.seen t.now) }
    ensures found { IfOk result (λ x. (S.seen x ≡ pointee_of (S.seen t.now) i) × IsTextField (S.seen x)) }
    ensures none { IfOk result (λ x. text_faults field (pointee_of (S.seen t.now) i) ≡ []) }
    ensures fault { IfErr result (λ f. text_faults field (pointee_of (S.seen t.now) i) ≡ f ∷ []) }
{
    let x = t.pointer(i);
    match x.source_kind() {
        SourceKind::Null => Ok(x),
        SourceKind::Bytes(_) => {
            if x.is_text() {
                Ok(x)
            } else {
                Err(SchemaFault::Text(field))
            }
        }
        _ => Err(SchemaFault::Kind(field)),
    }
}

/// The number of elements of a composite list; of any other tree there are none.
#[inline(always)]
pub(crate) fn item_count<S: Source>(t: &S) -> usize
    ensures { result ≡ length (items_of (S.seen t.now)) }
{
    match t.source_kind() {
        SourceKind::Items(count) => count,
        _ => 0,
    }
}
