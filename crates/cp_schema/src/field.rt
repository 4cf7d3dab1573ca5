//! The fields of structs.

use crate::annotation::{DataForm, JsonOptions, UnionNames};
use crate::brand::Brand;
use crate::fault::RequestFault;
use crate::kind::{Base, Type, type_of};
use crate::load::{Load, text_of};
use crate::value::{SchemaValue, bits_of, value_of};
use cp_schema_capnp::{FieldReader, FieldSlotReader, FieldWhich};
use std::alloc::Global;

/// A field of a struct.
#[derive(Drop)]
pub struct StructField {
    pub name: String,
    /// Its number in the union that it is in; 65,535 where it is in none.
    pub tag: u16,
    /// Its number in the schema, if it isn't a group.
    pub ordinal: u16,
    pub kind: FieldKind,
    /// What its type binds.
    pub brand: Brand,
    pub default: SchemaValue,
    pub json: JsonOptions,
}

/// What a field is.
#[derive(Clone, Copy)]
pub enum FieldKind {
    Slot(Slot),
    /// A group, whose fields this node has.
    Group(u64),
    /// What a newer schema.capnp has.
    Unknown,
}

/// Where a field lies in a struct.
#[derive(Clone, Copy)]
pub struct Slot {
    /// Number or pointer so many of its type.
    pub place: u32,
    pub of: Type,
    /// The bits of its default, if it is a number.
    pub default: u64,
    /// Whether it is a pointer whose default reads otherwise than null.
    pub points: bool,
    /// How JSON has it, if it is data.
    pub data: DataForm,
}

impl StructField {
    /// Whether it is in a union.
    pub fn is_member(&self) -> bool {
        self.tag != 65_535
    }

    /// Whether it has no bits and is no pointer.
    pub(crate) fn is_void(&self) -> bool {
        match &self.kind {
            FieldKind::Slot(slot) => slot.of.lists == 0 && matches!(slot.of.of, Base::Void),
            FieldKind::Group(_) | FieldKind::Unknown => false,
        }
    }

    /// Its name in JSON.
    pub fn json_name(&self) -> &str {
        self.json.name_or(self.name.as_str())
    }

    /// The names by which the union is written of a group.
    pub fn union_names(&self) -> UnionNames<'_> {
        self.json.union_names(Some(self.name.as_str()))
    }
}

impl<'n> Load<FieldReader<'n>> for StructField {
    fn load(alloc: Global, view: &FieldReader<'n>) -> Result<StructField, RequestFault> {
        let default = default_of(alloc, view)?;
        match JsonOptions::load(alloc, view.annotations()) {
            Ok(json) => with_default(alloc, view, default, json),
            Err(fault) => {
                drop(default);
                Err(fault)
            }
        }
    }
}

/// A field with this default, which JSON has so.
fn with_default(
    alloc: Global,
    view: &FieldReader<'_>,
    default: SchemaValue,
    json: JsonOptions,
) -> Result<StructField, RequestFault> {
    match named(alloc, view, &default, json.data) {
        Ok((name, kind, brand)) => Ok(StructField {
            name,
            tag: view.discriminant_value(),
            ordinal: view.ordinal().explicit(),
            kind,
            brand,
            default,
            json,
        }),
        Err(fault) => {
            drop(default);
            drop(json);
            Err(fault)
        }
    }
}

/// The name of a field with this default, what it is, and what its type binds.
fn named(
    alloc: Global,
    view: &FieldReader<'_>,
    default: &SchemaValue,
    data: DataForm,
) -> Result<(String, FieldKind, Brand), RequestFault> {
    let kind = kind_of(view, default, data)?;
    let brand = brand_of(alloc, view)?;
    match text_of(alloc, view.name()) {
        Ok(name) => Ok((name, kind, brand)),
        Err(fault) => {
            drop(brand);
            Err(fault)
        }
    }
}

/// What the type of a field binds.
fn brand_of(alloc: Global, view: &FieldReader<'_>) -> Result<Brand, RequestFault> {
    match view.which() {
        FieldWhich::Slot => Brand::of_type(alloc, &view.slot().type_()?),
        _ => Ok(Brand::none()),
    }
}

/// The default of a field.
fn default_of(alloc: Global, view: &FieldReader<'_>) -> Result<SchemaValue, RequestFault> {
    match view.which() {
        FieldWhich::Slot => value_of(alloc, &view.slot().default_value()?),
        _ => Ok(SchemaValue::Other),
    }
}

/// What a field with this default is.
fn kind_of(
    view: &FieldReader<'_>,
    default: &SchemaValue,
    data: DataForm,
) -> Result<FieldKind, RequestFault> {
    match view.which() {
        FieldWhich::Slot => slot_of(&view.slot(), default, data),
        FieldWhich::Group => Ok(FieldKind::Group(view.group().type_id())),
        FieldWhich::Unknown(_) => Ok(FieldKind::Unknown),
    }
}

/// Where a field with this default lies.
fn slot_of(
    view: &FieldSlotReader<'_>,
    default: &SchemaValue,
    data: DataForm,
) -> Result<FieldKind, RequestFault> {
    let of = type_of(&view.type_()?)?;
    Ok(FieldKind::Slot(Slot {
        place: view.offset(),
        of,
        default: bits_of(&view.default_value()?),
        points: view.had_explicit_default() && default.points(),
        data,
    }))
}
