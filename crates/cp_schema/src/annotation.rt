//! How declarations are written in JSON, by the annotations of json.capnp.

use crate::fault::RequestFault;
use crate::load::text_of;
use cp_fields::{List, StructReader, WrongKind};
use cp_schema_capnp::AnnotationReader;
use std::alloc::Global;

/// The number of `name`.
const NAME: u64 = 0xfa5b_1fd6_1c2e_7c3d;

/// The number of `flatten`.
const FLATTEN: u64 = 0x82d3_e852_af03_36bf;

/// The number of `discriminator`.
const DISCRIMINATOR: u64 = 0xcfa7_94e8_d19a_0162;

/// The number of `base64`.
const BASE64: u64 = 0xd7d8_7945_0a25_3e4b;

/// The number of `hex`.
const HEX: u64 = 0xf061_e22f_0ae5_c7b5;

/// How a field, a struct or an enumerant is written in JSON.
#[derive(Drop)]
pub struct JsonOptions {
    /// Its name, if that isn't its name in the schema.
    pub name: Option<String>,
    /// What the names of its fields begin with, if these stand in its place.
    pub prefix: Option<String>,
    /// How its union is written, if that has names of its own.
    pub discriminator: Option<Discriminator>,
    pub data: DataForm,
}

/// The names by which a union is written.
#[derive(Drop)]
pub struct Discriminator {
    tag: Option<String>,
    value: Option<String>,
}

/// The names by which a union is written, lent.
#[derive(Clone, Copy)]
pub struct UnionNames<'s> {
    /// That under which an object has the name of the member that is set, if it has that.
    pub tag: Option<&'s str>,
    /// That under which it has the value of whichever member is set; none where each has its own.
    pub value: Option<&'s str>,
}

/// How data is written in JSON.
#[derive(Clone, Copy)]
pub enum DataForm {
    Numbers,
    Base64,
    Hex,
}

impl JsonOptions {
    /// The name in JSON of what has this name in the schema.
    pub fn name_or<'s>(&'s self, name: &'s str) -> &'s str {
        match &self.name {
            Some(name) => name.as_str(),
            None => name,
        }
    }

    /// The names by which the union is written of a struct, or of the group of this name.
    pub fn union_names<'s>(&'s self, group: Option<&'s str>) -> UnionNames<'s> {
        let Some(names) = &self.discriminator else {
            return UnionNames {
                tag: None,
                value: None,
            };
        };
        let own = lent(&names.tag);
        UnionNames {
            // Without a name of its own the tag has that of a group whose fields stand in its place.
            tag: if own.is_none() && self.prefix.is_some() {
                group
            } else {
                own
            },
            value: lent(&names.value),
        }
    }

    /// What these annotations say.
    pub(crate) fn load<'n>(
        alloc: Global,
        annotations: Result<List<'n, AnnotationReader<'n>>, WrongKind>,
    ) -> Result<JsonOptions, RequestFault> {
        let annotations = annotations?;
        let mut options = JsonOptions {
            name: None,
            prefix: None,
            discriminator: None,
            data: DataForm::Numbers,
        };
        match options.add_all(alloc, annotations) {
            Ok(()) => Ok(options),
            Err(fault) => {
                drop(options);
                Err(fault)
            }
        }
    }

    /// Adds what annotations say.
    fn add_all<'n>(
        &mut self,
        alloc: Global,
        annotations: List<'n, AnnotationReader<'n>>,
    ) -> Result<(), RequestFault> {
        for annotation in annotations {
            self.add(alloc, &annotation)?;
        }
        Ok(())
    }

    /// Adds what an annotation says.
    fn add(
        &mut self,
        alloc: Global,
        annotation: &AnnotationReader<'_>,
    ) -> Result<(), RequestFault> {
        let value = annotation.value()?;
        match annotation.id() {
            NAME => self.name = Some(text_of(alloc, value.text())?),
            FLATTEN => {
                let options = StructReader::of(value.list())?;
                self.prefix = Some(text_of(alloc, options.text(0))?);
            }
            DISCRIMINATOR => {
                let options = StructReader::of(value.list())?;
                self.discriminator = Some(names_of(alloc, &options)?);
            }
            BASE64 => self.data = DataForm::Base64,
            HEX => self.data = DataForm::Hex,
            _ => {}
        }
        Ok(())
    }
}

/// A text, lent, if there is one.
fn lent(text: &Option<String>) -> Option<&str> {
    match text {
        Some(text) => Some(text.as_str()),
        None => None,
    }
}

/// The names that the options of `discriminator` give.
fn names_of(alloc: Global, options: &StructReader<'_>) -> Result<Discriminator, RequestFault> {
    Ok(Discriminator {
        tag: given_text(alloc, options, 0)?,
        value: given_text(alloc, options, 1)?,
    })
}

/// A text of options, unless its pointer is null.
fn given_text(
    alloc: Global,
    options: &StructReader<'_>,
    place: u32,
) -> Result<Option<String>, RequestFault> {
    if options.pointer(place).is_null() {
        return Ok(None);
    }
    Ok(Some(text_of(alloc, options.text(place))?))
}
