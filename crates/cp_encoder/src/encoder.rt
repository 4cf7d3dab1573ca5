//! Texts by the struct that each is.

use crate::fault::EncodeFault;
use crate::making::object_of;
use crate::reader::Reader;
use crate::room::Room;
use cp_schema::{Brand, Node, Notation, Schema, Structure};
use cp_tree::Object;
use std::alloc::Global;

/// By what texts are read: a schema, the struct that each text is with what its type binds, and whether it is JSON.
#[derive(Clone, Copy)]
pub struct Encoder<'s> {
    schema: &'s Schema,
    of: &'s Structure,
    brand: Option<&'s Brand>,
    is_json: bool,
}

/// A struct, and the capabilities that its text names, in the notation of scripts and in the order of their numbers.
#[derive(Drop)]
pub struct Encoded {
    pub object: Object,
    pub caps: Vec<String>,
}

impl<'s> Encoder<'s> {
    /// By the struct of this name in a schema, if it has one: its own name after those of the types that it lies in.
    pub fn by_name(schema: &'s Schema, name: &str) -> Option<Encoder<'s>> {
        for node in &schema.nodes {
            if node.name() == name {
                return Encoder::of(schema, node);
            }
        }
        None
    }

    /// By the struct of this number with this brand, if a schema has it.
    pub fn by_number(schema: &'s Schema, id: u64, brand: &'s Brand) -> Option<Encoder<'s>> {
        let encoder = Encoder::of(schema, schema.find(id)?)?;
        Some(Encoder {
            brand: Some(brand),
            ..encoder
        })
    }

    /// The same in this notation.
    pub fn written_as(self, notation: Notation) -> Encoder<'s> {
        Encoder {
            is_json: notation.is_json(),
            ..self
        }
    }

    /// Whether texts are JSON.
    pub fn is_json(&self) -> bool {
        self.is_json
    }

    /// The struct that a text is, which names no capability.
    pub fn object(&self, alloc: Global, text: &[u8]) -> Result<Object, EncodeFault> {
        let Encoded { object, caps: _ } = self.read(alloc, text, None)?;
        Ok(object)
    }

    /// The struct that a text is, with the capabilities that it names.
    pub fn encoded(&self, alloc: Global, text: &[u8]) -> Result<Encoded, EncodeFault> {
        self.read(alloc, text, Some(Vec::new(alloc)))
    }

    /// The struct that a text is, with the capabilities that it names, if it may.
    fn read(
        &self,
        alloc: Global,
        text: &[u8],
        caps: Option<Vec<String>>,
    ) -> Result<Encoded, EncodeFault> {
        let mut reader = Reader::new(alloc, self.schema, self.is_json, text, caps);
        if let Some(brand) = self.brand {
            reader.generics.begin(brand);
        }
        let fields = reader.body(self.of, Room::in_root());
        match reader.end() {
            Ok(caps) => {
                let object = object_of(alloc, &fields);
                drop(fields);
                encoded_of(object, caps)
            }
            Err(fault) => {
                drop(fields);
                Err(fault)
            }
        }
    }

    /// By this node of a schema, if it is a struct.
    fn of(schema: &'s Schema, node: &'s Node) -> Option<Encoder<'s>> {
        Some(Encoder {
            schema,
            of: node.structure()?,
            brand: None,
            is_json: false,
        })
    }
}

/// A struct that is made, with these capabilities.
fn encoded_of(
    object: Result<Object, EncodeFault>,
    caps: Vec<String>,
) -> Result<Encoded, EncodeFault> {
    match object {
        Ok(object) => Ok(Encoded { object, caps }),
        Err(fault) => {
            drop(caps);
            Err(fault)
        }
    }
}
