//! The types of schema.capnp, made by capnpc_rattle.
#![tactic(auto)]

mod annotation;
mod brand;
mod brand_binding;
mod brand_scope;
mod code_generator_request;
mod code_generator_request_requested_file;
mod code_generator_request_requested_file_import;
mod enumerant;
mod field;
mod method;
mod node;
mod node_source_info;
mod node_source_info_member;
mod superclass;
mod type_;
mod value;

pub use annotation::AnnotationReader;
pub use brand::BrandReader;
pub use brand_binding::{BrandBindingReader, BrandBindingWhich};
pub use brand_scope::{BrandScopeReader, BrandScopeWhich};
pub use code_generator_request::CodeGeneratorRequestReader;
pub use code_generator_request_requested_file::CodeGeneratorRequestRequestedFileReader;
pub use code_generator_request_requested_file_import::CodeGeneratorRequestRequestedFileImportReader;
pub use enumerant::EnumerantReader;
pub use field::{
    FieldGroupReader, FieldOrdinalReader, FieldOrdinalWhich, FieldReader, FieldSlotReader,
    FieldWhich,
};
pub use method::MethodReader;
pub use node::{
    NodeConstReader, NodeEnumReader, NodeInterfaceReader, NodeReader, NodeStructReader, NodeWhich,
};
pub use node_source_info::NodeSourceInfoReader;
pub use node_source_info_member::NodeSourceInfoMemberReader;
pub use superclass::SuperclassReader;
pub use type_::{
    TypeAnyPointerParameterReader, TypeAnyPointerReader, TypeAnyPointerWhich, TypeEnumReader,
    TypeInterfaceReader, TypeListReader, TypeReader, TypeStructReader, TypeWhich,
};
pub use value::{ValueReader, ValueWhich};
