//! The nodes of a request: its files, structs, enums, interfaces and constants.

use crate::annotation::JsonOptions;
use crate::brand::Brand;
use crate::fault::RequestFault;
use crate::field::StructField;
use crate::kind::{Type, type_of};
use crate::load::{Load, load_all, text_of};
use crate::value::{SchemaValue, value_of};
use cp_fields::PointerReader;
use cp_frame::FrameReader;
use cp_reading::View;
use cp_schema_capnp::{
    CodeGeneratorRequestReader, CodeGeneratorRequestRequestedFileImportReader,
    CodeGeneratorRequestRequestedFileReader, EnumerantReader, MethodReader, NodeConstReader,
    NodeInterfaceReader, NodeReader, NodeSourceInfoMemberReader, NodeSourceInfoReader,
    NodeStructReader, NodeWhich, SuperclassReader,
};
use cp_words::{Limits, Segments};
use std::alloc::Global;

/// The types of a request.
pub struct Schema {
    pub nodes: Vec<Node>,
    /// The files that were asked for.
    pub files: Vec<File>,
    pub comments: Vec<Comments>,
}

// Not derived: a crate that lets one go calls this function, and need not prove how each node goes.
impl Drop for Schema {
    fn drop(self) {
        let Schema {
            nodes: _,
            files: _,
            comments: _,
        } = self;
    }
}

/// A file that was asked for.
#[derive(Drop)]
pub struct File {
    pub id: u64,
    /// The files that it imports.
    pub imports: Vec<u64>,
}

/// The comments of a node and of its members, in the order of their numbers.
#[derive(Drop)]
pub struct Comments {
    pub id: u64,
    pub about: String,
    pub members: Vec<String>,
}

/// A node.
#[derive(Drop)]
pub struct Node {
    pub id: u64,
    /// The node that it lies in.
    pub scope: u64,
    /// The path of its file, and after a colon its name with those of the types that it lies in.
    pub title: String,
    pub kind: NodeKind,
}

/// What a node is.
#[derive(Drop)]
pub enum NodeKind {
    File,
    Struct(Structure),
    /// An enum, by its values.
    Enum(Vec<Enumerant>),
    Interface(Interface),
    Const(ConstNode),
    /// An annotation, or what a newer schema.capnp has.
    Other,
}

/// A struct or a group.
#[derive(Drop)]
pub struct Structure {
    pub is_group: bool,
    /// The numbers of its data words and pointers.
    pub words: u16,
    pub pointers: u16,
    /// The number of members of its union; 0 where it has none.
    pub tags: u16,
    /// Where the number of the member is that is set.
    pub tag_place: u32,
    pub fields: Vec<StructField>,
    pub json: JsonOptions,
}

impl Structure {
    /// Whether a field is the member of the union that is set by this number.
    pub(crate) fn is_set(&self, field: &StructField, number: u16) -> bool {
        self.tags > 0 && field.is_member() && field.tag == number
    }
}

/// A value of an enum.
#[derive(Drop)]
pub struct Enumerant {
    pub name: String,
    pub json: JsonOptions,
}

impl Enumerant {
    /// Its name in JSON.
    pub fn json_name(&self) -> &str {
        self.json.name_or(self.name.as_str())
    }
}

/// An interface.
#[derive(Drop)]
pub struct Interface {
    /// The interfaces that it extends.
    pub supers: Vec<u64>,
    pub methods: Vec<Method>,
}

/// A method of an interface.
#[derive(Drop)]
pub struct Method {
    pub name: String,
    pub params: u64,
    pub results: u64,
    /// What the types of its params and results bind.
    pub params_brand: Brand,
    pub results_brand: Brand,
}

/// A constant.
#[derive(Drop)]
pub struct ConstNode {
    pub of: Type,
    pub value: SchemaValue,
}

impl Schema {
    /// The types of the request whose frame is the first of these bytes.
    pub fn read(alloc: Global, bytes: &[u8]) -> Result<Schema, RequestFault> {
        let mut reader = FrameReader::plain(alloc, Limits::standard());
        let frames = reader.feed(bytes)?;
        match frames.first() {
            Some((_, segments)) => schema_of(alloc, segments),
            None => Err(RequestFault::Missing),
        }
    }

    /// The node of this number.
    pub fn find(&self, id: u64) -> Option<&Node> {
        for node in &self.nodes {
            if node.id == id {
                return Some(node);
            }
        }
        None
    }
}

/// The types of the request that a message is.
fn schema_of(alloc: Global, segments: &Segments) -> Result<Schema, RequestFault> {
    // By views that the plugin made of schema.capnp, with the accessors of `only.txt` alone: another one needs a line there.
    let view = View::root(segments, Limits::standard())?;
    let request = CodeGeneratorRequestReader::of(PointerReader::of_view(view))?;
    let loaded = load_request(alloc, &request);
    drop(request);
    loaded
}

/// The same of its view.
fn load_request(
    alloc: Global,
    request: &CodeGeneratorRequestReader<'_>,
) -> Result<Schema, RequestFault> {
    let nodes = load_all(alloc, request.nodes()?)?;
    match load_about(alloc, request) {
        Ok((files, comments)) => Ok(Schema {
            nodes,
            files,
            comments,
        }),
        Err(fault) => {
            drop(nodes);
            Err(fault)
        }
    }
}

/// The files of a request and the comments.
fn load_about(
    alloc: Global,
    request: &CodeGeneratorRequestReader<'_>,
) -> Result<(Vec<File>, Vec<Comments>), RequestFault> {
    let files = load_all(alloc, request.requested_files()?)?;
    match load_comments(alloc, request) {
        Ok(comments) => Ok((files, comments)),
        Err(fault) => {
            drop(files);
            Err(fault)
        }
    }
}

/// The comments of a request.
fn load_comments(
    alloc: Global,
    request: &CodeGeneratorRequestReader<'_>,
) -> Result<Vec<Comments>, RequestFault> {
    load_all(alloc, request.source_info()?)
}

impl Node {
    /// The path of its file.
    pub fn path(&self) -> &str {
        match self.title.as_str().split_once(':') {
            Some((path, _)) => path,
            None => self.title.as_str(),
        }
    }

    /// Its name with those of the types that it lies in, but not its file's.
    pub fn name(&self) -> &str {
        match self.title.as_str().split_once(':') {
            Some((_, name)) => name,
            None => "",
        }
    }
}

impl Node {
    /// The struct or the group that it is.
    pub fn structure(&self) -> Option<&Structure> {
        match &self.kind {
            NodeKind::Struct(of) => Some(of),
            _ => None,
        }
    }
}

impl<'n> Load<NodeReader<'n>> for Node {
    fn load(alloc: Global, view: &NodeReader<'n>) -> Result<Node, RequestFault> {
        let title = text_of(alloc, view.display_name())?;
        Ok(Node {
            id: view.id(),
            scope: view.scope_id(),
            title,
            kind: kind_of(alloc, view)?,
        })
    }
}

/// What a node is.
fn kind_of(alloc: Global, view: &NodeReader<'_>) -> Result<NodeKind, RequestFault> {
    match view.which() {
        NodeWhich::File => Ok(NodeKind::File),
        NodeWhich::Struct => structure_of(alloc, view),
        NodeWhich::Enum => Ok(NodeKind::Enum(load_all(alloc, view.enum_().enumerants()?)?)),
        NodeWhich::Interface => interface_of(alloc, &view.interface()),
        NodeWhich::Const => constant_of(alloc, &view.const_()),
        _ => Ok(NodeKind::Other),
    }
}

/// A struct or a group.
fn structure_of(alloc: Global, node: &NodeReader<'_>) -> Result<NodeKind, RequestFault> {
    let json = JsonOptions::load(alloc, node.annotations())?;
    let view = node.struct_();
    match fields_of(alloc, &view) {
        Ok(fields) => Ok(NodeKind::Struct(Structure {
            is_group: view.is_group(),
            words: view.data_word_count(),
            pointers: view.pointer_count(),
            tags: view.discriminant_count(),
            tag_place: view.discriminant_offset(),
            fields,
            json,
        })),
        Err(fault) => {
            drop(json);
            Err(fault)
        }
    }
}

/// The fields of a struct or a group.
fn fields_of(alloc: Global, view: &NodeStructReader<'_>) -> Result<Vec<StructField>, RequestFault> {
    load_all(alloc, view.fields()?)
}

/// An interface.
fn interface_of(alloc: Global, view: &NodeInterfaceReader<'_>) -> Result<NodeKind, RequestFault> {
    let supers = load_all(alloc, view.superclasses()?)?;
    match methods_of(alloc, view) {
        Ok(methods) => Ok(NodeKind::Interface(Interface { supers, methods })),
        Err(fault) => {
            drop(supers);
            Err(fault)
        }
    }
}

/// The methods of an interface.
fn methods_of(alloc: Global, view: &NodeInterfaceReader<'_>) -> Result<Vec<Method>, RequestFault> {
    load_all(alloc, view.methods()?)
}

/// A constant.
fn constant_of(alloc: Global, view: &NodeConstReader<'_>) -> Result<NodeKind, RequestFault> {
    let of = type_of(&view.type_()?)?;
    Ok(NodeKind::Const(ConstNode {
        of,
        value: value_of(alloc, &view.value()?)?,
    }))
}

impl<'n> Load<EnumerantReader<'n>> for Enumerant {
    fn load(alloc: Global, view: &EnumerantReader<'n>) -> Result<Enumerant, RequestFault> {
        let name = text_of(alloc, view.name())?;
        match JsonOptions::load(alloc, view.annotations()) {
            Ok(json) => Ok(Enumerant { name, json }),
            Err(fault) => {
                drop(name);
                Err(fault)
            }
        }
    }
}

impl<'n> Load<NodeSourceInfoMemberReader<'n>> for String {
    fn load(alloc: Global, view: &NodeSourceInfoMemberReader<'n>) -> Result<String, RequestFault> {
        text_of(alloc, view.doc_comment())
    }
}

impl<'n> Load<CodeGeneratorRequestRequestedFileImportReader<'n>> for u64 {
    fn load(
        _alloc: Global,
        view: &CodeGeneratorRequestRequestedFileImportReader<'n>,
    ) -> Result<u64, RequestFault> {
        Ok(view.id())
    }
}

impl<'n> Load<SuperclassReader<'n>> for u64 {
    fn load(_alloc: Global, view: &SuperclassReader<'n>) -> Result<u64, RequestFault> {
        Ok(view.id())
    }
}

impl<'n> Load<MethodReader<'n>> for Method {
    fn load(alloc: Global, view: &MethodReader<'n>) -> Result<Method, RequestFault> {
        let (params_brand, results_brand) = brands_of(alloc, view)?;
        match text_of(alloc, view.name()) {
            Ok(name) => Ok(Method {
                name,
                params: view.param_struct_type(),
                results: view.result_struct_type(),
                params_brand,
                results_brand,
            }),
            Err(fault) => {
                drop(params_brand);
                drop(results_brand);
                Err(fault)
            }
        }
    }
}

/// What the types of a method's params and results bind.
fn brands_of(alloc: Global, view: &MethodReader<'_>) -> Result<(Brand, Brand), RequestFault> {
    let params = Brand::load(alloc, &view.param_brand()?)?;
    match results_brand_of(alloc, view) {
        Ok(results) => Ok((params, results)),
        Err(fault) => {
            drop(params);
            Err(fault)
        }
    }
}

/// What the type of a method's results binds.
fn results_brand_of(alloc: Global, view: &MethodReader<'_>) -> Result<Brand, RequestFault> {
    Brand::load(alloc, &view.result_brand()?)
}

impl<'n> Load<CodeGeneratorRequestRequestedFileReader<'n>> for File {
    fn load(
        alloc: Global,
        view: &CodeGeneratorRequestRequestedFileReader<'n>,
    ) -> Result<File, RequestFault> {
        Ok(File {
            id: view.id(),
            imports: load_all(alloc, view.imports()?)?,
        })
    }
}

impl<'n> Load<NodeSourceInfoReader<'n>> for Comments {
    fn load(alloc: Global, view: &NodeSourceInfoReader<'n>) -> Result<Comments, RequestFault> {
        let about = text_of(alloc, view.doc_comment())?;
        Ok(Comments {
            id: view.id(),
            about,
            members: load_all(alloc, view.members()?)?,
        })
    }
}
