//! The members of JSON's objects, as fields of structs and groups.

use crate::given::Given;
use crate::json::push_string;
use crate::nearest::Nearest;
use crate::reader::Reader;
use crate::room::Room;
use crate::token::Token;
use crate::value::{Fields, TextPointer, TextValue};
use cp_schema::{Base, FieldKind, StructField, Structure, UnionNames};
use std::alloc::{AllocError, Global};

/// The deepest that structs may lie in the places of others' fields.
const MOST_FLAT: u32 = 8;

/// What members are fields of: a struct or a group, whose union has these names, by names that begin with a prefix.
#[derive(Clone, Copy)]
pub(crate) struct Shape<'s, 'p> {
    pub(crate) of: &'s Structure,
    pub(crate) names: UnionNames<'s>,
    pub(crate) prefix: &'p [u8],
    /// Whether an object has no other members.
    pub(crate) is_whole: bool,
}

/// What a member is.
#[derive(Clone, Copy)]
enum Member {
    /// The name of the union's member that is set.
    Tag,
    /// The field at this place.
    Field(usize),
    /// A field of the struct or the group at this place, which stands in its place.
    Inner(usize),
    /// A field that is there only where the tag names another member of the union.
    Unset,
    Unknown,
}

impl<'s, 't> Reader<'s, 't> {
    /// An object, as the fields of a struct or a group whose union has these names.
    #[cycle(value)]
    pub(crate) fn object(
        &mut self,
        of: &'s Structure,
        names: UnionNames<'s>,
        into: &mut Fields,
        room: Room,
    ) {
        if !self.is_next(b'{') {
            self.miss("{ and members");
            return;
        }
        let shape = Shape {
            of,
            names,
            prefix: &[],
            is_whole: true,
        };
        let start = self.mark();
        self.members(&shape, start, into, room);
    }

    /// The members of the object that begins at `start`, as fields of this shape.
    #[cycle(value)]
    fn members(&mut self, shape: &Shape<'s, '_>, start: &'t [u8], into: &mut Fields, room: Room) {
        // The tag may stand behind what it tells of.
        let set = self.tagged(shape, start, into);
        self.enter(start);
        let mut given = Given::new(self.alloc, set);
        for place in 0..=self.most() {
            if !self.goes_on(place, b'}', ", or }") {
                break;
            }
            self.member(shape, &mut given, into, room);
        }
        let end = self.mark();
        // Those of inner structs are read by turns of their own, which leave out all others.
        for index in given.inner() {
            if let Some(field) = shape.of.fields.get(*index) {
                self.inner(shape, field, start, into, room);
            }
        }
        self.go_to(end);
    }

    /// A member: its name, and its value.
    #[cycle(value)]
    fn member(&mut self, shape: &Shape<'s, '_>, given: &mut Given, into: &mut Fields, room: Room) {
        let Token::Text(raw) = self.token else {
            self.miss("the name of a member");
            return;
        };
        let name = self.unescaped(raw);
        match self.found(shape, &name, given.set()) {
            Member::Field(index) => self.field_member(shape, index, given, into, room),
            Member::Tag => {
                self.note_tag(shape.of, given);
                self.pass();
            }
            Member::Inner(index) => {
                if given.note_inner(index).is_err() {
                    self.starve();
                }
                self.pass();
            }
            Member::Unset => self.miss_tag(shape),
            Member::Unknown if shape.is_whole => self.miss_name(shape, &name),
            Member::Unknown => self.pass(),
        }
        drop(name);
    }

    /// The member that is the field at this place.
    #[cycle(value)]
    fn field_member(
        &mut self,
        shape: &Shape<'s, '_>,
        index: usize,
        given: &mut Given,
        into: &mut Fields,
        room: Room,
    ) {
        let Some(field) = shape.of.fields.get(index) else {
            return;
        };
        let is_tagged = given.set().is_some();
        self.note(shape.of, given, index, field);
        self.advance();
        self.skip(b':', ":");
        if field.is_member() && !is_tagged {
            self.tag(shape.of, field.tag, into);
        }
        self.content(field, into, room);
    }

    /// The fields of a struct or a group, which stand among the members of the object that begins at `start`.
    #[cycle(value)]
    fn inner(
        &mut self,
        shape: &Shape<'s, '_>,
        field: &'s StructField,
        start: &'t [u8],
        into: &mut Fields,
        room: Room,
    ) {
        let Ok(prefix) = joined(self.alloc, shape.prefix, prefix_of(field)) else {
            self.starve();
            return;
        };
        let (kind, entered) = self.generics.enter(field);
        match (self.inner_shape(field, &kind, &prefix), &kind) {
            (Some(inner), FieldKind::Slot(slot)) => {
                self.inner_pointer(&inner, slot.place, start, into, room)
            }
            (Some(inner), _) => match room.in_group() {
                Some(room) => self.members(&inner, start, into, room),
                None => self.miss("groups that lie no more than 64 deep within one another"),
            },
            (None, _) => self.miss("a struct that the schema has"),
        }
        self.generics.leave(entered);
        drop(prefix);
    }

    /// The same for a struct that is pointer so many.
    #[cycle(value)]
    fn inner_pointer(
        &mut self,
        inner: &Shape<'s, '_>,
        place: u32,
        start: &'t [u8],
        into: &mut Fields,
        room: Room,
    ) {
        let Some(room) = room.inside() else {
            self.miss_depth();
            return;
        };
        let mut fields = self.no_fields(inner.of);
        self.members(inner, start, &mut fields, room);
        let value = TextValue::Struct(fields);
        self.push(&mut into.values, TextPointer { place, value });
    }

    /// The member of the union that the tag names in the object that begins at `start`. It is noted.
    fn tagged(
        &mut self,
        shape: &Shape<'s, '_>,
        start: &'t [u8],
        into: &mut Fields,
    ) -> Option<usize> {
        let tag = shape.names.tag?;
        self.enter(start);
        for place in 0..=self.most() {
            if !self.goes_on(place, b'}', ", or }") {
                break;
            }
            if self.is_named(shape.prefix, tag) {
                self.advance();
                self.skip(b':', ":");
                return self.tag_value(shape.of, into);
            }
            self.pass();
        }
        None
    }

    /// The place of the union's member that is named next. It is noted.
    fn tag_value(&mut self, of: &Structure, into: &mut Fields) -> Option<usize> {
        let Token::Text(raw) = self.token else {
            self.miss("the name of a member of the union");
            return None;
        };
        let name = self.unescaped(raw);
        let found = of.fields.iter().position(|field| field.is_member()
            && field.json_name().as_bytes() == name.as_slice());
        match found.and_then(|index| of.fields.get(index)) {
            Some(field) => self.tag(of, field.tag, into),
            None => self.miss_union(of, &name),
        }
        drop(name);
        found
    }

    /// Whether the name of a member is next that is this one after a prefix.
    fn is_named(&mut self, prefix: &[u8], own: &str) -> bool {
        let Token::Text(raw) = self.token else {
            return false;
        };
        let name = self.unescaped(raw);
        let is_own = name.strip_prefix(prefix) == Some(own.as_bytes());
        drop(name);
        is_own
    }

    /// What the member of this name is, where the field at the place `set` is the union's member that is set.
    fn found(&mut self, shape: &Shape<'s, '_>, name: &[u8], set: Option<usize>) -> Member {
        match name.strip_prefix(shape.prefix) {
            Some(own) => self.find(shape, own, set, MOST_FLAT),
            None => Member::Unknown,
        }
    }

    /// The bytes of a string. Where it isn't one of JSON, ends the reading here.
    pub(crate) fn unescaped(&mut self, raw: &[u8]) -> Vec<u8> {
        let mut bytes = Vec::new(self.alloc);
        match push_string(&mut bytes, raw) {
            Ok(true) => {}
            Ok(false) => self.miss("a string of JSON"),
            Err(_) => self.starve(),
        }
        bytes
    }

    /// Goes past a member: its name, and its value of any kind.
    fn pass(&mut self) {
        if !matches!(self.token, Token::Text(_)) {
            self.miss("the name of a member");
        }
        self.advance();
        self.skip(b':', ":");
        let mut depth = 0_usize;
        for _ in 0..=self.most() {
            match self.token {
                Token::Mark(b'{' | b'[') => depth = depth.saturating_add(1),
                Token::Mark(b'}' | b']') => depth = depth.saturating_sub(1),
                Token::End | Token::Open => self.miss("a value"),
                _ => {}
            }
            self.advance();
            if depth == 0 || !self.is_right() {
                break;
            }
        }
    }

    /// Goes to the first member of the object that begins at `start`.
    fn enter(&mut self, start: &'t [u8]) {
        self.go_to(start);
        self.skip(b'{', "{ and members");
    }

    /// Notes that the tag is given, unless it is already.
    fn note_tag(&mut self, of: &Structure, given: &mut Given) {
        // It is a member beside the fields.
        match given.note(of.fields.len(), false) {
            Ok(None) => {}
            Ok(Some(_)) => self.miss("a member that isn't given yet"),
            Err(_) => self.starve(),
        }
    }

    /// Ends the reading here, where the tag doesn't name the member of the union whose value this is.
    fn miss_tag(&mut self, shape: &Shape<'s, '_>) {
        let tag = shape.names.tag.unwrap_or("");
        let mut wanted = String::new(self.alloc);
        match write!(wanted, "a member of the union that {tag} names") {
            Ok(()) => self.miss_made(Ok(wanted)),
            Err(_) => self.starve(),
        }
    }

    /// Ends the reading here, where a member of the union is wanted and there is another name.
    fn miss_union(&mut self, of: &Structure, name: &[u8]) {
        let mut nearest = Nearest::new(self.alloc, name);
        for field in &of.fields {
            if field.is_member() {
                nearest.add(field.json_name());
            }
        }
        let wanted = nearest.wanted("a member of the union");
        drop(nearest);
        self.miss_made(wanted);
    }

    /// Ends the reading here, where a member is wanted and there is another name.
    fn miss_name(&mut self, shape: &Shape<'s, '_>, name: &[u8]) {
        let mut nearest = Nearest::new(self.alloc, name);
        add_name(&mut nearest, shape.names.tag);
        add_name(&mut nearest, shape.names.value);
        self.add_names(&mut nearest, shape.of, MOST_FLAT);
        let wanted = nearest.wanted("a member");
        drop(nearest);
        self.miss_made(wanted);
    }

    /// Adds the names of a struct's fields, and of those that stand in the places of these under their own names.
    fn add_names(&mut self, nearest: &mut Nearest<'_, 's>, of: &'s Structure, depth: u32) {
        for field in &of.fields {
            let (kind, entered) = self.generics.enter(field);
            match self.inner_shape(field, &kind, &[]) {
                None => nearest.add(field.json_name()),
                Some(inner) if depth > 0 && prefix_of(field).is_empty() => {
                    self.add_names(nearest, inner.of, depth - 1)
                }
                Some(_) => {}
            }
            self.generics.leave(entered);
        }
    }

    /// What the member of this name is among those of a shape, with structs in others' places no deeper than this.
    #[cycle(find)]
    fn find(
        &mut self,
        shape: &Shape<'s, '_>,
        name: &[u8],
        set: Option<usize>,
        depth: u32,
    ) -> Member {
        if is(shape.names.tag, name) {
            return Member::Tag;
        }
        if is(shape.names.value, name) {
            return match set {
                Some(index) => Member::Field(index),
                None => Member::Unset,
            };
        }
        let mut found = Member::Unknown;
        for (index, field) in shape.of.fields.iter().enumerate() {
            let is_unset = field.is_member() && set != Some(index);
            if field.json.prefix.is_some() {
                if depth > 0 && self.has_inner(field, name, depth - 1) {
                    found = if is_unset {
                        Member::Unset
                    } else {
                        Member::Inner(index)
                    };
                }
            } else if field.json_name().as_bytes() == name
                && !(field.is_member() && shape.names.value.is_some())
            {
                return Member::Field(index);
            }
            if let Member::Inner(_) = found {
                break;
            }
        }
        found
    }

    /// Whether the member of this name is one of a struct or a group that stands in its place.
    #[cycle(find)]
    fn has_inner(&mut self, field: &'s StructField, name: &[u8], depth: u32) -> bool {
        let Some(own) = name.strip_prefix(prefix_of(field)) else {
            return false;
        };
        let (kind, entered) = self.generics.enter(field);
        let has = match self.inner_shape(field, &kind, &[]) {
            Some(inner) => !matches!(self.find(&inner, own, None, depth), Member::Unknown),
            None => false,
        };
        self.generics.leave(entered);
        has
    }

    /// The shape of the struct or the group whose fields stand in its place, if a field of this kind is one.
    fn inner_shape<'p>(
        &self,
        field: &'s StructField,
        kind: &FieldKind,
        prefix: &'p [u8],
    ) -> Option<Shape<'s, 'p>> {
        let _ = field.json.prefix.as_ref()?;
        let (id, is_group) = match kind {
            FieldKind::Group(id) => (*id, true),
            FieldKind::Slot(slot) => match slot.of.of {
                Base::Struct(id) => (id, false),
                _ => return None,
            },
            FieldKind::Unknown => return None,
        };
        let of = self.structure(id)?;
        Some(Shape {
            of,
            names: if is_group {
                field.union_names()
            } else {
                of.json.union_names(None)
            },
            prefix,
            is_whole: false,
        })
    }
}

/// Adds a name, if there is one.
fn add_name<'k>(nearest: &mut Nearest<'_, 'k>, name: Option<&'k str>) {
    if let Some(name) = name {
        nearest.add(name);
    }
}

/// What the names of a field's own fields begin with.
fn prefix_of(field: &StructField) -> &[u8] {
    match &field.json.prefix {
        Some(prefix) => prefix.as_bytes(),
        None => &[],
    }
}

/// Whether there is a name, and it is this one.
fn is(known: Option<&str>, name: &[u8]) -> bool {
    match known {
        Some(known) => known.as_bytes() == name,
        None => false,
    }
}

/// A prefix after another.
fn joined(alloc: Global, outer: &[u8], inner: &[u8]) -> Result<Vec<u8>, AllocError> {
    let mut prefix = Vec::from_slice(alloc, outer)?;
    prefix.extend_from_slice(inner)?;
    Ok(prefix)
}
