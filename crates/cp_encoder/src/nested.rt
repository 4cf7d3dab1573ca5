//! Structs and lists, as they lie within one another.

use crate::given::Given;
use crate::lists::{END, WANTED};
use crate::numbers::{is_pointer, width_of};
use crate::reader::Reader;
use crate::room::Room;
use crate::value::{Fields, TextPointer, TextValue};
use cp_schema::{Base, DataForm, FieldKind, Slot, StructField, Structure, Type, UnionNames};

impl<'s, 't> Reader<'s, 't> {
    /// A struct.
    #[cycle(value)]
    pub(crate) fn body(&mut self, of: &'s Structure, room: Room) -> Fields {
        let mut fields = self.no_fields(of);
        self.fields(of, of.json.union_names(None), &mut fields, room);
        fields
    }

    /// A struct whose fields aren't given.
    pub(crate) fn no_fields(&self, of: &Structure) -> Fields {
        Fields {
            words: of.words,
            pointers: of.pointers,
            numbers: Vec::new(self.alloc),
            values: Vec::new(self.alloc),
        }
    }

    /// What a pointer of this type stands for. Data has this form in JSON.
    #[cycle(value)]
    pub(crate) fn pointer(&mut self, of: Type, data: DataForm, room: Room) -> TextValue {
        if of.lists == 0 && matches!(of.of, Base::Interface(_) | Base::AnyPointer) {
            return self.cap();
        }
        let Some(inner) = room.inside() else {
            self.miss_depth();
            return TextValue::Null;
        };
        if of.lists > 0 {
            let element = Type {
                lists: of.lists.saturating_sub(1),
                ..of
            };
            return self.list(element, inner);
        }
        match of.of {
            Base::Struct(id) => self.inner_struct(id, inner),
            Base::Data => self.data_bytes(data),
            _ => self.text(),
        }
    }

    /// A struct of this node.
    #[cycle(value)]
    fn inner_struct(&mut self, id: u64, room: Room) -> TextValue {
        match self.structure(id) {
            Some(of) => TextValue::Struct(self.body(of, room)),
            None => {
                self.miss("a struct that the schema has");
                TextValue::Null
            }
        }
    }

    /// The fields of a struct or a group, whose union has these names in JSON.
    #[cycle(value)]
    fn fields(&mut self, of: &'s Structure, names: UnionNames<'s>, into: &mut Fields, room: Room) {
        if self.is_json {
            self.object(of, names, into, room);
            return;
        }
        self.skip(b'(', "( and fields");
        let mut given = Given::new(self.alloc, None);
        for place in 0..=self.most() {
            if !self.goes_on(place, b')', ", or )") {
                break;
            }
            self.field(of, &mut given, into, room);
        }
    }

    /// A field: its name, and its value.
    #[cycle(value)]
    fn field(&mut self, of: &'s Structure, given: &mut Given, into: &mut Fields, room: Room) {
        let Some(field) = self.named(of, given) else {
            return;
        };
        self.skip(b'=', "=");
        if field.is_member() {
            self.tag(of, field.tag, into);
        }
        self.content(field, into, room);
    }

    /// The value of a field.
    #[cycle(value)]
    pub(crate) fn content(&mut self, field: &'s StructField, into: &mut Fields, room: Room) {
        let (kind, entered) = self.generics.enter(field);
        match &kind {
            FieldKind::Slot(slot) => self.slot(slot, into, room),
            FieldKind::Group(id) => self.group(*id, field.union_names(), into, room),
            FieldKind::Unknown => self.miss("a field of a kind that is known"),
        }
        self.generics.leave(entered);
    }

    /// The fields of the group of this node, whose union has these names in JSON.
    #[cycle(value)]
    fn group(&mut self, id: u64, names: UnionNames<'s>, into: &mut Fields, room: Room) {
        match (self.structure(id), room.in_group()) {
            (Some(of), Some(inner)) => self.fields(of, names, into, inner),
            _ => self.miss("a group that the schema has"),
        }
    }

    /// The value of a field that isn't a group.
    #[cycle(value)]
    fn slot(&mut self, slot: &Slot, into: &mut Fields, room: Room) {
        if is_pointer(slot.of) {
            let value = self.pointer(slot.of, slot.data, room);
            let place = slot.place;
            self.push(&mut into.values, TextPointer { place, value });
        } else {
            let bits = self.bits(slot.of.of);
            self.number(into, width_of(slot.of.of), slot, bits);
        }
    }

    /// A list of elements of this type.
    #[cycle(value)]
    pub(crate) fn list(&mut self, element: Type, room: Room) -> TextValue {
        if !self.is_next(b'[') {
            self.miss_type(Type {
                lists: element.lists.saturating_add(1),
                ..element
            });
            return TextValue::Null;
        }
        self.advance();
        match element.of {
            Base::Struct(id) if element.lists == 0 => self.structures(id, room),
            of if !is_pointer(element) => self.flat(of),
            _ => self.pointers(element, room),
        }
    }

    /// A list of pointers of this type, after its bracket.
    #[cycle(value)]
    fn pointers(&mut self, element: Type, room: Room) -> TextValue {
        let mut items = Vec::new(self.alloc);
        for place in 0..=self.most() {
            if !self.goes_on(place, END, WANTED) {
                break;
            }
            let value = self.pointer(element, DataForm::Numbers, room);
            self.push(&mut items, value);
        }
        TextValue::Pointers(items)
    }

    /// A list of structs of this node, after its bracket.
    #[cycle(value)]
    fn structures(&mut self, id: u64, room: Room) -> TextValue {
        let Some(of) = self.structure(id) else {
            self.miss("a struct that the schema has");
            return TextValue::Null;
        };
        let mut items = Vec::new(self.alloc);
        for place in 0..=self.most() {
            if !self.goes_on(place, END, WANTED) {
                break;
            }
            let fields = self.body(of, room);
            self.push(&mut items, fields);
        }
        TextValue::Structs {
            words: of.words,
            pointers: of.pointers,
            items,
        }
    }
}
