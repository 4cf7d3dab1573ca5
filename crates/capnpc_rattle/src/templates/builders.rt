//! The builders of structs, and of lists of them.

pub const BUILDERS: &str = r#"
$block builder$

/// `struct $title$`, to be written.
#[derive(Drop)]
pub struct $Type$Builder {
    /// The struct, by the places of its fields.
    pub body: StructBuilder<$words$, $pointers$>,
$if own$
    /// The capabilities that it names.
    pub table: CapTableBuilder,
use cp_interfaces::CapTableBuilder;
$end$
}

impl $Type$Builder {
    /// A struct whose fields are all as by default.
    pub fn new(alloc: Global) -> Result<$Type$Builder, AllocError>
        ensures $if own$blank $end${ IfOk result (λ d. d.body ≡ blank $words$ $pointers$) }
$if own$
        ensures names { IfOk result (λ d. d.table ≡ none_named) }
$end$
    {
        Ok($Type$Builder { body: StructBuilder::new(alloc)?$if own$, table: CapTableBuilder::new(alloc)$end$ })
    }
$for parts$
$insert setter setter$
$end$
}
$if list$

/// A list of `struct $title$`, to be written.
#[derive(Drop)]
pub struct $Type$ListBuilder {
    /// The list.
    pub items: StructListBuilder<$words$, $pointers$>,
}

impl $Type$ListBuilder {
    /// No struct yet.
    pub fn new(alloc: Global) -> $Type$ListBuilder
        ensures { result.items ≡ blank_list $words$ $pointers$ }
    {
        $Type$ListBuilder { items: StructListBuilder::new(alloc) }
    }

    /// Adds a struct at the end.
    pub fn push(&mut self, item: $Type$Builder) -> Result<(), BuildError>
        ensures pushed { OnOk result (self.new.items ≡ with_last self.old.items item.body) }
        ensures left { OnErr result (self.new ≡ self.old) }
        ensures long { result ≡ Err TooLong → ¬ (HoldsOneMore self.old.items ($words$ + $pointers$)) }
    {
        self.items.push(item.body)
    }
}

impl<'a> FieldValue<List<'a, $Type$Reader<'a>>> for $Type$ListBuilder {
    ghost stands = { λ l t. t ≡ l.items };

    ghost is_long = { λ l. ⊥ };

    fn into_whole(self, _alloc: Global) -> Result<Whole, BuildError>
        ensures value { IfOk result (λ whole. whole ≡ self.items) }
        ensures long { result ≡ Err TooLong → ⊥ }
    {
        Ok(self.items.into_whole())
    }
}
$if never$

impl<'a> FieldValue<$Type$Reader<'a>> for $Type$Reader<'a> {
    ghost stands = { λ r t. t ≡ placed [] r.body };

    ghost is_long = { λ r. ¬ (Shaped (placed [] r.body)) };

    fn into_whole(self, alloc: Global) -> Result<Whole, BuildError> {
        cp_builder::struct_copy(alloc, &self.body, &[])
    }
}

impl<'a> FieldValue<$Type$Reader<'a>> for $Type$Builder {
    ghost stands = { λ d t. t ≡ d.body };

    ghost is_long = { λ d. ⊥ };

    fn into_whole(self, _alloc: Global) -> Result<Whole, BuildError>
        ensures value { IfOk result (λ whole. whole ≡ self.body) }
        ensures long { result ≡ Err TooLong → ⊥ }
    {
        Ok(self.body.into_whole())
    }
}
$end$
$end$
$block results$

impl Results for $Type$Builder {
    ghost content = { λ d. d.body };

    ghost names = { λ d. $if own$d.table$else$none_named$end$ };

    fn into_parts(self, alloc: Global) -> (Whole, CapTableBuilder) {
$if own$
        let _ = alloc;
$end$
        (self.body.into_whole(), $if own$self.table$else$CapTableBuilder::new(alloc)$end$)
    }
}
use cp_interfaces::Results;
use cp_interfaces::CapTableBuilder;
$block parameters$$for args$, $value$: $if client$$client.Type$Client$else$$insert takes form$$end$$end$
$block content$$for wraps$($if points$with_pointer$else$with_uint$end$ $end$(blank $words$ $pointers$)$for args$ $unless points$$width$ $end$$place$ $if client$(pointer_naming ($for before$(naming $end$none_named$for before$ $value$.target)$end$).caps $value$.target.cap)$else$$insert sets form$$end$)$end$
$block table$$if clients$($insert named$).caps$else$[]$end$
$block named$$for clients$(naming $end$none_named$for clients$ $value$.target)$end$
$block about$

$doc about$
$unless about$
/// Sets `$name$`$if member$, and chooses it in its union$else$$if chosen$, and chooses the group that it is in$end$$end$.
$end$
$block old$$if member$(with_uint $insert within$ 16 $tag_place$ $tag$)$else$$insert within$$end$
$block within$$if chosen$($chosen_word$_chosen self.old.body)$else$self.old.body$end$
$block choose$
$if chosen$
        self.choose_$chosen$();
$end$
$if member$
        self.body.set_u16($tag_place$, $tag$);
$end$
$block setter member$
$insert about$
    pub fn set_$joined$(&mut self)
        ensures $if own$set $end${ self.new.body ≡ with_uint $insert within$ 16 $tag_place$ $tag$ }$insert table_stays$
    {
$insert choose$
    }
$block setter group$

$doc about$
$unless about$
/// Chooses group `$name$` in its union.
$end$
/// All its fields are then as by default.
    pub fn set_$joined$(&mut self)
        ensures $if own$set $end${ self.new.body ≡ $of.word$_blank $insert within$ }$insert table_stays$
    {
$insert choose$
$insert clear$
    }
$if cells$

    /// Chooses it, unless it is chosen.
    fn choose_$joined$(&mut self)
        ensures $if own$set $end${ self.new.body ≡ $of.word$_chosen self.old.body }$insert table_stays$
    {
$if chosen$
        self.choose_$chosen$();
$end$
        if self.body.u16($tag_place$) != $tag$ {
$if chosen$
            self.body.set_u16($tag_place$, $tag$);
$insert clear$
$else$
            self.set_$joined$();
$end$
        }
    }
ghost use $here$.{$of.word$_chosen};
$end$
ghost use $here$.{$of.word$_blank};
$block clear$
$for cells$
        self.body.$if points$set_pointer($place$, Whole::null())$else$$if bit$set_bit($place$, false)$else$set_u$width$($place$, 0)$end$$end$;
$end$
$block setter field$
$if converts$
$insert about$
    pub fn set_$joined$<'a, V: FieldValue<$insert type shape$>>(&mut self, value: V) -> Result<(), BuildError>
        ensures set { OnOk result (Sets (V.stands value) $insert old$ $place$ self.new.body) }$insert table_stays$
        ensures left { OnErr result (self.new ≡ self.old) }
        ensures long { result ≡ Err TooLong → V.is_long value }
    {
        let whole = value.into_whole(self.body.alloc())?;
$insert choose$
        self.body.set_pointer($place$, whole);
        Ok(())
    }
$if of$
use $of.from$$of.Type$$if of.struct$Reader$end$;
$end$
$else$
$unless client$
$insert about$
    pub fn set_$joined$(&mut self, value: $insert takes form$)$if fails$ -> Result<(), BuildError>$end$
        ensures $if fails$set { OnOk result ($else$$if own$set $end${ $end$self.new.body ≡ $if points$with_pointer$else$with_uint$end$ $insert old$ $unless points$$width$ $end$$place$ $insert sets form$$insert limits kind$$unless fails$ }$end$$insert table_stays$
    {
$if first$
        let whole = $insert makes form$;
$end$
$insert choose$
        self.body.$if points$set_pointer($place$, $end$$if first$whole$else$$insert makes form$$end$$if points$)$end$;
$if fails$
        Ok(())
$end$
    }
$insert cites form$
$end$
$end$
$for client$
$insert about$
$insert client_setter$
$end$
$block table_stays$$if own$
        ensures names { self.new.table ≡ self.old.table }$end$
$block client_setter$
use $from$$Type$Client;
use cp_interfaces::CapTableBuilder;
use cp_interfaces::NamingError;
ghost use Rattle.cp_interfaces.specs.declared.naming_error.NamingError.TheVariants as errors;
$if own$
    pub fn set_$joined$(&mut self, value: $Type$Client) -> Result<(), NamingError>
        ensures set { OnOk result (self.new.body ≡ with_pointer $insert old$ $place$ (pointer_naming self.old.table.caps value.target.cap)) }
        ensures added { OnOk result (self.new.table ≡ naming self.old.table value.target) }
        ensures left { OnErr result (self.new ≡ self.old) }
        ensures full { result ≡ Err errors.TooLong ↔ IsFull self.old.table }
        ensures own { OnOk result (may_name self.old.table value.target ≡ true) }
        ensures other { result ≡ Err errors.OtherSession → may_name self.old.table value.target ≡ false }
    {
        let pointer = self.table.add(value.target.into_cap())?;
$else$
    pub fn set_$joined$(
        &mut self,
        table: &mut CapTableBuilder,
        value: $Type$Client,
    ) -> Result<(), NamingError>
        ensures set { OnOk result (self.new.body ≡ with_pointer $insert old$ $place$ (pointer_naming table.old.caps value.target.cap)) }
        ensures added { OnOk result (table.new ≡ naming table.old value.target) }
        ensures left { OnErr result ((self.new ≡ self.old) × (table.new ≡ table.old)) }
        ensures full { result ≡ Err errors.TooLong ↔ IsFull table.old }
        ensures own { OnOk result (may_name table.old value.target ≡ true) }
        ensures other { result ≡ Err errors.OtherSession → may_name table.old value.target ≡ false }
    {
        let pointer = table.add(value.target.into_cap())?;
$end$
$insert choose$
        self.body.set_pointer($place$, pointer);
        Ok(())
    }
"#;

/// Definitions of groups that are members of unions.
pub const GROUPS: &str = r#"
$block chosen group$

-- a struct in which group `$name$` is chosen, and its fields are as by default
abbrev pub $of.word$_blank : Tree → Tree
$of.word$_blank t = $for wraps$$if points$with_pointer$else$with_uint$end$ ($end$with_uint t 16 $tag_place$ $tag$$for cells$) $if points$$place$ trees.null$else$$width$ $place$ 0$end$$end$
$if cells$

-- the same, but as it is if the group is chosen
abbrev pub $of.word$_chosen : Tree → Tree
$of.word$_chosen t = if plain $insert of_outer$ 16 $tag_place$ == $tag$ then $insert of_outer$ else $of.word$_blank $insert of_outer$
use Rattle.cp_tree.specs.Node as trees
$end$
$block of_outer$$if chosen$($chosen_word$_chosen t)$else$t$end$
"#;

/// How a field of each type is set: the type of its value, what its bits or its pointer become as definitions have it, and the
/// code. What may fail comes before a member is chosen.
pub const SETTERS: &str = r#"
$block limits built$) }
        ensures left { OnErr result (self.new ≡ self.old) }
        ensures long { result ≡ Err TooLong → 2 ^ 29 ≤ length value.items.items }
$block takes unsigned$u$width$
$block sets unsigned$$value$
$block makes unsigned$set_u$width$($place$, $value$)
$block takes unsigned_or$u$width$
$block sets unsigned_or$(bit_xor $value$ $default$)
$block makes unsigned_or$set_u$width$($place$, $value$ ^ $default$)
$block takes signed$i$width$
$block sets signed$(cast_unsigned w$width$ $value$)
$block makes signed$set_u$width$($place$, $value$.cast_unsigned())
$block takes signed_or$i$width$
$block sets signed_or$(bit_xor (cast_unsigned w$width$ $value$) $default$)
$block makes signed_or$set_u$width$($place$, $value$.cast_unsigned() ^ $default$)
$block takes float$f$width$
$block sets float$(to_bits binary$width$ $value$)
$block makes float$set_u$width$($place$, f$width$_to_bits_with_nan($value$))
$block takes float_or$f$width$
$block sets float_or$(bit_xor (to_bits binary$width$ $value$) $default$)
$block makes float_or$set_u$width$($place$, f$width$_to_bits_with_nan($value$) ^ $default$)
$block takes bool$bool
$block sets bool$(flag_bit $value$)
$block makes bool$set_bit($place$, $value$)
$block takes bool_or$bool
$block sets bool_or$(flag_bit (not $value$))
$block makes bool_or$set_bit($place$, !$value$)
$block takes enum$$of.Type$
$block sets enum$($of.word$_number $value$)
$block makes enum$set_u16($place$, $value$.number())
$block cites enum$
use $of.from$$of.Type$;
$if of.elsewhere$
ghost use Rattle.$of.krate$.specs.$of.module|module$.{$of.word$_number};
$end$
$block takes enum_or$$of.Type$
$block sets enum_or$(bit_xor ($of.word$_number $value$) $default$)
$block makes enum_or$set_u16($place$, $value$.number() ^ $default$)
$block cites enum_or$
$insert cites enum$
$block takes text$&str
$block sets text$(text_tree $value$.now)
$block makes text$cp_builder::text_of($alloc$, $value$)?
$block takes data$Vec<u8>
$block sets data$(bytes_tree $value$.items)
$block makes data$cp_builder::bytes_of($value$)?
$block takes cap$u32
$block sets cap$(cap_tree $value$)
$block makes cap$cp_builder::cap_of($value$)
$block takes struct$$of.Type$Builder
$block sets struct$$value$.body
$block makes struct$$value$.body.into_whole()
$block cites struct$
use $of.from$$of.Type$Builder;
$block takes whole$Whole
$block sets whole$$value$
$block makes whole$$value$
$block takes structs$$of.Type$ListBuilder
$block sets structs$$value$.items
$block makes structs$$value$.items.into_whole()
$block cites structs$
use $of.from$$of.Type$ListBuilder;
$block takes numbers$Vec<$insert item base$>
$block sets numbers$($elements$_tree $value$.items)
$block makes numbers$cp_builder::$maker$_of($value$)?
$block takes signed_list$&[i$width$]
$block sets signed_list$($elements$_tree (map (cast_unsigned w$width$) $value$.now))
$block makes signed_list$cp_builder::signed$width$_of($alloc$, $value$)?
$block takes float_list$&[f$width$]
$block sets float_list$($elements$_tree (map (to_bits binary$width$) $value$.now))
$block makes float_list$cp_builder::float$width$_of($alloc$, $value$)?
$block takes enum_list$&[$of.Type$]
$block sets enum_list$(halves_tree (map $of.word$_number $value$.now))
$block makes enum_list$cp_builder::enumerants_of($alloc$, $value$)?
$block cites enum_list$
$insert cites enum$
$block takes built$$for depth$cp_interfaces::ListsBuilder<$end$$insert list base$$for depth$>$end$
$block sets built$(pointers_tree $value$.items.items)
$block makes built$$value$.into_whole()?
$block cites built$
ghost use Rattle.cp_interfaces.specs.Lists.{pointers_tree};
$if of$
$insert cites structs$
$end$
$block list text$cp_interfaces::TextListBuilder
$block list data$cp_interfaces::DataListBuilder
$block list cap$cp_interfaces::CapListBuilder
$block list struct$$of.Type$ListBuilder
$block list bool$Vec<bool>
$block list unsigned$Vec<u$width$>
$block list signed$Vec<i$width$>
$block list float$Vec<f$width$>
"#;
