//! The readers of structs and groups.

pub const READERS: &str = r#"
$block node struct$

$doc about$
$unless about$
/// `$if group$group$else$struct$end$ $title$`.
$end$
#[derive(Drop)]
pub struct $Type$Reader<'a> {
    /// The struct, by the places of its fields.
    pub body: StructReader<'a>,
}
$if items$

impl<'a> Element<'a> for $Type$Reader<'a> {
    ghost SIZE = { sizes.Composite };

    ghost read = { λ t. record { body = t } };

    fn size() -> cp_words::ElementSize
        ensures { result ≡ sizes.Composite }
    {
        cp_words::ElementSize::Composite
    }

    fn of_element(item: StructReader<'a>) -> $Type$Reader<'a> {
        $Type$Reader { body: item }
    }
}
$end$
$if methods$

impl<'a> $Type$Reader<'a> {$if constructor$
    /// The struct that a pointer stands for; null is the struct whose fields are all as by default.
    pub fn of(at: PointerReader<'a>) -> Result<$Type$Reader<'a>, WrongKind>
        ensures { Reads result (λ x. x.body) (struct_field at.entry) }
    {
        Ok($Type$Reader { body: StructReader::of(at)? })
    }
$end$
$if which$

    /// Which member of the union is set.
    pub fn which(&self) -> $Type$Which
        ensures { result ≡ $word$_which_of (plain self.now.body 16 $tag_place$) }
    {
        $Type$Which::of(self.body.u16($tag_place$))
    }
$end$
$for fields$
$insert reader kind$
$end$
$for member$
$insert member_method$
$end$
}
$end$
$for which$

/// The members of the union of `$title$`.
$insert enumeration$
$end$
$for member$
$insert member_type$
$end$
$if builder$
$insert builder$
$end$
$if results$
$insert results$
$insert promise$
$end$
$block specs struct$
$for fields$
$if tree$

-- the default of `$name$`
abbrev pub $default$ : Tree
$default$ = $for tree$$insert define node$$end$
use Rattle.cp_tree.specs.Node as trees
$end$
$end$
$for which$
$insert enumeration_specs$
$end$
$for member$
$insert member_specs$
$end$
$for parts$
$insert chosen setter$
$end$
$block reader group$

$doc about$
$unless about$
/// Group `$name$`.
$end$
    pub fn $name|method$(&self) -> $of.Type$Reader<'a>
        ensures { result.body ≡ self.now.body }
    {
        $of.Type$Reader { body: self.body.reborrow() }
    }
$block reader slot$

$doc about$
$unless about$
/// `$name$ @$ordinal$`.
$end$
    pub fn $name|method$(&self) -> $if fails$Result<$end$$insert type shape$$if fails$, WrongKind>$end$
        ensures { $if reads$Reads result (λ x. x.body) ($else$result ≡ $end$$insert value form$$if reads$)$end$ }
    {
$if tree$
        let default = $default$();
ghost use $here$.{$default$};
$end$
        $insert code form$
    }
$if of$
use $of.from$$of.Type$$if of.struct$Reader$end$;
$end$
$if values$
ghost use Rattle.$of.krate$.specs.$of.module|module$.{$of.word$_of};
$end$
$for client$

    /// `$name$ @$ordinal$`, of those that a table has.
    pub fn $name|snake$_client(&self, alloc: Global, caps: CapTable<'_>) -> Result<$Type$Client, CapFault>
        ensures { Finds result (λ c. c.target) (cap_field (pointee_of self.now.body $place$)) caps.entry }
    {
        let place = self.$name|method$()?;
        Ok($Type$Client { target: CallTarget::of_field(alloc, place, caps)? })
    }
use $from$$Type$Client;
use cp_interfaces::CapTable;
use cp_interfaces::CapFault;
use cp_interfaces::CallTarget;
use std::alloc::Global;
$end$
$block default$

/// What `$name$` is by default.
fn $default$() -> &'static Constant<'static>
    ensures { constant_of result.now ≡ $default$ }
{
    static DEFAULT: Constant<'static> = $for tree$$insert tree node$$end$;
    &DEFAULT
}
$block member_method$

    /// The member of the union that is set, with what it holds.
    pub fn member(&self) -> Result<$Type$Member$if lends$<'a>$end$, WrongKind>
        ensures { result ≡ $word$_member self.now.body }
    {
        Ok(match self.which() {
$for members$
            $Type$Which::$name|variant$ => $Type$Member::$name|variant$$if holds$(self.$name|method$()$if fails$?$end$)$end$,
$end$
            $Type$Which::Unknown(number) => $Type$Member::Unknown(number),
        })
    }
$block member_type$

/// The member of the union of `$title$` that is set, with what it holds.
#[derive(Drop)]
pub enum $Type$Member$if lends$<'a>$end$ {
$for members$
    $name|variant$$if holds$($insert holds held$)$end$,
$end$
    /// A member that a newer schema has.
    Unknown(UnknownEnumerant<$last$>),
}
ghost use $here$.{$word$_member};
$block holds group$$of.Type$Reader<'a>
$block holds slot$$insert type shape$
$block member_specs$

-- the member of the union that is set, with what it holds
abbrev pub $word$_member_of : Tree → $Type$Which → Result $Type$Member WrongKind
$for members$
$word$_member_of t $word$_whichs.$name|variant$ = $insert member held$
$if values$
use Rattle.$of.krate$.specs.$of.module|module$.{$of.word$_of}
$end$
$end$
$word$_member_of t ($word$_whichs.Unknown n) = Ok ($word$_members.Unknown n)

abbrev pub $word$_member : Tree → Result $Type$Member WrongKind
$word$_member t = $word$_member_of t ($word$_which_of (plain t 16 $tag_place$))
use Rattle.$krate$.specs.declared.$module$.$Type$Member.{$Type$Member}
use Rattle.$krate$.specs.declared.$module$.$Type$Member.TheVariants as $word$_members
$block member nothing$Ok $word$_members.$name|variant$
$block member group$Ok ($word$_members.$name|variant$ (record { body = t }))
$block member slot$$if reads$held (λ b. $word$_members.$name|variant$ (record { body = b })) ($else$$if fails$held $word$_members.$name|variant$ ($else$Ok ($word$_members.$name|variant$ ($end$$end$$insert value form$$unless fails$)$end$)
"#;

/// How a field of each type is read: its type, its value as definitions have it, and the code.
pub const FIELDS: &str = r#"
$block type unsigned$u$width$
$block type signed$i$width$
$block type float$f$width$
$block type bool$bool
$block type enum$$of.Type$
$block type any$PointerReader<'a>
$block type text$TextReader<'a>
$block type data$DataReader<'a>
$block type cap$Option<u32>
$block type struct$$of.Type$Reader<'a>
$block type list$List<'a, $for inner$Result<List<'a, $end$$insert item base$$for inner$>, WrongKind>$end$>
$block item void$()
$block item unsigned$u$width$
$block item signed$i$width$
$block item float$f$width$
$block item bool$bool
$block item enum$$of.Type$
$block item any$PointerReader<'a>
$block item text$Result<TextReader<'a>, WrongKind>
$block item data$Result<DataReader<'a>, WrongKind>
$block item cap$Result<Option<u32>, WrongKind>
$block item struct$$of.Type$Reader<'a>
$block value unsigned$plain $body$ $width$ $place$
$block code unsigned$self.body.u$width$($place$)
$block value unsigned_or$uint $body$ $width$ $place$ $default$
$block code unsigned_or$self.body.u$width$_or($place$, $default$)
$block value signed$cast_signed w$width$ (plain $body$ $width$ $place$)
$block code signed$self.body.i$width$($place$)
$block value signed_or$cast_signed w$width$ (uint $body$ $width$ $place$ $default$)
$block code signed_or$self.body.i$width$_or($place$, $default$)
$block value float$from_bits binary$width$ (plain $body$ $width$ $place$)
$block code float$self.body.f$width$($place$)
$block value float_or$from_bits binary$width$ (uint $body$ $width$ $place$ $default$)
$block code float_or$self.body.f$width$_or($place$, $default$)
$block value bool$flag $body$ $place$
$block code bool$self.body.bit($place$)
$block value bool_or$not (flag $body$ $place$)
$block code bool_or$self.body.bit_or_true($place$)
$block value enum$$of.word$_of (plain $body$ 16 $place$)
$block code enum$$of.Type$::of(self.body.u16($place$))
$block value enum_or$$of.word$_of (uint $body$ 16 $place$ $default$)
$block code enum_or$$of.Type$::of(self.body.u16_or($place$, $default$))
$block value any$pointee_of $body$ $place$
$block code any$self.body.pointer($place$)
$block value any_or$or_default (pointee_of $body$ $place$) $default$
$block code any_or$self.body.pointer_or($place$, default)
$block value text$text_field [] (pointee_of $body$ $place$)
$block code text$self.body.text($place$)
$block value text_or$text_field ($literal|items$[]) (pointee_of $body$ $place$)
$block code text_or$self.body.text_or($place$, $literal|quoted$)
$block value data$data_field [] (pointee_of $body$ $place$)
$block code data$self.body.data($place$)
$block value data_or$data_field ($literal|items$[]) (pointee_of $body$ $place$)
$block code data_or$self.body.data_or($place$, $literal|quoted$)
$block value cap$cap_field (pointee_of $body$ $place$)
$block code cap$self.body.cap($place$)
$block value struct$struct_field (pointee_of $body$ $place$)
$block code struct$Ok($of.Type$Reader {
            body: self.body.structure($place$)?,
        })
$block value struct_or$struct_field (or_default (pointee_of $body$ $place$) $default$)
$block code struct_or$Ok($of.Type$Reader {
            body: self.body.structure_or($place$, default)?,
        })
$block value list$list_field sizes.$size$ (pointee_of $body$ $place$)
$block code list$self.body.list($place$)
$block value list_or$list_field sizes.$size$ (or_default (pointee_of $body$ $place$) $default$)
$block code list_or$self.body.list_or($place$, default)
"#;
