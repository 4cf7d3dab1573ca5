//! Enums, the numbers of unions, constants, and trees.

pub const ENUMS: &str = r#"
$block node enum$

$doc about$
$unless about$
/// `enum $title$`.
$end$
$insert enumeration$

impl<'a> Element<'a> for $Type$ {
    ghost SIZE = { sizes.TwoBytes };

    ghost read = { λ t. $word$_of (plain t 16 0) };

    fn size() -> cp_words::ElementSize {
        cp_words::ElementSize::TwoBytes
    }

    fn of_element(item: StructReader<'a>) -> $Type$ {
        $Type$::of(item.u16(0))
    }
}
$if whole$

impl cp_builder::Enumerant for $Type$ {
    ghost number = { $word$_number };

    fn as_number(&self) -> u16 {
        self.number()
    }
}
$end$
$block specs enum$
$insert enumeration_specs$
$block enumeration$
#[derive(Clone, Copy, PartialEq, Eq$if numbered$, Debug$end$)]
pub enum $Type$ {
$for values$
$doc about$
    $name|variant$,
$end$
    /// A number that a newer schema has.
    Unknown(UnknownEnumerant<$last$>),
}

impl $Type$ {
    /// The value of this number.
    pub fn of(number: u16) -> $Type$
        ensures { result ≡ $word$_of number }
    {
        match number {
$for values$
            $number$ => $Type$::$name|variant$,
$end$
            _ => match UnknownEnumerant::new(number) {
                Some(number) => $Type$::Unknown(number),
                None => unreachable!(),
            },
        }
    }
ghost use $here$.{$word$_of};
$if numbered$

    /// Its number.
    pub fn number(self) -> u16
        ensures { result ≡ $word$_number self }
    {
        match self {
$for values$
            $Type$::$name|variant$ => $number$,
$end$
            $Type$::Unknown(number) => number.number(),
        }
    }
ghost use $here$.{$word$_number};
$end$
}
$block enumeration_specs$

-- the value of a number
abbrev pub $word$_of : ℕ → $Type$
$word$_of n =
$for values$
    $if number$($end$if n == $number$ then $word$s.$name|variant$ else
$end$
    $word$s.Unknown n$for last$)$end$
$if numbered$

abbrev pub $word$_number : $Type$ → ℕ
$for values$
$word$_number $word$s.$name|variant$ = $number$
$end$
$word$_number ($word$s.Unknown n) = n
$end$
use Rattle.$krate$.specs.declared.$module$.$Type$.{$Type$}
use Rattle.$krate$.specs.declared.$module$.$Type$.TheVariants as $word$s
"#;

/// Constants. One that is a struct or a list is a `static`, so that readers of it may be lent for any time.
pub const CONSTANTS: &str = r#"
$block node const$

$doc about$
$unless about$
/// `const $title$`.
$end$
$if tree$
pub static $title|upper$: Constant<'static> = $for tree$$insert tree node$$end$;
$else$
pub const $title|upper$: $insert const base$;
$end$
$if of$
use $of.from$$of.Type$;
$end$
$block const text$&str = $literal|quoted$
$block const data$&[u8] = $literal|quoted$
$block const bool$bool = $if number$true$else$false$end$
$block const unsigned$u$width$ = $number$
$block const signed$i$width$ = $if negative$-$end$$number$
$block const enum$$of.Type$ = $of.Type$::$item|variant$
"#;

/// Trees: as constants of code, and as definitions have them.
pub const TREES: &str = r#"
$block tree null$Constant::Null
$block tree struct$Constant::Struct($insert tree body$)
$block tree ptrs$Constant::Ptrs($insert tree row$)
$block tree structs$Constant::Structs { words: $words$, ptrs: $ptrs$, items: &[$for bodies$$insert tree body$, $end$] }
$block tree voids$Constant::List(ListRef::Voids($count$))
$block tree list$Constant::List(ListRef::$variant$($insert tree numbers$))
$block tree body$ConstantBody { words: $insert tree numbers$, ptrs: $insert tree row$ }
$block tree row$&[$for trees$$insert tree node$, $end$]
$block tree numbers$&[$for numbers$$n$, $end$]
$block define null$trees.null
$block define struct$trees.struct $insert define body$
$block define ptrs$trees.ptrs $insert define row$
$block define structs$trees.structs $words$ $ptrs$ $for bodies$(trees.body $insert define body$ $end$trees.no_bodies$for bodies$)$end$
$block define voids$trees.list (trees.voids $count$)
$block define list$trees.list (trees.$elements$ $insert define numbers$)
$block define body$$insert define numbers$ $insert define row$
$block define row$$for trees$(trees.node $if leaf$$insert define node$$else$($insert define node$)$end$ $end$trees.no_nodes$for trees$)$end$
$block define numbers$$if numbers$($for numbers$$n$ ∷ $end$[])$else$[]$end$
"#;
