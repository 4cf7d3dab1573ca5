//! Names that generated code can't have.

/// Names that a struct or a group can't begin with.
const AMBIGUOUS: &str = "Data Struct Structs Text";

/// Types that generated code or definitions have from elsewhere.
const TYPES: &str = "\
    AllocError Anything Bool Box CallTarget Caller CapFault CapTable Constant \
    ConstantBody DataReader Dispatch BuildError Drop Err Finds Global Context HoldsOneMore \
    IsCall IsCallIf IsElsewhere IsFull Element Lends List ListRef Makes MakesOf Method MethodCall MethodFault \
    MethodRequest MethodResult NamedResults NamingError None Ok Option Passes UnknownEnumerant PointerReader TypedPipeline Pipeline Reads \
    Refuses Reply Request Result ResultPayload Results Self ObjectDispatch ServiceCall \
    ServiceObject SessionCall SessionCap SharedClient Some String StructBuilder StructReader StructListBuilder CapTableBuilder TextReader TooLong \
    Tree Type TypedClient TypedResolver Unbuilt Unit Unnamed Vec Whole WrongKind";

/// Words of Rattle.
const OF_RATTLE: &str = "\
    abstract as async await become bool box break const continue crate do drop dyn else \
    enum extern false final fn for gen if impl in let loop macro match mod move mut \
    override priv pub ref return self static struct super trait true try type typeof \
    union unsafe unsized use virtual where while yield";

/// Words of clauses or proofs.
const OF_PROOFS: &str = "\
    abbrev assumption axiom coe com data deriving elim ensures entry exit fcoe ghost \
    ground hcom infix infixl infixr module mutual new now old open package record \
    requires result ruleset tcoe unfold unfoldable unfolding";

/// Methods that each view has, of its own or of every type, and files of each crate, and libraries.
const OF_CRATES: &str = "\
    body clone into member of of_element size try_into which \
    constants contracts core declared lib main specs std";

/// Words that clauses of calls have, and variables of the code around their arguments: an argument that is called so would hide them.
pub const OF_CALLS: &str = "\
    alloc are_of binary32 binary64 bit_xor bits_tree blank bytes_tree caller cap_tree \
    cast_unsigned errors false flag_bit halves_tree length map may_name_all naming none_named not on params \
    pointer_naming pointers_tree quads_tree r request request_of table text_tree to_bits true \
    w16 w32 w64 w8 with_named with_pointer with_uint words_tree";

/// Methods that each promise has.
pub const PROMISED: &str = "question results";

/// Whether one of the words, with spaces between, is this.
pub fn has_word(words: &str, name: &str) -> bool {
    for word in words.split(' ') {
        if word == name {
            return true;
        }
    }
    false
}

/// Whether a method's or a module's name is a word of Rattle or antt, or one that each view or crate has.
pub fn is_reserved(name: &str) -> bool {
    has_word(OF_RATTLE, name) || has_word(OF_PROOFS, name) || has_word(OF_CRATES, name)
}

/// Whether a crate can have this name.
pub fn is_crate_name(name: &str) -> bool {
    for c in name.chars() {
        if !c.is_ascii_alphanumeric() && c != '_' {
            return false;
        }
    }
    let begins = match name.chars().next() {
        Some(first) => !first.is_ascii_digit() && name != "_",
        None => false,
    };
    begins
        && !has_word(OF_RATTLE, name)
        && !has_word(OF_PROOFS, name)
        && !has_word("core std", name)
}

/// Whether the name of a struct or a group is one that it can't begin with.
pub fn is_ambiguous(name: &str) -> bool {
    has_word(AMBIGUOUS, name)
}

/// Whether an enum's name is one that generated code or definitions have from elsewhere.
pub fn is_taken(name: &str) -> bool {
    has_word(TYPES, name)
}
