//! The imports of generated code and definitions: of each name that the text has, and of no other.

use crate::out::{Out, name_of};

/// The modules of the libraries that generated text cites, each with its words.
const LIBRARY: &str = "\
std.specs.Int cast_signed cast_unsigned w16 w32 w64 w8
std.specs.Float binary32 binary64
cp_tree.specs.Seen pointee_of
cp_tree.specs.Shaped Shaped
cp_fields.specs.Constants constant_of
cp_fields.specs.Numbers flag plain uint
cp_fields.specs.Pointers Reads cap_field data_field held list_field or_default struct_field text_field
cp_fields.specs.declared.kind.WrongKind WrongKind
cp_builder.specs.Numbers flag_bit
cp_builder.specs.declared.fault.BuildError.TheVariants TooLong
cp_builder.specs.Copies Sets placed
cp_builder.specs.Drafts HoldsOneMore bits_tree blank blank_list bytes_tree cap_tree halves_tree quads_tree text_tree with_last with_pointer with_uint words_tree
cp_servants.specs.Naming pointer_naming
cp_interfaces.specs.Calls IsCall IsCallIf MakesOf request_naming request_of
cp_interfaces.specs.Faults Unbuilt Unnamed
cp_interfaces.specs.Promises Finds along promised_cap
cp_interfaces.specs.ServiceCalls Answers
cp_interfaces.specs.Streams no_streams with_stream
cp_interfaces.specs.Tables IsFull are_of may_name may_name_all naming none_named
";

/// Where definitions have the kinds that a pointer may be of from.
const WRONG_KIND: &str = "cp_fields.specs.declared.kind.WrongKind";

/// The types of cp_fields that generated code cites, each with parts of a text that has it: a variant may be called so too.
const FIELDS: [(&str, &[&str]); 8] = [
    ("DataReader", &["DataReader<", "DataReader::"]),
    ("Element", &["Element<", "Element::"]),
    ("List", &["List<", "List::"]),
    (
        "UnknownEnumerant",
        &["UnknownEnumerant<", "UnknownEnumerant::"],
    ),
    ("PointerReader", &["PointerReader<", "PointerReader::"]),
    ("StructReader", &["StructReader<", "StructReader::"]),
    ("TextReader", &["TextReader<", "TextReader::"]),
    ("WrongKind", &["WrongKind>", "WrongKind<", "WrongKind::"]),
];

/// The paths of the types of other libraries that the code of builders cites.
const BUILDERS: [&str; 9] = [
    "cp_builder::BuildError",
    "cp_builder::FieldValue",
    "cp_builder::StructBuilder",
    "cp_builder::StructListBuilder",
    "cp_tree::Whole",
    "std::alloc::AllocError",
    "std::alloc::Global",
    "std::num::f32_to_bits_with_nan",
    "std::num::f64_to_bits_with_nan",
];

/// The paths of the types that constants of trees cite.
const CONSTANTS: [&str; 3] = [
    "cp_fields::Constant",
    "cp_fields::ConstantBody",
    "cp_tree::ListRef",
];

/// The words of the prelude, each with parts of a text that has it.
const PRELUDE: [(&str, &[&str]); 28] = [
    ("ℕ", &["ℕ"]),
    ("◌≡◌", &[" ≡ "]),
    ("◌==◌", &[" == "]),
    ("if◌then◌else◌", &["if n", "if plain"]),
    ("Result", &["Result "]),
    ("Ok", &["= Ok"]),
    ("not", &["not ("]),
    ("from_bits", &["from_bits"]),
    ("to_bits", &["to_bits binary"]),
    ("bit_xor", &["bit_xor"]),
    ("IfOk", &["IfOk"]),
    ("OnOk", &["OnOk"]),
    ("OnErr", &["OnErr"]),
    ("IfErr", &["IfErr"]),
    ("Err", &["≡ Err"]),
    ("◌↔◌", &[" ↔ "]),
    ("◌≤◌", &[" ≤ "]),
    ("◌^◌", &["2 ^ "]),
    ("length", &["length "]),
    (
        "◌+◌",
        &["now + 1", "old + 1", "table + 1", "HoldsOneMore self"],
    ),
    ("◌++◌", &[" ++ "]),
    ("◌∷◌", &[" ∷ "]),
    ("◌⊎◌", &[" ⊎ "]),
    ("[]", &["[]"]),
    ("true", &["true ∷ ", "≡ true"]),
    ("false", &["false ∷ ", "≡ false"]),
    ("map", &["(map "]),
    ("codes", &["(codes "]),
];

/// The path of the sizes of elements.
const SIZES: &str = "Rattle.cp_words.specs.declared.pointer.ElementSize.TheVariants as sizes";

/// Whether a text has a word, comments aside.
fn has_word(text: &str, word: &str) -> bool {
    for line in text.lines() {
        if !is_comment(line) && line.contains(word) && has_between(line, word) {
            return true;
        }
    }
    false
}

/// Whether a line has a word: letters, digits and underscores, with none of these beside them.
fn has_between(line: &str, word: &str) -> bool {
    for part in line.split(is_between) {
        if part == word {
            return true;
        }
    }
    false
}

/// Whether a character is no part of a word.
pub fn is_between(c: char) -> bool {
    !c.is_ascii_alphanumeric() && c != '_'
}

/// Whether a text has one of these parts, comments aside.
fn has_part(text: &str, parts: &[&str]) -> bool {
    for line in text.lines() {
        // What is in a comment needs no import.
        if !is_comment(line) {
            for part in parts {
                if line.contains(part) {
                    return true;
                }
            }
        }
    }
    false
}

/// Whether a line is a comment of code or of definitions.
fn is_comment(line: &str) -> bool {
    let line = line.trim_start();
    line.starts_with("///") || line.starts_with("--")
}

/// Adds a word to a list of words.
pub fn list(words: &mut Out, word: &str) {
    if !words.is_empty() {
        words.put(", ");
    }
    words.put(word);
}

/// Adds the import of these words of a module, if there are some, between these texts.
fn import(out: &mut Out, module: &str, words: Out, (before, after): (&str, &str)) {
    if !words.is_empty() {
        out.put(before);
        out.all(&["Rattle.", module, ".{"]);
        out.put(words.as_str());
        out.put("}");
        out.put(after);
    }
    drop(words);
}

/// Adds what a text imports of the libraries, but for one module, between these texts.
fn libraries(out: &mut Out, text: &str, around: (&str, &str), skipped: &str) {
    let mut found = Out::new(out.alloc);
    for (word, parts) in &PRELUDE {
        if has_part(text, parts) {
            list(&mut found, word);
        }
    }
    import(out, "std.specs.Prelude", found, around);
    if has_word(text, "sizes") {
        out.put(around.0);
        out.put(SIZES);
        out.put(around.1);
    }
    for line in LIBRARY.lines() {
        let (module, words) = line.split_once(' ').unwrap_or((line, ""));
        if module != skipped {
            import(out, module, words_in(out, text, words), around);
        }
    }
}

/// Those of the words, with spaces between, that a text has.
fn words_in(out: &Out, text: &str, words: &str) -> Out {
    let mut found = Out::new(out.alloc);
    for word in words.split(' ') {
        if has_word(text, word) {
            list(&mut found, word);
        }
    }
    found
}

/// Adds what definitions import of the libraries.
pub fn of_definitions(out: &mut Out, text: &str) {
    libraries(out, text, ("use ", "\n"), "");
    if has_word(text, "Tree") {
        out.put("use Rattle.cp_tree.specs.Node.{Node as Tree}\n");
    }
}

/// Adds what the clauses of code import of the libraries.
pub fn of_clauses(out: &mut Out, code: &str) {
    let mut clauses = Out::new(out.alloc);
    for line in code.lines() {
        let line = line.trim_start();
        if line.starts_with("ensures ") || line.starts_with("ghost ") {
            clauses.all(&[line, "\n"]);
        }
    }
    libraries(out, clauses.as_str(), ("ghost use ", ";\n"), WRONG_KIND);
    drop(clauses);
}

/// Adds the paths of the types of libraries that code has, a line each.
pub fn paths(out: &mut Out, text: &str) {
    for (name, parts) in &FIELDS {
        if has_part(text, parts) {
            out.all(&["cp_fields::", name, "\n"]);
        }
    }
    if text.contains("Constant<'static>") {
        used(out, text, &CONSTANTS);
    }
    used(out, text, &BUILDERS);
}

/// Adds those of the paths whose names a text has, a line each.
fn used(out: &mut Out, text: &str, paths: &[&str]) {
    for path in paths {
        if has_word(text, name_of(path)) {
            out.all(&[path, "\n"]);
        }
    }
}
