//! What is written where not all is: a list of names, `STRUCT.FIELD`, `STRUCT.of` and types, with commas between.

/// Whether a list has this method of a type's reader. One that is empty has all.
pub fn has_method(only: &str, of: &str, method: &str) -> bool {
    for name in only.split(',') {
        if is_method(name, of, method) {
            return true;
        }
    }
    only.is_empty()
}

/// Whether a list has a type, or a method of its reader.
pub fn has_type(only: &str, of: &str) -> bool {
    has_method(only, of, "")
}

/// Whether a name is that of this method of a type; without one, whether it is of the type.
fn is_method(name: &str, of: &str, method: &str) -> bool {
    let Some(rest) = name.strip_prefix(of) else {
        return false;
    };
    match rest.strip_prefix('.') {
        Some(last) => method.is_empty() || last == method,
        None => method.is_empty() && rest.is_empty(),
    }
}
