//! Names that a module would have twice, for which nothing is written.

use crate::out::{Out, before, name_of};
use crate::pages::Page;

/// What ends a type, its methods, or a function.
const END: &str = "\n}\n";

/// A name that a module would have twice: a method's, a function's, or that of a type which it imports.
pub fn found_twice(page: &Page<'_>) -> Option<Out> {
    let mut paths = Out::new(page.code.alloc);
    paths.put_sorted(page.uses.as_str(), ("", "\n"));
    paths.put_sorted(page.libraries.as_str(), ("", "\n"));
    let code = page.code.as_str();
    let name = match (twice(code, ""), method_twice(code)) {
        (Some(name), _) | (None, Some(name)) => name,
        (None, None) => path_twice(paths.as_str(), page.exports.as_str())?,
    };
    let name = Out::spelled(page.code.alloc, name, "");
    drop(paths);
    Some(name)
}

/// The name of a function that a line begins with, after these blanks.
fn name_in<'l>(line: &'l str, blanks: &str) -> Option<&'l str> {
    let line = line.strip_prefix(blanks)?;
    let line = line.strip_prefix("pub ").unwrap_or(line);
    Some(before(before(line.strip_prefix("fn ")?, '('), '<'))
}

/// The number of functions of a name among these lines.
fn count_of<'n>(lines: &'n str, blanks: &'n str, name: &'n str) -> u64 {
    let mut count = 0_u64;
    for line in lines.lines() {
        if let Some(other) = name_in(line, blanks) {
            count = count.saturating_add((other == name) as u64);
        }
    }
    count
}

/// A name that two functions of these lines have.
fn twice<'l>(lines: &'l str, blanks: &str) -> Option<&'l str> {
    for line in lines.lines() {
        if let Some(name) = name_in(line, blanks) {
            if count_of(lines, blanks, name) > 1 {
                return Some(name);
            }
        }
    }
    None
}

/// A name that two methods of a type have.
fn method_twice(code: &str) -> Option<&str> {
    for block in code.split(END) {
        if let Some(name) = twice(block, "    ") {
            return Some(name);
        }
    }
    None
}

/// A name that two of these paths end with, or one and the path of what the module declares.
fn path_twice<'p>(paths: &'p str, declared: &'p str) -> Option<&'p str> {
    for path in paths.lines() {
        for other in paths.lines() {
            if path != other && name_of(path) == name_of(other) {
                return Some(name_of(path));
            }
        }
        for own in declared.lines() {
            if name_of(path) == name_of(own) {
                return Some(name_of(path));
            }
        }
    }
    None
}
