//! The names that are nearest to one that isn't known.

use cp_schema::{NodeKind, Schema};
use std::alloc::{AllocError, Global};
use strsim::levenshtein;

/// How many names are kept.
const MOST: usize = 3;

/// A name that is known, with that of the type that it lies in, if that is shown, and how many letters of it have to be changed.
#[derive(Clone, Copy)]
struct Known<'k> {
    scope: &'k str,
    name: &'k str,
    changes: usize,
}

/// The names nearest to a name so far, the nearest first.
#[derive(Drop)]
pub struct Nearest<'n, 'k> {
    alloc: Global,
    name: &'n str,
    found: Vec<Known<'k>>,
    /// Whether memory ran out.
    is_starved: bool,
}

impl<'n, 'k> Nearest<'n, 'k> {
    /// No name yet, for this one.
    pub fn new(alloc: Global, name: &'n [u8]) -> Nearest<'n, 'k> {
        Nearest {
            alloc,
            name: str::from_utf8(name).unwrap_or(""),
            found: Vec::new(alloc),
            is_starved: false,
        }
    }

    /// Adds a name that is known.
    pub fn add(&mut self, name: &'k str) {
        self.add_of("", name);
    }

    /// Adds the name of what lies in a type.
    pub fn add_of(&mut self, scope: &'k str, name: &'k str) {
        if self.keep(scope, name).is_err() {
            self.is_starved = true;
        }
    }

    /// What is wanted, with the nearest names.
    pub fn wanted(&self, what: &str) -> Result<String, AllocError> {
        if self.is_starved {
            return Err(AllocError);
        }
        let mut line = String::new(self.alloc);
        line.push_str(what)?;
        for (place, known) in self.found.iter().enumerate() {
            line.push_str(if place == 0 { " such as " } else { ", " })?;
            put_name(&mut line, known.scope, known.name)?;
        }
        Ok(line)
    }

    /// Keeps a name, if it is one of the nearest.
    fn keep(&mut self, scope: &'k str, name: &'k str) -> Result<(), AllocError> {
        let changes = levenshtein(self.alloc, self.name, name)?;
        self.found.push(Known {
            scope,
            name,
            changes,
        })?;
        self.found.sort_by_key(|known| known.changes)?;
        self.found.truncate(MOST);
        Ok(())
    }
}

/// A struct, such as those of a schema whose names are nearest to this.
pub fn nearest_types(alloc: Global, schema: &Schema, name: &str) -> Result<String, AllocError> {
    let mut nearest = Nearest::new(alloc, name.as_bytes());
    for node in &schema.nodes {
        if let NodeKind::Struct(of) = &node.kind {
            if !of.is_group {
                nearest.add(node.name());
            }
        }
    }
    let wanted = nearest.wanted("a struct");
    drop(nearest);
    wanted
}

/// Adds the name of what lies in a type, if that has a name.
pub fn put_name(line: &mut String, scope: &str, name: &str) -> Result<(), AllocError> {
    if !scope.is_empty() {
        line.push_str(scope)?;
        line.push('.')?;
    }
    line.push_str(name)
}
