//! Which crates aren't written: those with a name that no crate can have, that two files would have, or that another crate has.

use crate::book::crate_name;
use crate::names::is_crate_name;
use crate::out::{Out, file_name};
use crate::pages::{head_of, is_library};
use anyhow::bail;
use cp_schema::Schema;
use std::alloc::{AllocError, Global};
use std::fs::{self, File};

/// A file of a request, and its crate's name.
struct FileCrate<'s> {
    path: &'s str,
    name: Out,
    /// Whether its crate is written, and the file not just imported.
    is_asked: bool,
}

// Not derived: who lets one go calls this function, and need not prove the drop of its name.
impl Drop for FileCrate<'_> {
    fn drop(self) {
        let FileCrate {
            path: _,
            name: _,
            is_asked: _,
        } = self;
    }
}

/// Refuses crates that can't be written, before any is. `given` is the crate's name, if it isn't the file's; crates that are printed take
/// nobody's place.
pub fn check_crates(
    rt: &HostRuntime,
    schema: &Schema,
    given: &str,
    prints: bool,
) -> anyhow::Result<()> {
    let mut crates = Vec::new(rt.alloc());
    let checked = check_pushed(rt, (schema, given), prints, &mut crates);
    drop(crates);
    checked
}

/// Adds the files of a request, and refuses what can't be written.
fn check_pushed<'s>(
    rt: &HostRuntime,
    (schema, given): (&'s Schema, &str),
    prints: bool,
    crates: &mut Vec<FileCrate<'s>>,
) -> anyhow::Result<()> {
    push_crates(rt.alloc(), schema, given, crates)?;
    check_all(rt, crates.as_slice(), prints)
}

/// Adds the files that are asked for, and those that they import.
fn push_crates<'s>(
    alloc: Global,
    schema: &'s Schema,
    given: &str,
    crates: &mut Vec<FileCrate<'s>>,
) -> Result<(), AllocError> {
    for file in &schema.files {
        push_crate(alloc, schema, (file.id, given, true), crates)?;
    }
    for file in &schema.files {
        for id in &file.imports {
            push_crate(alloc, schema, (*id, "", false), crates)?;
        }
    }
    Ok(())
}

/// Adds the file of this number, if it isn't there.
fn push_crate<'s>(
    alloc: Global,
    schema: &'s Schema,
    (id, given, is_asked): (u64, &str, bool),
    crates: &mut Vec<FileCrate<'s>>,
) -> Result<(), AllocError> {
    let Some(node) = schema.find(id) else {
        return Ok(());
    };
    let path = node.path();
    for other in crates.iter() {
        if other.path == path {
            return Ok(());
        }
    }
    let name = crate_name(alloc, path, given);
    crates.push(FileCrate {
        path,
        name,
        is_asked,
    })?;
    Ok(())
}

/// Refuses the first that can't be written.
fn check_all(rt: &HostRuntime, crates: &[FileCrate<'_>], prints: bool) -> anyhow::Result<()> {
    for (i, it) in crates.iter().enumerate() {
        let (path, name) = (it.path, it.name.as_str());
        if !is_crate_name(name) || is_library(name) {
            bail!(
                "{path}: no crate of a schema can be called {name}{}",
                hint(it)
            );
        }
        for other in crates.iter().take(i) {
            if other.name.as_str() == name {
                bail!("{} and {path} would both be the crate {name}", other.path);
            }
        }
        if it.is_asked && !prints && is_of_another(rt, it) {
            bail!(
                "{path}: the crate {name} is there, and wasn't made of this file{}",
                hint(it)
            );
        }
    }
    Ok(())
}

/// How the crate gets another name.
fn hint(of: &FileCrate<'_>) -> &'static str {
    if of.is_asked {
        ": --name=NAME gives it another name"
    } else {
        ""
    }
}

/// Whether a crate of this name is there that doesn't say that it was made of a file of this name.
fn is_of_another(rt: &HostRuntime, of: &FileCrate<'_>) -> bool {
    let (mut root, mut main) = (Out::new(rt.alloc()), Out::new(rt.alloc()));
    root.all(&[of.name.as_str(), "/src/lib.rt"]);
    main.all(&[of.name.as_str(), "/src/main.rt"]);
    let head = head_of(rt.alloc(), file_name(of.path));
    let is_other = match fs::read_to_string(rt, root.as_str()) {
        Ok(text) => !text.as_str().starts_with(head.as_str()),
        Err(_) => File::open(rt, root.as_str()).is_ok() || File::open(rt, main.as_str()).is_ok(),
    };
    drop(root);
    drop(main);
    drop(head);
    is_other
}
