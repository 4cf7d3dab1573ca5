//! The plugin of `capnp compile` that writes Rattle: it reads a CodeGeneratorRequest from standard input, and
//! writes a crate for each requested file into the current folder: readers and builders of its structs, and clients and servers of its
//! interfaces.
//!
//!     capnp compile -oFOLDER/capnpc_rattle:OUT X.capnp
//!     capnp compile -o- X.capnp | capnpc_rattle [--name=NAME] [--only=LIST] [--print]
//!
//! With `--name=NAME` the crate has this name, and not the file's; with `--only=LIST` it has readers alone, whose methods are those that
//! are listed; with `--print` its files go to standard output.
#![tactic(auto)]

mod book;
mod fields;
mod filler;
mod groups;
mod interfaces;
mod keep;
mod model;
mod names;
mod nodes;
mod only;
mod out;
mod pages;
mod reach;
mod templates;
mod told;
mod trees;
mod twice;
mod types;
mod uses;

use anyhow::{anyhow, bail};
use book::{Book, crate_name};
use cp_schema::{Node, Schema};
use filler::Templates;
use keep::check_crates;
use out::{Out, file_name};
use pages::{Page, Target, line_of, name_twice, pages, root_text, specs_root};
use std::io::Read;
use std::{env, fs};
use templates::TEMPLATES;
use told::tell_names;
use twice::found_twice;

/// What `--help` prints.
const USAGE: &str = "\
usage: capnp compile -oFOLDER/capnpc_rattle:OUT X.capnp
       capnp compile -o- X.capnp | capnpc_rattle [--name=NAME] [--only=LIST] [--print]

Writes a crate for each schema file into the current folder: readers and builders
of its structs, and clients and servers of its interfaces.

  --name=NAME   The crate's name, in place of the file's
  --only=LIST   Readers alone, with these methods: STRUCT.FIELD and
                STRUCT.of with commas between; no types without one, and no members
                of unions
  --print       Print the files, and write none
";

/// What the plugin is asked to do with what it makes.
#[derive(Clone, Copy)]
struct Task<'a> {
    /// The crate's name; empty where it is the file's.
    krate: &'a str,
    /// The methods of readers that are written, and nothing else; empty where all is.
    only: &'a str,
    /// Whether the files are printed, and not written.
    prints: bool,
}

impl<'a> Task<'a> {
    /// What the arguments say; `None` if they ask for help.
    fn of(words: &'a [String]) -> anyhow::Result<Option<Task<'a>>> {
        let mut task = Task {
            krate: "",
            only: "",
            prints: false,
        };
        for word in words.iter().skip(1) {
            let word = word.as_str();
            if let Some(name) = word.strip_prefix("--name=") {
                task.krate = name;
            } else if let Some(names) = word.strip_prefix("--only=") {
                task.only = names;
            } else if word == "--print" {
                task.prints = true;
            } else if word == "--help" {
                return Ok(None);
            } else {
                bail!("{word}: neither --name=NAME nor --only=LIST nor --print");
            }
        }
        Ok(Some(task))
    }

    /// Writes or prints a file of a crate, by its path in the crate's folder.
    fn put(self, rt: &HostRuntime, krate: &str, path: &[&str], text: &Out) -> anyhow::Result<()> {
        let mut name = Out::new(rt.alloc());
        name.all(&[krate, "/"]);
        name.all(path);
        let put = if text.is_full || name.is_full {
            Err(anyhow!("memory ran out"))
        } else {
            self.put_text(rt, name.as_str(), text.as_str())
        };
        drop(name);
        put
    }

    /// Writes or prints this text.
    fn put_text(self, rt: &HostRuntime, path: &str, text: &str) -> anyhow::Result<()> {
        if self.prints {
            print!(rt; "==> {path}\n{text}")?;
        } else {
            fs::write(rt, path, text)?;
        }
        Ok(())
    }

    /// Makes a folder of the crate, unless its files are printed.
    fn make_folder(self, rt: &HostRuntime, krate: &str, name: &str) -> anyhow::Result<()> {
        if self.prints {
            return Ok(());
        }
        let path = format!(in rt.alloc(); "{krate}/{name}")?;
        let made = fs::create_dir_all(rt, path.as_str());
        drop(path);
        Ok(made?)
    }

    /// Writes or prints the files of a crate's modules.
    fn put_pages(self, rt: &HostRuntime, krate: &str, pages: &[Page<'_>]) -> anyhow::Result<()> {
        self.make_folder(rt, krate, "src")?;
        self.make_folder(rt, krate, "specs")?;
        for page in pages {
            self.put(rt, krate, &["src/", page.module, ".rt"], &page.code)?;
            if !page.specs.is_empty() {
                let module = Out::spelled(rt.alloc(), page.module, "module");
                let put = self.put(
                    rt,
                    krate,
                    &["specs/", module.as_str(), ".antt"],
                    &page.specs,
                );
                drop(module);
                put?;
            }
        }
        Ok(())
    }

    /// Writes or prints the roots of a crate, and prints its line where they are written.
    fn put_roots(
        self,
        rt: &HostRuntime,
        book: &Book<'_>,
        pages: &[Page<'_>],
        of: Target<'_>,
    ) -> anyhow::Result<()> {
        let root = root_text(book, pages, of.schema);
        let put = self.put(rt, of.krate, &["src/lib.rt"], &root);
        drop(root);
        put?;
        let root = specs_root(book, pages);
        let put = self.put(rt, of.krate, &["specs/Lib.antt"], &root);
        drop(root);
        put?;
        if self.prints {
            return Ok(());
        }
        let line = line_of(book, pages, of.krate);
        let printed = print!(rt; "{}", line.as_str());
        drop(line);
        Ok(printed?)
    }
}

/// Makes the crate of a file.
fn make_crate(
    rt: &HostRuntime,
    task: Task<'_>,
    schema: &Schema,
    file: &Node,
) -> anyhow::Result<()> {
    let name = crate_name(rt.alloc(), file.path(), task.krate);
    let put = put_crate(rt, task, schema, file.path(), name.as_str());
    drop(name);
    put
}

/// Writes or prints the crate of the file of this path.
fn put_crate<'n>(
    rt: &HostRuntime,
    task: Task<'_>,
    schema: &Schema,
    path: &'n str,
    krate: &'n str,
) -> anyhow::Result<()> {
    let book = Book::of(rt.alloc(), schema, (path, krate), task.only)?;
    let target = Target {
        krate,
        schema: file_name(path),
    };
    let put = put_book(rt, task, &book, target);
    drop(book);
    put
}

/// Writes or prints a crate of these types and constants.
fn put_book(
    rt: &HostRuntime,
    task: Task<'_>,
    book: &Book<'_>,
    of: Target<'_>,
) -> anyhow::Result<()> {
    let templates = Templates::new(rt.alloc(), &TEMPLATES);
    let pages = pages(book, &templates, of);
    drop(templates);
    let pages = pages?;
    let put = put_all(rt, task, book, of, pages.as_slice());
    drop(pages);
    put
}

/// Writes or prints a crate of these modules.
fn put_all(
    rt: &HostRuntime,
    task: Task<'_>,
    book: &Book<'_>,
    of: Target<'_>,
    pages: &[Page<'_>],
) -> anyhow::Result<()> {
    // Before any file is written.
    check(pages)?;
    for page in pages {
        for it in &page.left_out {
            eprintln!(rt; "{} is left out: {}", it.title, it.why)?;
        }
    }
    task.put_pages(rt, of.krate, pages)?;
    task.put_roots(rt, book, pages, of)
}

/// Refuses what can't be written.
fn check(pages: &[Page<'_>]) -> anyhow::Result<()> {
    for page in pages {
        if let Some(of) = page.refusal {
            let dot = if of.member.is_empty() { "" } else { "." };
            bail!("{}{dot}{}: {}", of.title, of.member, of.why);
        }
        if page.is_full() {
            bail!("memory ran out");
        }
        if let Some(name) = found_twice(page) {
            let fault = anyhow!("{}: two things are called {}", page.module, name.as_str());
            drop(name);
            return Err(fault);
        }
    }
    match name_twice(pages) {
        Some(name) => Err(anyhow!("two types are called {name}")),
        None => Ok(()),
    }
}

/// Makes the crates of a request.
fn answer(rt: &HostRuntime, task: Task<'_>, schema: &Schema) -> anyhow::Result<()> {
    check_crates(rt, schema, task.krate, task.prints)?;
    for file in &schema.files {
        match schema.find(file.id) {
            Some(node) => {
                make_crate(rt, task, schema, node)?;
                tell_names(rt, schema, node.path(), task.only)?;
            }
            None => bail!("the request has no file {}", file.id),
        }
    }
    Ok(())
}

/// The request that standard input has.
fn request(rt: &HostRuntime) -> anyhow::Result<Schema> {
    let mut bytes = Vec::new(rt.alloc());
    let schema = read_request(rt, &mut bytes);
    drop(bytes);
    schema
}

fn read_request(rt: &HostRuntime, bytes: &mut Vec<u8>) -> anyhow::Result<Schema> {
    rt.stdin().read_to_end(bytes)?;
    Ok(Schema::read(rt.alloc(), bytes)?)
}

/// Does what the arguments say.
fn act(rt: &HostRuntime, words: &[String]) -> anyhow::Result<()> {
    let Some(task) = Task::of(words)? else {
        print!(rt; "{USAGE}")?;
        return Ok(());
    };
    let schema = request(rt)?;
    let answered = answer(rt, task, &schema);
    drop(schema);
    answered
}

fn main(rt: HostRuntime) -> anyhow::Result<()> {
    let words: Vec<String> = env::args(&rt)?.collect(rt.alloc())?;
    let done = act(&rt, &words);
    drop(words);
    done
}
