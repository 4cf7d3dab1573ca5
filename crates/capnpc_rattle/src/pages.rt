//! The pages of a crate: its modules, with what they import, and its roots.

use crate::book::{Book, has_name};
use crate::filler::Templates;
use crate::model::{Model, Refusal};
use crate::names::has_word;
use crate::nodes::node;
use crate::out::{Out, before, name_of};
use crate::uses::{is_between, list, of_clauses, of_definitions, paths};
use cp_schema::{Node, NodeKind};
use std::alloc::{AllocError, Global};
use std::mem;

/// The libraries that builders, clients and servers stand on.
const LIBRARIES: &str = "\
cp_builder
cp_objects
cp_refs
cp_rpc
cp_servants
cp_interfaces
cp_tables
cp_vat_machine
";

/// The libraries that all generated code stands on.
const ALWAYS: &str = "cp_words cp_tree cp_fields std";

/// Whether generated code stands on a library of this name.
pub fn is_library(name: &str) -> bool {
    for library in LIBRARIES.lines() {
        if library == name {
            return true;
        }
    }
    has_word(ALWAYS, name)
}

/// The module of a crate's constants.
pub const CONSTANTS: &str = "constants";

/// A module of a generated crate.
pub struct Page<'b> {
    pub module: &'b str,
    /// Its code, as it was filled in, and then with its imports.
    pub code: Out,
    /// Its definitions likewise; empty if it has none.
    pub specs: Out,
    /// What it declares, by their paths, a line each.
    pub exports: Out,
    /// What the code imports of the crate's other modules, and of other crates, a line each.
    pub uses: Out,
    pub libraries: Out,
    /// The definitions of other modules that clauses cite, a line each, and its own.
    cited: Out,
    words: Out,
    /// The first thing that can't be written, and the constants that are left out.
    pub refusal: Option<Refusal<'b>>,
    pub left_out: Vec<Refusal<'b>>,
    pub is_full: bool,
}

// Not derived: who lets one go calls this function, and need not prove the drop of all its texts.
impl Drop for Page<'_> {
    fn drop(self) {
        let Page {
            module: _,
            code: _,
            specs: _,
            exports: _,
            uses: _,
            libraries: _,
            cited: _,
            words: _,
            refusal: _,
            left_out: _,
            is_full: _,
        } = self;
    }
}

/// A crate that is written, and the name of its schema's file.
#[derive(Clone, Copy)]
pub struct Target<'f> {
    pub krate: &'f str,
    pub schema: &'f str,
}

/// The pages of a crate, in the order of their modules' names, but that of its constants is the last.
pub fn pages<'b>(
    book: &'b Book<'_>,
    templates: &Templates<'_>,
    target: Target<'b>,
) -> Result<Vec<Page<'b>>, AllocError> {
    let (mut modules, mut pages) = (Vec::new(book.alloc), Vec::new(book.alloc));
    let pushed = push_pages(book, templates, target, &mut modules, &mut pages);
    drop(modules);
    match pushed {
        Ok(()) => Ok(pages),
        Err(error) => {
            drop(pages);
            Err(error)
        }
    }
}

/// Adds the names of a crate's modules in order, and their pages.
fn push_pages<'b>(
    book: &'b Book<'_>,
    templates: &Templates<'_>,
    target: Target<'b>,
    modules: &mut Vec<&'b str>,
    pages: &mut Vec<Page<'b>>,
) -> Result<(), AllocError> {
    for named in &book.names {
        if named.is_written && named.krate.as_str() == target.krate {
            modules.push(named.module.as_str())?;
        }
    }
    modules.sort()?;
    // A struct's module has its groups too.
    modules.dedup();
    let mut has_constants = false;
    for module in modules.iter() {
        if *module == CONSTANTS {
            has_constants = true;
        } else {
            let page = page_of(book, templates, (target, module), &[]);
            pages.push(page)?;
        }
    }
    if has_constants {
        let page = page_of(book, templates, (target, CONSTANTS), pages.as_slice());
        pages.push(page)?;
    }
    Ok(())
}

/// A page. Constants have none of the names that these other pages declare.
fn page_of<'b>(
    book: &'b Book<'_>,
    templates: &Templates<'_>,
    (target, module): (Target<'b>, &'b str),
    others: &[Page<'_>],
) -> Page<'b> {
    let mut model = model_of(book, target, module, others);
    let mut page = Page::new(book.alloc, module);
    page.fill(templates, &model);
    page.refusal = model.refusal;
    mem::swap(&mut page.left_out, &mut model.left_out);
    drop(model);
    page
}

/// What is known of a module.
fn model_of<'b>(
    book: &'b Book<'_>,
    target: Target<'b>,
    module: &'b str,
    others: &[Page<'_>],
) -> Model<'b> {
    let mut model = Model::new(book.alloc, (target.krate, module));
    let mut here = Out::new(book.alloc);
    here.all(&["Rattle.", target.krate, ".specs."]);
    here.spell(module, "module");
    model.own("here", &[here.as_str()]);
    drop(here);
    model.text("schema", target.schema);
    model.text("krate", target.krate);
    model.text("module", module);
    model.texts(&[
        ("body", "self.now.body"),
        ("value", "value"),
        ("alloc", "alloc"),
    ]);
    model.number("whole", book.is_whole() as u64);
    let calls = nodes(&mut model, book, target, (module, others));
    model.number("calls", calls as u64);
    model.close();
    model
}

/// Adds the types and constants of a module, and says whether it has an interface. Params and results come after their interface. A
/// constant whose name another thing has is left out.
fn nodes<'b>(
    model: &mut Model<'b>,
    book: &'b Book<'_>,
    target: Target<'b>,
    (module, others): (&str, &[Page<'_>]),
) -> bool {
    let mut calls = false;
    let mut constants = Out::new(book.alloc);
    model.list("nodes");
    for of in &book.schema.nodes {
        if has_name(of) && is_here(book, of, target, module) {
            if module == CONSTANTS && clashes(of, others, &mut constants) {
                model.leave_out(of.name(), "another thing has its name");
                continue;
            }
            add(model, book, of.id);
            if let NodeKind::Interface(it) = &of.kind {
                calls = true;
                for method in &it.methods {
                    add_nameless(model, book, method.params);
                    add_nameless(model, book, method.results);
                }
            }
        }
    }
    model.close();
    drop(constants);
    calls
}

/// Whether a constant has a name of these pages, or of these constants, to which it is added if not.
fn clashes(of: &Node, others: &[Page<'_>], constants: &mut Out) -> bool {
    let name = Out::spelled(constants.alloc, of.name(), "upper");
    let is_taken = has_line(constants.as_str(), name.as_str())
        || count_of(others, name.as_str()) > 0;
    constants.all(&[name.as_str(), "\n"]);
    drop(name);
    is_taken
}

/// Whether one of these lines is this text, but for its case.
fn has_line(lines: &str, text: &str) -> bool {
    for line in lines.lines() {
        if line.eq_ignore_ascii_case(text) {
            return true;
        }
    }
    false
}

/// Whether a node is written in a module.
fn is_here(book: &Book<'_>, of: &Node, target: Target<'_>, module: &str) -> bool {
    match book.find(of.id) {
        Some(named) => {
            named.is_written
                && named.krate.as_str() == target.krate
                && named.module.as_str() == module
        }
        None => false,
    }
}

/// Adds the node of this number, if there is one.
fn add<'b>(model: &mut Model<'b>, book: &'b Book<'_>, id: u64) {
    if let (Some(of), Some(named)) = (book.schema.find(id), book.find(id)) {
        node(model, book, of, named);
    }
}

/// Adds params or results, unless they have a name of their own.
fn add_nameless<'b>(model: &mut Model<'b>, book: &'b Book<'_>, id: u64) {
    match book.schema.find(id) {
        Some(of) if !has_name(of) => add(model, book, id),
        _ => {}
    }
}

impl<'b> Page<'b> {
    fn new(alloc: Global, module: &'b str) -> Page<'b> {
        Page {
            module,
            code: Out::new(alloc),
            specs: Out::new(alloc),
            exports: Out::new(alloc),
            uses: Out::new(alloc),
            libraries: Out::new(alloc),
            cited: Out::new(alloc),
            words: Out::new(alloc),
            refusal: None,
            left_out: Vec::new(alloc),
            is_full: false,
        }
    }

    /// Fills all of it in.
    fn fill(&mut self, templates: &Templates<'_>, model: &Model<'_>) {
        let mut text = Out::new(model.alloc);
        templates.fill(model, ("code", "page"), 0, &mut text);
        let here = match model.find(0, "here") {
            Some(place) => model.text_at(place),
            None => "",
        };
        let mut code = Out::new(model.alloc);
        for line in text.as_str().lines() {
            self.take(line, here, &mut code);
        }
        templates.fill(model, ("module", "head"), 0, &mut self.code);
        self.finish(here, &code);
        self.define(templates, model);
        self.is_full = text.is_full || code.is_full || model.is_full() || templates.is_full;
        drop(text);
        drop(code);
    }

    /// Takes a line of code, which may be an import. The definitions of this module are cited together.
    fn take(&mut self, line: &str, here: &str, code: &mut Out) {
        if let Some(path) = line.strip_prefix("ghost use ") {
            match own_words(path, here) {
                Some(words) => list(&mut self.words, words),
                None => self.cited.all(&[line, "\n"]),
            }
        } else if let Some(path) = line.strip_prefix("use ") {
            let path = before(path, ';');
            if path.starts_with("crate::") {
                self.uses.all(&[path, "\n"]);
            } else if !path.starts_with("self::") {
                self.libraries.all(&[path, "\n"]);
            }
        } else {
            if let Some(rest) = line.strip_prefix("pub ") {
                self.export(rest);
            }
            code.all(&[line, "\n"]);
        }
    }

    /// Exports what a line declares, after its first word.
    fn export(&mut self, line: &str) {
        for name in after(line, ' ').split(is_between).take(1) {
            self.exports.all(&[self.module, "::", name, "\n"]);
        }
    }

    /// Puts the imports before the code.
    fn finish(&mut self, here: &str, code: &Out) {
        let text = code.as_str();
        of_clauses(&mut self.code, text);
        self.code.put_sorted(self.cited.as_str(), ("", "\n"));
        if !self.words.is_empty() {
            self.code.all(&["ghost use ", here, ".{"]);
            self.code.put(self.words.as_str());
            self.code.put("};\n");
        }
        self.code.put("\n");
        let mut all = Out::new(code.alloc);
        all.all(&[self.uses.as_str(), self.libraries.as_str()]);
        paths(&mut all, text);
        self.code.put_sorted(all.as_str(), ("use ", ";\n"));
        self.code.put(text);
        drop(all);
    }

    /// Fills the definitions in, if there are some.
    fn define(&mut self, templates: &Templates<'_>, model: &Model<'_>) {
        let mut text = Out::new(model.alloc);
        templates.fill(model, ("specs", "page"), 0, &mut text);
        let (mut specs, mut imports) = (Out::new(model.alloc), Out::new(model.alloc));
        for line in text.as_str().lines() {
            if line.starts_with("use ") {
                imports.all(&[line, "\n"]);
            } else {
                specs.all(&[line, "\n"]);
            }
        }
        if !specs.is_empty() {
            templates.fill(model, ("definitions", "head"), 0, &mut self.specs);
            of_definitions(&mut self.specs, specs.as_str());
            self.specs.put_sorted(imports.as_str(), ("", "\n"));
            self.specs.put(specs.as_str());
        }
        drop(text);
        drop(specs);
        drop(imports);
    }

    /// Whether memory ran out while it was written.
    pub fn is_full(&self) -> bool {
        self.is_full
            || self.code.is_full
            || self.specs.is_full
            || self.exports.is_full
            || self.uses.is_full
            || self.libraries.is_full
            || self.cited.is_full
            || self.words.is_full
    }
}

/// The words that an import cites of these definitions, if it cites them.
fn own_words<'l>(path: &'l str, here: &str) -> Option<&'l str> {
    Some(before(path.strip_prefix(here)?.strip_prefix(".{")?, '}'))
}

/// What a text has after a character.
fn after(text: &str, start: char) -> &str {
    match text.split_once(start) {
        Some((_, rest)) => rest,
        None => "",
    }
}

/// How the root of a crate begins that is made of a schema's file.
pub fn head_of(alloc: Global, schema: &str) -> Out {
    let mut text = Out::new(alloc);
    text.all(&["//! The types of ", schema, ", made by capnpc_rattle.\n"]);
    text
}

/// The text of the crate's root.
pub fn root_text(book: &Book<'_>, pages: &[Page<'_>], schema: &str) -> Out {
    let (mut text, mut exports) = (head_of(book.alloc, schema), Out::new(book.alloc));
    text.put("#![tactic(auto)]\n\n");
    let mut modules = Out::new(book.alloc);
    for page in pages {
        modules.all(&[page.module, "\n"]);
        exports.put(page.exports.as_str());
    }
    text.put_sorted(modules.as_str(), ("mod ", ";\n"));
    drop(modules);
    text.push('\n');
    text.put_sorted(exports.as_str(), ("pub use ", ";\n"));
    drop(exports);
    text
}

/// The text of the root of the crate's definitions.
pub fn specs_root(book: &Book<'_>, pages: &[Page<'_>]) -> Out {
    let mut text = Out::new(book.alloc);
    for page in pages {
        if !page.specs.is_empty() {
            text.put("pub mod ");
            text.spell(page.module, "module");
            text.put("\n");
        }
    }
    text
}

/// The line that names the crate and the libraries that it stands on.
pub fn line_of(book: &Book<'_>, pages: &[Page<'_>], krate: &str) -> Out {
    let (mut line, mut crates) = (Out::new(book.alloc), Out::new(book.alloc));
    if book.is_whole() {
        crates.put(LIBRARIES);
    }
    for page in pages {
        for path in page.libraries.as_str().lines() {
            let krate = before(path, ':');
            if !has_word(ALWAYS, krate) {
                crates.all(&[krate, "\n"]);
            }
        }
    }
    line.all(&[krate, ": cp_words cp_tree cp_fields"]);
    line.put_sorted(crates.as_str(), (" ", ""));
    line.put("\n");
    drop(crates);
    line
}

/// A name that two types have, but for its case.
pub fn name_twice<'s>(pages: &'s [Page<'_>]) -> Option<&'s str> {
    for page in pages {
        for line in page.exports.as_str().lines() {
            if count_of(pages, name_of(line)) > 1 {
                return Some(name_of(line));
            }
        }
    }
    None
}

/// The number of types of a name, but for its case.
fn count_of(pages: &[Page<'_>], name: &str) -> u64 {
    let mut count = 0_u64;
    for page in pages {
        for line in page.exports.as_str().lines() {
            if name_of(line).eq_ignore_ascii_case(name) {
                count = count.saturating_add(1);
            }
        }
    }
    count
}
