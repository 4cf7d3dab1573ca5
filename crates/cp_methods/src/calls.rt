//! Calls by the names of a schema.

ghost use Rattle.std.specs.Prelude.{◌≡◌, ◌+◌, IfOk, length};

use crate::fault::{at_column, behind, missed, missed_made};
use crate::finding::{interface_named, interface_of, lineage, method_at, method_named, own_method};
use crate::given::GivenKind;
use crate::mentions::Mentions;
use crate::word::{Part, Word, text_of};
use cp_encoder::{EncodeFault, Encoded, Encoder, Nearest, name_of, put_name};
use cp_schema::{MethodNumber, Notation, Schema};
use std::alloc::{AllocError, Global};

/// A call that a word names.
#[derive(Drop)]
pub struct NamedCall {
    /// What is called, in the notation of scripts.
    pub target: String,
    pub number: MethodNumber,
    /// Its params. `None` says that they are in the word as `plain_params` gives them.
    pub params: Option<Encoded>,
}

/// What words name by a schema, one after another. The first call is question 1.
#[derive(Drop)]
pub struct CallReader<'s> {
    pub(crate) alloc: Global,
    pub(crate) schema: &'s Schema,
    /// How params are written.
    notation: Notation,
    /// Of each call so far, the struct of its results, if the schema has it.
    results: Vec<Option<u64>>,
}

/// A target and a method.
#[derive(Drop)]
struct Called {
    target: String,
    number: MethodNumber,
}

impl<'s> CallReader<'s> {
    /// No call so far, where params are written so.
    pub fn new(alloc: Global, schema: &'s Schema, notation: Notation) -> CallReader<'s> {
        CallReader {
            alloc,
            schema,
            notation,
            results: Vec::new(alloc),
        }
    }

    /// The call of a word: `TARGET INTERFACE.METHOD PARAMS`, or `QUESTION.FIELD.METHOD PARAMS`. Without a target it is one of
    /// what the bootstrap gives, without an interface one of the only method of this name, and without params all fields are
    /// as by default.
    pub fn read(&self, word: &str) -> Result<NamedCall, EncodeFault> {
        let parts = Word::of(word);
        let Called { target, number } = self.called(&parts)?;
        match self.params(&parts, number) {
            Ok(params) => Ok(NamedCall {
                target,
                number,
                params,
            }),
            Err(fault) => {
                drop(target);
                Err(fault)
            }
        }
    }

    /// Notes that the next call is one of this method: later ones may name what it gives.
    pub fn note(&mut self, number: MethodNumber) -> Result<(), AllocError>
        // So the word after this one may name one call more.
        ensures { IfOk result (λ _. length self.new.results.items ≡ length self.old.results.items + 1) }
    {
        let results = match method_at(self.schema, number) {
            Some(method) => Some(method.results),
            None => None,
        };
        self.results.push(results)?;
        Ok(())
    }

    /// How many calls there are so far.
    pub(crate) fn asked(&self) -> usize
        ensures { result ≡ length self.now.results.items }
    {
        self.results.len()
    }

    /// The struct of the results of the call at this place, if there is one, and the schema has it.
    pub(crate) fn results_of(&self, place: usize) -> Option<Option<u64>> {
        self.results.get(place).copied()
    }

    /// The target and the method of a word.
    fn called(&self, word: &Word<'_>) -> Result<Called, EncodeFault> {
        match word.target {
            Some(target) => {
                let number = self.method(word.method)?;
                let target = self.target(target)?;
                Ok(Called { target, number })
            }
            None if word.method.is_of_question() => self.called_by_fields(word.method),
            None => {
                let number = self.method(word.method)?;
                let target = String::from_str(self.alloc, "question:0[]")?;
                Ok(Called { target, number })
            }
        }
    }

    /// The target and the method of `1.page.read`.
    fn called_by_fields(&self, name: Part<'_>) -> Result<Called, EncodeFault> {
        let Some((reference, method)) = name.cut_last('.') else {
            return Err(missed(self.alloc, name.column, "QUESTION.FIELD.METHOD", name.text));
        };
        let given = self.given(reference)?;
        let number = match given.kind {
            GivenKind::Interface(id) => self.method_of(id, method),
            _ => self.only_method(method),
        };
        match number {
            Ok(number) => Ok(Called {
                target: given.into_words()?,
                number,
            }),
            Err(fault) => {
                drop(given);
                Err(fault)
            }
        }
    }

    /// A target: what a question gave, by fields, or a capability in the notation of scripts.
    fn target(&self, target: Part<'_>) -> Result<String, EncodeFault> {
        if target.is_of_question() && !target.text.contains('[') {
            return Ok(self.given(target)?.into_words()?);
        }
        Ok(String::from_str(self.alloc, target.text)?)
    }

    /// The method of this name, with its interface or without.
    fn method(&self, name: Part<'_>) -> Result<MethodNumber, EncodeFault> {
        let Some((interface, method)) = name.cut_last('.') else {
            return self.only_method(name);
        };
        match interface_named(self.schema, interface.text) {
            Some(id) => self.method_of(id, method),
            None => Err(self.missed_interface(interface)),
        }
    }

    /// The method of this name that an interface has, or one that it extends.
    fn method_of(&self, id: u64, name: Part<'_>) -> Result<MethodNumber, EncodeFault> {
        match method_named(self.alloc, self.schema, id, name.text)? {
            Some(number) => Ok(number),
            None => Err(self.missed_method(Some(id), name)),
        }
    }

    /// The only method of this name.
    fn only_method(&self, name: Part<'_>) -> Result<MethodNumber, EncodeFault> {
        let mut found = None;
        for node in &self.schema.nodes {
            if let Some(method) = own_method(self.schema, node.id, name.text) {
                let interface = node.id;
                if let Some(other) = found {
                    return Err(self.missed_only(other, interface, name));
                }
                found = Some(MethodNumber { interface, method });
            }
        }
        match found {
            Some(number) => Ok(number),
            None => Err(self.missed_method(None, name)),
        }
    }

    /// The params of a word, if they are a struct's text.
    fn params(
        &self,
        word: &Word<'_>,
        number: MethodNumber,
    ) -> Result<Option<Encoded>, EncodeFault> {
        let text: &[u8] = match (self.notation.is_json(), word.params.first().copied()) {
            (false, Some(b'(')) | (true, Some(b'{')) => word.params,
            (false, None) => b"()",
            (true, None) => b"{}",
            (true, Some(b'(')) => return Err(self.missed_json(word)),
            _ => return Ok(None),
        };
        let Some(encoder) = self.encoder(number) else {
            let wanted = "a method whose params the schema has";
            return Err(missed(self.alloc, word.method.column, wanted, word.method.text));
        };
        if self.notation.is_json() {
            return Ok(Some(self.json_params(encoder, text, word.before)?));
        }
        let mentions = Mentions::read(self, text, word.before)?;
        let encoded = encoder.encoded(self.alloc, &mentions.text);
        let placed = match encoded {
            Ok(encoded) => Ok(Some(encoded)),
            Err(fault) => Err(mentions.placed(fault)),
        };
        drop(mentions);
        placed
    }

    /// Params in JSON, before which so many bytes of the word stand.
    fn json_params(
        &self,
        encoder: Encoder<'s>,
        text: &[u8],
        before: usize,
    ) -> Result<Encoded, EncodeFault> {
        match encoder.written_as(self.notation).encoded(self.alloc, text) {
            Ok(encoded) => self.with_numbers(encoded, before.saturating_add(1)),
            Err(fault) => Err(behind(before, fault)),
        }
    }

    /// A struct, given in this column, whose capabilities are named by the numbers of pointers in the place of fields.
    fn with_numbers(&self, encoded: Encoded, column: usize) -> Result<Encoded, EncodeFault> {
        let Encoded { object, caps } = encoded;
        match self.numbered(caps, column) {
            Ok(caps) => Ok(Encoded { object, caps }),
            Err(fault) => {
                drop(object);
                Err(fault)
            }
        }
    }

    /// Capabilities by the numbers of pointers.
    fn numbered(&self, names: Vec<String>, column: usize) -> Result<Vec<String>, EncodeFault> {
        let mut caps = Vec::new(self.alloc);
        let added = self.add_numbered(&names, column, &mut caps);
        drop(names);
        match added {
            Ok(()) => Ok(caps),
            Err(fault) => {
                drop(caps);
                Err(fault)
            }
        }
    }

    /// Adds capabilities by the numbers of pointers. A fault is at the column of the struct: where a name stands in it isn't known.
    fn add_numbered(
        &self,
        names: &[String],
        column: usize,
        caps: &mut Vec<String>,
    ) -> Result<(), EncodeFault> {
        for name in names {
            let part = Part {
                text: name.as_str(),
                column,
            };
            match self.target(part) {
                Ok(target) => caps.push(target)?,
                Err(fault) => return Err(at_column(column, fault)),
            }
        }
        Ok(())
    }

    /// Params that aren't JSON.
    fn missed_json(&self, word: &Word<'_>) -> EncodeFault {
        let column = word.before.saturating_add(1);
        missed(self.alloc, column, "{ and members", text_of(word.params))
    }

    /// By what the params of a method are read.
    fn encoder(&self, number: MethodNumber) -> Option<Encoder<'s>> {
        let method = method_at(self.schema, number)?;
        Encoder::by_number(self.schema, method.params, &method.params_brand)
    }

    /// A name where an interface is wanted.
    fn missed_interface(&self, name: Part<'_>) -> EncodeFault {
        let mut nearest = Nearest::new(self.alloc, name.text.as_bytes());
        for node in &self.schema.nodes {
            if interface_of(node).is_some() {
                nearest.add(node.name());
            }
        }
        let wanted = nearest.wanted("an interface");
        drop(nearest);
        missed_made(self.alloc, name.column, wanted, name.text)
    }

    /// A name where a method is wanted, of an interface or of any one.
    fn missed_method(&self, interface: Option<u64>, name: Part<'_>) -> EncodeFault {
        let mut nearest = Nearest::new(self.alloc, name.text.as_bytes());
        let added = match interface {
            Some(id) => self.add_methods_of(&mut nearest, id),
            None => {
                self.add_methods(&mut nearest);
                Ok(())
            }
        };
        let wanted = match added {
            Ok(()) => nearest.wanted("a method"),
            Err(error) => Err(error),
        };
        drop(nearest);
        missed_made(self.alloc, name.column, wanted, name.text)
    }

    /// A name that two methods have.
    fn missed_only(&self, first: MethodNumber, second: u64, name: Part<'_>) -> EncodeFault {
        let mut wanted = String::new(self.alloc);
        let written = put_name(
            &mut wanted,
            name_of(self.schema, first.interface),
            name.text,
        )
        .is_ok()
            && wanted.push_str(" or ").is_ok()
            && put_name(&mut wanted, name_of(self.schema, second), name.text).is_ok();
        if written {
            return missed_made(self.alloc, name.column, Ok(wanted), name.text);
        }
        drop(wanted);
        EncodeFault::OutOfMemory
    }

    /// Adds the names of all methods.
    fn add_methods(&self, nearest: &mut Nearest<'_, 's>) {
        for node in &self.schema.nodes {
            self.add_own_methods(nearest, node.id);
        }
    }

    /// Adds the names of the methods that an interface has, and those that it extends.
    fn add_methods_of(&self, nearest: &mut Nearest<'_, 's>, id: u64) -> Result<(), AllocError> {
        let line = lineage(self.alloc, self.schema, id)?;
        for id in &line {
            self.add_own_methods(nearest, *id);
        }
        drop(line);
        Ok(())
    }

    /// Adds the names of an interface's own methods.
    fn add_own_methods(&self, nearest: &mut Nearest<'_, 's>, id: u64) {
        let Some(node) = self.schema.find(id) else {
            return;
        };
        if let Some(of) = interface_of(node) {
            for method in &of.methods {
                nearest.add_of(node.name(), method.name.as_str());
            }
        }
    }
}
