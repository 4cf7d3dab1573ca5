//! The calls that words name.

ghost use Rattle.std.specs.Prelude.{◌≡◌, IfOk};

use crate::fault::CommandFault;
use cp_encoder::Encoded;
use cp_frame::FrameReader;
use cp_lines::{WrittenCall, call_of, cap_of, payload_of};
use cp_methods::{CallReader, NamedCall, is_named, plain_params};
use cp_reading::read_root;
use cp_refs::{Cap, Caps, Path, Request};
use cp_schema::{MethodNumber, Notation, Schema};
use cp_tree::{Body, Tree, Whole};
use cp_words::Limits;
use std::alloc::{AllocError, Global};
use std::fs::{self, Files};

/// What comes before the path of a stored message.
const STORED: &str = " @";

/// The calls of these words, in order, by names where a schema is given, or by numbers: each `TARGET i=H m=N PARAMS`. Without
/// a target the call is one on what the bootstrap gives, `question:0[]`. PARAMS are `{T caps[..]}`, or `@FILE`, the content of
/// a stored message; without them they are a struct without fields.
pub(crate) fn calls_of<'w, N: Files + AllocGlobal>(
    rt: &N,
    schema: Option<&Schema>,
    notation: Notation,
    words: &[&'w str],
) -> Result<Vec<(Cap, Request)>, CommandFault<'w>> {
    let mut calls = Vec::new(rt.alloc());
    let mut names = match schema {
        Some(schema) => Some(CallReader::new(rt.alloc(), schema, notation)),
        None => None,
    };
    let added = add_all(rt, &mut names, words, &mut calls);
    drop(names);
    match added {
        Ok(()) => Ok(calls),
        Err(fault) => {
            drop(calls);
            Err(fault)
        }
    }
}

/// Adds the calls of words.
fn add_all<'w, N: Files + AllocGlobal>(
    rt: &N,
    names: &mut Option<CallReader<'_>>,
    words: &[&'w str],
    calls: &mut Vec<(Cap, Request)>,
) -> Result<(), CommandFault<'w>> {
    for (place, word) in words.iter().enumerate() {
        add(rt, names, place.saturating_add(1), word, calls)?;
    }
    Ok(())
}

/// Adds the call of a word, which later ones may name.
fn add<'w, N: Files + AllocGlobal>(
    rt: &N,
    names: &mut Option<CallReader<'_>>,
    number: usize,
    word: &'w str,
    calls: &mut Vec<(Cap, Request)>,
) -> Result<(), CommandFault<'w>> {
    let call = match names {
        Some(names) if is_named(word) => named_call(rt, names, number, word)?,
        None if is_named(word) => return Err(CommandFault::Unnamed { number }),
        _ => call(rt, number, word)?,
    };
    match note(names, &call.1) {
        Ok(()) => Ok(calls.push(call)?),
        Err(error) => {
            drop(call);
            Err(CommandFault::from(error))
        }
    }
}

/// Notes a call, so that later ones may name what it gives.
fn note(names: &mut Option<CallReader<'_>>, call: &Request) -> Result<(), AllocError> {
    let Some(names) = names else {
        return Ok(());
    };
    names.note(MethodNumber {
        interface: call.interface,
        method: call.method,
    })
}

/// The call of a word by names.
fn named_call<'w, N: Files + AllocGlobal>(
    rt: &N,
    names: &CallReader<'_>,
    number: usize,
    word: &'w str,
) -> Result<(Cap, Request), CommandFault<'w>> {
    let NamedCall {
        target,
        number: method,
        params,
    } = match names.read(word) {
        Ok(call) => call,
        Err(fault) => return Err(CommandFault::Named { number, fault }),
    };
    let called = cap(rt.alloc(), number, target.as_str());
    drop(target);
    let payload = match params {
        Some(params) => encoded(rt.alloc(), number, params),
        None => plain(rt, number, plain_params(word).unwrap_or("")),
    };
    match called {
        Ok(target) => call_with(target, method, payload),
        Err(fault) => {
            drop(payload);
            Err(fault)
        }
    }
}

/// The call of a method with params, if these could be made.
fn call_with<'w>(
    target: Cap,
    method: MethodNumber,
    payload: Result<(Whole, Caps), CommandFault<'w>>,
) -> Result<(Cap, Request), CommandFault<'w>> {
    match payload {
        Ok((content, caps)) => {
            let request = Request {
                interface: method.interface,
                method: method.method,
                content,
                caps,
            };
            Ok((target, request))
        }
        Err(fault) => {
            drop(target);
            Err(fault)
        }
    }
}

/// The capability of a text.
fn cap(alloc: Global, number: usize, text: &str) -> Result<Cap, CommandFault<'static>> {
    match cap_of(alloc, text) {
        Ok(cap) => Ok(cap),
        Err(wrong) => Err(CommandFault::Word { number, wrong }),
    }
}

/// A struct with its capabilities, as params.
fn encoded(
    alloc: Global,
    number: usize,
    params: Encoded,
) -> Result<(Whole, Caps), CommandFault<'static>>
    // What is sent is the struct that was made of the text.
    ensures { IfOk result (λ sent. sent.0 ≡ params.object) }
{
    let Encoded {
        object,
        caps: texts,
    } = params;
    let mut caps = Vec::new(alloc);
    let added = add_caps(alloc, number, &texts, &mut caps);
    drop(texts);
    match added {
        Ok(()) => Ok((Whole::from_shaped(object.into_tree()), Caps::new(caps))),
        Err(fault) => {
            drop(object);
            drop(caps);
            Err(fault)
        }
    }
}

/// Adds the capabilities of texts.
fn add_caps(
    alloc: Global,
    number: usize,
    texts: &[String],
    caps: &mut Vec<Cap>,
) -> Result<(), CommandFault<'static>> {
    for text in texts {
        caps.push(cap(alloc, number, text.as_str())?)?;
    }
    Ok(())
}

/// Params as words by numbers have them: a tree with its capabilities, or the content of a stored message.
fn plain<'w, N: Files + AllocGlobal>(
    rt: &N,
    number: usize,
    text: &'w str,
) -> Result<(Whole, Caps), CommandFault<'w>> {
    let alloc = rt.alloc();
    if let Some(path) = text.strip_prefix('@') {
        return Ok((stored(rt, path)?, no_caps(alloc)));
    }
    match payload_of(alloc, text) {
        Ok(payload) => Ok(payload),
        Err(wrong) => Err(CommandFault::Word { number, wrong }),
    }
}

/// The call of a word.
fn call<'w, N: Files + AllocGlobal>(
    rt: &N,
    number: usize,
    word: &'w str,
) -> Result<(Cap, Request), CommandFault<'w>> {
    let (head, path) = parts_of(word);
    let WrittenCall {
        target,
        interface,
        method,
        params,
    } = match call_of(rt.alloc(), head) {
        Ok(written) => written,
        Err(wrong) => return Err(CommandFault::Word { number, wrong }),
    };
    let target = match target {
        Some(target) => target,
        None => bootstrap(rt.alloc()),
    };
    let payload = params_of(rt, params, path);
    call_with(target, MethodNumber { interface, method }, payload)
}

/// The params that are written, or those of a stored message, or a struct without fields.
fn params_of<'w, N: Files + AllocGlobal>(
    rt: &N,
    written: Option<(Whole, Caps)>,
    path: Option<&'w str>,
) -> Result<(Whole, Caps), CommandFault<'w>> {
    if let Some(params) = written {
        return Ok(params);
    }
    let content = match path {
        Some(path) => stored(rt, path)?,
        None => empty(rt.alloc()),
    };
    Ok((content, no_caps(rt.alloc())))
}

/// A word, apart from the path of a stored message.
fn parts_of(word: &str) -> (&str, Option<&str>) {
    match word.split_once(STORED) {
        // Within braces it belongs to a text.
        Some((head, path)) if !head.contains('{') => (head, Some(path)),
        _ => (word, None),
    }
}

/// What the bootstrap, question 0, will give.
fn bootstrap(alloc: Global) -> Cap {
    Cap::Pipelined(0, Path::new(Vec::new(alloc)))
}

/// No capabilities.
fn no_caps(alloc: Global) -> Caps {
    Caps::new(Vec::new(alloc))
}

/// A struct without fields.
fn empty(alloc: Global) -> Whole {
    let (words, ptrs) = (Vec::new(alloc), Vec::new(alloc));
    Whole::new(Tree::Struct(Body { words, ptrs })).unwrap_or(Whole::null())
}

/// The content of the message that a file holds, a plain frame.
fn stored<'w, N: Files + AllocGlobal>(rt: &N, path: &'w str) -> Result<Whole, CommandFault<'w>> {
    let bytes = match fs::read(rt, path) {
        Ok(bytes) => bytes,
        Err(error) => return Err(CommandFault::File { path, error }),
    };
    let content = content_of(rt.alloc(), &bytes);
    drop(bytes);
    match content {
        Some(content) => Ok(content),
        None => Err(CommandFault::PayloadBuilder { path }),
    }
}

/// The content of a frame.
fn content_of(alloc: Global, bytes: &[u8]) -> Option<Whole> {
    let limits = Limits::standard();
    let mut reader = FrameReader::plain(alloc, limits);
    let Ok(Some((_, segments, rest))) = reader.next(bytes) else {
        return None;
    };
    if !rest.is_empty() {
        return None;
    }
    let Ok(root) = read_root(alloc, &segments, limits) else {
        return None;
    };
    Whole::new(root.into_tree()).ok()
}
