//! The rules of a guard, by the words of `relay`.

use cp_commands::{BROKEN, Guarding, failed, schema_at};
use cp_methods::{RuleFault, RuledGiven, named_methods, ruled_given, ruled_method};
use cp_relay::{CallLimits, Callable, MethodId, MethodName, Rules};
use cp_schema::{MethodNumber, Schema};
use std::alloc::{AllocError, Global};
use std::fs;

/// Whether those that connect are guarded.
pub(crate) fn is_guarded(guarding: &Guarding) -> bool {
    guarding.schema.is_some()
        || guarding.strict
        || guarding.calls.is_some()
        || guarding.rate.is_some()
        || guarding.bytes.is_some()
}

/// The rules that the words give, or the status after there are none, which a line says.
pub(crate) fn rules_of(rt: &HostRuntime, guarding: &Guarding) -> Result<Rules, u8> {
    let limits = CallLimits {
        under_way: guarding.calls.unwrap_or(u32::MAX),
        a_second: guarding.rate.unwrap_or(u32::MAX),
    };
    let mut rules = Rules::new(rt.alloc(), limits);
    rules.strict = guarding.strict;
    if let Some(path) = guarding.schema {
        if let Err(status) = add_named(rt, guarding, path, &mut rules) {
            drop(rules);
            return Err(status);
        }
    }
    Ok(rules)
}

/// Adds what is by the names of the schema at a path.
fn add_named(
    rt: &HostRuntime,
    guarding: &Guarding,
    path: &str,
    rules: &mut Rules,
) -> Result<(), u8> {
    let schema = schema_at(rt, path)?;
    let added = add_all(rt, guarding, &schema, rules);
    drop(schema);
    added
}

/// Adds the names of a schema's methods, and the rules of the words and of the file.
fn add_all(
    rt: &HostRuntime,
    guarding: &Guarding,
    schema: &Schema,
    rules: &mut Rules,
) -> Result<(), u8> {
    if add_names(rt.alloc(), schema, rules).is_err() {
        return Err(refused(rt, "--schema", RuleFault::OutOfMemory));
    }
    rules.only = guarding.allow.is_some();
    add_words(rt, schema, rules, guarding.allow)?;
    add_words(rt, schema, rules, guarding.deny)?;
    match guarding.rules {
        Some(path) => add_file(rt, schema, rules, path),
        None => Ok(()),
    }
}

/// Adds the names of a schema's methods.
fn add_names(alloc: Global, schema: &Schema, rules: &mut Rules) -> Result<(), AllocError> {
    for named in named_methods(alloc, schema)? {
        rules.add_name(MethodName {
            method: id_of(named.number),
            name: named.name,
        })?;
    }
    Ok(())
}

/// Adds the rules of words.
fn add_words(
    rt: &HostRuntime,
    schema: &Schema,
    rules: &mut Rules,
    words: Option<&[&str]>,
) -> Result<(), u8> {
    let Some(words) = words else {
        return Ok(());
    };
    for word in words {
        add(rt, schema, rules, word)?;
    }
    Ok(())
}

/// Adds the rules of the file at a path.
fn add_file(rt: &HostRuntime, schema: &Schema, rules: &mut Rules, path: &str) -> Result<(), u8> {
    let text = match fs::read_to_string(rt, path) {
        Ok(text) => text,
        Err(error) => return Err(failed(rt, path, error)),
    };
    let added = add_lines(rt, schema, rules, text.as_str());
    drop(text);
    added
}

/// Adds the rules of a text, one a line. A line may be empty, or a comment after `#`. A text without a rule is a mistake, since it
/// would let all calls through.
fn add_lines(rt: &HostRuntime, schema: &Schema, rules: &mut Rules, text: &str) -> Result<(), u8> {
    let before = rules.methods.len();
    for line in text.lines() {
        let line = line.trim();
        if line.is_empty() || line.starts_with('#') {
            continue;
        }
        let (allows, method) = match line.split_once(' ') {
            Some(("allow", method)) => (true, method.trim()),
            Some(("deny", method)) => (false, method.trim()),
            _ => return Err(mistaken(rt, line, "a rule is allow METHOD, or deny METHOD")),
        };
        // Before the first rule nothing is named.
        if rules.methods.is_empty() {
            rules.only = allows;
        }
        if rules.only != allows {
            return Err(mistaken(rt, line, "allow and deny don't go together"));
        }
        add(rt, schema, rules, method)?;
    }
    if rules.methods.len() == before {
        return Err(mistaken(rt, "--rules", "the file has no rule"));
    }
    Ok(())
}

/// Adds a rule on a method; and after an arrow, on what its calls gave.
fn add(rt: &HostRuntime, schema: &Schema, rules: &mut Rules, word: &str) -> Result<(), u8> {
    let Some((method, given)) = word.split_once("->") else {
        return match add_rule(rt.alloc(), schema, rules, word) {
            Ok(_) => Ok(()),
            Err(fault) => Err(refused(rt, word, fault)),
        };
    };
    if !rules.only {
        return Err(mistaken(rt, word, "what was given can be allowed, and not denied"));
    }
    match add_grants(rt.alloc(), schema, rules, method.trim(), given.trim()) {
        Ok(true) => Ok(()),
        Ok(false) => Err(mistaken(rt, word, "more than 64 interfaces and methods after arrows")),
        Err(fault) => Err(refused(rt, word, fault)),
    }
}

/// Adds a rule on the method that a word names.
fn add_rule(
    alloc: Global,
    schema: &Schema,
    rules: &mut Rules,
    word: &str,
) -> Result<MethodId, RuleFault> {
    let method = id_of(ruled_method(alloc, schema, word)?);
    rules.add_rule(method)?;
    Ok(method)
}

/// Adds a rule on a method, and on what its calls gave. Says whether there is room for that.
fn add_grants(
    alloc: Global,
    schema: &Schema,
    rules: &mut Rules,
    method: &str,
    given: &str,
) -> Result<bool, RuleFault> {
    let after = add_rule(alloc, schema, rules, method)?;
    let given = ruled_given(alloc, schema, given)?;
    let added = add_each(rules, after, &given);
    drop(given);
    Ok(added?)
}

/// Adds each of these as what calls of a method gave may be called by.
fn add_each(rules: &mut Rules, after: MethodId, given: &[RuledGiven]) -> Result<bool, AllocError> {
    for one in given {
        if !rules.add_grant(after, callable_of(*one))? {
            return Ok(false);
        }
    }
    Ok(true)
}

/// What may be called, as rules have it.
fn callable_of(given: RuledGiven) -> Callable {
    match given {
        RuledGiven::All => Callable::All,
        RuledGiven::Interface(interface) => Callable::Interface(interface),
        RuledGiven::Method(number) => Callable::Method(id_of(number)),
    }
}

/// A schema's method, as rules have it.
fn id_of(number: MethodNumber) -> MethodId {
    MethodId {
        interface: number.interface,
        method: number.method,
    }
}

/// Says why a word is no rule, and gives the status.
fn refused(rt: &HostRuntime, word: &str, fault: RuleFault) -> u8 {
    let _ = eprintln!(rt; "error: {word}: {fault}");
    BROKEN
}

/// Says what is wrong with a line, and gives the status.
fn mistaken(rt: &HostRuntime, line: &str, what: &str) -> u8 {
    let _ = eprintln!(rt; "error: {line}: {what}");
    BROKEN
}
