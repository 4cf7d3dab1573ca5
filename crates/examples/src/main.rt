//! Runs each example on its file of `data/`, under a heading. With the word `server` it serves a notebook, and with `client` it calls it.
#![tactic(auto)]

mod book;
mod count;
mod draft;
mod notebook_client;
mod notebook_server;
mod view;
mod write;

use std::env;

fn main(rt: HostRuntime) -> anyhow::Result<()> {
    match env::args(&rt)?.nth(1) {
        Some(word) if word.as_str() == "server" => notebook_server::run(&rt),
        Some(word) if word.as_str() == "client" => notebook_client::run(&rt),
        _ => run_all(&rt),
    }
}

/// Runs all examples that need no other program.
fn run_all(rt: &HostRuntime) -> anyhow::Result<()> {
    heading(rt, "count")?;
    count::run(rt)?;
    heading(rt, "view")?;
    view::run(rt)?;
    heading(rt, "write")?;
    write::run(rt)?;
    heading(rt, "book")?;
    book::run(rt)?;
    heading(rt, "draft")?;
    draft::run(rt)
}

/// Prints an example's name on a line of its own.
fn heading(rt: &HostRuntime, name: &str) -> anyhow::Result<()> {
    println!(rt; "\n== {name}")?;
    Ok(())
}
