//! `capnp_cli`: shows the messages of Cap'n Proto streams, and serves, relays and calls over connections.
#![tactic(auto)]

mod guarding;
mod relaying;

use cli_connections::{call, loop_file, print_types, replay, serve};
use cli_words::{Acts, run};
use cp_commands::{Task, act_on_file, failed};
use relaying::relay;
use std::process::ExitCode;

/// All commands.
struct All;

impl Acts for All {
    fn act(rt: &HostRuntime, task: &Task) -> u8 {
        match task {
            Task::OnFile(task) => act_on_file(rt, task),
            Task::Loop { mode, path } => loop_file(rt, *mode, path),
            Task::Serve(plan) => serve(rt, plan),
            Task::Relay(task) => relay(rt, task),
            Task::Call(plan) => call(rt, plan),
            Task::Replay(plan) => replay(rt, plan),
            Task::Types(plan) => print_types(rt, plan),
        }
    }
}

fn main(rt: HostRuntime) -> ExitCode {
    let status = run::<All>(&rt).unwrap_or_else(|error| failed(&rt, "command line", error));
    ExitCode::from(status)
}
