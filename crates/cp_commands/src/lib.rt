//! What `capnp_cli` is asked to do, and what it does with a file, over a reader and two writers.
#![tactic(auto)]

mod asked;
mod batch;
mod by_schema;
mod fault;
mod figures;
mod files;
mod foreign;
mod names;
mod plan;
mod progress;
mod recordings;
mod status;
mod stop;
mod task;
mod texts;

pub use asked::Asked;
pub use figures::{FIGURES_EVERY, FiguresFile, count, push_counts, push_figure};
pub use files::{BUFFER, STDIN, act_on_file, failed, schema_at, tell_hint};
pub use foreign::peer_hint;
pub use names::Names;
pub use plan::{Plan, act, act_to_end};
pub use recordings::RecordedFiles;
pub use status::{ACCEPTED, BROKEN, CLOSED, REFUSED};
pub use stop::{Ended, limit_hint};
pub use task::{
    CallPlan, EncodePlan, FileTask, Guarding, InputFile, ListenAddress, RecordPlan, RelayForm,
    RelayRoute, RelayTask, ReplayPlan, ServePlan, Service, SessionPlan, ShowPlan, Task, TypesPlan,
};
pub use texts::{Encoding, encode};
