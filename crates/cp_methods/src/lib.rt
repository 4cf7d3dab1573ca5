//! Calls of a schema's methods as one types them, `Notebook.add (text = "milk")`, the methods that rules name, and the interfaces and types
//! of a request as text.
#![tactic(auto)]

mod calls;
mod defaults;
mod describing;
mod fault;
mod finding;
mod given;
mod listing;
mod mentions;
mod results;
mod rules;
mod word;

pub use calls::{CallReader, NamedCall};
pub use describing::{describe, nearest_names, type_named};
pub use listing::list_methods;
pub use results::{ResultsForm, results_line};
pub use rules::{NamedMethod, RuleFault, RuledGiven, named_methods, ruled_given, ruled_method};
pub use word::{is_named, plain_params};
