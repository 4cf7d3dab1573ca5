//! A client of one connection (cp_client): it makes calls, and waits for their outcomes.
//!
//! `bootstrap` asks for the peer's object, `call` calls a capability, and `wait` returns a question's outcome, once. Results can be called
//! before they arrive (pipelining): `Question::cap` is a bootstrap's object, and `Question::at` the capability at a path of pointer fields.
//! Calls are sent when the client next waits, all together. `call_and_wait` calls and waits.
//!
//! `results` waits for what a typed call gave, and finishes the question. `results_kept` leaves it open, for calls of paths of the results.
//! `finish` gives a question up, and `release` an import that an outcome named; until then the peer keeps them. A question whose results
//! nobody takes is to be finished by the program: with 65,536 open ones no further call is made (`V8 Full`). `flush` writes what is still
//! to be sent. `into_devices` ends the client, tells its objects so, and returns the reader and the writer.
//!
//! A `ClientFault` says why a call failed. `Device` has the error of the reader or of the writer; the client can go on after it, for example
//! when a reader's timeout ended a read. After `Ended` nothing more is read. Outcomes that came before that, or before a fault of the
//! connection, are still returned, and `closed` says why the vat closed.
//!
//! A `PayloadBuilder` builds a call's params field by field. `results_of`, `word_in`, `text_in` and `data_in` read results. `request_of` is a call
//! whose params are a struct of data words, and `word_at` a data word of results.
//!
//! A client answers an incoming call with `no such object`. One made by `with_objects` has objects (`server::Objects`), of which the peer's
//! Bootstrap gets the first. One made by `exporting` has none at first, and gives its peer none: `export` adds an object, whose capability
//! a call's table may name. While the client waits they get the calls that come, and are polled. They may call what they were given
//! (`server::Context::send`). `serve` answers until the peer ends.
//!
//! A `CallWindow` keeps several calls in flight, up to a window, for example those of a `-> stream` method.
//!
//! `wait_any` waits for the first outcome of several questions. `take_outcome` and `step` are the two halves of `wait`.
//!
//! The reader and the writer may be `&stream` twice, or bytes in memory. For a socket take a `DuplexStream` (net_client), which connects to an
//! address within a limit of time, and is read while it is written, up to 1 GiB of what nobody asked for yet. Over a `TcpStream` a client
//! stands still where it and its peer both wait until the other reads: many large calls with large results. `reconnect` tries again after
//! waits that grow, and `poll`, `wait_any_within`, `results_within` and `serve_for` limit how long a client waits.

pub use cp_builder::BuildError;
pub use cp_client::{CallError, CallWindow, Client, ClientFault, Question, request_of, word_at};
pub use cp_connection::ConnectionFault;
pub use cp_refs::{Cap, Caps, Outcome, Path, Request};
pub use cp_servants::{PayloadBuilder, data_in, results_of, text_in, word_in};
pub use cp_vat_machine::Reason;
pub use net_client::{Address, Backoff, ConnectOptions, DuplexStream, SocketClient};
