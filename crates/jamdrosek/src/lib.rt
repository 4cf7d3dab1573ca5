//! Cap'n Proto messages and two-party RPC: serve objects, call objects, read messages in place or whole, write them, and run one end of
//! a connection. List `jamdrosek` in crates.txt; it re-exports the proved crates below.
//!
//! The listings are cut from the programs that they name. `whole` programs can be pasted as a `src/main.rt`.
//!
//! # Serve objects
//!
//! `./capnpc_rattle X.capnp` generates a trait for each interface. Your object implements it (module `interfaces`). A method
//! gets its call, with the params to read and the results to fill in:
//!
//! ```rust crates/examples/src/notebook_server.rt
//! fn add(
//!     &mut self,
//!     call: &mut NotebookAddCall<'_>,
//!     context: &mut Context<Served>,
//! ) -> MethodResult {
//!     let text = call.params.text()?.text(context.alloc())?;
//!     let mut shelf = self.shelf.try_borrow_mut()?;
//!     call.results.set_id(u32::try_from(shelf.notes.len())?);
//!     shelf.notes.push(text)?;
//! ```
//!
//! A `Host` serves many connections in one thread, over TCP or a Unix socket. Give each one its objects when it has come:
//!
//! ```rust crates/examples/src/notebook_server.rt
//! let mut host = Host::new(rt, HostConfig::standard(), listener)?;
//! ..
//! for _ in 0..u64::MAX {
//!     match host.next(rt)? {
//!         Some(HostEvent::Connected { number, .. }) => {
//!             host.admit(new_objects(rt.alloc(), &shelf, number)?)?;
//!         }
//!         Some(HostEvent::Ended { number, .. }) => {
//!             let mut shelf = shelf.try_borrow_mut()?;
//!             let _ = shelf.wakers.remove(&number);
//!         }
//!         Some(_) => {}
//!         None => break,
//!     }
//! }
//! ```
//!
//! # Call an object
//!
//! A `Client` talks over a reader and a writer; for a socket, pass `&stream` of a `DuplexStream` as both. The plugin generates a typed client
//! for each interface, whose methods make the calls. Results can be called before they arrive (pipelining): here the page of a note that
//! isn't there yet is read, in one round trip.
//!
//! ```rust crates/examples/src/notebook_client.rt
//! let root = client.bootstrap()?.cap(alloc);
//! let notebook = NotebookClient::new(alloc, client.own(root));
//! ..
//! let next = notebook.next(client)?;
//! let read = next.page()?.read(client)?;
//! notebook.add(client, "hello")?;
//! ..
//! let came = client.results(read.question())?;
//! let text = read.results(&came)?.text()?.text(alloc)?;
//! ```
//!
//! `results` also finishes the question, so that the peer forgets it. A question whose results nobody takes, such as that of `add` here, stays
//! open until `client.finish`, or the connection's end.
//!
//! A method takes its params as arguments if they are at most four, and values or capabilities. Else it takes a builder of them:
//! `StoreFillParamsBuilder::new(alloc)?`, and setters such as `set_rows` on that.
//!
//! # Objects made in calls
//!
//! A method also gets a `Context`, by which it makes other objects. What a call made is dropped once its client dropped it:
//!
//! ```rust crates/examples/src/notebook_server.rt
//! let mut objects = Objects::new(alloc);
//! objects.add(Served::Left(NotebookDispatch::new(object)))?;
//! ..
//! fn open_(
//!     &mut self,
//!     call: &mut NotebookOpenCall<'_>,
//!     context: &mut Context<Served>,
//! ) -> MethodResult {
//!     let page = new_page(&self.shelf, call.params.id() as usize, context)?;
//!     Ok(call.results.set_page(page)?)
//! }
//! ```
//!
//! An object can promise another one, and say later which it is. Calls of it wait, in order:
//!
//! ```rust crates/examples/src/notebook_server.rt
//! let resolver = PageResolver::new(context)?;
//! let page = resolver.client(context.alloc());
//! call.results.set_page(page)?;
//! ```
//!
//! # Be called back
//!
//! To be called back, make the client with `Objects` of your objects. They answer while the client waits:
//!
//! ```rust crates/examples/src/notebook_client.rt
//! let mut objects = Objects::new(alloc);
//! let watcher = WatcherClient::new(alloc, objects.add(WatcherDispatch::new(object))?);
//! ..
//! let mut client = Client::with_objects(alloc, from, to, Mode::Plain, limits, objects);
//! ..
//! notebook.watch(client, watcher)?;
//! ```
//!
//! An object calls back by `context.send`, at a `Host` or at a client. `ServiceObject::on_response` gets what a call came to.
//!
//! # Send a stream of calls
//!
//! For `-> stream` methods, a `CallWindow` keeps up to a window of calls in flight: `CallWindow::new(alloc, 16)`. If it is full,
//! `window.send(&mut client, &target, request)` waits for the oldest call, and returns its error if it failed.
//! `window.end(&mut client)` waits for the rest.
//!
//! # Read a stream of messages
//!
//! `read_message` reads exactly the bytes of the next frame:
//!
//! ```rust crates/examples/src/count.rt whole
//! #![tactic(auto)]
//!
//! use jamdrosek::{Limits, Message, Mode, StreamFault, Tap, read_message};
//! use std::alloc::Global;
//! use std::fs::File;
//! use std::io::{BufReader, Read};
//!
//! fn main(rt: HostRuntime) -> anyhow::Result<()> {
//!     let alloc = rt.alloc();
//!     let stream = BufReader::new(alloc, File::open(&rt, "count.bin")?)?;
//!     let calls = count_calls(alloc, stream)?;
//!     println!(rt; "{calls} calls")?;
//!     Ok(())
//! }
//!
//! /// Reads the stream to its end, one message at a time.
//! fn count_calls<R: Read + Drop>(alloc: Global, stream: R) -> Result<u64, StreamFault> {
//!     let mut stream = Tap::new(stream);
//!     let mut calls = 0u64;
//!     for _ in 0..u64::MAX {
//!         match read_message(alloc, &mut stream, Mode::Plain, Limits::standard())? {
//!             Some(Message::Call(_)) => calls = calls.saturating_add(1),
//!             Some(_) => {}
//!             None => break,
//!         }
//!     }
//!     Ok(calls)
//! }
//! ```
//!
//! If the bytes come in pieces, as from a socket, feed them to a `MessageReader`. It returns the messages that each piece completes.
//!
//! # View a message without copying
//!
//! `view_of` checks the message of a frame, and copies nothing:
//!
//! ```rust crates/examples/src/view.rt
//! for (_, segments) in &reader.feed(&bytes)? {
//!     let message = view_of(segments, limits)?;
//!     if let Some((question, number)) = answer(&message) {
//!         println!(rt; "question {question}: {number}")?;
//!     }
//! }
//! ..
//! fn answer(message: &MessageView<'_>) -> Option<(u32, u64)> {
//!     let MessageIn::Return(answer) = message else {
//!         return None;
//!     };
//!     let ReturnedView::Results(results) = &answer.returned else {
//!         return None;
//!     };
//!     Some((answer.answer_id, *results.content.words().first()?))
//! }
//! ```
//!
//! # Read and write structs by the names of a schema
//!
//! `./capnpc_rattle X.capnp` generates a reader and a builder for each struct. A field of the wrong kind is an `Err`, and a value that only
//! a newer schema knows is `Unknown`:
//!
//! ```rust crates/examples/src/book.rt
//! let book = AddressBookReader::of(PointerReader::of_view(view))?;
//! ..
//! for person in book.people()? {
//!     print_person(rt, &person)?;
//! }
//! ```
//!
//! A value that you set is proved to read back unchanged:
//!
//! ```rust crates/examples/src/draft.rt
//! let mut carol = PersonBuilder::new(alloc)?;
//! carol.set_phones(phones)?;
//! carol.set_id(789);
//! carol.set_name("Carol")?;
//! ```
//!
//! `read_struct` and `write_struct` read and write a message with any struct as its root. `read_segments` and `send_frame` move a message
//! without looking into it. `canonical::canonical_message` writes the one canonical encoding of a message, to sign or to hash.
//!
//! # Write a message
//!
//! `write_message` writes one frame, plain or packed:
//!
//! ```rust crates/examples/src/write.rt
//! let mut out = Tap::new(io::writer(rt));
//! let limits = Limits::standard();
//! Ok(write_message(alloc, &mut out, &message, Mode::Packed, limits)?)
//! ```
//!
//! # Below
//!
//! The rest stands below hosts and clients: one connection at a time, objects without a schema, and event loops of your own.
//!
//! ## Serve one connection
//!
//! `serve` takes one connection's reader and writer, and the objects that its peer may call. Their list is fixed, and each is a `Servant`,
//! which takes requests as they come:
//!
//! ```rust tests/more_examples/src/serve.rs
//! let texts = BTreeMap::new(alloc);
//! let mut objects: Vec<Box<dyn Servant>> = Vec::new(alloc);
//! objects.push(Box::new(alloc, Shelf { alloc, texts })?)?;
//! let mut from = Tap::new(File::open(rt, "serve.bin")?);
//! let mut to = Tap::new(io::writer(rt));
//! serve(alloc, &mut from, &mut to, &mut objects, Mode::Plain)?;
//! ..
//! impl Servant for Shelf {
//!     fn call(&mut self, _ticket: u64, request: Request) -> Result<Reply, AllocError> {
//!         let key = String::from_str(self.alloc, text_in(&request.content, 0).unwrap_or(""))?;
//!         let mut results = Ok(PayloadBuilder::new(self.alloc));
//!         if request.method == 0 {
//!             let value = text_in(&request.content, 1).unwrap_or("");
//!             self.texts.insert(key, String::from_str(self.alloc, value)?)?;
//!         } else if let Some(value) = self.texts.get(&key) {
//!             results = PayloadBuilder::new(self.alloc).text(value.as_str());
//!         }
//!         Ok(Reply::Now {
//!             outcome: outcome_of(self.alloc, results)?,
//!             gives_up: Ids::new(Vec::new(self.alloc)),
//!         })
//!     }
//! ```
//!
//! A typed client puts a text into the store and gets it back, in one round trip:
//!
//! ```rust tests/more_examples/src/call.rs whole
//! #![tactic(auto)]
//!
//! use jamdrosek::client::Client;
//! use jamdrosek::{Limits, Mode};
//! use std::alloc::Global;
//! use std::fs::File;
//! use std::io::{self, Read, Write};
//! use store::StoreClient;
//!
//! fn main(rt: HostRuntime) -> anyhow::Result<()> {
//!     let alloc = rt.alloc();
//!     let answers = File::open(&rt, "call.bin")?;
//!     let (mode, limits) = (Mode::Plain, Limits::standard());
//!     let mut client = Client::new(alloc, answers, io::sink(), mode, limits);
//!     let text = kept(alloc, &mut client);
//!     // This consumes the client, so that the prover needn't check its drop here.
//!     let _ = client.into_devices();
//!     println!(rt; "{}", text?.as_str())?;
//!     Ok(())
//! }
//!
//! /// Puts a text and gets it back. Both calls are made before the store is known.
//! fn kept<R: Read + Drop, W: Write + Drop>(
//!     alloc: Global,
//!     client: &mut Client<R, W>,
//! ) -> anyhow::Result<String> {
//!     let root = client.bootstrap()?.cap(alloc);
//!     let store = StoreClient::new(alloc, client.own(root));
//!     store.put(client, "colour", "blue")?;
//!     let got = store.get(client, "colour")?;
//!     let came = client.results(got.question())?;
//!     Ok(got.results(&came)?.value()?.text(alloc)?)
//! }
//! ```
//!
//! A client made by `Client::exporting` has no objects at first: `export` adds one.
//!
//! ## Without a schema
//!
//! An object may be a `Servant` itself, which takes requests as they come. A `PayloadBuilder` is the struct of its results, or of a
//! call's params. Each builder method adds one data word or one pointer (text, data, capability, ..):
//!
//! ```rust tests/more_examples/src/connection.rs
//! impl Servant for Total {
//!     fn call(&mut self, _ticket: u64, request: Request) -> Result<Reply, AllocError> {
//!         self.number = self.number.saturating_add(word_in(&request.content, 0));
//!         let results = PayloadBuilder::new(self.alloc).word(self.number);
//!         Ok(Reply::Now {
//!             outcome: outcome_of(self.alloc, results)?,
//!             gives_up: Ids::new(Vec::new(self.alloc)),
//!         })
//!     }
//!
//!     fn poll(&mut self) -> Result<Option<Settled>, AllocError> {
//!         Ok(None)
//!     }
//!
//!     fn has_more(&self) -> bool {
//!         false
//!     }
//! }
//! ```
//!
//! `word_in`, `text_in` and `data_in` read the fields of a request's content, or of `results_of` an outcome. `Outcome::at` is the
//! capability at a path of its pointers. `Question::at` is one that hasn't arrived yet.
//!
//! ## Filter a connection
//!
//! A `Relay` filters one direction of a connection (use two). `feed` it bytes as they arrive. It outputs each complete message that is
//! valid, and your `Visitor` may reject some.
//!
//! ## Your own event loop
//!
//! A `Connection` is one end with its frames, and no socket. `receive` takes bytes, `outgoing` has those to write, and `next` returns what
//! happened:
//!
//! ```rust tests/more_examples/src/connection.rs
//! let total = Cap::Pipelined(client.bootstrap()?, Path::new(Vec::new(alloc)));
//! let params = PayloadBuilder::new(alloc).word(41)?;
//! let asked = client.call(total, params.request(0xe5a1_0000_0000_0003, 0))?;
//! carry(client, server)?;
//! let mut objects = vec![in alloc; Total { alloc, number: 0 }]?;
//! Dispatcher::new(alloc).work_off(server, &mut objects)?;
//! carry(server, client)?;
//! ```
//!
//! A `Vat` is the same without frames. Messages and calls go in, and effects come out, in order:
//!
//! ```rust tests/more_examples/src/vat.rs
//! let asked = client.bootstrap()?;
//! let object = Cap::Pipelined(asked.value, Path::new(Vec::new(alloc)));
//! let params = PayloadBuilder::new(alloc).word(41)?;
//! let called = client.call(object, params.request(0xe5a1_0000_0000_0002, 0))?;
//! let mut effects = asked.effects.into_effects();
//! effects.extend(called.effects.into_effects())?;
//! ```
//!
//! # The layers
//!
//! ```text
//! words ── tree ─┬─ reading ── fields ── message ─┬─ vat ────┬─ server, interfaces
//!                └─ writing ──────────────────────┤          ├─ connection ── session ─┬─ client
//!                                                 │          │                         └─ host
//! packed ── frame ────────────────────────────────┴─ stream ─┴─ relay
//! ```
//!
//! - `words`: pointer words, segments and limits.
//! - `tree`: the values that a message holds, owned or borrowed.
//! - `reading`, `writing`: from segments to trees, in place or owned, and from trees to segments.
//! - `canonical`: the canonical form of a message, to sign, to hash and to compare.
//! - `packed`, `frame`: the packed form, and the frames of a stream in any pieces.
//! - `fields`, `builder`: generic access to struct fields by offset; `UnknownEnumerant` is an enumerant unknown to this schema.
//! - `message`: the messages of rpc.capnp, owned or read in place.
//! - `stream`: messages read from and written to streams.
//! - `relay`: a filter for one direction of a connection.
//! - `vat`: one end of a connection, with its capabilities, events and effects.
//! - `connection`: that end with its frames: bytes come in, bytes go out.
//! - `session`: that with its objects, limits and time, for an event loop of yours.
//! - `server`: objects served to the peer of one connection.
//! - `host`: objects served to many connections, over TCP or a Unix socket.
//! - `client`: the peer's objects called over one connection.
//! - `interfaces`: objects and calls by the names of a schema.
//!
//! Each module but `vat`, `connection`, `session`, `server`, `host`, `client` and `interfaces` is one crate, whole: `words` is cp_words,
//! `message` is cp_rpc, and any other has its crate's name. The names that most programs need are here too. `docs/PROVED.md` lists
//! the guarantees of each.
//!
//! Each fault is an `Error`, whose text names it, and its place if it has one; `docs/PROFILE.md` lists them all, with the limits.
//!
//! Your program need not list these crates in crates.txt. A contract that cites a definition of one, for example
//! `Rattle.cp_stream.specs.Stream`, needs that crate listed too.
#![tactic(auto)]

pub mod client;
pub mod connection;
pub mod host;
pub mod interfaces;
pub mod server;
pub mod session;
pub mod vat;

pub use cp_builder as builder;
pub use cp_canonical as canonical;
pub use cp_fields as fields;
pub use cp_frame as frame;
pub use cp_frame::{FrameReader, Mode, send_frame};
pub use cp_packed as packed;
pub use cp_reading as reading;
pub use cp_relay as relay;
pub use cp_rpc as message;
pub use cp_rpc::{Message, MessageIn, MessageView};
pub use cp_stream as stream;
pub use cp_stream::{
    DeviceError, MessageReader, StreamFault, Tap, read_message, read_segments, read_struct,
    view_of, write_message, write_struct,
};
pub use cp_tree as tree;
pub use cp_words as words;
pub use cp_words::{Limits, Segments};
pub use cp_writing as writing;
