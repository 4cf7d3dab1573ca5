//! Adds a note to the notebook of the example `notebook_server`, reads it as a page that was promised, and is told of it.

use jamdrosek::client::{Client, Question};
use jamdrosek::interfaces::{MethodResult, ServiceObject};
use jamdrosek::server::{Context, Objects};
use jamdrosek::{Limits, Mode};
use notebook::{NotebookClient, WatcherAddedCall, WatcherClient, WatcherDispatch, WatcherServer};
use std::alloc::Global;
use std::cell::RefCell;
use std::io::{Read, Write};
use std::net::{Ipv4Addr, SocketAddr, TcpStream};
use std::rc::Rc;

/// The objects of the client: its watchers.
type Served = WatcherDispatch<Watcher>;

pub fn run(rt: &HostRuntime) -> anyhow::Result<()> {
    let stream = TcpStream::connect(rt, SocketAddr::from((Ipv4Addr::LOCALHOST, 7001)))?;
    let (_, said) = talk(rt.alloc(), &stream, &stream)?;
    println!(rt; "{}", said?.as_str())?;
    Ok(())
}

/// Talks to a notebook over a reader and a writer. Returns the writer, and what is to be said.
pub fn talk<R: Read + Drop, W: Write + Drop>(
    alloc: Global,
    from: R,
    to: W,
) -> anyhow::Result<(W, anyhow::Result<String>)> {
    let heard = Rc::new(alloc, RefCell::new(String::new(alloc)))?;
    let object = Watcher {
        heard: heard.clone()?,
    };
    let mut objects = Objects::new(alloc);
    let watcher = WatcherClient::new(alloc, objects.add(WatcherDispatch::new(object))?);
    let limits = Limits::standard();
    let mut client = Client::with_objects(alloc, from, to, Mode::Plain, limits, objects);
    let said = add_and_read(alloc, &mut client, watcher, &heard);
    // This consumes the client, so that the prover needn't check its drop here.
    let (_, to) = client.into_devices();
    Ok((to, said))
}

/// Watches, reads the page of the next note, adds that note, and gives the page up, in one round trip.
fn add_and_read<R: Read + Drop, W: Write + Drop>(
    alloc: Global,
    client: &mut Client<R, W, Served>,
    watcher: WatcherClient,
    heard: &Rc<RefCell<String>>,
) -> anyhow::Result<String> {
    let root = client.bootstrap()?.cap(alloc);
    let notebook = NotebookClient::new(alloc, client.own(root));
    notebook.watch(client, watcher)?;
    let next = notebook.next(client)?;
    let read = next.page()?.read(client)?;
    notebook.add(client, "hello")?;
    // The results haven't come yet, so the page goes with the question.
    client.finish(Question {
        number: next.question(),
    })?;
    let came = client.results(read.question())?;
    let text = read.results(&came)?.text()?.text(alloc)?;
    let heard = heard.try_borrow()?;
    Ok(format!(in alloc; "the page says {}{}", text.as_str(), heard.as_str())?)
}

/// Hears of notes.
#[derive(Drop)]
struct Watcher {
    heard: Rc<RefCell<String>>,
}

impl ServiceObject for Watcher {
    type Makes = Served;

    fn has_more(&self) -> bool {
        false
    }
}

impl WatcherServer for Watcher {
    fn added(
        &mut self,
        call: &mut WatcherAddedCall<'_>,
        context: &mut Context<Served>,
    ) -> MethodResult {
        let note = call.params.text()?.text(context.alloc())?;
        let mut heard = self.heard.try_borrow_mut()?;
        heard.push_str(", told of ")?;
        heard.push_str(note.as_str())?;
        Ok(())
    }
}
