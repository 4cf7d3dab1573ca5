//! Serves notes to many clients at once, over TCP. A call makes a page, and watchers are told of each new note.

use jamdrosek::host::{Host, HostConfig, HostEvent, Listener};
use jamdrosek::interfaces::{MethodFault, MethodResult, ServiceObject, failed};
use jamdrosek::server::{Context, Either, Objects, Settled, Waker};
use notebook::{
    NotebookAddCall, NotebookDispatch, NotebookNextCall, NotebookOpenCall, NotebookServer,
    NotebookWatchCall, PageClient, PageDispatch, PageReadCall, PageResolver, PageServer,
    WatcherClient,
};
use std::alloc::Global;
use std::cell::RefCell;
use std::collections::BTreeMap;
use std::mem;
use std::net::{Ipv4Addr, SocketAddr};
use std::rc::Rc;

/// The objects of a connection: its notebook, and the pages that are open.
pub type Served = Either<NotebookDispatch<Notebook>, PageDispatch<Page>>;

/// What all clients share.
pub type Shared = Rc<RefCell<Shelf>>;

/// The notes, and who is told of them.
#[derive(Drop)]
pub struct Shelf {
    notes: Vec<String>,
    /// What wakes the notebooks, by the numbers of their connections.
    wakers: BTreeMap<u64, Waker>,
}

pub fn run(rt: &HostRuntime) -> anyhow::Result<()> {
    let listener = Listener::bind(rt, SocketAddr::from((Ipv4Addr::LOCALHOST, 7001)))?;
    let mut host = Host::new(rt, HostConfig::standard(), listener)?;
    let shelf = new_shelf(rt.alloc())?;
    for _ in 0..u64::MAX {
        match host.next(rt)? {
            Some(HostEvent::Connected { number, .. }) => {
                host.admit(new_objects(rt.alloc(), &shelf, number)?)?;
            }
            Some(HostEvent::Ended { number, .. }) => {
                let mut shelf = shelf.try_borrow_mut()?;
                let _ = shelf.wakers.remove(&number);
            }
            Some(_) => {}
            None => break,
        }
    }
    Ok(())
}

/// A shelf without notes.
pub fn new_shelf(alloc: Global) -> anyhow::Result<Shared> {
    let (notes, wakers) = (Vec::new(alloc), BTreeMap::new(alloc));
    Ok(Rc::new(alloc, RefCell::new(Shelf { notes, wakers }))?)
}

/// The objects of the connection of this number: a notebook at first.
pub fn new_objects(alloc: Global, shelf: &Shared, number: u64) -> anyhow::Result<Objects<Served>> {
    let object = Notebook {
        shelf: shelf.clone()?,
        number,
        watchers: Vec::new(alloc),
        promised: Vec::new(alloc),
        told: shelf.try_borrow()?.notes.len(),
    };
    let mut objects = Objects::new(alloc);
    objects.add(Served::Left(NotebookDispatch::new(object)))?;
    Ok(objects)
}

/// The notes, as one client has them.
#[derive(Drop)]
pub struct Notebook {
    shelf: Shared,
    number: u64,
    watchers: Vec<WatcherClient>,
    /// The pages of the next note that are promised.
    promised: Vec<PageResolver>,
    /// How many notes the watchers were told of.
    told: usize,
}

impl Notebook {
    /// Tells the watchers of each note that was added, and makes the pages of it that were promised.
    fn tell_all(&mut self, context: &mut Context<Served>) -> MethodResult {
        let mut shelf = self.shelf.try_borrow_mut()?;
        shelf.wakers.insert(self.number, context.waker())?;
        for note in shelf.notes.iter().skip(self.told) {
            for watcher in &self.watchers {
                context.send(watcher.added_request(note.as_str())?.outgoing(0)?)?;
            }
            for resolver in mem::replace(&mut self.promised, Vec::new(context.alloc())) {
                let page = new_page(&self.shelf, self.told, context)?;
                resolver.resolve(context, page)?;
            }
            self.told = self.told.saturating_add(1);
        }
        Ok(())
    }
}

impl ServiceObject for Notebook {
    type Makes = Served;

    fn poll(&mut self, context: &mut Context<Served>) -> Result<Option<Settled>, MethodFault> {
        self.tell_all(context)?;
        Ok(None)
    }

    fn has_more(&self) -> bool {
        false
    }
}

impl NotebookServer for Notebook {
    fn add(
        &mut self,
        call: &mut NotebookAddCall<'_>,
        context: &mut Context<Served>,
    ) -> MethodResult {
        let text = call.params.text()?.text(context.alloc())?;
        let mut shelf = self.shelf.try_borrow_mut()?;
        call.results.set_id(u32::try_from(shelf.notes.len())?);
        shelf.notes.push(text)?;
        for (_, waker) in &shelf.wakers {
            context.wake(*waker)?;
        }
        Ok(())
    }

    fn open_(
        &mut self,
        call: &mut NotebookOpenCall<'_>,
        context: &mut Context<Served>,
    ) -> MethodResult {
        let page = new_page(&self.shelf, call.params.id() as usize, context)?;
        Ok(call.results.set_page(page)?)
    }

    fn watch(
        &mut self,
        call: &mut NotebookWatchCall<'_>,
        context: &mut Context<Served>,
    ) -> MethodResult {
        let watcher = call.params.watcher_client(context.alloc(), call.caps())?;
        call.keep(&watcher.target, context)?;
        self.tell_all(context)?;
        self.watchers.push(watcher)?;
        Ok(())
    }

    fn next(
        &mut self,
        call: &mut NotebookNextCall<'_>,
        context: &mut Context<Served>,
    ) -> MethodResult {
        let resolver = PageResolver::new(context)?;
        let page = resolver.client(context.alloc());
        call.results.set_page(page)?;
        self.tell_all(context)?;
        self.promised.push(resolver)?;
        Ok(())
    }
}

/// Makes an object for a note.
fn new_page(
    shelf: &Shared,
    id: usize,
    context: &mut Context<Served>,
) -> Result<PageClient, MethodFault> {
    let object = Page {
        shelf: shelf.clone()?,
        id,
    };
    let page = context.make(Served::Right(PageDispatch::new(object)))?;
    Ok(PageClient::new(context.alloc(), page))
}

/// A note, as an object.
#[derive(Drop)]
pub struct Page {
    shelf: Shared,
    id: usize,
}

impl ServiceObject for Page {
    type Makes = Served;

    fn has_more(&self) -> bool {
        false
    }
}

impl PageServer for Page {
    fn read(&mut self, call: &mut PageReadCall<'_>, context: &mut Context<Served>) -> MethodResult {
        let shelf = self.shelf.try_borrow()?;
        let Some(note) = shelf.notes.get(self.id) else {
            return Err(MethodFault::from(failed(context.alloc(), "there is no such note")?));
        };
        Ok(call.results.set_text(note.as_str())?)
    }
}
