//! The types of notebook.capnp, made by capnpc_rattle.
#![tactic(auto)]

mod notebook;
mod page;
mod watcher;

pub use notebook::{
    NotebookAddCall, NotebookAddLater, NotebookAddParamsReader, NotebookAddResultsBuilder,
    NotebookAddResultsPipeline, NotebookAddResultsReader, NotebookClient, NotebookDispatch,
    NotebookNextCall, NotebookNextLater, NotebookNextParamsReader, NotebookNextResultsBuilder,
    NotebookNextResultsPipeline, NotebookNextResultsReader, NotebookOpenCall, NotebookOpenLater,
    NotebookOpenParamsReader, NotebookOpenResultsBuilder, NotebookOpenResultsPipeline,
    NotebookOpenResultsReader, NotebookResolver, NotebookServer, NotebookShared, NotebookWatchCall,
    NotebookWatchLater, NotebookWatchParamsReader, NotebookWatchResultsBuilder,
    NotebookWatchResultsPipeline, NotebookWatchResultsReader,
};
pub use page::{
    PageClient, PageDispatch, PageReadCall, PageReadLater, PageReadParamsReader,
    PageReadResultsBuilder, PageReadResultsPipeline, PageReadResultsReader, PageResolver,
    PageServer, PageShared,
};
pub use watcher::{
    WatcherAddedCall, WatcherAddedLater, WatcherAddedParamsReader, WatcherAddedResultsBuilder,
    WatcherAddedResultsPipeline, WatcherAddedResultsReader, WatcherClient, WatcherDispatch,
    WatcherResolver, WatcherServer, WatcherShared,
};
