//! Lists and texts of a request, owned.

use crate::fault::RequestFault;
use cp_fields::{Element, List, TextReader, WrongKind};
use std::alloc::Global;

/// What is owned of a view.
pub(crate) trait Load<V>: Drop {
    fn load(alloc: Global, view: &V) -> Result<Self, RequestFault>;
}

/// All that is owned of the views of a list.
pub(crate) fn load_all<'n, V: Element<'n>, T: Load<V>>(
    alloc: Global,
    list: List<'n, V>,
) -> Result<Vec<T>, RequestFault> {
    let mut all = Vec::new(alloc);
    match load_each(alloc, list, &mut all) {
        Ok(()) => Ok(all),
        Err(fault) => {
            drop(all);
            Err(fault)
        }
    }
}

/// Adds all that is owned of the views of a list.
fn load_each<'n, V: Element<'n>, T: Load<V>>(
    alloc: Global,
    list: List<'n, V>,
    all: &mut Vec<T>,
) -> Result<(), RequestFault> {
    for view in list {
        all.push(T::load(alloc, &view)?)?;
    }
    Ok(())
}

/// A text.
pub(crate) fn text_of(
    alloc: Global,
    found: Result<TextReader<'_>, WrongKind>,
) -> Result<String, RequestFault> {
    Ok(found?.text(alloc)?)
}
