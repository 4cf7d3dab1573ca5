//! The fields of a struct that a text gives.

use std::alloc::{AllocError, Global};

/// Which fields of a struct are given, by their places in its schema.
#[derive(Drop)]
pub(crate) struct Given {
    places: Vec<usize>,
    /// The one that is in the struct's union.
    member: Option<usize>,
    /// Whether that one is named apart from its value.
    is_tagged: bool,
    /// Those whose own fields stand in their places.
    inner: Vec<usize>,
}

impl Given {
    /// No field, where the one at the place `set` is named as the one of the union.
    pub(crate) fn new(alloc: Global, set: Option<usize>) -> Given {
        Given {
            places: Vec::new(alloc),
            member: set,
            is_tagged: set.is_some(),
            inner: Vec::new(alloc),
        }
    }

    /// The one of the union that is named as such.
    pub(crate) fn set(&self) -> Option<usize> {
        if self.is_tagged { self.member } else { None }
    }

    /// Those whose own fields stand in their places.
    pub(crate) fn inner(&self) -> &[usize] {
        &self.inner
    }

    /// Notes that a field of the struct or the group at this place is given.
    pub(crate) fn note_inner(&mut self, place: usize) -> Result<(), AllocError> {
        if !self.inner.contains(&place) {
            self.inner.push(place)?;
        }
        Ok(())
    }

    /// Notes that a field is given. `Ok(Some(place))`: the field at that place is given already, which is this one, or in the
    /// union that this one is in.
    pub(crate) fn note(
        &mut self,
        place: usize,
        is_member: bool,
    ) -> Result<Option<usize>, AllocError> {
        if self.places.contains(&place) {
            return Ok(Some(place));
        }
        if is_member {
            match self.member {
                Some(other) if other != place => return Ok(Some(other)),
                _ => self.member = Some(place),
            }
        }
        self.places.push(place)?;
        Ok(None)
    }
}
