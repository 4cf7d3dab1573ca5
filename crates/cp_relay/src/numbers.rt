//! Numbers of references.

ghost use Rattle.std.specs.Prelude.{◌≡◌, [], length, IfOk};
ghost use Rattle.cp_rpc.specs.Viewed.{viewed_returned, viewed_resolution, viewed_descriptor};
ghost use Rattle.cp_relay.specs.References.{hosted_number, hosted_numbers, returned_numbers, resolved_number};

use cp_reading::View;
use cp_rpc::{CapTableView, DescriptorView, ResolutionView, ReturnedView};
use std::alloc::{AllocError, Global};
use std::marker::Model;

/// The numbers under which a message gives references. Contracts see them as a list.
pub(crate) struct Numbers {
    items: Vec<u32>,
}

impl Drop for Numbers {
    fn drop(self) {
        let Numbers { items: _ } = self;
    }
}

impl Model for Numbers {
    ghost use Rattle.std.specs.Prelude.{List, ℕ};

    ghost Value = { List ℕ };

    ghost view = { λ n. n.items.items };
}

impl Numbers {
    /// No numbers.
    pub(crate) fn new(alloc: Global) -> Numbers
        ensures { result ≡ [] }
    {
        Numbers {
            items: Vec::new(alloc),
        }
    }

    /// How many there are.
    pub(crate) fn len(&self) -> usize
        ensures { result ≡ length self.now }
    {
        self.items.len()
    }

    /// The numbers.
    pub(crate) fn as_slice(&self) -> &[u32]
        ensures { result.now ≡ self.now }
    {
        self.items.as_slice()
    }

    /// The numbers that a table gives.
    pub(crate) fn of_table(alloc: Global, table: &CapTableView<View>) -> Result<Numbers, AllocError>
        ensures { IfOk result (λ n. n ≡ hosted_numbers table.now) }
    {
        let mut items = Vec::new(alloc);
        for i in 0..table.len() {
            if let Some(id) = hosted_number(&table.descriptor(i)) {
                items.push(id)?;
            }
        }
        Ok(Numbers { items })
    }

    /// The numbers that a Return gives.
    pub(crate) fn of_returned(
        alloc: Global,
        returned: &ReturnedView<View>,
    ) -> Result<Numbers, AllocError>
        ensures { IfOk result (λ n. n ≡ returned_numbers (viewed_returned (λ t. t) returned.now)) }
    {
        match returned {
            ReturnedView::Results(payload) => Numbers::of_table(alloc, &payload.cap_table),
            ReturnedView::Exception(_) => Ok(Numbers::new(alloc)),
            ReturnedView::Canceled => Ok(Numbers::new(alloc)),
            ReturnedView::ResultsSentElsewhere => Ok(Numbers::new(alloc)),
            ReturnedView::TakeFromOtherQuestion(_) => Ok(Numbers::new(alloc)),
            ReturnedView::AcceptFromThirdParty(_) => Ok(Numbers::new(alloc)),
            ReturnedView::Unknown(_) => Ok(Numbers::new(alloc)),
        }
    }
}

/// The number that a promise's resolution gives.
pub(crate) fn resolved_number(resolution: &ResolutionView<View>) -> Option<u32>
    ensures { result ≡ resolved_number (viewed_resolution (λ t. t) resolution.now) }
{
    match resolution {
        ResolutionView::Cap(descriptor) => hosted_number(descriptor),
        ResolutionView::Exception(_) => None,
        ResolutionView::Unknown(_) => None,
    }
}

/// The number that a descriptor gives: that of an object of its sender, or of a promise.
fn hosted_number(descriptor: &DescriptorView<View>) -> Option<u32>
    ensures { result ≡ hosted_number (viewed_descriptor (λ t. t) descriptor.now) }
{
    match descriptor {
        DescriptorView::SenderHosted(id) => Some(*id),
        DescriptorView::SenderPromise(id) => Some(*id),
        DescriptorView::None => None,
        DescriptorView::ReceiverHosted(_) => None,
        DescriptorView::ReceiverAnswer(_) => None,
        DescriptorView::ThirdPartyHosted(_) => None,
        DescriptorView::Unknown(_) => None,
    }
}
