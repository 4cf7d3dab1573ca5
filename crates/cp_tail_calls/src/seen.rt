//! Results as the other end would have sent them.

ghost use Rattle.std.specs.Prelude.{◌≡◌, map};
ghost use Rattle.cp_tail_calls.specs.Seen.{other_way, seen_from_here};

use cp_messages::{CapTable, Descriptor, Payload, Returned};

/// What an end returned, as the other end would return it.
pub(crate) fn seen_from_here(returned: Returned) -> Returned
    ensures { result ≡ seen_from_here returned }
{
    match returned {
        Returned::Results(payload) => Returned::Results(Payload {
            content: payload.content,
            cap_table: turned(payload.cap_table),
        }),
        other => other,
    }
}

/// A capability table whose ends are exchanged.
fn turned(table: CapTable) -> CapTable
    ensures { result ≡ map other_way table }
{
    let mut descriptors = table.into_descriptors();
    for descriptor in descriptors.iter_mut() {
        turn(descriptor);
    }
    CapTable::new(descriptors)
}

/// What one end hosts, the other receives.
fn turn(descriptor: &mut Descriptor)
    ensures { descriptor.new ≡ other_way descriptor.old }
{
    match descriptor {
        Descriptor::SenderHosted(id) | Descriptor::SenderPromise(id) => {
            *descriptor = Descriptor::ReceiverHosted(*id);
        }
        Descriptor::ReceiverHosted(id) => *descriptor = Descriptor::SenderHosted(*id),
        _ => {}
    }
}
