//! What results lend the vat.

ghost use Rattle.std.specs.Prelude.{◌≡◌, OnOk};
ghost use Rattle.cp_tail_calls.specs.Sending.{lent_all, lent_one};

use cp_messages::Descriptor;
use cp_tables::Entries;
use std::alloc::AllocError;

/// Counts each import that a table names as its sender's.
pub(crate) fn lend_each(lent: &mut Entries<u32>, table: &[Descriptor]) -> Result<(), AllocError>
    ensures { OnOk result (lent.new ≡ lent_all lent.old table.now) }
{
    for descriptor in table {
        lend(lent, descriptor)?;
    }
    Ok(())
}

/// Counts an import that its sender hosts.
fn lend(lent: &mut Entries<u32>, descriptor: &Descriptor) -> Result<(), AllocError>
    ensures { OnOk result (lent.new ≡ lent_one lent.old descriptor.now) }
{
    let Descriptor::SenderHosted(import) = descriptor else {
        return Ok(());
    };
    let count = match lent.get(*import) {
        Some(count) => *count,
        None => 0,
    };
    lent.put(*import, count.saturating_add(1))
}
