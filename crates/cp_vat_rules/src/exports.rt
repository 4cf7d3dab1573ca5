//! How exports are lowered by what one message names.

ghost use Rattle.std.specs.Prelude.{◌≡◌, is_none, not};
ghost use Rattle.std.specs.List.{list_any};
ghost use Rattle.std.specs.FinMap as map;
ghost use Rattle.cp_vat_machine.specs.Receiving.{release_exports};
ghost use Rattle.cp_vat_state.specs.Halts.{leaving};
ghost use Rattle.cp_vat_rules.specs.Settling.{lowered_back};

use cp_vat_machine::PeerFault;
use cp_vat_state::Exported;

/// Lowers exports by one for each mention. Each must be there, and all together mustn't pass its count.
pub fn release_exports(exports: &mut Exported, ids: &[u32]) -> Result<(), PeerFault>
    ensures { release_exports exports.old ids.now ≡ leaving result exports.new }
{
    // All must exist before one is lowered: P4 is reported before P5.
    if !are_there(exports, ids) {
        return Err(PeerFault::UnknownExport);
    }
    for id in ids {
        if exports.release(*id, 1).is_err() {
            return Err(PeerFault::ReleaseTooLarge);
        }
    }
    Ok(())
}

/// Lowers exports by one for each mention, the last first. What one message raised is so taken back.
pub(crate) fn withdraw_exports(exports: &mut Exported, ids: &[u32])
    ensures { exports.new ≡ lowered_back exports.old ids.now }
{
    for index in (0..ids.len()).rev() {
        exports.take_back(ids[index]);
    }
}

/// Whether each of these is an export.
fn are_there(exports: &Exported, ids: &[u32]) -> bool
    ensures { list_any (λ e. is_none (map.get exports.now e)) ids.now ≡ not result }
{
    for id in ids {
        if exports.get(*id).is_none() {
            return false;
        }
    }
    true
}
