//! How waiting calls leave.

ghost use Rattle.std.specs.Prelude.{[], None};
ghost use Rattle.cp_refs.specs.Route.{HasRoute};
ghost use Rattle.cp_vat_machine.specs.Go.{GoTo, underway};
ghost use Rattle.cp_vat_laws.specs.Within.{Within};
ghost use Rattle.cp_vat_state.specs.Halts.{Acts};
ghost use Rattle.cp_vat_state.specs.StateOf.{state_of};
ghost use Rattle.cp_vat_rules.specs.Going.{AllLeave, MayGo};

use crate::go::{PendingCall, go_to};
use cp_vat_machine::Effect;
use cp_vat_state::{Core, Next, StepFault};

/// Waiting calls leave: of those whose gate ended the one with the lowest ticket goes, until none is
/// left. Then the gates that ended are forgotten.
pub fn leave(core: &mut Core, effects: &mut Vec<Effect>) -> Result<(), StepFault>
    requires { Within (state_of core.old) None [] }
    ensures { AllLeave (state_of core.old) result effects.old.items effects.new.items (state_of core.new) }
{
    'leaving: loop {
        let Some(next) = core.gates.next()? else {
            core.gates.forget();
            return Ok(());
        };
        // A call that fails leaves no effects, so each has a list of its own.
        let mut first = Vec::new(core.alloc);
        go_on(core, next, &mut first)?;
        effects.append(&mut first)?;
    }
}

/// A call that waited goes, by what its gate gave.
fn go_on(core: &mut Core, next: Next, effects: &mut Vec<Effect>) -> Result<(), StepFault>
    requires may { MayGo (state_of core.old) (underway next.call) }
    requires ends { HasRoute core.old.values next.cap }
    ensures { Acts (GoTo (state_of core.old) (underway next.call) next.cap) result effects.old.items effects.new.items (state_of core.new) }
{
    let Next { call, cap } = next;
    let call = PendingCall {
        ticket: call.ticket,
        origin: call.origin,
        request: call.request,
    };
    go_to(core, call, &cap, effects)
}
