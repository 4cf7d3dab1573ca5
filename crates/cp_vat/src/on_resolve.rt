//! What a Resolve does.

ghost use Rattle.std.specs.Prelude.{◌≡◌, true, option_to_list};
ghost use Rattle.std.specs.FinMap as map;
ghost use Rattle.cp_rpc.specs.Viewed.{viewed_resolution, viewed_resolve};
ghost use Rattle.cp_vat_machine.specs.Resolving.{OnResolve, TakeResolution, given_back, is_open_promise, release_of};
ghost use Rattle.cp_vat_machine.specs.Supported.{is_supported_resolution};
ghost use Rattle.cp_vat_state.specs.Halts.{Acts, Leaves};
ghost use Rattle.cp_vat_state.specs.StateOf.{state_of};

use cp_refs::Cap;
use cp_rpc::{DescriptorView, Message, Release, ResolutionView, ResolveView, Source};
use cp_vat_machine::{Effect, ImportKind, PeerFault};
use cp_vat_rules::receive::receive_cap;
use cp_vat_state::{Core, StepFault};

/// A Resolve says what an import came to. What that of an import names which isn't held any more is
/// given back.
pub(crate) fn on_resolve<S: Source>(
    core: &mut Core,
    message: &ResolveView<S>,
    effects: &mut Vec<Effect>,
) -> Result<(), StepFault>
    requires { is_supported_resolution (viewed_resolution S.seen message.now.resolution) ≡ true }
    ensures { Acts (OnResolve (state_of core.old) (viewed_resolve S.seen message.now)) result effects.old.items effects.new.items (state_of core.new) }
{
    let id = message.promise_id;
    let Some(import) = core.imports.get(id) else {
        // The import was released meanwhile, so what the message names is only given back.
        if let Some(given) = given_back(&message.resolution) {
            effects.push(release_effect(given, 1))?;
        }
        return Ok(());
    };
    if !is_open_promise(core, id, import.kept) {
        return Err(StepFault::Fault(PeerFault::NotAnOpenPromise));
    }
    let value = receive_resolution(core, &message.resolution)?;
    core.values.put_import(id, Some(value))?;
    Ok(())
}

/// The Release of an import.
pub(crate) fn release_effect(id: u32, reference_count: u32) -> Effect
    ensures { result ≡ release_of id reference_count }
{
    Effect::Send(Message::Release(Release {
        id,
        reference_count,
    }))
}

/// The peer's export that a resolution names.
pub(crate) fn given_back<S: Source>(resolution: &ResolutionView<S>) -> Option<u32>
    ensures { option_to_list result ≡ given_back (viewed_resolution S.seen resolution.now) }
{
    match resolution {
        ResolutionView::Cap(DescriptorView::SenderHosted(id) | DescriptorView::SenderPromise(id)) =>
            Some(*id),
        _ => None,
    }
}

/// Whether an import of this kind may be resolved: a promise that came to nothing yet.
fn is_open_promise(core: &Core, id: u32, kind: ImportKind) -> bool
    ensures { result ≡ is_open_promise kind (map.get core.now.values.imports id) }
{
    match kind {
        ImportKind::Hosted => false,
        ImportKind::Promise => matches!(core.values.values().import(id), Some(None)),
    }
}

/// Takes in what an import was resolved to.
fn receive_resolution<S: Source>(
    core: &mut Core,
    resolution: &ResolutionView<S>,
) -> Result<Cap, StepFault>
    requires { is_supported_resolution (viewed_resolution S.seen resolution.now) ≡ true }
    ensures { Leaves (TakeResolution (state_of core.old) (viewed_resolution S.seen resolution.now)) result (state_of core.new) }
{
    match resolution {
        ResolutionView::Cap(descriptor) => receive_cap(core, &descriptor.descriptor(core.alloc)?),
        ResolutionView::Exception(exception) => Ok(Cap::Broken(exception.exception(core.alloc)?)),
        ResolutionView::Unknown(_) => unreachable!(),
    }
}
