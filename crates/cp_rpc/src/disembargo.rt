//! Reading disembargoes.

ghost use Rattle.std.specs.Prelude.{◌≡◌, IfOk};
ghost use Rattle.cp_messages.specs.Fields.{IsStructField};
ghost use Rattle.cp_rpc.specs.Answers.{Checks, Gives};
ghost use Rattle.cp_messages.specs.Denoted.{context_denoted, disembargo_denoted};
ghost use Rattle.cp_messages.specs.Faults.{disembargo_faults};
ghost use Rattle.cp_rpc.specs.Viewed.{viewed_disembargo};

use crate::field::struct_field;
use crate::source::Source;
use crate::target::TargetView;
use cp_fields::{u16_at, u32_at};
use cp_messages::{Disembargo, DisembargoContext, Field, SchemaFault};
use cp_tree::UnknownEnumerant;
use std::alloc::{AllocError, Global};

/// A disembargo that is read in place.
#[derive(Drop)]
pub struct DisembargoView<S: Source> {
    pub context: DisembargoContext,
    pub target: TargetView<S>,
}

impl<S: Source> DisembargoView<S> {
    /// Checks the disembargo that a struct says.
    #[inline(never)]
    pub(crate) fn check(t: &S) -> Result<(), SchemaFault>
        requires { IsStructField (S.seen t.now) }
        ensures { Checks (disembargo_faults (S.seen t.now)) result }
    {
        TargetView::check(&struct_field(t, Disembargo::TARGET, Field::DisembargoTarget)?)
    }

    /// The disembargo that a struct says.
    #[inline(never)]
    pub(crate) fn of(t: &S) -> Result<DisembargoView<S>, SchemaFault>
        requires { IsStructField (S.seen t.now) }
        ensures { Gives (viewed_disembargo S.seen) (disembargo_denoted (S.seen t.now)) (disembargo_faults (S.seen t.now)) result }
    {
        let target = struct_field(t, Disembargo::TARGET, Field::DisembargoTarget)?;
        Ok(DisembargoView {
            context: context_of(t.data()),
            target: TargetView::of(&target)?,
        })
    }

    /// The disembargo, owned.
    pub fn disembargo(&self, alloc: Global) -> Result<Disembargo, AllocError>
        ensures { IfOk result (λ d. d ≡ viewed_disembargo S.seen self.now) }
    {
        Ok(Disembargo {
            context: self.context,
            target: self.target.target(alloc)?,
        })
    }
}

/// The context that a struct's data words say.
fn context_of(words: &[u64]) -> DisembargoContext
    ensures { result ≡ context_denoted words.now }
{
    let number = u32_at(words, Disembargo::NUMBER);
    match u16_at(words, Disembargo::CONTEXT) {
        0 => DisembargoContext::SenderLoopback(number),
        1 => DisembargoContext::ReceiverLoopback(number),
        2 => DisembargoContext::Accept,
        3 => DisembargoContext::Provide(number),
        which => DisembargoContext::Unknown(UnknownEnumerant::of(which)),
    }
}
