//! Reading what a promise was resolved to.

ghost use Rattle.std.specs.Prelude.{◌≡◌, IfOk};
ghost use Rattle.cp_messages.specs.Fields.{IsStructField};
ghost use Rattle.cp_rpc.specs.Answers.{Checks, Gives};
ghost use Rattle.cp_messages.specs.Denoted.{resolution_denoted, resolve_denoted};
ghost use Rattle.cp_messages.specs.Faults.{resolve_faults};
ghost use Rattle.cp_rpc.specs.Viewed.{viewed_resolution, viewed_resolve};

use crate::descriptor::DescriptorView;
use crate::exception::ExceptionView;
use crate::field::struct_field;
use crate::source::Source;
use cp_fields::{u16_at, u32_at};
use cp_messages::{Field, Resolution, Resolve, SchemaFault};
use cp_tree::UnknownEnumerant;
use std::alloc::{AllocError, Global};

/// A resolution that is read in place.
#[derive(Drop)]
pub enum ResolutionView<S: Source> {
    Cap(DescriptorView<S>),
    Exception(ExceptionView<S>),
    Unknown(UnknownEnumerant<1>),
}

/// A resolve that is read in place.
#[derive(Drop)]
pub struct ResolveView<S: Source> {
    pub promise_id: u32,
    pub resolution: ResolutionView<S>,
}

impl<S: Source> ResolutionView<S> {
    /// The resolution that a resolve's struct says.
    fn of(t: &S) -> Result<ResolutionView<S>, SchemaFault>
        requires { IsStructField (S.seen t.now) }
        ensures { Gives (viewed_resolution S.seen) (resolution_denoted (S.seen t.now)) (resolve_faults (S.seen t.now)) result }
    {
        match u16_at(t.data(), Resolve::WHICH) {
            0 => {
                let member = struct_field(t, Resolve::MEMBER, Field::ResolveCap)?;
                Ok(ResolutionView::Cap(DescriptorView::of(&member)?))
            }
            1 => {
                let member = struct_field(t, Resolve::MEMBER, Field::ResolveException)?;
                Ok(ResolutionView::Exception(ExceptionView::of(&member)?))
            }
            number => Ok(ResolutionView::Unknown(UnknownEnumerant::of(number))),
        }
    }

    /// The resolution, owned.
    pub fn resolution(&self, alloc: Global) -> Result<Resolution, AllocError>
        ensures { IfOk result (λ r. r ≡ viewed_resolution S.seen self.now) }
    {
        Ok(match self {
            ResolutionView::Cap(descriptor) => Resolution::Cap(descriptor.descriptor(alloc)?),
            ResolutionView::Exception(exception) => {
                Resolution::Exception(exception.exception(alloc)?)
            }
            ResolutionView::Unknown(number) => Resolution::Unknown(*number),
        })
    }
}

impl<S: Source> ResolveView<S> {
    /// Checks the resolve that a struct says.
    #[inline(never)]
    pub(crate) fn check(t: &S) -> Result<(), SchemaFault>
        requires { IsStructField (S.seen t.now) }
        ensures { Checks (resolve_faults (S.seen t.now)) result }
    {
        match u16_at(t.data(), Resolve::WHICH) {
            0 => DescriptorView::check(&struct_field(t, Resolve::MEMBER, Field::ResolveCap)?),
            1 => ExceptionView::check(&struct_field(t, Resolve::MEMBER, Field::ResolveException)?),
            _ => Ok(()),
        }
    }

    /// The resolve that a struct says.
    #[inline(never)]
    pub(crate) fn of(t: &S) -> Result<ResolveView<S>, SchemaFault>
        requires { IsStructField (S.seen t.now) }
        ensures { Gives (viewed_resolve S.seen) (resolve_denoted (S.seen t.now)) (resolve_faults (S.seen t.now)) result }
    {
        Ok(ResolveView {
            promise_id: u32_at(t.data(), Resolve::PROMISE_ID),
            resolution: ResolutionView::of(t)?,
        })
    }

    /// The resolve, owned.
    pub fn resolve(&self, alloc: Global) -> Result<Resolve, AllocError>
        ensures { IfOk result (λ r. r ≡ viewed_resolve S.seen self.now) }
    {
        Ok(Resolve {
            promise_id: self.promise_id,
            resolution: self.resolution.resolution(alloc)?,
        })
    }
}
