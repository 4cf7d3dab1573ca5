//! Promises that objects make, as typed clients call them.

ghost use Rattle.std.specs.Prelude.{◌≡◌, IfOk, OnOk, OnErr};
ghost use Rattle.cp_objects.specs.Context.{context_of, may_resolve};
ghost use Rattle.cp_objects.specs.SessionCap.{IsTakenIf};
ghost use Rattle.cp_interfaces.specs.Resolvers.{Fails, Promises, promised_by, resolved};

use crate::client::TypedClient;
use crate::fault::MethodFault;
use crate::target::CallTarget;
use cp_objects::{Context, ReferenceError, Resolver};
use cp_refs::Cap;
use std::alloc::{AllocError, Global};
use std::marker::PhantomData;

/// Resolves a promise of an object for clients of this type: one that is named before it is there.
#[derive(Drop)]
pub struct TypedResolver<C> {
    pub resolver: Resolver,
    of: PhantomData<C>,
}

impl<C: TypedClient> TypedResolver<C> {
    /// Makes the promise.
    pub fn new<M: Drop>(context: &mut Context<M>) -> Result<TypedResolver<C>, AllocError>
        ensures promised { IfOk result (λ r. Promises r.resolver (context_of context.old) (context_of context.new)) }
        ensures left { OnErr result (context_of context.new ≡ context_of context.old) }
    {
        Ok(TypedResolver {
            resolver: context.promise()?,
            of: PhantomData,
        })
    }

    /// What is promised, to be named at once. Calls of it wait.
    pub fn client(&self, alloc: Global) -> C
        ensures { C.called result ≡ promised_by self.now.resolver }
    {
        C::of(CallTarget::new(alloc, self.resolver.cap()))
    }

    /// What was promised comes to this object, as by `Context::resolve`.
    pub fn resolve<M: Drop>(self, context: &mut Context<M>, client: C) -> Result<(), ReferenceError>
        ensures resolved { OnOk result (context_of context.new ≡ resolved self.resolver (C.called client).cap (context_of context.old)) }
        ensures own { IsTakenIf (may_resolve (context_of context.old) self.resolver (C.called client)) result }
        ensures left { OnErr result (context_of context.new ≡ context_of context.old) }
    {
        context.resolve(self.resolver, client.into_target().into_cap())
    }

    /// Calls of what was promised fail with this.
    pub fn fail<M: Drop>(
        self,
        context: &mut Context<M>,
        fault: MethodFault,
    ) -> Result<(), ReferenceError>
        ensures fails { OnOk result (Fails self.resolver fault (context_of context.old) (context_of context.new)) }
        ensures left { OnErr result (context_of context.new ≡ context_of context.old) }
    {
        fail(self.resolver, context, fault)
    }
}

/// Resolves a promise to an exception: calls of it fail with that, as calls of a method do.
pub fn fail<M: Drop>(
    resolver: Resolver,
    context: &mut Context<M>,
    fault: MethodFault,
) -> Result<(), ReferenceError>
    ensures fails { OnOk result (Fails resolver fault (context_of context.old) (context_of context.new)) }
    ensures left { OnErr result (context_of context.new ≡ context_of context.old) }
{
    let exception = fault.exception(context.alloc())?;
    let broken = context.own(Cap::Broken(exception));
    context.resolve(resolver, broken)
}
