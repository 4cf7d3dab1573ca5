//! Capabilities that all connections of a host may name, as typed clients call them.

ghost use Rattle.std.specs.Prelude.{◌≡◌, IfOk, OnOk, OnErr};
ghost use Rattle.cp_objects.specs.Context.{context_of, hereby, named_here, shared_of, sharing};
ghost use Rattle.cp_objects.specs.SessionCap.{IsTakenIf, is_of};

use crate::client::TypedClient;
use crate::target::CallTarget;
use cp_objects::{Context, ReferenceError, SharedCap};
use std::alloc::AllocError;
use std::marker::PhantomData;

/// A capability that all connections of a host may name, and that clients of this type call: store it where their objects find it. It is
/// dropped like any value, and what it stands for stays as long as it, or a copy of it, is there.
#[derive(Drop)]
pub struct SharedClient<C> {
    pub cap: SharedCap,
    of: PhantomData<C>,
}

impl<C> SharedClient<C> {
    /// This capability, as clients of this type call it.
    pub fn new(cap: SharedCap) -> SharedClient<C>
        ensures { result.cap ≡ cap }
    {
        SharedClient {
            cap,
            of: PhantomData,
        }
    }

    /// An equal one.
    pub fn copy(&self) -> Result<SharedClient<C>, AllocError>
        ensures { IfOk result (λ copy. copy.cap ≡ self.now.cap) }
    {
        Ok(SharedClient::new(self.cap.copy()?))
    }
}

impl<C: TypedClient> SharedClient<C> {
    /// Shares an object of the connection, as `Context::share`. A capability of a call's params is shared by `ServiceCall::share`.
    ///
    /// # Errors
    ///
    /// It is of another session, or memory ran out.
    pub fn of<M: Drop>(
        client: C,
        context: &mut Context<M>,
    ) -> Result<SharedClient<C>, ReferenceError>
        ensures shared { IfOk result (λ shared. shared.cap ≡ shared_of (C.called client).cap (context_of context.old)) }
        ensures noted { OnOk result (context_of context.new ≡ sharing (C.called client).cap (context_of context.old)) }
        ensures left { OnErr result (context_of context.new ≡ context_of context.old) }
        ensures own { IsTakenIf (is_of (context_of context.old).this.session (C.called client)) result }
    {
        let target = client.into_target();
        Ok(SharedClient::new(context.share(target.cap())?))
    }

    /// What is shared, to be called or named by objects of this connection (`Context::here`).
    pub fn here<M: Drop>(&self, context: &mut Context<M>) -> Result<C, AllocError>
        ensures named { IfOk result (λ client. C.called client ≡ named_here self.now.cap (context_of context.old)) }
        ensures noted { OnOk result (context_of context.new ≡ hereby self.now.cap (context_of context.old)) }
        ensures left { OnErr result (context_of context.new ≡ context_of context.old) }
    {
        let cap = context.here(&self.cap)?;
        Ok(C::of(CallTarget::new(context.alloc(), cap)))
    }
}
