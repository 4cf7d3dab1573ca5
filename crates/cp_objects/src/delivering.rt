//! What goes to other sessions of a host, and what comes from them.

ghost use Rattle.std.specs.Prelude.{◌≡◌, [], Some, IfOk, IsSome, OnOk};
ghost use Rattle.std.specs.FinMap as maps;
ghost use Rattle.cp_refs.specs.declared.cap.Cap.TheVariants.{Pipelined};
ghost use Rattle.cp_objects.specs.AnyObject.{with_lent};
ghost use Rattle.cp_objects.specs.Context.{named_here, shared_of};
ghost use Rattle.cp_objects.specs.Delivering.{Delivers, IsTold, adding_shared, needing, receiver_of, sharing_so};
ghost use Rattle.cp_objects.specs.Grown.{HandsOn};
ghost use Rattle.cp_objects.specs.Objects.{holding_import, holding_lent, joining_proxy, lending_cap, lent_in, objects_of, with_forwarder, with_object};

use crate::any_object::AnyObject;
use crate::forwarder::Forwarder;
use crate::letters::{Letter, LetterBody};
use crate::members::{holds_twice, keep};
use crate::object_entry::ObjectEntry;
use crate::objects::Objects;
use crate::proxy::Proxy;
use crate::served_object::ServedObject;
use crate::session_cap::SessionCap;
use crate::shared_cap::SharedCap;
use cp_refs::{Cap, Path};
use cp_tables::Entries;
use std::alloc::AllocError;

impl<O: ServedObject<Makes = O>> Objects<O> {
    /// Adds an object that stands for what another session lends, and stays: all its calls go there. A connection whose first object is one
    /// is a gateway.
    pub fn add_shared(&mut self, shared: &SharedCap) -> Result<SessionCap, AllocError>
        ensures cap { IfOk result (λ cap. cap ≡ named_here shared.now (objects_of self.old).context) }
        ensures added { OnOk result (objects_of self.new ≡ adding_shared shared.now (objects_of self.old)) }
    {
        let cap = self.context.here(shared)?;
        self.join()?;
        self.stays = self.context.next();
        Ok(cap)
    }

    /// What the peer of their session gives by the question of number 0, which must be that of a Bootstrap, as all sessions of the host may
    /// name it. Their session must be numbered before (`set_session`).
    pub fn share_bootstrap(&mut self) -> Result<SharedCap, AllocError>
        ensures shared { IfOk result (λ shared. shared ≡ shared_of (Pipelined 0 []) (objects_of self.old).context) }
        ensures lent { OnOk result (objects_of self.new ≡ sharing_so (Pipelined 0 []) (objects_of self.old)) }
    {
        let path = Path::new(Vec::new(self.alloc));
        let shared = self.context.share_own(&Cap::Pipelined(0, path))?;
        self.settle(0)?;
        Ok(shared)
    }

    /// Tells the object that a letter of another session is for what it says. Nobody is told where that is gone.
    pub(crate) fn deliver(&mut self, body: LetterBody) -> Result<(), AllocError>
        ensures { OnOk result (Delivers body (objects_of self.old) (objects_of self.new)) }
    {
        match self.receiver(&body) {
            Ok(Some(number)) => {
                if self.members.contains(number) {
                    return self.tell(number, body);
                }
                drop(body);
                Ok(())
            }
            Ok(None) => {
                drop(body);
                Ok(())
            }
            Err(error) => {
                drop(body);
                Err(error)
            }
        }
    }

    /// Takes out the first letter to another session.
    pub(crate) fn next_letter(&mut self) -> Option<Letter>
        ensures { HandsOn result (objects_of self.old) (objects_of self.new) }
    {
        self.letters.pop_front()
    }

    /// How many capabilities are lent.
    pub(crate) fn lent(&self) -> usize
        ensures { result ≡ lent_in (objects_of self.now) }
    {
        let Some(number) = self.forwarder else {
            return 0;
        };
        match self.members.get(number) {
            Some(entry) => entry.object.lent(),
            None => 0,
        }
    }

    /// This is lent from now on, by an object that is to hold it no more.
    pub(crate) fn lend_cap(&mut self, number: u32, shared: SharedCap) -> Result<(), AllocError>
        ensures { OnOk result (objects_of self.new ≡ lending_cap number shared (objects_of self.old)) }
    {
        let forwarder = self.need_forwarder()?;
        self.hold_lent(number, forwarder, shared.cap())?;
        self.awake.insert(forwarder)?;
        lend(&mut self.members, forwarder, shared)
    }

    /// A proxy is there from now on, under this number.
    pub(crate) fn join_proxy(&mut self, number: u32, shared: SharedCap) -> Result<(), AllocError>
        ensures { OnOk result (objects_of self.new ≡ joining_proxy number shared (objects_of self.old)) }
    {
        self.context.stands.put(number, shared.copy()?)?;
        let proxy = Proxy::new(self.alloc, shared);
        self.join_object(number, AnyObject::Proxy(proxy))
    }

    /// The object that a letter is for. A call is for the forwarder, which is made where there is none.
    fn receiver(&mut self, body: &LetterBody) -> Result<Option<u32>, AllocError>
        ensures needs { OnOk result (objects_of self.new ≡ needing body.now (objects_of self.old)) }
        ensures receiver { IfOk result (λ number. number ≡ receiver_of body.now (objects_of self.new)) }
    {
        match body {
            LetterBody::Wake(object) => Ok(Some(*object)),
            LetterBody::Answer { object, .. } => Ok(Some(*object)),
            LetterBody::Call(_) => Ok(Some(self.need_forwarder()?)),
            LetterBody::Cancel(_) | LetterBody::Dropped(_) => Ok(self.forwarder),
        }
    }

    /// Tells an object what another session says, and does what it did then.
    fn tell(&mut self, number: u32, body: LetterBody) -> Result<(), AllocError>
        requires { IsSome (maps.get self.old.members number) }
        ensures { OnOk result (IsTold number body (objects_of self.old) (objects_of self.new)) }
    {
        self.context.enter(number);
        let member = self.members.entry_mut(number);
        member.object.take(body, &mut self.context)?;
        self.awake.insert(number)?;
        self.settle(number)
    }

    /// What makes the calls that other sessions forward, which is made where there is none.
    fn need_forwarder(&mut self) -> Result<u32, AllocError>
        ensures there { OnOk result (objects_of self.new ≡ with_forwarder (objects_of self.old)) }
        ensures number { IfOk result (λ number. (objects_of self.new).forwarder ≡ Some number) }
    {
        if let Some(number) = self.forwarder {
            return Ok(number);
        }
        let number = self.context.next();
        let Some(next) = number.checked_add(1) else {
            return Err(AllocError);
        };
        self.context.set_next(next);
        let forwarder = Forwarder::new(self.alloc);
        self.join_object(number, AnyObject::Forwarder(forwarder))?;
        self.forwarder = Some(number);
        Ok(number)
    }

    /// What an object names is lent: the forwarder holds it in its place if it is an import, and else keeps it.
    fn hold_lent(&mut self, number: u32, forwarder: u32, cap: &Cap) -> Result<(), AllocError>
        ensures { OnOk result (objects_of self.new ≡ holding_lent number forwarder cap.now (objects_of self.old)) }
    {
        match cap {
            Cap::Import(import) => self.hold_import(number, forwarder, *import),
            Cap::Object(kept) => keep(&mut self.members, forwarder, *kept),
            _ => Ok(()),
        }
    }

    /// The forwarder holds an import in place of the object that does, once.
    fn hold_import(&mut self, number: u32, forwarder: u32, import: u32) -> Result<(), AllocError>
        ensures { OnOk result (objects_of self.new ≡ holding_import number forwarder import (objects_of self.old)) }
    {
        self.hand_over(number, forwarder, import)?;
        if holds_twice(&self.members, forwarder, import) {
            return self.give_up_held(forwarder, import);
        }
        Ok(())
    }
}

/// An object lends this from now on, if it is one that lends.
fn lend<O>(
    members: &mut Entries<ObjectEntry<AnyObject<O>>>,
    number: u32,
    shared: SharedCap,
) -> Result<(), AllocError>
    ensures { OnOk result (members.new ≡ with_object members.old number (with_lent shared)) }
{
    match members.get_mut(number) {
        Some(entry) => entry.object.lend(shared),
        None => {
            drop(shared);
            Ok(())
        }
    }
}
