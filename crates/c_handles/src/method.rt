//! Methods by their numbers, and which of them may be called.

ghost use Rattle.std.specs.Prelude.{◌≡◌};
ghost use Rattle.std.specs.List.{list_any};
ghost use Rattle.c_handles.specs.Rules.{is_method, may_call, passes};

use cp_relay::Visitor;
use cp_rpc::{MessageIn, MessageView};
use std::alloc::AllocError;

/// An interface and a method of it.
#[repr(C)]
#[derive(Clone, Copy, PartialEq, Eq, Debug)]
pub struct MethodNumbers {
    pub interface: u64,
    pub method: u16,
}

/// Which methods may be called. It is data, since C can't be called back.
#[derive(Drop)]
pub struct MethodRules {
    /// The methods that the rules name.
    pub methods: Vec<MethodNumbers>,
    /// Whether these alone may be called; else all others may.
    pub only: bool,
}

impl Visitor for MethodRules {
    ghost says = { passes };

    /// A message may go, unless it calls a method that may not be called.
    fn visit(&mut self, message: &MessageView) -> Result<bool, AllocError> {
        match message {
            MessageIn::Call(call) => Ok(self.may_call(call.interface_id, call.method_id)),
            _ => Ok(true),
        }
    }
}

impl MethodRules {
    /// Whether a method may be called.
    fn may_call(&self, interface: u64, method: u16) -> bool
        ensures { result ≡ may_call self.now interface method }
    {
        if self.only {
            self.is_named(interface, method)
        } else {
            !self.is_named(interface, method)
        }
    }

    /// Whether the rules name a method.
    fn is_named(&self, interface: u64, method: u16) -> bool
        ensures { result ≡ list_any (is_method interface method) self.now.methods.items }
    {
        for named in &self.methods {
            if named.interface == interface && named.method == method {
                return true;
            }
        }
        false
    }
}
