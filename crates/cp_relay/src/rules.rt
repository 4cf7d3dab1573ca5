//! Which methods may be called.

ghost use Rattle.std.specs.Prelude.{◌≡◌, ◌≤◌, ◌++◌, ◌∷◌, [], true, false, length, IfOk, OnOk, OnErr};
ghost use Rattle.std.specs.List.{list_any};
ghost use Rattle.cp_relay.specs.Rules.{is_method, may_call, name_of, follows, is_in, marks_after, with_grant, is_granted, DiffersInMethods, DiffersInNames, DiffersInGrants};

use std::alloc::{AllocError, Global};

/// A method: the number of its interface, and its own there.
#[derive(Clone, Copy)]
pub struct MethodId {
    pub interface: u64,
    pub method: u16,
}

/// What may be called.
#[derive(Clone, Copy)]
pub enum Callable {
    All,
    /// The methods of an interface.
    Interface(u64),
    Method(MethodId),
}

/// A rule on what calls of a method gave.
#[derive(Clone, Copy)]
pub struct Grant {
    /// The method whose calls give.
    pub after: MethodId,
    /// What may be called of that.
    pub callable: Callable,
    /// The bit by which a reference is known to have come so.
    pub mark: u64,
}

/// A method, and what it is called.
#[derive(Drop)]
pub struct MethodName {
    pub method: MethodId,
    pub name: String,
}

/// How many questions a caller may ask. A question is a Call or a Bootstrap.
#[derive(Clone, Copy)]
pub struct CallLimits {
    /// The most that are under way.
    pub under_way: u32,
    /// The most in a second.
    pub a_second: u32,
}

/// Which methods may be called, and how often.
pub struct Rules {
    /// The methods that the rules name.
    pub methods: Vec<MethodId>,
    /// Whether these alone may be called; else all others may.
    pub only: bool,
    /// What else may be called of what calls gave. With one of these, calls go only on references that the caller was given.
    pub grants: Vec<Grant>,
    /// What methods are called, where a reason names one.
    pub names: Vec<MethodName>,
    pub limits: CallLimits,
    /// Whether a question that may not go closes the connection.
    pub strict: bool,
}

impl Drop for Rules {
    fn drop(self) {
        let Rules {
            methods: _,
            only: _,
            grants: _,
            names: _,
            limits: _,
            strict: _,
        } = self;
    }
}

/// What a method without a name is called.
const UNNAMED: &str = "a method that the schema doesn't have";

/// The most rules on what calls gave, each of which has a bit of its own.
const MOST_GRANTS: usize = 64;

impl Rules {
    /// Rules by which all methods may be called, none of which has a name.
    pub fn new(alloc: Global, limits: CallLimits) -> Rules
        ensures none { result.methods.items ≡ [] }
        ensures all { result.only ≡ false }
        ensures granted_none { result.grants.items ≡ [] }
        ensures unnamed { result.names.items ≡ [] }
        ensures limits { result.limits ≡ limits }
        ensures lenient { result.strict ≡ false }
    {
        Rules {
            methods: Vec::new(alloc),
            only: false,
            grants: Vec::new(alloc),
            names: Vec::new(alloc),
            limits,
            strict: false,
        }
    }

    /// Adds a rule on a method.
    pub fn add_rule(&mut self, method: MethodId) -> Result<(), AllocError>
        ensures added { OnOk result (self.new.methods.items ≡ self.old.methods.items ++ method ∷ []) }
        ensures refused { OnErr result (self.new.methods.items ≡ self.old.methods.items) }
        ensures same { DiffersInMethods self.old self.new }
    {
        self.methods.push(method)?;
        Ok(())
    }

    /// Adds a rule on what calls of a method gave. `false` says that there are 64 already.
    pub fn add_grant(&mut self, after: MethodId, callable: Callable) -> Result<bool, AllocError>
        ensures added { IfOk result (λ added. added ≡ true → self.new.grants.items ≡ with_grant self.old.grants.items after callable) }
        ensures full { IfOk result (λ added. added ≡ false → (64 ≤ length self.old.grants.items) × (self.new ≡ self.old)) }
        ensures refused { OnErr result (self.new.grants.items ≡ self.old.grants.items) }
        ensures same { DiffersInGrants self.old self.new }
    {
        let count = self.grants.len();
        if count >= MOST_GRANTS {
            return Ok(false);
        }
        self.grants.push(Grant {
            after,
            callable,
            mark: 1 << count,
        })?;
        Ok(true)
    }

    /// Adds what a method is called.
    pub fn add_name(&mut self, named: MethodName) -> Result<(), AllocError>
        ensures added { OnOk result (self.new.names.items ≡ self.old.names.items ++ named ∷ []) }
        ensures refused { OnErr result (self.new.names.items ≡ self.old.names.items) }
        ensures same { DiffersInNames self.old self.new }
    {
        self.names.push(named)?;
        Ok(())
    }

    /// Whether a method may be called.
    pub fn may_call(&self, method: MethodId) -> bool
        ensures { result ≡ may_call self.now method.interface method.method }
    {
        if self.only {
            self.is_named(method)
        } else {
            !self.is_named(method)
        }
    }

    /// Whether there is a rule on what calls gave.
    pub(crate) fn follows(&self) -> bool
        ensures { result ≡ follows self.now }
    {
        !self.grants.is_empty()
    }

    /// Whether a rule lets a method be called of what has these marks.
    pub(crate) fn is_granted(&self, marks: u64, method: MethodId) -> bool
        ensures { result ≡ list_any (is_granted marks method.interface method.method) self.now.grants.items }
    {
        for grant in &self.grants {
            if is_in(grant.callable, method) && marks & grant.mark != 0 {
                return true;
            }
        }
        false
    }

    /// What a method is called.
    pub fn name_of(&self, method: MethodId) -> &str
        ensures { result.now ≡ name_of method.interface method.method self.now.names.items }
    {
        for named in &self.names {
            if is_same(named.method, method) {
                return named.name.as_str();
            }
        }
        UNNAMED
    }

    /// Whether a rule names a method.
    fn is_named(&self, method: MethodId) -> bool
        ensures { result ≡ list_any (is_method method.interface method.method) self.now.methods.items }
    {
        for named in &self.methods {
            if is_same(*named, method) {
                return true;
            }
        }
        false
    }
}

/// The marks of what a call of a method gives by these rules.
pub(crate) fn marks_after(grants: &[Grant], method: MethodId) -> u64
    ensures { result ≡ marks_after method.interface method.method 0 grants.now }
{
    let mut marks = 0;
    for grant in grants {
        if is_same(grant.after, method) {
            marks |= grant.mark;
        }
    }
    marks
}

/// Whether a method is among what may be called.
fn is_in(callable: Callable, method: MethodId) -> bool
    ensures { result ≡ is_in method.interface method.method callable }
{
    match callable {
        Callable::All => true,
        Callable::Interface(interface) => interface == method.interface,
        Callable::Method(named) => is_same(named, method),
    }
}

/// Whether two are one method.
fn is_same(one: MethodId, other: MethodId) -> bool
    ensures { result ≡ is_method other.interface other.method one }
{
    one.interface == other.interface && one.method == other.method
}
