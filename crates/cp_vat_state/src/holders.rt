//! How often imports, promises, objects and questions are held.

ghost use Rattle.std.specs.Prelude.{◌≡◌, ltb, OnOk, OnErr};
ghost use Rattle.cp_vat_state.specs.Counts.{number_of, times_named, times_in, IsMore, IsLess, IsSame};
ghost use Rattle.cp_vat_state.specs.declared.sought.Sought.{Sought};

use crate::counts::Counts;
use crate::sought::Sought;
use cp_refs::Cap;
use std::alloc::{AllocError, Global};

/// How often each import, each promise, each object and each question's paths are held.
/// By these counts `release`, `forget` and `finish` need no walk over the tables.
pub(crate) struct Holders {
    /// By `Sought::key`. One map for all kinds is small where nothing is held.
    counts: Counts,
}

// Not derived: a function that lets one go calls this one, and need not prove the drop of all that it holds.
impl Drop for Holders {
    fn drop(self) {
        let Holders { counts: _ } = self;
    }
}

impl Holders {
    /// Nothing is held.
    pub(crate) fn new(alloc: Global) -> Holders
        ensures { (s : Sought) → number_of result s ≡ 0 }
    {
        Holders {
            counts: Counts::new(alloc),
        }
    }

    /// How often it is held.
    pub(crate) fn number(&self, sought: Sought) -> u64
        ensures { result ≡ number_of self.now sought }
    {
        self.counts.get(sought.key())
    }

    /// Whether it is held.
    pub(crate) fn has(&self, sought: Sought) -> bool
        ensures { result ≡ ltb 0 (number_of self.now sought) }
    {
        self.number(sought) > 0
    }

    /// Counts what is named once more. A count that can't rise is refused as a failed allocation is.
    pub(crate) fn raise(&mut self, named: Option<Sought>) -> Result<(), AllocError>
        ensures raised { OnOk result (IsMore self.old self.new (times_named named)) }
        ensures err { OnErr result (IsSame self.old self.new) }
    {
        match named {
            Some(sought) => self.counts.raise(sought.key()),
            None => Ok(()),
        }
    }

    /// Counts what is named once less.
    pub(crate) fn lower(&mut self, named: Option<Sought>)
        ensures { IsLess self.old self.new (times_named named) }
    {
        match named {
            Some(sought) => self.counts.lower(sought.key()),
            None => {}
        }
    }

    /// Counts what the capabilities name once more each, or nothing where an allocation fails.
    pub(crate) fn raise_all(&mut self, caps: &[Cap]) -> Result<(), AllocError>
        ensures raised { OnOk result (IsMore self.old self.new (times_in caps.now)) }
        ensures err { OnErr result (IsSame self.old self.new) }
    {
        for place in 0..caps.len() {
            if let Err(error) = self.raise(Sought::named_by(&caps[place])) {
                self.lower_all(&caps[..place]);
                return Err(error);
            }
        }
        Ok(())
    }

    /// Counts what the capabilities name once less each.
    pub(crate) fn lower_all(&mut self, caps: &[Cap])
        ensures { IsLess self.old self.new (times_in caps.now) }
    {
        for cap in caps {
            self.lower(Sought::named_by(cap));
        }
    }
}
