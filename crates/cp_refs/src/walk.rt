//! Capabilities whose way ends.

ghost use Rattle.cp_refs.specs.Ending.{Ending, Ending-prop};

use crate::cap::Cap;
use crate::route::Route;
use crate::values::{Step, Values};
use std::alloc::AllocError;

/// A capability whose way ends.
#[derive(Drop)]
pub(crate) struct Walk<'a> {
    values: &'a Values,
    cap: &'a Cap,
    ghost ending: { Ending values.now cap.now } by { Ending-prop values.now cap.now },
}

/// Where a walk comes to by one step.
#[derive(Drop)]
pub(crate) enum Pace<'a> {
    Ends(Route),
    Leads(Walk<'a>),
}

impl<'a> Walk<'a> {
    ghost use Rattle.std.specs.Prelude.{◌≡◌, IfOk};
    ghost use Rattle.cp_refs.specs.Route.{HasRoute};
    ghost use Rattle.cp_refs.specs.Paces.{PacesFrom};

    pub(crate) fn new(values: &'a Values, cap: &'a Cap) -> Walk<'a>
        requires { HasRoute values.now cap.now }
        ensures values { result.values.now ≡ values.now }
        ensures cap { result.cap.now ≡ cap.now }
    {
        Walk { values, cap }
    }

    /// One step on.
    pub(crate) fn on(self) -> Result<Pace<'a>, AllocError>
        ensures { IfOk result (PacesFrom self.entry.values.now self.entry.cap.now) }
    {
        match self.values.step(self.cap)? {
            Step::Ends(route) => Ok(Pace::Ends(route)),
            Step::Leads(cap) => Ok(Pace::Leads(Walk {
                values: self.values,
                cap,
            })),
        }
    }
}
