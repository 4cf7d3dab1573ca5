//! What capabilities come to.

ghost use Rattle.std.specs.Prelude.{◌≡◌, ◌≢◌, IfOk, option_copied};
ghost use Rattle.cp_refs.specs.Ending.{Ending, Ending-prop};
ghost use Rattle.cp_refs.specs.Route.{HasRoute, missing, question_way, way};
ghost use Rattle.cp_vat_machine.specs.Writing.{ResolvesTo};
ghost use Rattle.cp_vat_rules.specs.Leading.{LeadsTo};

use cp_refs::{Cap, Path, QuestionState, Values};
use std::alloc::{AllocError, Global};

/// What a capability comes to: the first one on its way that is neither a settled promise nor a path
/// of a settled question.
pub fn resolve_cap(alloc: Global, values: &Values, cap: &Cap) -> Result<Cap, AllocError>
    // Its way ends, and what it names exists.
    requires { HasRoute values.now cap.now }
    ensures { IfOk result (λ last. ResolvesTo values.now cap.now last) }
{
    let mut reached = Waypoint::new(values, cap.copy(alloc)?);
    loop {
        match reached.on(alloc)? {
            WaypointStep::Ends(last) => return Ok(last),
            WaypointStep::Leads(next) => reached = next,
        }
    }
}

/// A capability that was reached on a way that ends.
#[derive(Drop)]
struct Waypoint<'a> {
    values: &'a Values,
    cap: Cap,
    ghost ending: { Ending values.now cap } by { Ending-prop values.now cap },
}

/// Where one step comes to.
#[derive(Drop)]
enum WaypointStep<'a> {
    Ends(Cap),
    Leads(Waypoint<'a>),
}

impl<'a> Waypoint<'a> {
    ghost use Rattle.std.specs.Prelude.{◌≡◌, IfOk};
    ghost use Rattle.cp_refs.specs.Route.{HasRoute};
    ghost use Rattle.cp_vat_rules.specs.Paces.{PacesFrom};

    fn new(values: &'a Values, cap: Cap) -> Waypoint<'a>
        requires { HasRoute values.now cap }
        ensures values { result.values.now ≡ values.now }
        ensures cap { result.cap ≡ cap }
    {
        Waypoint { values, cap }
    }

    /// One step on.
    fn on(self, alloc: Global) -> Result<WaypointStep<'a>, AllocError>
        ensures { IfOk result (PacesFrom self.entry.values.now self.entry.cap) }
    {
        let Waypoint { values, cap } = self;
        match next_of(alloc, values, &cap)? {
            Some(next) => Ok(WaypointStep::Leads(Waypoint { values, cap: next })),
            None => Ok(WaypointStep::Ends(cap)),
        }
    }
}

/// Where a capability's way leads on to, unless it ends there.
fn next_of(alloc: Global, values: &Values, cap: &Cap) -> Result<Option<Cap>, AllocError>
    requires { way values.now cap.now ≢ missing }
    ensures { IfOk result (LeadsTo (way values.now cap.now)) }
{
    match cap {
        Cap::Promise(id) => match values.promise(*id) {
            Some(Some(value)) => Ok(Some(value.copy(alloc)?)),
            Some(None) => Ok(None),
            None => unreachable!(),
        },
        Cap::Pipelined(id, path) => next_of_path(alloc, *id, path, values.question(*id)),
        Cap::None | Cap::Object(_) | Cap::Import(_) | Cap::Broken(_) => Ok(None),
    }
}

fn next_of_path(
    alloc: Global,
    id: u32,
    path: &Path,
    question: Option<&QuestionState>,
) -> Result<Option<Cap>, AllocError>
    requires { question_way id path.now (option_copied question) ≢ missing }
    ensures { IfOk result (LeadsTo (question_way id path.now (option_copied question.entry))) }
{
    let Some(question) = question else {
        unreachable!()
    };
    match &question.outcome {
        None => Ok(None),
        Some(outcome) => Ok(Some(outcome.at(alloc, path.fields())?)),
    }
}
