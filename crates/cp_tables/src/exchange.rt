//! An entry of the questions or the answers.

use crate::fault::TableFault;

/// How far an exchange has come. With both notes its entry is gone.
#[derive(Clone, Copy)]
pub enum Stage {
    /// Neither a Return nor a Finish was noted.
    Open,
    /// Its Return was noted.
    Returned,
    /// Its Finish was noted.
    Finished,
}

/// An entry of the questions or the answers (rpc.capnp, `QuestionId` and `AnswerId`): from a call's
/// opening until both its Return and its Finish were noted.
#[derive(Clone, Drop)]
pub struct Exchange<T> {
    /// Which of the two was noted.
    pub stage: Stage,
    /// What the table's user keeps with it.
    /// It lies in the entry, so that both come and go in one step and one allocation.
    pub kept: T,
}

impl<T> Exchange<T> {
    ghost use Rattle.std.specs.Prelude.{◌≡◌};
    ghost use Rattle.cp_tables.specs.Exchange.{return_outcome, finish_outcome, stage_after};

    /// Notes the Return, and says whether the entry goes.
    pub(crate) fn note_return(&mut self) -> Result<bool, TableFault>
        ensures goes { result ≡ return_outcome self.old.stage }
        ensures noted { self.new ≡ record self.old { stage = stage_after self.old.stage Stage.Returned } }
    {
        match self.stage {
            Stage::Open => {
                self.stage = Stage::Returned;
                Ok(false)
            }
            Stage::Returned => Err(TableFault::Taken),
            Stage::Finished => Ok(true),
        }
    }

    /// Notes the Finish, and says whether the entry goes.
    pub(crate) fn note_finish(&mut self) -> Result<bool, TableFault>
        ensures goes { result ≡ finish_outcome self.old.stage }
        ensures noted { self.new ≡ record self.old { stage = stage_after self.old.stage Stage.Finished } }
    {
        match self.stage {
            Stage::Open => {
                self.stage = Stage::Finished;
                Ok(false)
            }
            Stage::Returned => Ok(true),
            Stage::Finished => Err(TableFault::Taken),
        }
    }
}
