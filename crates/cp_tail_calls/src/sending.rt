//! What comes of the messages that the vat sends.

ghost use Rattle.std.specs.Prelude.{◌≡◌, Some, IfOk};
ghost use Rattle.cp_tail_calls.specs.declared.progress.Progress.TheVariants.{Taken};
ghost use Rattle.cp_tail_calls.specs.Sending.{resolution_for, send_release, send_return, send_return_of};

use crate::forwarding::Trigger;
use crate::progress::{Progress, Taker};
use crate::receiving::sent_elsewhere;
use crate::tail_calls::TailCalls;
use cp_messages::{Descriptor, Message, Release, Resolution, Resolve, Return};
use cp_refs::failed;
use std::alloc::AllocError;

impl TailCalls {
    /// The Return of a call with results to its sender, or any other.
    pub(crate) fn send_return(&mut self, message: Return) -> Result<Option<Message>, AllocError>
        ensures { IfOk result (λ on. send_return self.old message ≡ (on, self.new)) }
    {
        let call = message.answer_id;
        match self.calls.get(call).copied() {
            Some(Progress::Untaken) => {
                self.results.put(call, message)?;
                Ok(None)
            }
            Some(Progress::Taken(taker)) => self.answer(message, taker),
            Some(Progress::GivenUp) => {
                let _ = self.calls.remove(call);
                let release = message.release_param_caps;
                drop(message);
                Ok(Some(sent_elsewhere(call, release)))
            }
            Some(Progress::Given) | None => Ok(Some(Message::Return(message))),
        }
    }

    /// The question that takes the results of a call gets them.
    fn answer(&mut self, message: Return, taker: Taker) -> Result<Option<Message>, AllocError>
        ensures { IfOk result (λ on. send_return_of self.old message (Some (Taken taker)) ≡ (on, self.new)) }
    {
        let Return {
            answer_id: call,
            release_param_caps,
            returned,
        } = message;
        self.give(call, taker, returned)?;
        let _ = self.takers.remove(taker.question);
        if taker.is_finished {
            let _ = self.calls.remove(call);
        } else {
            self.calls.put(call, Progress::Given)?;
        }
        Ok(Some(sent_elsewhere(call, release_param_caps)))
    }

    /// What was lent of an import is taken off a count that the application gives back.
    pub(crate) fn send_release(&mut self, release: Release, trigger: Trigger) -> Release
        ensures { send_release self.old release trigger ≡ (result, self.new) }
    {
        match trigger {
            Trigger::Message => release,
            Trigger::Application => {
                let lent = self.lent.remove(release.id).unwrap_or(0);
                Release {
                    id: release.id,
                    reference_count: release.reference_count.saturating_sub(lent),
                }
            }
        }
    }

    /// A promise that came to no capability is broken.
    pub(crate) fn send_resolve(&self, resolve: Resolve) -> Result<Resolve, AllocError>
        ensures { IfOk result (λ r. r ≡ record resolve { resolution = resolution_for resolve.resolution }) }
    {
        match resolve.resolution {
            Resolution::Cap(Descriptor::None) => Ok(Resolve {
                promise_id: resolve.promise_id,
                resolution: Resolution::Exception(failed(self.alloc, "null capability")?),
            }),
            other => Ok(Resolve {
                promise_id: resolve.promise_id,
                resolution: other,
            }),
        }
    }
}
