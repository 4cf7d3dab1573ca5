//! Calls, and what they return, as lines with the names of a schema.

use crate::asked::{Asked, Occurrences};
use crate::fault::Stop;
use cp_reading::View;
use cp_rpc::{CallView, MessageIn, MessageView, ReturnView, ReturnedView};
use cp_schema::{MethodNumber, Schema, call_line, return_line};
use std::alloc::Global;

/// By what calls, and what they return, are shown.
#[derive(Drop)]
pub struct Names {
    pub schema: Schema,
    /// The questions of the other direction; with none Returns are shown by numbers.
    pub asked: Option<Asked>,
}

impl Names {
    /// The line of a message whose line by numbers is `plain`, if the schema has names for it.
    pub(crate) fn line(
        &self,
        alloc: Global,
        returns: &mut Occurrences,
        plain: &str,
        message: &MessageView<'_>,
    ) -> Result<Option<String>, Stop> {
        match message {
            MessageIn::Call(call) => self.call(alloc, plain, call),
            MessageIn::Return(answer) => self.returned(alloc, returns, plain, answer),
            _ => Ok(None),
        }
    }

    /// The line of a call.
    fn call(
        &self,
        alloc: Global,
        plain: &str,
        call: &CallView<View<'_>>,
    ) -> Result<Option<String>, Stop> {
        let number = MethodNumber {
            interface: call.interface_id,
            method: call.method_id,
        };
        let params = call.params.content.reborrow();
        Ok(call_line(alloc, &self.schema, number, plain, params)?)
    }

    /// The line of a Return.
    fn returned(
        &self,
        alloc: Global,
        returns: &mut Occurrences,
        plain: &str,
        answer: &ReturnView<View<'_>>,
    ) -> Result<Option<String>, Stop> {
        // A Return has only a question's number, and the calls of its own stream are numbered apart: only a named file says what
        // was asked.
        let Some(asked) = &self.asked else {
            return Ok(None);
        };
        let Some(number) = asked.answered(returns, answer.answer_id)? else {
            return Ok(None);
        };
        let ReturnedView::Results(payload) = &answer.returned else {
            return Ok(None);
        };
        let results = payload.content.reborrow();
        Ok(return_line(alloc, &self.schema, number, plain, results)?)
    }
}
