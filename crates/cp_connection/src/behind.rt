//! The vat behind tail calls.

ghost use Rattle.cp_vat_machine.specs.Asked.{stage_of};
ghost use Rattle.cp_vat_machine.specs.Supported.{is_supported_to_caller};

use cp_reading::View;
use cp_rpc::CallView;
use cp_tables::Stage;
use cp_tail_calls::OrdinaryVat;
use cp_vat::{Vat, is_supported_call};

/// A connection's vat, as tail calls see it.
#[derive(Clone, Copy)]
pub(crate) struct Behind<'a> {
    pub vat: &'a Vat,
}

impl<'a> OrdinaryVat for Behind<'a> {
    ghost acts_on = { λ b call. is_supported_to_caller call };

    ghost stage = { λ b question. stage_of b.vat.now question };

    fn acts_on(&self, call: &CallView<View>) -> bool {
        is_supported_call(call)
    }

    fn stage_of(&self, question: u32) -> Option<Stage> {
        self.vat.stage_of(question)
    }
}
