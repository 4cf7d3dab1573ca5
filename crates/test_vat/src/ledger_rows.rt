//! Exchanges beside what the Ledger says of their messages: each is a run of the machine.

ghost use Rattle.std.specs.Prelude.{◌≡◌, true, false, Some, None};
ghost use Rattle.cp_tables.specs.declared.exchange.Stage.TheVariants as stages;
ghost use Rattle.cp_vat_machine.specs.Run.{Run};
ghost use Rattle.test_vat.specs.LedgerRows as rows;
ghost use Rattle.test_vat.specs.LedgerRows.{exported, imported, asked, answered, called_here, is_delivered, promise_exported};

/// A Return gives back the exports that the params named, where it asks for it.
pub fn params_given_back()
    ensures run { Run None rows.params_given_back }
    ensures named { exported rows.params_named 0 ≡ 2 }
    ensures open { asked rows.params_named 1 ≡ Some stages.Open }
    ensures back { exported rows.params_given_back 0 ≡ 0 }
    ensures returned { asked rows.params_given_back 1 ≡ Some stages.Returned }
{}

/// A Finish gives back the exports that the results named, where it asks for it and they were sent.
pub fn results_given_back()
    ensures run { Run (Some 0) rows.results_given_back }
    ensures named { exported rows.results_named 0 ≡ 2 }
    ensures back { exported rows.results_given_back 0 ≡ 1 }
    ensures gone { answered rows.results_given_back 0 ≡ None }
    ensures other { answered rows.results_given_back 1 ≡ Some stages.Returned }
{}

/// One before the Return gives back nothing.
pub fn finished_before()
    ensures run { Run (Some 0) rows.canceled }
    ensures kept { exported rows.finished_again 0 ≡ 1 }
    ensures finished { answered rows.finished_again 0 ≡ Some stages.Finished }
    ensures still { exported rows.canceled 0 ≡ 1 }
    ensures gone { answered rows.canceled 0 ≡ None }
{}

/// A Resolve that the peer doesn't know gives back what it named, and not the promise.
pub fn resolve_given_back()
    ensures run { Run (Some 0) rows.resolve_given_back }
    ensures named { exported promise_exported 2 ≡ 1 }
    ensures back { exported rows.resolve_given_back 2 ≡ 0 }
    ensures promise { exported rows.resolve_given_back 1 ≡ 1 }
{}

/// What isn't taken in isn't counted: the Return of a finished question, and what isn't supported.
pub fn not_taken_in()
    ensures ignored { Run None rows.return_ignored }
    ensures given_up { imported rows.return_ignored 7 ≡ 0 }
    ensures gone { asked rows.return_ignored 0 ≡ None }
    ensures echoed { Run None rows.call_sent_back }
    ensures unsupported { imported rows.call_sent_back 7 ≡ 0 }
    ensures unanswered { answered rows.call_sent_back 0 ≡ None }
{}

/// An import counts each time that it is taken in, and a Release gives it back.
pub fn import_given_back()
    ensures run { Run None rows.import_given_back }
    ensures taken { imported rows.import_taken 7 ≡ 2 }
    ensures back { imported rows.import_given_back 7 ≡ 0 }
    ensures gone { asked rows.import_given_back 0 ≡ None }
{}

/// A question whose Call isn't sent stands from its call until it has its outcome and was finished.
pub fn local_is_asked()
    ensures run { Run None rows.local_over }
    ensures open { called_here rows.local_asked 0 ≡ Some stages.Open }
    ensures still { called_here rows.local_delivered 0 ≡ Some stages.Open }
    ensures returned { called_here rows.local_settled 0 ≡ Some stages.Returned }
    ensures gone { called_here rows.local_over 0 ≡ None }
{}

/// Finished first, it stands until its call is answered.
pub fn local_is_finished()
    ensures run { Run None rows.finished_over }
    ensures finished { called_here rows.local_finished 0 ≡ Some stages.Finished }
    ensures still { called_here rows.finished_delivered 0 ≡ Some stages.Finished }
    ensures here { is_delivered rows.finished_delivered 0 ≡ true }
    ensures gone { called_here rows.finished_over 0 ≡ None }
{}

/// A call that fails gives its question the exception. A finished one ends unreported: it was never
/// delivered.
pub fn local_fails()
    ensures run { Run None rows.local_failed }
    ensures returned { called_here rows.local_failed 0 ≡ Some stages.Returned }
    ensures ends { Run None rows.finished_failed }
    ensures finished { called_here rows.finished_failed 0 ≡ Some stages.Finished }
    ensures undelivered { is_delivered rows.finished_failed 0 ≡ false }
{}

/// Once its Call is sent it is a question of the wire.
pub fn local_is_sent()
    ensures run { Run None rows.local_sent }
    ensures open { called_here rows.before_import 1 ≡ Some stages.Open }
    ensures unknown { asked rows.before_import 1 ≡ None }
    ensures sent { called_here rows.local_sent 1 ≡ None }
    ensures known { asked rows.local_sent 1 ≡ Some stages.Open }
{}
