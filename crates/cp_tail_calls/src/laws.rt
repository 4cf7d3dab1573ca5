//! What holds of all tail calls.

ghost use Rattle.cp_tail_calls.specs.Answering.{AnsweredOnce, RightResults};
ghost use Rattle.cp_tail_calls.specs.Bridging.{BridgesTurns};
ghost use Rattle.cp_tail_calls.specs.Lending.{TakesBack};
ghost use Rattle.cp_tail_calls.specs.Runs.{PlainTurns};
ghost use Rattle.cp_tail_calls.specs.Serving.{RunsBehind, ServesAlone};

/// Without a call with results to its sender, and without a promise that came to no capability, each message is passed on as it is.
pub fn plain_turns()
    ensures { PlainTurns }
{}

/// A question is answered with the results of the call that it took them of, as the peer would have sent them.
pub fn right_results()
    ensures { RightResults }
{}

/// A question that took results is answered once, or waits.
pub fn answered_once()
    ensures { AnsweredOnce }
{}

/// What results lent of an import is taken off the count that the application gives back, and no more.
pub fn takes_back()
    ensures { TakesBack }
{}

/// What the vat behind tail calls does is a run of it, as ever: each law of a vat's runs holds of it.
pub fn runs_behind()
    ensures { RunsBehind }
{}

/// Where tail calls aren't served, a vat does one step for each event, and what comes of it is what the vat does.
pub fn serves_alone()
    ensures { ServesAlone }
{}

/// Whatever a vat behind tail calls does, what it and its peer say to each other is what turns of tail calls say.
pub fn bridges_turns()
    ensures { BridgesTurns }
{}
