//! Exchanges in order, each a run whose calls leave in the order of their tickets.

ghost use Rattle.std.specs.Prelude.{Some};
ghost use Rattle.cp_vat_machine.specs.InOrder.{RunsInOrder};
ghost use Rattle.test_vat.specs.Rows as rows;
ghost use Rattle.test_vat.specs.OrderRows as order_rows;
ghost use Rattle.test_vat.specs.OrderRows.{IsOrderedUnless, TwoAreNotOne};

/// A Bootstrap's answer is reported once.
pub fn bootstrap_in_order()
    ensures { RunsInOrder (Some 0) rows.bootstrap_answered }
{}

/// A call that waits for an answer hasn't left, and its port waits.
pub fn pipelined_waits_in_order()
    ensures { RunsInOrder (Some 0) rows.pipelined_waits }
{}

/// A call that waited leaves by the route of what the answer gave. Twice, elsewhere or not at all it
/// isn't in order, nor is it where the answer isn't reported.
pub fn pipelined_leaves_in_order()
    ensures in_order { RunsInOrder (Some 0) order_rows.one_in_order }
    ensures once { IsOrderedUnless order_rows.one_in_order order_rows.going_twice }
    ensures by_ports { IsOrderedUnless order_rows.one_in_order order_rows.going_elsewhere }
    ensures none_kept { IsOrderedUnless order_rows.one_in_order order_rows.never_going }
    ensures told { IsOrderedUnless order_rows.one_in_order order_rows.telling_nothing }
{}

/// Two calls that waited at one gate leave in the order of their tickets, and the other way round they
/// aren't in order.
pub fn two_leave_in_order()
    ensures in_order { RunsInOrder (Some 0) order_rows.two_in_order }
    ensures rising { IsOrderedUnless order_rows.two_in_order order_rows.other_way }
{}

/// Two receiverAnswers of one answer that wasn't given aren't taken in as one promise.
pub fn each_has_its_own_promise()
    ensures { TwoAreNotOne }
{}
