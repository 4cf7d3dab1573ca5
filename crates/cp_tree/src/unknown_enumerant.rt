//! Numbers of enums and unions past those that a schema has.

ghost use Rattle.std.specs.Prelude.{◌≡◌, ◌<◌, ◌≤◌, IfSome, IfNone};

use std::marker::Model;

/// The number of an enum's value or a union's member past the last that the schema has, as a newer
/// schema may have. Contracts see it as the number.
#[derive(Clone, Copy, PartialEq, Eq, Debug)]
pub struct UnknownEnumerant<const LAST: u16> {
    number: u16,
}

impl<const LAST: u16> Model for UnknownEnumerant<LAST> {
    ghost use Rattle.std.specs.Prelude.{ℕ, ◌<◌};

    ghost Value = { ℕ };

    ghost view = { λ p. p.number };

    ghost inverse = { λ n. record { number = n } };

    ghost invariant = { λ p. LAST < p.number };
}

impl<const LAST: u16> UnknownEnumerant<LAST> {
    /// The number, if it is past the last.
    pub fn new(number: u16) -> Option<UnknownEnumerant<LAST>>
        ensures past { IfSome result (λ p. p ≡ number) }
        ensures known { IfNone result (number ≤ LAST) }
    {
        if number > LAST {
            Some(UnknownEnumerant::of(number))
        } else {
            None
        }
    }

    /// A number that is known to be past the last.
    pub fn of(number: u16) -> UnknownEnumerant<LAST>
        requires { LAST < number }
        ensures { result ≡ number }
    {
        UnknownEnumerant { number }
    }

    /// The number.
    pub fn number(self) -> u16
        ensures value { result ≡ self.entry }
        ensures past { LAST < self.entry }
    {
        self.number
    }
}
