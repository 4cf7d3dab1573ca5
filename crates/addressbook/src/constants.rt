//! `constants` of addressbook.capnp, made by capnpc_rattle.

/// How many people a book may have.
pub const LARGEST: u16 = 500;
