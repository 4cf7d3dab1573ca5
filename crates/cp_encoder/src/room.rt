//! How much deeper a text may nest.

/// The deepest that structs and lists may lie within one another, as messages are read by default.
const MOST_BODIES: u32 = 64;

/// The deepest that groups may lie within one another.
const MOST_GROUPS: u32 = 64;

/// How many more structs and lists may lie within one another, and how many groups in each.
#[derive(Clone, Copy)]
pub(crate) struct Room {
    bodies: u32,
    groups: u32,
}

impl Room {
    ghost use Rattle.std.specs.Prelude.{◌≡◌, ◌<◌, ◌≤◌, IfSome};

    /// The room in the struct that a message is.
    pub(crate) fn in_root() -> Room {
        Room {
            bodies: MOST_BODIES - 1,
            groups: MOST_GROUPS,
        }
    }

    /// The room in a struct or list that lies here, if one may.
    pub(crate) fn inside(self) -> Option<Room>
        ensures bodies { IfSome result (λ r. r.bodies < self.bodies) }
        ensures groups { IfSome result (λ r. r.groups ≤ 64) }
    {
        if self.bodies == 0 {
            return None;
        }
        Some(Room {
            bodies: self.bodies - 1,
            groups: MOST_GROUPS,
        })
    }

    /// The room in a group that lies here, if one may.
    pub(crate) fn in_group(self) -> Option<Room>
        ensures bodies { IfSome result (λ r. r.bodies ≡ self.bodies) }
        ensures groups { IfSome result (λ r. r.groups < self.groups) }
    {
        if self.groups == 0 {
            return None;
        }
        Some(Room {
            bodies: self.bodies,
            groups: self.groups - 1,
        })
    }
}
