//! Recordings of connections: what went through each and when, written, read back and told.
//!
//! The recording of a connection is a folder with three files. `client.bin` has the frames of the end that connected, as they went
//! on, plain or packed, and `server.bin` those of the other end. `times` has lines:
//!
//! ```text
//! client plain server packed began 1764563678123456
//! > 0 48
//! < 812 96
//! end 5012000
//! ```
//!
//! The first line has the form of each stream, and when the connection came, in microseconds since 1970. `> TIME END` says that all
//! before byte END of `client.bin` had gone on by TIME, in microseconds since the connection came, and `<` the same of
//! `server.bin`. A line comes after its bytes, and ends at a frame, so a reader takes no byte after the last line's END: where a disk was
//! full, these are a part of a frame. `end TIME` says when the connection ended. Without it the recording ended before.
#![tactic(auto)]

mod ids;
mod names;
mod picture;
mod recorder;
mod session;
mod side;
mod teller;
mod times;
mod traffic;

pub use picture::Picture;
pub use recorder::{RecordFault, Recorder};
pub use session::{Ending, Hears, Moment, Recording, SessionFault};
pub use side::Side;
pub use teller::Teller;
pub use times::TimesLine;
pub use traffic::{CapSource, EndState, Holding, Question, Traffic};
