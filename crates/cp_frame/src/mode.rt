//! The two forms of a stream.

/// The form of the frames of a stream.
#[derive(Clone, Copy, PartialEq, Eq, Debug)]
pub enum Mode {
    /// The segment table and the segments, as they are (encoding specification, "Serialization Over a Stream").
    Plain,
    /// The same words, packed (encoding specification, "Packing").
    Packed,
}
