//! Streams that aren't what they are read as.

use cp_frame::Mode;

/// Whether a stream that is read in this form, and that begins with these bytes, seems to have the other one.
pub(crate) fn is_other_form(mode: Mode, bytes: &[u8]) -> bool {
    match mode {
        // The header of a frame with one segment of less than 65,536 words, packed: the tag, and the size.
        Mode::Plain => matches!(bytes, [0x10 | 0x30, size, ..] if *size != 0),
        // The same header, as it is.
        Mode::Packed => matches!(bytes, [0, 0, 0, 0, size, _, 0, 0, ..] if *size != 0),
    }
}

/// What may be wrong with a peer whose bytes, which aren't frames of this form, begin so; `None` where that isn't known.
pub fn peer_hint(mode: Mode, bytes: &[u8]) -> Option<&'static str> {
    match bytes {
        [b'H', b'T', b'T', b'P', b'/', ..] => Some("the peer speaks HTTP, and not Cap'n Proto"),
        [b'S', b'S', b'H', b'-', ..] => Some("the peer speaks SSH, and not Cap'n Proto"),
        // An alert or a handshake, and the version.
        [0x15 | 0x16, 3, 0..=4, ..] => Some("the peer speaks TLS, and not Cap'n Proto"),
        [first, second, third, fourth, ..]
            if is_text(*first) && is_text(*second) && is_text(*third) && is_text(*fourth) => {
            Some("the peer speaks a protocol of text, and not Cap'n Proto")
        }
        bytes if is_other_form(mode, bytes) => match mode {
            Mode::Plain => Some("the peer's frames seem to be packed: give --packed"),
            Mode::Packed => Some("the peer's frames don't seem to be packed: leave out --packed"),
        },
        _ => None,
    }
}

/// Whether a byte can stand in a line of text.
fn is_text(byte: u8) -> bool {
    byte.is_ascii_graphic() || byte == b' '
}
