//! The tokens of a text.

/// A token, lent from its text.
#[derive(Clone, Copy)]
pub(crate) enum Token<'t> {
    /// The name of a field or a value.
    Name(&'t [u8]),
    /// A number without its sign.
    Number(&'t [u8]),
    /// A text, without its quotes.
    Text(&'t [u8]),
    /// Data in hexadecimal, without its quotes.
    Hex(&'t [u8]),
    /// A mark, such as a bracket.
    Mark(u8),
    /// A text that its line doesn't end, or data without an end.
    Open,
    /// The end.
    End,
}

/// What a token is cut by.
#[derive(Clone, Copy)]
enum Class {
    Name,
    Number,
    /// A number of JSON, with its sign.
    Signed,
}

impl Class {
    /// Whether a byte, which stands after another one, goes on with the token.
    fn has(self, before: u8, byte: u8) -> bool {
        match self {
            Class::Name => is_of_name(byte),
            Class::Number => {
                is_of_name(byte) || byte == b'.' || is_sign(byte) && (before | 32) == b'e'
            }
            Class::Signed => is_of_name(byte) || byte == b'.' || is_sign(byte),
        }
    }
}

/// The first token of a text, and what comes after it.
pub(crate) fn first_token(text: &[u8]) -> (Token<'_>, &[u8]) {
    let Some((first, after)) = text.split_first() else {
        return (Token::End, &[]);
    };
    match *first {
        b'"' => quoted(after),
        b'0'..=b'9' => numeral(text),
        byte if is_of_name(byte) => {
            let (name, rest) = cut(text, Class::Name);
            (Token::Name(name), rest)
        }
        byte => (Token::Mark(byte), after),
    }
}

/// The first token of JSON, and what comes after it. A number has its sign.
pub(crate) fn first_json_token(text: &[u8]) -> (Token<'_>, &[u8]) {
    match text {
        [b'-' | b'0'..=b'9', ..] => {
            let (number, rest) = cut(text, Class::Signed);
            (Token::Number(number), rest)
        }
        text => first_token(text),
    }
}

/// A text without the blanks and comments that it begins with.
pub(crate) fn after_blanks(text: &[u8]) -> &[u8] {
    let mut is_comment = false;
    for (place, byte) in text.iter().enumerate() {
        match *byte {
            b'\n' => is_comment = false,
            b'#' => is_comment = true,
            byte if is_comment || is_blank(byte) => {}
            _ => return &text[place..],
        }
    }
    &[]
}

/// Whether a byte is a blank.
pub(crate) fn is_blank(byte: u8) -> bool {
    matches!(byte, 9..=13 | b' ')
}

/// The number, or the data in hexadecimal, that a text begins with.
fn numeral(text: &[u8]) -> (Token<'_>, &[u8]) {
    if let Some(after) = text.strip_prefix(b"0x\"") {
        return hexadecimal(after);
    }
    let class = if text.starts_with(b"0x") {
        Class::Name
    } else {
        Class::Number
    };
    let (number, rest) = cut(text, class);
    (Token::Number(number), rest)
}

/// The data in hexadecimal that stands before a quote.
fn hexadecimal(text: &[u8]) -> (Token<'_>, &[u8]) {
    for (place, byte) in text.iter().enumerate() {
        if *byte == b'"' {
            return (Token::Hex(&text[..place]), behind(&text[place..]));
        }
    }
    (Token::Open, &[])
}

/// The text that stands before a quote.
fn quoted(text: &[u8]) -> (Token<'_>, &[u8]) {
    let mut is_escaped = false;
    for (place, byte) in text.iter().enumerate() {
        match *byte {
            b'\n' => break,
            b'"' if !is_escaped => return (Token::Text(&text[..place]), behind(&text[place..])),
            byte => is_escaped = byte == b'\\' && !is_escaped,
        }
    }
    (Token::Open, &[])
}

/// A text without its first byte.
fn behind(text: &[u8]) -> &[u8] {
    match text.split_first() {
        Some((_, rest)) => rest,
        None => &[],
    }
}

/// The token of a class that a text begins with, and what comes after it.
fn cut(text: &[u8], class: Class) -> (&[u8], &[u8]) {
    let mut before = 0;
    for (place, byte) in text.iter().enumerate() {
        if !class.has(before, *byte) {
            return (&text[..place], &text[place..]);
        }
        before = *byte;
    }
    (text, &[])
}

/// Whether a byte can stand in a name.
fn is_of_name(byte: u8) -> bool {
    byte.is_ascii_alphanumeric() || byte == b'_'
}

/// Whether a byte is a sign.
fn is_sign(byte: u8) -> bool {
    byte == b'+' || byte == b'-'
}
