//! The classes of the bytes of a text.
ghost use Rattle.std.specs.Prelude.{◌≡◌};
ghost use Rattle.dl_text.specs.Bytes.{class_of};

/// What a byte can do in a text.
#[derive(Clone, Copy, Debug, PartialEq, Eq)]
pub enum Class {
    /// Above 127, which no text has.
    Foreign,
    LineFeed,
    /// Space, tab or carriage return.
    Blank,
    /// `#`, which begins a comment.
    Hash,
    /// A letter or `_`.
    Letter,
    Digit,
    /// A symbol by itself, or the front of a longer one.
    Mark,
    /// Nothing begins with it.
    Stray,
}

/// The class of a byte.
pub fn class_of(byte: u8) -> Class
    ensures { result ≡ class_of byte }
{
    match byte {
        128.. => Class::Foreign,
        b'\n' => Class::LineFeed,
        b' ' | b'\t' | b'\r' => Class::Blank,
        b'#' => Class::Hash,
        b'a'..=b'z' | b'A'..=b'Z' | b'_' => Class::Letter,
        b'0'..=b'9' => Class::Digit,
        b'{' | b'}' | b'(' | b')' | b',' | b':' | b';' | b'=' => Class::Mark,
        b'.' | b'+' | b'-' | b'*' | b'/' | b'%' | b'<' => Class::Mark,
        _ => Class::Stray,
    }
}
