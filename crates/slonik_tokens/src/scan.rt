// Classes of bytes, and how far they run from the front of a text.
ghost use Rattle.std.specs.Prelude.{◌≡◌, ◌≤◌, length};
ghost use Rattle.std.specs.Char.{is_ascii_digit};
ghost use Rattle.std.specs.List.{prefix_len};
ghost use Rattle.std.specs.Str.{is_utf8};
ghost use Rattle.slonik_tokens.specs.Spelling as spelled;
ghost use Rattle.slonik_tokens.specs.Cut as cut;

use std::str;

/// A space, a tab, a carriage return or the end of a line.
fn is_separator(byte: u8) -> bool
    ensures { result ≡ spelled.is_separator byte }
{
    byte == b' ' || byte == b'\t' || byte == b'\r' || byte == b'\n'
}

/// A letter or `_`.
pub(crate) fn is_word_start(byte: u8) -> bool
    ensures { result ≡ spelled.is_word_start byte }
{
    byte.is_ascii_alphabetic() || byte == b'_'
}

/// A letter, a digit or `_`.
fn is_word_byte(byte: u8) -> bool
    ensures { result ≡ spelled.is_word_byte byte }
{
    byte.is_ascii_alphanumeric() || byte == b'_'
}

/// How many bytes at the front go on with a word.
pub(crate) fn word_len(bytes: &[u8]) -> usize
    ensures run { result ≡ prefix_len spelled.is_word_byte bytes.now }
    ensures within { result ≤ length bytes.now }
{
    let mut len = 0;
    for byte in bytes {
        if !is_word_byte(*byte) {
            return len;
        }
        len += 1;
    }
    len
}

/// How many digits stand at the front.
pub(crate) fn digits_len(bytes: &[u8]) -> usize
    ensures run { result ≡ prefix_len is_ascii_digit bytes.now }
    ensures within { result ≤ length bytes.now }
{
    let mut len = 0;
    for byte in bytes {
        if !byte.is_ascii_digit() {
            return len;
        }
        len += 1;
    }
    len
}

/// How many bytes stand before the end of the line.
fn line_len(bytes: &[u8]) -> usize
    ensures run { result ≡ prefix_len spelled.is_line_byte bytes.now }
    ensures within { result ≤ length bytes.now }
{
    let mut len = 0;
    for byte in bytes {
        if *byte == b'\n' {
            return len;
        }
        len += 1;
    }
    len
}

/// How many bytes stand before the first `>` or the end of the line.
pub(crate) fn path_len(bytes: &[u8]) -> usize
    ensures run { result ≡ prefix_len spelled.is_path_byte bytes.now }
    ensures within { result ≤ length bytes.now }
{
    let mut len = 0;
    for byte in bytes {
        if *byte == b'\n' || *byte == b'>' {
            return len;
        }
        len += 1;
    }
    len
}

/// Whether the bytes are UTF-8.
#[tactic(auto, using(crate::proofs::Texts::no_text, crate::proofs::Texts::is_text))]
fn is_text(bytes: &[u8]) -> bool
    ensures { result ≡ is_utf8 bytes.now }
{
    match str::from_utf8(bytes) {
        Ok(_) => true,
        Err(_) => false,
    }
}

/// The length of the comment whose `#` stands before these bytes, or 0 where they are not UTF-8 up to the end of the
/// line.
fn comment_len(bytes: &[u8]) -> usize
    ensures { result ≡ cut.comment_len bytes.now }
{
    let len = line_len(bytes);
    if is_text(bytes.split_at(len).0) {
        len + 1
    } else {
        0
    }
}

/// The length of the separator or comment at the front, or 0 where none is there.
#[tactic(auto, unfolding(crate::specs::Cut::blank_len))]
pub(crate) fn blank_len(bytes: &[u8]) -> usize
    ensures { result ≡ cut.blank_len bytes.now }
{
    match bytes.split_first() {
        None => 0,
        Some((first, _)) if is_separator(*first) => 1,
        Some((first, rest)) if *first == b'#' => comment_len(rest),
        Some(_) => 0,
    }
}
