// The forms of names, tables, values and numbers in a line.
ghost use Rattle.std.specs.Prelude.{◌≡◌, ◌==◌, ◌<◌, ◌^◌, Bool, true, false};
ghost use Rattle.std.specs.Char.{is_ascii_digit};
ghost use Rattle.std.specs.List.{list_all, position};
ghost use Rattle.slon_model.specs.Forms as form;

use slon_model::is_part;

/// The greatest length of a name, in bytes.
const NAME_LIMIT: usize = 31;

/// The greatest length of a value, in bytes.
const VALUE_LIMIT: usize = 64;

/// A letter, a digit, `_`, `-` or `.`.
fn is_name_byte(byte: u8) -> bool
    ensures { result ≡ form.is_name_byte byte }
{
    byte.is_ascii_alphanumeric() || byte == b'_' || byte == b'-' || byte == b'.'
}

/// Whether these are bytes of a name.
fn are_name_bytes(bytes: &[u8]) -> bool
    ensures { result ≡ list_all form.is_name_byte bytes.now }
{
    bytes.iter().all(|byte| is_name_byte(*byte))
}

/// Whether the word is a name of a database or a transaction.
pub fn is_name(word: &[u8]) -> bool
    ensures { result ≡ form.is_name word.now }
{
    !word.is_empty() && word.len() <= NAME_LIMIT && are_name_bytes(word)
}

/// Where the first `.` stands.
fn dot_at(word: &[u8]) -> Option<usize>
    ensures { result ≡ position (λ c. c == 46) word.now }
{
    word.iter().position(|byte| *byte == b'.')
}

/// Whether the word is a table's name: two parts joined by `.`.
pub fn is_table_name(word: &[u8]) -> bool
    ensures { result ≡ form.is_table_name word.now }
{
    match dot_at(word) {
        None => false,
        Some(dot) => is_part(&word[..dot]) && is_part(&word[dot + 1..]),
    }
}

/// A letter, a digit or one of `_ . - + / : @`.
fn is_value_byte(byte: u8) -> bool
    ensures { result ≡ form.is_value_byte byte }
{
    byte.is_ascii_alphanumeric()
        || byte == b'_'
        || byte == b'.'
        || byte == b'-'
        || byte == b'+'
        || byte == b'/'
        || byte == b':'
        || byte == b'@'
}

/// Whether these are bytes of a value.
fn are_value_bytes(bytes: &[u8]) -> bool
    ensures { result ≡ list_all form.is_value_byte bytes.now }
{
    bytes.iter().all(|byte| is_value_byte(*byte))
}

/// Whether the word is a value of a column.
pub fn is_value(word: &[u8]) -> bool
    ensures { result ≡ form.is_value word.now }
{
    !word.is_empty() && word.len() <= VALUE_LIMIT && are_value_bytes(word)
}

/// Whether these are digits.
fn are_digits(bytes: &[u8]) -> bool
    ensures { result ≡ list_all is_ascii_digit bytes.now }
{
    bytes.iter().all(|byte| byte.is_ascii_digit())
}

/// Whether the word is digits alone, with no 0 before others.
pub fn is_plain_number(word: &[u8]) -> bool
    ensures { result ≡ form.is_plain_number word.now }
{
    match word.split_first() {
        None => false,
        Some((first, rest)) => {
            first.is_ascii_digit() && (rest.is_empty() || *first != b'0' && are_digits(rest))
        }
    }
}
