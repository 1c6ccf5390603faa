// The parts of tables' names.
ghost use Rattle.std.specs.Prelude.{◌≡◌};
ghost use Rattle.std.specs.List.{list_all};
ghost use Rattle.slon_model.specs.Forms as form;

/// The greatest length of a part, in bytes.
const PART_LIMIT: usize = 31;

/// A lower-case letter or `_`.
fn is_first_part_byte(byte: u8) -> bool
    ensures { result ≡ form.is_first_part_byte byte }
{
    byte.is_ascii_lowercase() || byte == b'_'
}

/// A lower-case letter, a digit or `_`.
fn is_part_byte(byte: u8) -> bool
    ensures { result ≡ form.is_part_byte byte }
{
    byte.is_ascii_lowercase() || byte.is_ascii_digit() || byte == b'_'
}

/// Whether these are bytes of a part.
fn are_part_bytes(bytes: &[u8]) -> bool
    ensures { result ≡ list_all form.is_part_byte bytes.now }
{
    bytes.iter().all(|byte| is_part_byte(*byte))
}

/// Whether the word is one part of a table's name: 1 to 31 lower-case letters, digits or `_`, the first no digit.
pub fn is_part(word: &[u8]) -> bool
    ensures { result ≡ form.is_part word.now }
{
    match word.split_first() {
        None => false,
        Some((first, rest)) => {
            is_first_part_byte(*first) && rest.len() < PART_LIMIT && are_part_bytes(rest)
        }
    }
}
