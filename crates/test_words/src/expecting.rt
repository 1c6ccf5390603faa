// What a test says of a text that is another one than it wants.
use std::test::Fail;

/// Fails where the text that came of this is not the one that is wanted.
pub fn expect(of: &str, seen: &str, wanted: &str) -> Result<(), Fail> {
    if seen == wanted {
        return Ok(());
    }
    Err(Fail::new(format_args!("{of:?} gives {seen:?}, not {wanted:?}")))
}

/// Fails where this does not hold.
pub fn require(holds: bool, of: &str) -> Result<(), Fail> {
    if holds { Ok(()) } else { Err(Fail::new(of)) }
}

/// `keep` or `lose`.
pub fn keeping(keep: bool) -> &'static str {
    if keep { "keep" } else { "lose" }
}
