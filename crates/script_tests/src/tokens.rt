// Texts and what they are cut into.
use crate::telling::tell_tokens;
use slonik_tokens::tokens;
use std::alloc::Global;
use std::test::Fail;
use test_words::expect;

/// Texts, and their tokens or the refusal with the line where the text begins none.
const TEXTS: &[(&[u8], &str)] = &[
    (b"", ""),
    (b"a_1 _B2", "a_1|_B2|"),
    (b"12 -7\t12abc", "12|-7|12|abc|"),
    (b"'a''b' '' '#'", "'a'b|'|'#|"),
    (b";,=(){}", ";|,|=|(|)|{|}|"),
    (b"@name_2;@a", "@name_2|;|@a|"),
    (b"INCLUDE <a b>x", "INCLUDE|<a b|x|"),
    (b"include # c\n<f#1>", "include|<f#1|"),
    (b"a # it's\r\n\tb", "a|b|"),
    (b"'\xc3\xa9' # \xc3\xa9", "'\u{e9}|"),
    (b"a\n'b\nc'", "80 2"),
    (b"'a''", "80 1"),
    (b"\n-", "80 2"),
    (b"<f>", "80 1"),
    (b"include; <f>", "80 1"),
    (b"include <f\n>", "80 1"),
    (b"@1", "80 1"),
    (b"'\xff'", "80 1"),
    (b"# a\r\n# \xff", "80 2"),
    (b"a\n\n\xff", "80 3"),
];

/// Writes what a text is cut into.
fn tell_text(line: &mut String, alloc: Global, text: &[u8]) -> Result<(), Fail> {
    let read = tokens(alloc, text);
    let told = tell_tokens(line, &read);
    drop(read);
    told
}

/// A text is cut into these tokens.
fn expect_tokens(alloc: Global, text: &[u8], wanted: &str) -> Result<(), Fail> {
    let mut line = String::new(alloc);
    tell_text(&mut line, alloc, text)?;
    expect("a text", line.as_str(), wanted)
}

#[test]
fn texts_are_cut_or_refused(rt: HostRuntime) -> Result<(), Fail> {
    for (text, wanted) in TEXTS {
        expect_tokens(rt.alloc(), text, wanted)?;
    }
    Ok(())
}
