// What comes out of scripts, and how a file is read.
use crate::served::Served;
use crate::telling::tell_tokens;
use slon_base::Text;
use slonik_expand::expand;
use slonik_tokens::{Sign, Token};
use std::alloc::{AllocError, Global};
use std::test::Fail;
use test_words::{expect, require};

/// Scripts, and what comes out of each over a file `here` whose first read fails.
const SCRIPTS: &[(&str, &str)] = &[
    ("", ""),
    ("a ; b", "a|;|b|"),
    ("DEFINE a b ; @a", "b|"),
    ("define a b c ; x @a y", "x|b|c|y|"),
    ("DEFINE a b ; DEFINE a c ; @a", "c|"),
    ("DEFINE a b ; DEFINE c @a @a ; DEFINE a d ; @c @a", "b|b|d|"),
    ("DEFINE a ; @a x", "x|"),
    (
        "DEFINE a ; DEFINE b @a @a ; DEFINE c @b y @b ; @c x",
        "y|x|",
    ),
    ("DEFINE a b ; DEFINE a @a ; DEFINE c @a ; @c @a", "b|b|"),
    ("DEFINE a @a ; x", "87 a"),
    ("DEFINE a '@b ; @a '@a", "'@b|'@a|"),
    ("DEFINE a b ; @A", "87 A"),
    ("@a DEFINE a b ;", "87 a"),
    ("DEFINE a @b ; c", "87 b"),
    ("x DEFINE a b ;", "x|DEFINE|a|b|;|"),
    ("x ; DEFINE a b ; @a", "x|;|b|"),
    ("DEFINE a b", "DEFINE|a|b|"),
    ("; DEFINE ; a", ";|DEFINE|;|a|"),
    ("DEFINE d DEFINE a b ; @d ; @a", "87 a"),
    ("TRY { DEFINE a b ; }", "TRY|{|DEFINE|a|b|;|}|"),
    ("TRY { x } DEFINE a b ; @a", "TRY|{|x|}|b|"),
    ("x TRY { DEFINE a b ; } @a", "x|TRY|{|}|b|"),
    ("INCLUDE <p ;", "89 p"),
    ("INCLUDE <p", "INCLUDE|<p|"),
    ("INCLUDE ; <p ;", "INCLUDE|;|<p|;|"),
    ("TRY { INCLUDE <p ;", "TRY|{|INCLUDE|<p|;|"),
    ("a ; INCLUDE <here ; b", "the files failed"),
];

/// The file of these scripts.
const HERE: &[(&str, &str)] = &[("here", "a")];

/// A file of five bytes.
const LONG: &[(&str, &str)] = &[("here", "abcde")];

/// The token that is spelled so: `@`, `<` and `'` stand before names, paths and quoted texts.
fn token_of(alloc: Global, spelled: &str) -> Result<Token, AllocError> {
    if let Some(name) = spelled.strip_prefix('@') {
        return Ok(Token::NameUse(Text::from_str(alloc, name)?));
    }
    if let Some(path) = spelled.strip_prefix('<') {
        return Ok(Token::Path(Text::from_str(alloc, path)?));
    }
    if let Some(text) = spelled.strip_prefix('\'') {
        return Ok(Token::Quoted(Text::from_str(alloc, text)?));
    }
    Ok(match spelled {
        ";" => Token::Mark(Sign::Semicolon),
        "{" => Token::Mark(Sign::OpenBrace),
        "}" => Token::Mark(Sign::CloseBrace),
        _ => Token::Word(Text::from_str(alloc, spelled)?),
    })
}

/// The tokens of a script, one behind each space.
fn script_of(alloc: Global, script: &str) -> Result<Vec<Token>, AllocError> {
    let mut tokens = Vec::new(alloc);
    for spelled in script.split_ascii_whitespace() {
        tokens.push(token_of(alloc, spelled)?)?;
    }
    Ok(tokens)
}

/// Writes what comes out of a script over these files with this number of bytes left.
fn tell_expanded(
    line: &mut String,
    alloc: Global,
    script: &str,
    files: &mut Served,
    mut left: u64,
) -> Result<(), Fail> {
    let out = expand(alloc, script_of(alloc, script)?, files, &mut left);
    let told = tell_tokens(line, &out);
    drop(out);
    told
}

/// This comes out of a script.
fn expect_out(
    alloc: Global,
    script: &str,
    files: &mut Served,
    left: u64,
    wanted: &str,
) -> Result<(), Fail> {
    let mut line = String::new(alloc);
    tell_expanded(&mut line, alloc, script, files, left)?;
    expect(script, line.as_str(), wanted)
}

/// This comes out of a script over a file, and the file is left. A read hands over `piece` bytes, and `reads` of them
/// succeed.
fn expect_over(
    rt: &HostRuntime,
    file: &[(&str, &str)],
    piece: usize,
    reads: u64,
    script: &str,
    left: u64,
    wanted: &str,
) -> Result<(), Fail> {
    let mut files = Served::new(file, piece, reads);
    expect_out(rt.alloc(), script, &mut files, left, wanted)?;
    require(files.all_left(), script)
}

#[test]
fn names_are_replaced(rt: HostRuntime) -> Result<(), Fail> {
    for (script, wanted) in SCRIPTS {
        expect_over(&rt, HERE, 1, 0, script, 1000, wanted)?;
    }
    Ok(())
}

/// A script that defines `n0`, and each of the next names by the name before it, which is `last` too, and what stands
/// behind it.
fn chain(rt: &HostRuntime, names: u32, behind: &str, end: &str) -> Result<String, Fail> {
    let mut script = String::from_str(rt.alloc(), "DEFINE n0 x x ; ")?;
    for n in 0..names {
        write!(
            script,
            "DEFINE last @n{n} ; DEFINE n{} @n{n} {behind} ; ",
            n + 1
        )?;
    }
    script.push_str(end)?;
    Ok(script)
}

/// The number of names, what stands behind each, the end of the script, and the first bytes and the number of all
/// bytes that come out.
const CHAINS: &[(u32, &str, &str, usize, &str)] = &[
    (15, "@last", "@n15", 131_072, "x|"),
    (15, "@last", "@n15 y", 2, "96"),
    (15, "@last", "@n14 @n14", 131_072, "x|"),
    (15, "@last", "@n14 @n14 @n0", 2, "96"),
    (15, "@last", "DEFINE n @n15 y ; z", 2, "z|"),
    (15, "@last", "DEFINE n @n15 @n15 ; @n", 2, "96"),
    (70, "@last", "@n70", 2, "96"),
    (70, "@last", "z", 2, "z|"),
    (1000, "y", "@n1000", 2004, "x|x|y|"),
];

/// So many bytes come out of a script, and these are the first.
fn expect_long(rt: &HostRuntime, script: &str, len: usize, front: &str) -> Result<(), Fail> {
    let mut files = Served::new(&[], 1, 0);
    let mut out = String::new(rt.alloc());
    tell_expanded(&mut out, rt.alloc(), script, &mut files, 0)?;
    require(out.len() == len && out.as_str().starts_with(front), script)
}

#[test]
fn definitions_may_grow(rt: HostRuntime) -> Result<(), Fail> {
    for (names, behind, end, len, front) in CHAINS {
        let script = chain(&rt, *names, behind, end)?;
        expect_long(&rt, script.as_str(), *len, front)?;
    }
    Ok(())
}

/// Scripts, how many bytes are left, how many reads succeed, and what comes out.
const INCLUDES: &[(&str, u64, u64, &str)] = &[
    ("INCLUDE <here ;", 5, 100, "abcde|"),
    ("INCLUDE <there ;", 5, 100, "89 there"),
    ("INCLUDE <here ;", 4, 100, "the included files are too long"),
    ("INCLUDE <here ;", 5, 1, "the files failed"),
];

/// How many bytes a read hands over.
const SIZES: &[usize] = &[1, 2, 100];

#[test]
fn files_are_read_whole_and_left(rt: HostRuntime) -> Result<(), Fail> {
    for (script, left, reads, wanted) in INCLUDES {
        for piece in SIZES {
            expect_over(&rt, LONG, *piece, *reads, script, *left, wanted)?;
        }
    }
    Ok(())
}
