// The reader over a file that comes in pieces.
ghost use Rattle.std.specs.Prelude.{◌<◌, length};

use session_text::{LineReader, NextLine, ReadStop};
use slon_base::{Files, OutFault};
use std::test::Fail;
use test_words::expect;

/// One file whose bytes come in pieces of a size, and whose read fails at a place.
#[derive(Drop)]
struct Pieces<'a> {
    bytes: &'a [u8],
    piece: usize,
    fails_at: usize,
    entered: bool,
    at: usize,
    faults: u64,
}

impl Files for Pieces<'_> {
    ghost use Rattle.std.specs.Prelude.{if◌then◌else◌, None, [], ◌∷◌};

    ghost filed = { λ f. record {
      names = None;
      stack = (if f.entered then None ∷ [] else []);
      unread = None;
      faults = f.faults;
    } };

    fn enter(&mut self, _name: &[u8]) -> Result<bool, OutFault> {
        Ok(false)
    }

    fn read(&mut self, into: &mut [u8]) -> Result<usize, OutFault> {
        if self.at >= self.fails_at {
            self.faults = self.faults.saturating_add(1);
            return Err(OutFault::Failed);
        }
        let rest = self.bytes.get(self.at..).unwrap_or(&[]);
        let count = rest.len().min(self.piece).min(into.len());
        into[..count].copy_from_slice(&rest[..count]);
        self.at = self.at.saturating_add(count);
        Ok(count)
    }

    fn leave(&mut self) {
        self.entered = false;
    }

    fn faults(&self) -> u64 {
        self.faults
    }
}

/// Writes a line in brackets, `*` for one that is too long, `.` for the end of the file, or why reading stopped.
/// Answers whether it goes on.
fn tell(seen: &mut String, next: Result<NextLine, ReadStop>, line: &[u8]) -> Result<bool, Fail> {
    match next {
        Ok(NextLine::Line) => write!(seen, "[{}]", str::from_utf8(line)?)?,
        Ok(NextLine::TooLong) => seen.push('*')?,
        Ok(NextLine::End) => seen.push('.')?,
        Err(stop) => write!(seen, "{stop}")?,
    }
    Ok(matches!(next, Ok(NextLine::Line | NextLine::TooLong)))
}

/// The lines of the file, and how the reading ended.
fn lines_of<F: Files>(rt: &HostRuntime, files: &mut F) -> Result<String, Fail>
    requires { 0 < length (F.filed files.old).stack }
{
    let mut reader = LineReader::new(rt.alloc())?;
    let mut line = Vec::new(rt.alloc());
    let mut seen = String::new(rt.alloc());
    for _ in 0..3000 {
        let next = reader.next_line(files, &mut line);
        if !tell(&mut seen, next, line.as_slice())? {
            break;
        }
    }
    Ok(seen)
}

/// The same of these bytes.
fn read_all(rt: &HostRuntime, bytes: &[u8], piece: usize, fails_at: usize) -> Result<String, Fail> {
    let mut files = Pieces {
        bytes,
        piece,
        fails_at,
        entered: true,
        at: 0,
        faults: 0,
    };
    lines_of(rt, &mut files)
}

/// The file of these bytes has these lines.
fn expect_lines(
    rt: &HostRuntime,
    text: &str,
    piece: usize,
    fails_at: usize,
    wanted: &str,
) -> Result<(), Fail> {
    let seen = read_all(rt, text.as_bytes(), piece, fails_at)?;
    expect(text, seen.as_str(), wanted)
}

/// Files and their lines.
const FILES: &[(&str, &str)] = &[
    ("", "."),
    ("\n", "[]."),
    ("a", "[a]."),
    ("a\n", "[a]."),
    ("a\nbc", "[a][bc]."),
    ("a\r\nbc\r", "[a][bc\r]."),
    ("a\r\r\n\n\nb\n", "[a\r][][][b]."),
    ("\r\n\r\n", "[][]."),
];

/// How many bytes a read hands over.
const SIZES: &[usize] = &[1, 2, 3, 100];

#[test]
fn lines_come_whole(rt: HostRuntime) -> Result<(), Fail> {
    for (text, seen) in FILES {
        for piece in SIZES {
            expect_lines(&rt, text, *piece, 1000, seen)?;
        }
    }
    Ok(())
}

/// What comes of a line of this length and what follows it.
fn read_long(rt: &HostRuntime, len: usize, end: &str) -> Result<String, Fail> {
    let mut bytes = vec![in rt.alloc(); b'a'; len]?;
    bytes.extend_from_slice(end.as_bytes())?;
    let seen = read_all(rt, bytes.as_slice(), 5000, usize::MAX)?;
    Ok(seen.replace(rt.alloc(), "a", "")?)
}

/// Lengths of a line, what follows it, and what is seen.
const LONG_LINES: &[(usize, &str, &str)] = &[
    (8192, "", "[]."),
    (8192, "\n", "[]."),
    (8192, "\r\nb", "[][b]."),
    (8193, "", "*."),
    (8192, "\r", "*."),
    (8193, "\nb", "*[b]."),
    (8192, "\r\r\nb", "*[b]."),
    (8193, "\r\nb", "*[b]."),
    (8194, "\r\nb", "*[b]."),
    (20000, "\nb\n", "*[b]."),
    (16_777_216, "", "*."),
    (16_777_217, "", "the session is too long"),
];

#[test]
fn long_lines_are_told_apart(rt: HostRuntime) -> Result<(), Fail> {
    for (len, end, wanted) in LONG_LINES {
        let seen = read_long(&rt, *len, end)?;
        assert!(rt; seen.as_str() == *wanted, "{len} and {end:?}");
    }
    Ok(())
}

/// The bytes at which a read fails, and what is seen then.
const FAILING: &[(usize, &str)] = &[
    (0, "the file failed"),
    (2, "[a]the file failed"),
    (3, "[a]the file failed"),
    (5, "[a][bc]the file failed"),
    (6, "[a][bc]the file failed"),
    (7, "[a][bc][d]."),
];

#[test]
fn a_failing_read_is_told(rt: HostRuntime) -> Result<(), Fail> {
    for (fails_at, seen) in FAILING {
        expect_lines(&rt, "a\nbc\nd", 1, *fails_at, seen)?;
    }
    Ok(())
}
