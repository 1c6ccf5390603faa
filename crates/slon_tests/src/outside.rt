// Files, outputs and stores through their traits.
ghost use Rattle.std.specs.Prelude.{◌<◌, ◌+◌, ◌≡◌, IfOk, true, length};

use slon_base::{Bytes, Files, OutFault, Sink, Text};
use std::alloc::{AllocError, Global};

/// Files with their names.
pub fn named(alloc: Global, files: &[(&str, &[u8])]) -> Result<Vec<(Text, Bytes)>, AllocError> {
    let mut all = Vec::new(alloc);
    for (name, bytes) in files {
        let name = Text::from_str(alloc, name)?;
        all.push((name, Bytes::from_slice(alloc, bytes)?))?;
    }
    Ok(all)
}

/// How many bytes a read into a buffer of four hands over, and what the buffer holds then, which begins with zeros.
pub type Piece = (usize, &'static [u8; 4]);

/// Whether the reads of the file that was entered last give these pieces.
pub fn reads<F: Files>(files: &mut F, pieces: &[Piece]) -> Result<bool, OutFault>
    requires { 0 < length (F.filed files.old).stack }
    ensures { length (F.filed files.new).stack ≡ length (F.filed files.old).stack }
{
    let mut buffer = [0u8; 4];
    for (count, bytes) in pieces {
        let handed = files.read(&mut buffer)?;
        if handed != *count || buffer != **bytes {
            return Ok(false);
        }
    }
    Ok(true)
}

/// Whether the file of this name is entered, and its reads give these pieces.
pub fn enters<F: Files>(files: &mut F, name: &str, pieces: &[Piece]) -> Result<bool, OutFault>
    ensures { IfOk result (λ found. found ≡ true →
        length (F.filed files.new).stack ≡ 1 + length (F.filed files.old).stack) }
{
    if !files.enter(name.as_bytes())? {
        return Ok(false);
    }
    reads(files, pieces)
}

/// Whether the output answers each of the pieces so.
pub fn answers<S: Sink>(sink: &mut S, pieces: &[(&[u8], Result<(), OutFault>)]) -> bool {
    for (piece, answer) in pieces {
        if sink.write(piece) != *answer {
            return false;
        }
    }
    true
}
