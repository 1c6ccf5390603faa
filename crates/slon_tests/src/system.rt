// The files, the output and the stores of the system, used through their traits.
use crate::outside::{Piece, answers, enters, reads};
use slon_base::{Files, KeepFault, Keeper, OutFault, Shelf, Sink};
use slon_system::{RealFiles, RealShelf, RealSink};
use std::io::{BufWriter, Error, ErrorKind, Write};
use std::test::Fail;
use std::{env, fs, io, process};

/// A path of this process alone.
fn own_path(rt: &HostRuntime, name: &str) -> io::Result<String> {
    let folder = env::temp_dir(rt)?;
    let number = process::id(rt.process());
    Ok(format!(in rt.alloc(); "{}/slonrun-{number}-{name}", folder.as_str())?)
}

const FRONT: &[Piece] = &[(4, b"abcd")];

const REST: &[Piece] = &[(1, b"e\0\0\0"), (0, b"e\0\0\0")];

/// Whether a file is entered inside itself and left, and read to its end.
fn enters_twice<F: Files>(files: &mut F, name: &str) -> Result<bool, OutFault> {
    if !enters(files, name, FRONT)? || !files.enter(name.as_bytes())? {
        return Ok(false);
    }
    let mut short = [0u8; 2];
    let handed = files.read(&mut short)?;
    files.leave();
    Ok(handed == 2 && reads(files, REST)?)
}

/// Whether a file is there only once it is written, and is read.
fn reads_written<F: Files>(rt: &HostRuntime, files: &mut F, path: &str) -> Result<bool, Fail> {
    let before = files.enter(path.as_bytes())?;
    fs::write(rt, path, "abcde")?;
    let read = enters_twice(files, path)?;
    fs::remove_file(rt, path)?;
    Ok(!before && read && files.faults() == 0)
}

#[test]
fn reads_files(rt: HostRuntime) -> Result<(), Fail> {
    let path = own_path(&rt, "files")?;
    let mut files = RealFiles::new(rt.alloc(), &rt);
    assert!(rt; reads_written(&rt, &mut files, path.as_str())?);
    Ok(())
}

/// Whether a name that is no text is not entered, and a folder is entered and not read.
fn fails_twice<F: Files>(files: &mut F) -> Result<bool, OutFault> {
    let mut buffer = [0u8; 4];
    let unnamed = files.enter(b"\xff") == Err(OutFault::Failed);
    Ok(unnamed && files.enter(b"/")? && files.read(&mut buffer) == Err(OutFault::Failed))
}

#[test]
fn tells_what_fails(rt: HostRuntime) -> Result<(), Fail> {
    let mut files = RealFiles::new(rt.alloc(), &rt);
    assert!(rt; fails_twice(&mut files)?);
    assert!(rt; files.faults() == 2);
    Ok(())
}

/// Takes three bytes a call, is interrupted at each second call, and takes nothing once it is full.
#[derive(Drop)]
struct Narrow<'a> {
    room: &'a mut [u8],
    taken: usize,
    calls: u64,
}

impl Write for Narrow<'_> {
    fn write(&mut self, piece: &[u8]) -> io::Result<usize> {
        self.calls = self.calls.saturating_add(1);
        if self.calls % 2 == 0 {
            return Err(Error::from(ErrorKind::Interrupted));
        }
        let room = self.room.get_mut(self.taken..).unwrap_or(&mut []);
        let count = piece.len().min(3).min(room.len());
        room[..count].copy_from_slice(&piece[..count]);
        self.taken = self.taken.saturating_add(count);
        Ok(count)
    }

    fn flush(&mut self) -> io::Result<()> {
        Ok(())
    }
}

const PIECES: &[(&[u8], Result<(), OutFault>)] = &[
    (b"ok xid\n", Ok(())),
    (b"", Ok(())),
    (b"ok\n", Err(OutFault::Failed)),
];

#[test]
fn writes_pieces(rt: HostRuntime) -> Result<(), Fail> {
    let mut room = [0u8; 9];
    let mut sink = RealSink::new(Narrow {
        room: &mut room,
        taken: 0,
        calls: 0,
    });
    assert!(rt; answers(&mut sink, PIECES));
    assert!(rt; sink.faults() == 1);
    drop(sink);
    assert!(rt; room.as_slice() == b"ok xid\nok".as_slice());
    Ok(())
}

#[test]
fn holds_back_pieces(rt: HostRuntime) -> Result<(), Fail> {
    let mut room = [0u8; 9];
    let narrow = Narrow {
        room: &mut room,
        taken: 0,
        calls: 0,
    };
    let mut sink = RealSink::new(BufWriter::with_capacity(rt.alloc(), 16, narrow)?);
    assert!(rt; answers(&mut sink, &[(b"ok xid\n", Ok(()))]));
    assert!(rt; sink.flush() == Ok(()));
    assert!(rt; answers(&mut sink, &[(b"ok\n", Ok(()))]));
    assert!(rt; sink.faults() == 0);
    assert!(rt; sink.flush() == Err(OutFault::Failed));
    assert!(rt; sink.faults() == 1);
    drop(sink);
    assert!(rt; room.as_slice() == b"ok xid\nok".as_slice());
    Ok(())
}

#[test]
fn writes_a_file(rt: HostRuntime) -> Result<(), Fail> {
    let path = own_path(&rt, "sink")?;
    let mut sink = RealSink::new(fs::create(&rt, path.as_str())?);
    assert!(rt; answers(&mut sink, &[(b"one\n", Ok(())), (b"two\n", Ok(()))]));
    let written = fs::read(&rt, path.as_str())?;
    assert!(rt; written.as_slice() == b"one\ntwo\n".as_slice());
    fs::remove_file(&rt, path.as_str())?;
    Ok(())
}

/// Whether a pair is put and counted.
fn keeps<K: Keeper>(keeper: &mut K) -> Result<bool, KeepFault> {
    keeper.rollback()?;
    keeper.begin()?;
    keeper.put(7, b"key", b"value")?;
    keeper.commit()?;
    Ok(keeper.count(7)? == 1 && keeper.faults() == 0)
}

#[test]
fn gives_stores(rt: HostRuntime) -> Result<(), Fail> {
    let mut shelf = RealShelf::new(rt.alloc());
    let mut first = shelf.give(None, 0)?;
    let mut second = shelf.give(None, 1)?;
    assert!(rt; keeps(&mut first)?);
    assert!(rt; second.count(7)? == 0);
    assert!(rt; shelf.faults() == 0);
    Ok(())
}
