// The words of the command line.
use slon_base::{Text, TextList};
use std::alloc::{AllocError, Global};
use std::io::ErrorKind;
use std::rt::{Env, Files};
use std::{env, fs};

/// How many bytes of replies are held back before they are written.
const HELD_BACK: usize = 8192;

/// The words behind the program's name. A command line that is not text counts as one with no words.
pub(crate) fn given<R: Env + AllocGlobal>(rt: &R) -> Result<TextList, AllocError> {
    let mut words = TextList::new(rt.alloc());
    match env::args(rt) {
        Ok(args) => {
            for word in args.skip(1) {
                words.push(Text::from_str(rt.alloc(), word.as_str())?)?;
            }
            Ok(words)
        }
        Err(fault) if fault.kind() == ErrorKind::OutOfMemory => Err(AllocError),
        Err(_) => Ok(words),
    }
}

/// How many bytes of replies may be held back: `HELD_BACK` where the session is an ordinary file, and none where it is
/// another one, as a pipe or a terminal, since somebody may write it who waits for each reply.
pub(crate) fn held_back<R: Files>(files: &R, words: &[Text]) -> usize {
    match words {
        [name] => match fs::metadata(files, name.as_str()) {
            Ok(found) if found.is_file() => HELD_BACK,
            _ => 0,
        },
        _ => 0,
    }
}
