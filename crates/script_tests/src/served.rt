// Files that are given with their names.
use slon_base::{Files, OutFault};

/// Files of which one is entered at a time. A read hands over at most `piece` bytes, and only the first `reads` reads
/// succeed.
#[derive(Drop)]
pub struct Served<'a> {
    files: &'a [(&'a str, &'a str)],
    piece: usize,
    reads: u64,
    entered: Option<&'a [u8]>,
    faults: u64,
}

impl<'a> Served<'a> {
    /// These files, with none entered.
    pub fn new(files: &'a [(&'a str, &'a str)], piece: usize, reads: u64) -> Served<'a> {
        Served {
            files,
            piece,
            reads,
            entered: None,
            faults: 0,
        }
    }

    /// Whether each file that was entered was left.
    pub fn all_left(&self) -> bool {
        self.entered.is_none()
    }
}

/// What the file of a name holds.
fn text_of<'a>(files: &[(&'a str, &'a str)], name: &[u8]) -> Option<&'a [u8]> {
    for (path, text) in files {
        if path.as_bytes() == name {
            return Some(text.as_bytes());
        }
    }
    None
}

impl Files for Served<'_> {
    ghost use Rattle.std.specs.Prelude.{if◌then◌else◌, None, [], ◌∷◌};
    ghost use Rattle.std.specs.Option.{is_some};

    ghost filed = { λ f. record {
      names = None;
      stack = (if is_some f.entered then None ∷ [] else []);
      unread = None;
      faults = f.faults;
    } };

    fn enter(&mut self, name: &[u8]) -> Result<bool, OutFault> {
        if self.entered.is_some() {
            return Ok(false);
        }
        self.entered = text_of(self.files, name);
        Ok(self.entered.is_some())
    }

    fn read(&mut self, into: &mut [u8]) -> Result<usize, OutFault> {
        if self.reads == 0 {
            self.faults = self.faults.saturating_add(1);
            return Err(OutFault::Failed);
        }
        self.reads -= 1;
        let rest = self.entered.unwrap_or(&[]);
        let count = rest.len().min(self.piece).min(into.len());
        into[..count].copy_from_slice(&rest[..count]);
        self.entered = Some(&rest[count..]);
        Ok(count)
    }

    fn leave(&mut self) {
        self.entered = None;
    }

    fn faults(&self) -> u64 {
        self.faults
    }
}
