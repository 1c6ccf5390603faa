// An included file is read whole.
ghost use Rattle.std.specs.Prelude.{◌≡◌, ◌<◌, ◌≤◌, ℕ, List, Option, Some, length, IsErrOf, IfOk, IfSome};
ghost use Rattle.slon_base.specs.Counts.{Rose};
ghost use Rattle.slon_base.specs.Outside.{top};
ghost use Rattle.slonik_expand.specs.Ends.{Stays};
ghost use Rattle.slonik_expand.specs.Reading.{KeepsOthers, IsWhole, IsFile};

use slon_base::{Files, OutFault, Text};
use slonik_tokens::ParseFault;
use std::alloc::Global;

/// The bytes of the buffer.
const BUFFER_LEN: usize = 4096;

/// The bytes that are left of the file entered last, if they are at most this number.
fn read_entered<F: Files>(alloc: Global, files: &mut F, limit: u64) -> Result<Vec<u8>, ParseFault>
    requires { 0 < length (F.filed files.old).stack }
    ensures files { KeepsOthers (F.filed files.old) (F.filed files.new) }
    ensures cause { IsErrOf result ParseFault.ReadFault → Rose (F.filed files.old).faults (F.filed files.new).faults }
    ensures limit { IfOk result (λ v. length v.items ≤ limit) }
    ensures whole { (bytes : List ℕ) → top (F.filed files.old).stack ≡ Some bytes
        → IsWhole (λ v. v.items) bytes limit result }
{
    let mut buffer = vec![in alloc; 0; BUFFER_LEN]?;
    let mut bytes = Vec::new(alloc);
    let mut room = limit;
    loop {
        let count = files.read(buffer.as_mut_slice())?;
        if count == 0 {
            return Ok(bytes);
        }
        if (count as u64) > room {
            return Err(ParseFault::TooLong);
        }
        room -= count as u64;
        bytes.extend_from_slice(&buffer[..count])?;
    }
}

/// The bytes of the file of this path, if there is one and it is no longer than that.
pub(crate) fn read_file<F: Files>(
    alloc: Global,
    path: &Text,
    files: &mut F,
    limit: u64,
) -> Result<Option<Vec<u8>>, ParseFault>
    ensures files { Stays (F.filed files.old) (F.filed files.new) }
    ensures cause { IsErrOf result ParseFault.ReadFault → Rose (F.filed files.old).faults (F.filed files.new).faults }
    ensures limit { IfOk result (λ found. IfSome found (λ v. length v.items ≤ limit)) }
    ensures file { (names : List ℕ → Option (List ℕ)) → (F.filed files.old).names ≡ Some names
        → IsFile (λ v. v.items) (names path.now) limit result }
{
    if !files.enter(path.as_slice())? {
        return Ok(None);
    }
    let bytes = read_entered(alloc, files, limit);
    files.leave();
    Ok(Some(bytes?))
}
