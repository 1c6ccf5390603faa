// The text of a script is read.
ghost use Rattle.std.specs.Prelude.{◌≡◌, ℕ, List, Option, Some, Err, IsErrOf};
ghost use Rattle.slon_base.specs.Counts.{Rose};
ghost use Rattle.slonik_expand.specs.Ends.{Stays};
ghost use Rattle.session_reader.specs.Sessions.{block_of};
ghost use Rattle.session_reader.specs.Fetching.{IsBlock, parsed_as};

use crate::ReadFault;
use slon_base::Files;
use slon_model::Reading;
use slonik_parse::{ParseFault, Script, parse, tokens};
use std::alloc::Global;

/// What a text is read as that was not read as a script.
fn refused(fault: ParseFault) -> Result<Reading, ReadFault>
    ensures { result ≡ parsed_as (Err fault) }
{
    match fault {
        ParseFault::Refused(refusal) => Ok(Reading::Wrong(refusal)),
        ParseFault::ReadFault => Err(ReadFault::Failed),
        ParseFault::TooLong => Err(ReadFault::PastLimit),
        ParseFault::NoMemory => Err(ReadFault::NoMemory),
    }
}

/// What a text is read as.
fn outcome(parsed: Result<Script, ParseFault>) -> Result<Reading, ReadFault>
    ensures { result ≡ parsed_as parsed }
{
    match parsed {
        Ok(script) => Ok(Reading::Read(script)),
        Err(fault) => refused(fault),
    }
}

/// Reads the text of a script. `left` is how many bytes its included files may hold, and then how many are left.
pub(crate) fn read_text_of<F: Files>(
    alloc: Global,
    text: &[u8],
    files: &mut F,
    left: &mut u64,
) -> Result<Reading, ReadFault>
    ensures files { Stays (F.filed files.old) (F.filed files.new) }
    ensures failed { IsErrOf result ReadFault.Failed → Rose (F.filed files.old).faults (F.filed files.new).faults }
    ensures exact { (names : List ℕ → Option (List ℕ)) → (F.filed files.old).names ≡ Some names
        → IsBlock (block_of names left.old text.now) result left.new }
{
    match tokens(alloc, text) {
        Ok(tokens) => outcome(parse(alloc, tokens, files, left)),
        Err(fault) => refused(fault),
    }
}
