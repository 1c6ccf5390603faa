// The tokens of a script, with names replaced and files included.
ghost use Rattle.std.specs.Prelude.{◌≡◌, ℕ, List, Option, Some, IsErrOf};
ghost use Rattle.slon_base.specs.Counts.{Rose};
ghost use Rattle.slonik_expand.specs.Expansion.{Making, Ending, include_file, expand_at, expansion_of};
ghost use Rattle.slonik_expand.specs.Ends.{Ends, Stays};
ghost use Rattle.slonik_expand.specs.Steps.{making_of, Expands, Includes};

use crate::file::read_file;
use crate::forms::closed_len;
use crate::progress::Progress;
use slon_base::{Files, OutFault, Text};
use slonik_script::ScriptRefusal;
use slonik_tokens::{ParseFault, Token, tokens as tokens_of};
use std::alloc::Global;

/// How many levels of files may be included.
const LEVEL_LIMIT: u32 = 8;

/// The tokens of the file of this path, whose bytes are taken off those that are left.
fn included_tokens<F: Files>(
    alloc: Global,
    path: &Text,
    files: &mut F,
    progress: &mut Progress,
) -> Result<Vec<Token>, ParseFault>
    ensures ends { (names : List ℕ → Option (List ℕ)) → (F.filed files.old).names ≡ Some names
        → (expand : List Token → Making → Ending)
        → Includes (λ v. v.items) expand (include_file expand path.now (names path.now) (making_of progress.old))
        (making_of progress.new) result }
    ensures cause { IsErrOf result ParseFault.ReadFault → Rose (F.filed files.old).faults (F.filed files.new).faults }
    ensures files { Stays (F.filed files.old) (F.filed files.new) }
{
    match read_file(alloc, path, files, progress.left)? {
        Some(bytes) => {
            progress.left -= bytes.len() as u64;
            tokens_of(alloc, bytes.as_slice())
        }
        None => {
            let path = path.copy(alloc)?;
            Err(ParseFault::Refused(ScriptRefusal::NoFile { path }))
        }
    }
}

/// Expands the tokens of one text, where this number of levels of files may still be included.
fn expand_text<F: Files>(
    alloc: Global,
    tokens: &[Token],
    files: &mut F,
    levels: u32,
    progress: &mut Progress,
) -> Result<(), ParseFault>
    ensures ends { (names : List ℕ → Option (List ℕ)) → (F.filed files.old).names ≡ Some names
        → Expands (expand_at names levels tokens.now (making_of progress.old)) (making_of progress.new) result }
    ensures cause { IsErrOf result ParseFault.ReadFault → Rose (F.filed files.old).faults (F.filed files.new).faults }
    ensures files { Stays (F.filed files.old) (F.filed files.new) }
{
    let closed = closed_len(tokens);
    let mut at = 0;
    while let Some((behind, path)) = progress.run(alloc, tokens, at, closed)? {
        if levels == 0 {
            let path = path.copy(alloc)?;
            return Err(ParseFault::Refused(ScriptRefusal::Depth { path }));
        }
        let included = included_tokens(alloc, path, files, progress)?;
        expand_text(alloc, included.as_slice(), files, levels - 1, progress)?;
        at = behind;
    }
    Ok(())
}

/// The tokens of a script with its names replaced and its files included. `left` is how many bytes the included files
/// may still hold; the bytes of each file that is read are taken off it. The files are left as they were entered
/// before.
///
/// # Errors
///
/// `Refused` where the script is wrong, `TooLong` where the included files hold more than `left` bytes, `ReadFault`
/// where the files failed, `NoMemory` where there is none.
pub fn expand<F: Files>(
    alloc: Global,
    tokens: Vec<Token>,
    files: &mut F,
    left: &mut u64,
) -> Result<Vec<Token>, ParseFault>
    ensures ends { (names : List ℕ → Option (List ℕ)) → (F.filed files.old).names ≡ Some names
        → Ends (λ v. v.items) (expansion_of names left.old tokens.items) result left.new }
    ensures cause { IsErrOf result ParseFault.ReadFault → Rose (F.filed files.old).faults (F.filed files.new).faults }
    ensures files { Stays (F.filed files.old) (F.filed files.new) }
{
    let mut progress = Progress::new(alloc, *left);
    let expanded = expand_text(alloc, tokens.as_slice(), files, LEVEL_LIMIT, &mut progress);
    *left = progress.left;
    expanded?;
    Ok(progress.output.tokens)
}
