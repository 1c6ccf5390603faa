// A script is read: its names are replaced, its files included, and then its tokens are read.
ghost use Rattle.std.specs.Prelude.{◌≡◌, List, ℕ, Option, Some, Ok, IfOk, IsErrOf};
ghost use Rattle.slon_base.specs.Counts.{Rose};
ghost use Rattle.slonik_script.specs.declared.refusal.ScriptRefusal.{ScriptRefusal as ARefusal};
ghost use Rattle.slonik_tokens.specs.declared.token.Token.{Token as AToken};
ghost use Rattle.slonik_expand.specs.Ends.{Stays};
ghost use Rattle.slonik_expand.specs.Expansion.{Making, Made, expansion_of};
ghost use Rattle.slonik_script.specs.declared.script.Script.{Script as AScript};
ghost use Rattle.slonik_parse.specs.Grammar.{IsScript};
ghost use Rattle.slonik_parse.specs.Outcomes.{Parses, script_in};
ghost use Rattle.slonik_parse.specs.Refusals.{Refuses};
ghost use Rattle.slonik_parse.specs.Said.{Says, IsAccepted, IsRefusal};

use crate::machine::read_script;
use slon_base::Files;
use slonik_expand::expand;
use slonik_script::Script;
use slonik_tokens::{ParseFault, Token};
use std::alloc::Global;

/// The script that the tokens are, with its names replaced and its files included.
fn read_expanded<F: Files>(
    alloc: Global,
    tokens: Vec<Token>,
    files: &mut F,
    left: &mut u64,
) -> Result<Script, ParseFault>
    ensures exact { (names : List ℕ → Option (List ℕ)) → (F.filed files.old).names ≡ Some names
        → Parses (expansion_of names left.old tokens.items) result left.new }
    ensures read { IfOk result (λ script. (out : List AToken) × (script_in out ≡ Ok script)) }
    ensures cause { IsErrOf result ParseFault.ReadFault → Rose (F.filed files.old).faults (F.filed files.new).faults }
    ensures files { Stays (F.filed files.old) (F.filed files.new) }
{
    let tokens = expand(alloc, tokens, files, left)?;
    read_script(alloc, tokens.as_slice())
}

/// The script that the tokens are, with its names replaced and its files included. `left` is how many bytes the
/// included files may still hold; the bytes of each file that is included are taken off it. The files are left as
/// they were entered before.
///
/// # Errors
///
/// `Refused` where the script is wrong, with the first thing that is wrong; `TooLong` where the included files hold
/// more than `left` bytes; `ReadFault` where the files failed; `NoMemory` where there is none.
pub fn parse<F: Files>(
    alloc: Global,
    tokens: Vec<Token>,
    files: &mut F,
    left: &mut u64,
) -> Result<Script, ParseFault>
    ensures exact { (names : List ℕ → Option (List ℕ)) → (F.filed files.old).names ≡ Some names
        → Parses (expansion_of names left.old tokens.items) result left.new }

    // What is answered is what the grammar says,
    ensures grammar { (names : List ℕ → Option (List ℕ)) → (F.filed files.old).names ≡ Some names
        → Says (expansion_of names left.old tokens.items) result left.new }
    // a script of the grammar is accepted as that script,
    ensures accepted { (names : List ℕ → Option (List ℕ)) (making : Making) (script : AScript)
        → (F.filed files.old).names ≡ Some names
        → expansion_of names left.old tokens.items ≡ Made making → IsScript making.out script
        → IsAccepted script result }
    // and a refusal of the grammar is that refusal.
    ensures refused { (names : List ℕ → Option (List ℕ)) (making : Making) (refusal : ARefusal)
        → (F.filed files.old).names ≡ Some names
        → expansion_of names left.old tokens.items ≡ Made making → Refuses making.out refusal
        → IsRefusal refusal result }

    // Whatever the files do, a script that is answered is one of the grammar.
    ensures spelled { IfOk result (λ script. (out : List AToken) × IsScript out script) }
    ensures cause { IsErrOf result ParseFault.ReadFault → Rose (F.filed files.old).faults (F.filed files.new).faults }
    ensures files { Stays (F.filed files.old) (F.filed files.new) }
{
    read_expanded(alloc, tokens, files, left)
}
