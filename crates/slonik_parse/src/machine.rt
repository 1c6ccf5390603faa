// A script is read token by token.
ghost use Rattle.std.specs.Prelude.{◌≡◌, ◌+◌, ◌<◌, ◌^◌, length, Ok, Err};
ghost use Rattle.slonik_parse.specs.Answered.{Answers};
ghost use Rattle.slonik_parse.specs.Forms.{option_text};
ghost use Rattle.slonik_parse.specs.Machine as machine;
ghost use Rattle.slonik_parse.specs.Outcomes.{Reads, placed, refused_at, script_in};
ghost use Rattle.slonik_parse.specs.Scripts.{with_statement};

use crate::form::OptionName;
use crate::goals::{goal_step, sign_then};
use crate::misparse::Misparse;
use crate::state::{Block, Goal, Phrase, State};
use slon_base::Text;
use slonik_script::{Script, ScriptRefusal, Statement, TryBlock};
use slonik_tokens::{ParseFault, Sign, Token};
use std::alloc::Global;

/// The next word of a phrase is there, or its sign.
#[tactic(auto, unfolding(crate::specs::Machine::awaited))]
fn awaited(
    phrase: Phrase,
    at: usize,
    sign: Sign,
    goal: Goal,
    token: &Token,
) -> Result<State, Misparse>
    ensures { Answers (machine.awaited phrase at sign goal token.now) result }
{
    match phrase.words().get(at) {
        None => {
            if token.is_sign(sign) {
                Ok(State::At { goal })
            } else {
                Err(Misparse::Misfit)
            }
        }
        Some(word) => {
            if token.is_word(word.as_bytes()) {
                Ok(State::Awaits {
                    phrase,
                    at: at + 1,
                    sign,
                    goal,
                })
            } else {
                Err(Misparse::Misfit)
            }
        }
    }
}

/// What the token does. It is the first of the tokens.
#[tactic(auto, unfolding(crate::specs::Machine::step))]
fn step(alloc: Global, state: State, token: &Token, tokens: &[Token]) -> Result<State, Misparse>
    ensures { Answers (machine.step state token.now tokens.now) result }
{
    match state {
        State::Awaits {
            phrase,
            at,
            sign,
            goal,
        } => awaited(phrase, at, sign, goal, token),
        State::At { goal } => goal_step(alloc, goal, token, tokens),
    }
}

/// The fault that an option is missing.
fn missing_fault(alloc: Global, option: OptionName) -> ParseFault
    ensures { Reads (Err (ScriptRefusal.MissingOption (option_text option))) (Err result) }
{
    match Text::from_str(alloc, option.text()) {
        Ok(words) => ParseFault::Refused(ScriptRefusal::MissingOption { words }),
        Err(_) => ParseFault::NoMemory,
    }
}

/// The fault of a misparse at the token of this number.
fn fault_at(alloc: Global, place: u64, misparse: Misparse) -> ParseFault
    ensures refused { Reads (Err (refused_at place misparse)) (Err result) }
    ensures memory { misparse ≡ Misparse.NoMemory → result ≡ ParseFault.NoMemory }
{
    let refusal = match misparse {
        Misparse::Misfit => ScriptRefusal::BadSyntax { place },
        Misparse::UnknownOption { word } => ScriptRefusal::UnknownOption { word },
        Misparse::MissingOption { option } => return missing_fault(alloc, option),
        Misparse::NotInProfile { word } => ScriptRefusal::NotInProfile { word },
        Misparse::NotInTry { word } => ScriptRefusal::NotInTry { word },
        Misparse::NoMemory => return ParseFault::NoMemory,
    };
    ParseFault::Refused(refusal)
}

/// The fault that a script of this number of tokens may not end there. What was made of them is let go.
fn end_fault<T: Drop>(_made: T, total: u64) -> ParseFault
    requires { total < 2 ^ 63 }
    ensures { result ≡ ParseFault.Refused (ScriptRefusal.BadSyntax (total + 1)) }
{
    ParseFault::Refused(ScriptRefusal::BadSyntax { place: total + 1 })
}

/// The script, if it may end behind this block. It has this number of tokens.
fn block_end(block: Block, total: u64) -> Result<Script, ParseFault>
    requires { total < 2 ^ 63 }
    ensures { Reads (placed total (machine.goal_end (Goal.Command block))) result }
{
    match block {
        Block::Outside { script } => Ok(script),
        Block::Try { script, commands } => Err(end_fault((script, commands), total)),
        Block::Handler {
            script,
            tried,
            commands,
            ..
        } => Err(end_fault((script, tried, commands), total)),
    }
}

/// The script with a try block at its end.
fn script_with_try(mut script: Script, tried: TryBlock) -> Result<Script, ParseFault>
    ensures { Reads (Ok (with_statement (Statement.Try tried) script)) result }
{
    match script.statements.push(Statement::Try(tried)) {
        Ok(()) => Ok(script),
        Err(_) => {
            drop(script);
            Err(ParseFault::NoMemory)
        }
    }
}

/// The script, if it may end at this goal. It has this number of tokens.
fn goal_end(goal: Goal, total: u64) -> Result<Script, ParseFault>
    requires { total < 2 ^ 63 }
    ensures { Reads (placed total (machine.goal_end goal)) result }
{
    match goal {
        Goal::Command { block } => block_end(block, total),
        Goal::AfterTry { script, tried } => script_with_try(script, tried),
        Goal::ClusterName => Err(end_fault((), total)),
        Goal::NodeId { script } => Err(end_fault(script, total)),
        Goal::NodeText { script, .. } => Err(end_fault(script, total)),
        Goal::Option { block, given, .. } => Err(end_fault((block, given), total)),
        Goal::Value { block, given, .. } => Err(end_fault((block, given), total)),
        Goal::AfterOption { block, given, .. } => Err(end_fault((block, given), total)),
        Goal::EchoText { block } => Err(end_fault(block, total)),
        Goal::ExitStatus { block } => Err(end_fault(block, total)),
        Goal::AfterOn { script, tried } => Err(end_fault((script, tried), total)),
    }
}

/// The script, if it may end in this state. It has this number of tokens.
fn state_end(state: State, total: u64) -> Result<Script, ParseFault>
    requires { total < 2 ^ 63 }
    ensures { Reads (placed total (machine.end_of state)) result }
{
    match state {
        State::Awaits { goal, .. } => Err(end_fault(goal, total)),
        State::At { goal } => goal_end(goal, total),
    }
}

/// The script whose tokens behind CLUSTER NAME are these.
fn read_behind_preamble(alloc: Global, tokens: &[Token]) -> Result<Script, ParseFault>
    ensures { Reads (placed (length tokens.now + 2) (machine.run tokens.now machine.behind_preamble)) result }
{
    let mut state = sign_then(Sign::Equals, Goal::ClusterName);
    let mut rest = tokens;
    let mut place = 3;
    while let Some((token, behind)) = rest.split_first() {
        match step(alloc, state, token, rest) {
            Ok(next) => state = next,
            Err(misparse) => return Err(fault_at(alloc, place, misparse)),
        }
        place += 1;
        rest = behind;
    }
    state_end(state, place - 1)
}

/// The script that the tokens are, or what is wrong with the first token that no script goes on with.
#[tactic(auto, unfolding(crate::specs::Outcomes::script_in))]
pub fn read_script(alloc: Global, tokens: &[Token]) -> Result<Script, ParseFault>
    ensures { Reads (script_in tokens.now) result }
{
    match tokens {
        [first, second, rest @ ..] => {
            if first.is_word(b"cluster") && second.is_word(b"name") {
                read_behind_preamble(alloc, rest)
            } else {
                Err(ParseFault::Refused(ScriptRefusal::NoPreamble))
            }
        }
        _ => Err(ParseFault::Refused(ScriptRefusal::NoPreamble)),
    }
}
