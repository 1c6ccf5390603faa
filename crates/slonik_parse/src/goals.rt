// What a token does where something is read next.
ghost use Rattle.std.specs.Prelude.{◌≡◌, Ok};
ghost use Rattle.slonik_parse.specs.Answered.{Answers, Sets};
ghost use Rattle.slonik_parse.specs.Given.{made, set_option};
ghost use Rattle.slonik_parse.specs.Machine as machine;
ghost use Rattle.slonik_parse.specs.Scripts as grown;

use crate::choose::{is_left_out, is_not_in_try, is_option_left_out, option_at, verb_at};
use crate::form::{OptionName, Verb};
use crate::given::Given;
use crate::misparse::Misparse;
use crate::state::{Block, Goal, Handler, Phrase, State};
use crate::values::{id_value, lower_text, name_value, status_value, string_value};
use slon_base::Text;
use slonik_script::{Command, CommandList, NodeLines, Script, Statement, StatementList, TryBlock};
use slonik_tokens::{Sign, Token};
use std::alloc::Global;

/// The sign, and then the goal.
pub fn sign_then(sign: Sign, goal: Goal) -> State
    ensures { result ≡ machine.sign_then sign goal }
{
    State::Awaits {
        phrase: Phrase::Nothing,
        at: 0,
        sign,
        goal,
    }
}

/// Adds a command at the end of the block.
#[tactic(auto, unfolding(crate::specs::Machine::with_command))]
fn add_command(block: &mut Block, command: Command) -> Result<(), Misparse>
    ensures { Sets (Ok (machine.with_command command block.old)) block.new result }
{
    match block {
        Block::Outside { script } => script.statements.push(Statement::Single(command))?,
        Block::Try { commands, .. } => commands.push(command)?,
        Block::Handler { commands, .. } => commands.push(command)?,
    }
    Ok(())
}

/// A semicolon behind a command, and then the next.
fn after_command(mut block: Block, command: Command) -> Result<State, Misparse>
    ensures { Answers (Ok (machine.after_command block command)) result }
{
    match add_command(&mut block, command) {
        Ok(()) => Ok(sign_then(Sign::Semicolon, Goal::Command { block })),
        Err(misparse) => {
            drop(block);
            Err(misparse)
        }
    }
}

/// The name of the cluster.
#[tactic(auto, unfolding(crate::specs::Machine::cluster_name))]
fn cluster_name(alloc: Global, token: &Token) -> Result<State, Misparse>
    ensures { Answers (machine.cluster_name token.now) result }
{
    let script = Script {
        cluster: name_value(alloc, token)?,
        nodes: NodeLines::new(alloc),
        statements: StatementList::new(alloc),
    };
    let block = Block::Outside { script };
    Ok(sign_then(Sign::Semicolon, Goal::Command { block }))
}

/// The id of a NODE line.
fn node_id(script: Script, token: &Token) -> Result<State, Misparse>
    ensures { Answers (machine.node_id script token.now) result }
{
    match id_value(token) {
        Ok(id) => Ok(State::Awaits {
            phrase: Phrase::Node,
            at: 0,
            sign: Sign::Equals,
            goal: Goal::NodeText { script, id },
        }),
        Err(misparse) => {
            drop(script);
            Err(misparse)
        }
    }
}

/// Adds a NODE line to the script.
fn add_node(script: &mut Script, id: u32, conninfo: Text) -> Result<(), Misparse>
    ensures { Sets (Ok (grown.with_node id conninfo script.old)) script.new result }
{
    script.nodes.set(id, conninfo)?;
    Ok(())
}

/// The conninfo of a NODE line.
#[tactic(auto, unfolding(crate::specs::Machine::node_text))]
fn node_text(alloc: Global, mut script: Script, id: u32, token: &Token) -> Result<State, Misparse>
    ensures { Answers (machine.node_text script id token.now) result }
{
    match string_value(alloc, token) {
        Ok(conninfo) => {
            if let Err(misparse) = add_node(&mut script, id, conninfo) {
                drop(script);
                return Err(misparse);
            }
            let block = Block::Outside { script };
            Ok(sign_then(Sign::Semicolon, Goal::Command { block }))
        }
        Err(misparse) => {
            drop(script);
            Err(misparse)
        }
    }
}

/// A command with options begins.
#[tactic(auto, unfolding(crate::specs::Machine::begin_verb))]
fn begin_verb(block: Block, verb: Option<Verb>) -> Result<State, Misparse>
    ensures { Answers (machine.begin_verb block verb) result }
{
    match verb {
        None => {
            drop(block);
            Err(Misparse::Misfit)
        }
        Some(verb) => Ok(State::Awaits {
            phrase: Phrase::Verb(verb),
            at: 1,
            sign: Sign::OpenBracket,
            goal: Goal::Option {
                block,
                verb,
                given: Given::nothing(),
            },
        }),
    }
}

/// A command begins, in a block where all may stand.
#[tactic(auto, unfolding(crate::specs::Machine::any_command))]
fn any_command(
    alloc: Global,
    block: Block,
    text: &Text,
    token: &Token,
    tokens: &[Token],
) -> Result<State, Misparse>
    ensures { Answers (machine.any_command block text.now token.now tokens.now) result }
{
    if is_left_out(tokens) {
        drop(block);
        let word = lower_text(alloc, text)?;
        Err(Misparse::NotInProfile { word })
    } else if token.is_word(b"echo") {
        Ok(State::At {
            goal: Goal::EchoText { block },
        })
    } else if token.is_word(b"exit") {
        Ok(State::At {
            goal: Goal::ExitStatus { block },
        })
    } else {
        begin_verb(block, verb_at(token, tokens))
    }
}

/// A NODE line, a try block or a command begins.
#[tactic(auto, unfolding(crate::specs::Machine::begin_outside))]
fn begin_outside(
    alloc: Global,
    script: Script,
    text: &Text,
    token: &Token,
    tokens: &[Token],
) -> Result<State, Misparse>
    ensures { Answers (machine.begin_outside script text.now token.now tokens.now) result }
{
    if token.is_word(b"node") && script.statements.len() == 0 {
        Ok(State::At {
            goal: Goal::NodeId { script },
        })
    } else if token.is_word(b"try") {
        let block = Block::Try {
            script,
            commands: CommandList::new(alloc),
        };
        Ok(sign_then(Sign::OpenBrace, Goal::Command { block }))
    } else {
        any_command(alloc, Block::Outside { script }, text, token, tokens)
    }
}

/// A command begins in a try block.
#[tactic(auto, unfolding(crate::specs::Machine::begin_tried))]
fn begin_tried(
    alloc: Global,
    script: Script,
    commands: CommandList,
    text: &Text,
    token: &Token,
    tokens: &[Token],
) -> Result<State, Misparse>
    ensures { Answers (machine.begin_tried script commands text.now token.now tokens.now) result }
{
    if is_left_out(tokens) {
        drop((script, commands));
        let word = lower_text(alloc, text)?;
        Err(Misparse::NotInProfile { word })
    } else if is_not_in_try(tokens) {
        drop((script, commands));
        let word = lower_text(alloc, text)?;
        Err(Misparse::NotInTry { word })
    } else if token.is_word(b"wait") {
        drop((script, commands));
        Err(Misparse::Misfit)
    } else {
        begin_verb(Block::Try { script, commands }, verb_at(token, tokens))
    }
}

/// Something begins with a word in a block.
#[tactic(auto, unfolding(crate::specs::Machine::begin_in))]
fn begin_in(
    alloc: Global,
    block: Block,
    text: &Text,
    token: &Token,
    tokens: &[Token],
) -> Result<State, Misparse>
    ensures { Answers (machine.begin_in block text.now token.now tokens.now) result }
{
    match block {
        Block::Outside { script } => begin_outside(alloc, script, text, token, tokens),
        Block::Try { script, commands } => {
            begin_tried(alloc, script, commands, text, token, tokens)
        }
        Block::Handler {
            script,
            tried,
            handler,
            commands,
        } => {
            let block = Block::Handler {
                script,
                tried,
                handler,
                commands,
            };
            any_command(alloc, block, text, token, tokens)
        }
    }
}

/// The try block with the commands that come after it.
#[tactic(auto, unfolding(crate::specs::Scripts::with_handler))]
fn with_handler(mut tried: TryBlock, handler: Handler, commands: CommandList) -> TryBlock
    ensures { result ≡ grown.with_handler handler commands tried }
{
    match handler {
        Handler::Error => {
            tried.on_error = Some(commands);
            tried
        }
        Handler::Success => {
            tried.on_success = Some(commands);
            tried
        }
    }
}

/// A block is closed.
#[tactic(auto, unfolding(crate::specs::Machine::close))]
fn close(block: Block) -> Result<State, Misparse>
    ensures { Answers (machine.close block) result }
{
    match block {
        Block::Outside { script: _ } => Err(Misparse::Misfit),
        Block::Try { script, commands } => {
            let tried = TryBlock {
                commands,
                on_error: None,
                on_success: None,
            };
            Ok(State::At {
                goal: Goal::AfterTry { script, tried },
            })
        }
        Block::Handler {
            script,
            tried,
            handler,
            commands,
        } => {
            let tried = with_handler(tried, handler, commands);
            Ok(State::At {
                goal: Goal::AfterTry { script, tried },
            })
        }
    }
}

/// Something begins in a block, or the block is closed.
#[tactic(auto, unfolding(crate::specs::Machine::command_step))]
fn command_step(
    alloc: Global,
    block: Block,
    token: &Token,
    tokens: &[Token],
) -> Result<State, Misparse>
    ensures { Answers (machine.command_step block token.now tokens.now) result }
{
    match token {
        Token::Word(text) => begin_in(alloc, block, text, token, tokens),
        Token::Mark(sign) => {
            if *sign == Sign::CloseBrace {
                close(block)
            } else {
                drop(block);
                Err(Misparse::Misfit)
            }
        }
        _ => {
            drop(block);
            Err(Misparse::Misfit)
        }
    }
}

/// No option of the command begins with the word.
fn no_option(alloc: Global, verb: Verb, text: &Text, tokens: &[Token]) -> Result<State, Misparse>
    ensures { Answers (machine.no_option verb text.now tokens.now) result }
{
    let word = lower_text(alloc, text)?;
    if is_option_left_out(verb, tokens) {
        Err(Misparse::NotInProfile { word })
    } else {
        Err(Misparse::UnknownOption { word })
    }
}

/// An option begins, or none does.
#[tactic(auto, unfolding(crate::specs::Machine::begin_option))]
fn begin_option(
    alloc: Global,
    block: Block,
    verb: Verb,
    given: Given,
    text: &Text,
    tokens: &[Token],
    option: Option<OptionName>,
) -> Result<State, Misparse>
    ensures { Answers (machine.begin_option block verb given text.now tokens.now option) result }
{
    match option {
        Some(option) => Ok(State::Awaits {
            phrase: Phrase::Option(option),
            at: 1,
            sign: Sign::Equals,
            goal: Goal::Value {
                block,
                verb,
                given,
                option,
            },
        }),
        None => {
            drop((block, given));
            no_option(alloc, verb, text, tokens)
        }
    }
}

/// The first option that is missing, else no fit.
fn missing(verb: Verb, mut given: Given) -> Result<State, Misparse>
    ensures { Answers (machine.missing (made verb given)) result }
{
    let made = given.command(verb);
    drop(given);
    match made {
        Ok(_) => Err(Misparse::Misfit),
        Err(misparse) => Err(misparse),
    }
}

/// What the token does where an option may begin.
#[tactic(auto, unfolding(crate::specs::Machine::option_step))]
fn option_step(
    alloc: Global,
    block: Block,
    verb: Verb,
    given: Given,
    token: &Token,
    tokens: &[Token],
) -> Result<State, Misparse>
    ensures { Answers (machine.option_step block verb given token.now tokens.now) result }
{
    match token {
        Token::Word(text) => {
            let option = option_at(verb, token);
            begin_option(alloc, block, verb, given, text, tokens, option)
        }
        Token::Mark(sign) => {
            if *sign == Sign::CloseBracket {
                drop(block);
                missing(verb, given)
            } else {
                drop((block, given));
                Err(Misparse::Misfit)
            }
        }
        _ => {
            drop((block, given));
            Err(Misparse::Misfit)
        }
    }
}

/// The string of an ECHO.
fn echo_text(alloc: Global, block: Block, token: &Token) -> Result<State, Misparse>
    ensures { Answers (machine.echo_text block token.now) result }
{
    match string_value(alloc, token) {
        Ok(text) => after_command(block, Command::Echo { text }),
        Err(misparse) => {
            drop(block);
            Err(misparse)
        }
    }
}

/// The number of an EXIT.
fn exit_status(block: Block, token: &Token) -> Result<State, Misparse>
    ensures { Answers (machine.exit_status block token.now) result }
{
    match status_value(token) {
        Ok(status) => after_command(block, Command::Exit { status }),
        Err(misparse) => {
            drop(block);
            Err(misparse)
        }
    }
}

/// The value of an option.
fn option_value(
    alloc: Global,
    block: Block,
    verb: Verb,
    mut given: Given,
    option: OptionName,
    token: &Token,
) -> Result<State, Misparse>
    ensures { Answers (machine.valued block verb (set_option option token.now given)) result }
{
    match given.set(alloc, option, token) {
        Ok(()) => Ok(State::At {
            goal: Goal::AfterOption { block, verb, given },
        }),
        Err(misparse) => {
            drop((block, given));
            Err(misparse)
        }
    }
}

/// The command that the options make, and the semicolon behind it.
fn close_options(block: Block, verb: Verb, mut given: Given) -> Result<State, Misparse>
    ensures { Answers (machine.closed block (made verb given)) result }
{
    let made = given.command(verb);
    drop(given);
    match made {
        Ok(command) => after_command(block, command),
        Err(misparse) => {
            drop(block);
            Err(misparse)
        }
    }
}

/// A comma, or the closing bracket and with it the command.
#[tactic(auto, unfolding(crate::specs::Machine::after_option))]
fn after_option(block: Block, verb: Verb, given: Given, token: &Token) -> Result<State, Misparse>
    ensures { Answers (machine.after_option block verb given token.now) result }
{
    if token.is_sign(Sign::Comma) {
        Ok(State::At {
            goal: Goal::Option { block, verb, given },
        })
    } else if token.is_sign(Sign::CloseBracket) {
        close_options(block, verb, given)
    } else {
        drop((block, given));
        Err(Misparse::Misfit)
    }
}

/// Adds a try block at the end of the script.
fn add_try(script: &mut Script, tried: TryBlock) -> Result<(), Misparse>
    ensures { Sets (Ok (grown.with_statement (Statement.Try tried) script.old)) script.new result }
{
    script.statements.push(Statement::Try(tried))?;
    Ok(())
}

/// A semicolon, ON, or the next statement behind a try block.
#[tactic(auto, unfolding(crate::specs::Machine::after_try))]
fn after_try(
    alloc: Global,
    mut script: Script,
    tried: TryBlock,
    token: &Token,
    tokens: &[Token],
) -> Result<State, Misparse>
    ensures { Answers (machine.after_try script tried token.now tokens.now) result }
{
    if token.is_word(b"on") && (tried.on_error.is_none() || tried.on_success.is_none()) {
        return Ok(State::At {
            goal: Goal::AfterOn { script, tried },
        });
    }
    if let Err(misparse) = add_try(&mut script, tried) {
        drop(script);
        return Err(misparse);
    }
    let block = Block::Outside { script };
    if token.is_sign(Sign::Semicolon) {
        Ok(State::At {
            goal: Goal::Command { block },
        })
    } else {
        command_step(alloc, block, token, tokens)
    }
}

/// ERROR or SUCCESS, where it did not come before.
#[tactic(auto, unfolding(crate::specs::Machine::handler_at))]
fn handler_at(tried: &TryBlock, token: &Token) -> Option<Handler>
    ensures { result ≡ machine.handler_at tried.now token.now }
{
    if token.is_word(b"error") && tried.on_error.is_none() {
        Some(Handler::Error)
    } else if token.is_word(b"success") && tried.on_success.is_none() {
        Some(Handler::Success)
    } else {
        None
    }
}

/// What the token does behind ON.
#[tactic(auto, unfolding(crate::specs::Machine::after_on))]
fn after_on(
    alloc: Global,
    script: Script,
    tried: TryBlock,
    token: &Token,
) -> Result<State, Misparse>
    ensures { Answers (machine.after_on script tried token.now) result }
{
    match handler_at(&tried, token) {
        None => {
            drop((script, tried));
            Err(Misparse::Misfit)
        }
        Some(handler) => {
            let block = Block::Handler {
                script,
                tried,
                handler,
                commands: CommandList::new(alloc),
            };
            Ok(sign_then(Sign::OpenBrace, Goal::Command { block }))
        }
    }
}

/// What the token does at a goal. It is the first of the tokens.
#[tactic(auto, unfolding(crate::specs::Machine::goal_step))]
pub fn goal_step(
    alloc: Global,
    goal: Goal,
    token: &Token,
    tokens: &[Token],
) -> Result<State, Misparse>
    ensures { Answers (machine.goal_step goal token.now tokens.now) result }
{
    match goal {
        Goal::ClusterName => cluster_name(alloc, token),
        Goal::NodeId { script } => node_id(script, token),
        Goal::NodeText { script, id } => node_text(alloc, script, id, token),
        Goal::Command { block } => command_step(alloc, block, token, tokens),
        Goal::Option { block, verb, given } => {
            option_step(alloc, block, verb, given, token, tokens)
        }
        Goal::Value {
            block,
            verb,
            given,
            option,
        } => option_value(alloc, block, verb, given, option, token),
        Goal::AfterOption { block, verb, given } => after_option(block, verb, given, token),
        Goal::EchoText { block } => echo_text(alloc, block, token),
        Goal::ExitStatus { block } => exit_status(block, token),
        Goal::AfterTry { script, tried } => after_try(alloc, script, tried, token, tokens),
        Goal::AfterOn { script, tried } => after_on(alloc, script, tried, token),
    }
}
