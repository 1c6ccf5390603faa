// What the tokens so far have made, and what may come next.
use crate::form::{OptionName, Verb};
use crate::given::Given;
use slonik_script::{CommandList, Script, TryBlock};
use slonik_tokens::Sign;

/// When the commands of a block come.
#[derive(Clone, Copy)]
pub enum Handler {
    /// After a refusal.
    Error,
    /// After all commands of the try block were accepted.
    Success,
}

/// Where a command stands, with what was made before it.
#[derive(Drop)]
pub enum Block {
    /// Among the statements of the script.
    Outside {
        script: Script,
    },
    /// In a try block, behind these commands.
    Try {
        script: Script,
        commands: CommandList,
    },
    /// In a block that comes after a try block, behind these commands.
    Handler {
        script: Script,
        tried: TryBlock,
        handler: Handler,
        commands: CommandList,
    },
}

/// What is read next.
#[derive(Drop)]
pub enum Goal {
    /// The name of the cluster.
    ClusterName,
    /// The id of a NODE line.
    NodeId {
        script: Script,
    },
    /// The conninfo of a NODE line.
    NodeText {
        script: Script,
        id: u32,
    },
    /// The first word of a command or a statement, or the end of the block.
    Command {
        block: Block,
    },
    /// The first word of an option.
    Option {
        block: Block,
        verb: Verb,
        given: Given,
    },
    /// The value of an option.
    Value {
        block: Block,
        verb: Verb,
        given: Given,
        option: OptionName,
    },
    /// A comma or the closing bracket behind an option.
    AfterOption {
        block: Block,
        verb: Verb,
        given: Given,
    },
    /// The string of an ECHO.
    EchoText {
        block: Block,
    },
    /// The number of an EXIT.
    ExitStatus {
        block: Block,
    },
    /// What may follow a closed block of a try block.
    AfterTry {
        script: Script,
        tried: TryBlock,
    },
    /// ERROR or SUCCESS.
    AfterOn {
        script: Script,
        tried: TryBlock,
    },
}

/// Words that have to come in their order.
#[derive(Clone, Copy)]
pub enum Phrase {
    /// None.
    Nothing,
    /// Those of a NODE line behind its id.
    Node,
    /// Those of a command.
    Verb(Verb),
    /// Those of an option.
    Option(OptionName),
}

/// What may come next.
#[derive(Drop)]
pub enum State {
    /// The words of the phrase from this one on, then the sign, then the goal.
    Awaits {
        phrase: Phrase,
        at: usize,
        sign: Sign,
        goal: Goal,
    },
    /// The goal.
    At {
        goal: Goal,
    },
}

impl Phrase {
    ghost use Rattle.std.specs.Prelude.{◌≡◌, map};
    ghost use Rattle.slonik_parse.specs.Machine.{phrase_words};

    /// The words, in lower case.
    #[tactic(auto, unfolding(crate::specs::Machine::phrase_words))]
    pub fn words(self) -> &'static [&'static str]
        ensures { map (λ word. word.now) result.now ≡ phrase_words self }
    {
        match self {
            Phrase::Nothing => &[],
            Phrase::Node => &["admin", "conninfo"],
            Phrase::Verb(verb) => verb.words(),
            Phrase::Option(option) => option.words(),
        }
    }
}
