// The commands of the language and their options, with the words that they are written with.
ghost use Rattle.std.specs.Prelude.{◌≡◌, map};
ghost use Rattle.slonik_parse.specs.Forms.{verb_words, option_words, option_text, options_of};

use OptionName::{
    AwaitedOrigin, BackupNode, Client, Comment, Confirmed, Conninfo, Connretry, EventNode, Forward,
    FullyQualifiedName, Id, Key, NewOrigin, OldOrigin, Origin, Provider, Receiver, Seconds, Server,
    SetId, Timeout, WaitOn,
};

/// A command that has options.
#[derive(Clone, Copy)]
pub enum Verb {
    InitCluster,
    StoreNode,
    DropNode,
    StorePath,
    DropPath,
    CreateSet,
    DropSet,
    SetAddTable,
    SubscribeSet,
    UnsubscribeSet,
    LockSet,
    UnlockSet,
    MoveSet,
    Failover,
    Sync,
    WaitForEvent,
    Sleep,
}

/// An option of a command.
#[derive(Clone, Copy)]
pub enum OptionName {
    Id,
    Comment,
    EventNode,
    Server,
    Client,
    Conninfo,
    Connretry,
    Origin,
    SetId,
    FullyQualifiedName,
    Key,
    Provider,
    Receiver,
    Forward,
    OldOrigin,
    NewOrigin,
    BackupNode,
    /// The origin that is waited for, which may be all.
    AwaitedOrigin,
    Confirmed,
    WaitOn,
    Timeout,
    Seconds,
}

impl Verb {
    /// The words of the command, in lower case.
    #[tactic(auto, unfolding(crate::specs::Forms::verb_words))]
    pub fn words(self) -> &'static [&'static str]
        ensures { map (λ word. word.now) result.now ≡ verb_words self }
    {
        match self {
            Verb::InitCluster => &["init", "cluster"],
            Verb::StoreNode => &["store", "node"],
            Verb::DropNode => &["drop", "node"],
            Verb::StorePath => &["store", "path"],
            Verb::DropPath => &["drop", "path"],
            Verb::CreateSet => &["create", "set"],
            Verb::DropSet => &["drop", "set"],
            Verb::SetAddTable => &["set", "add", "table"],
            Verb::SubscribeSet => &["subscribe", "set"],
            Verb::UnsubscribeSet => &["unsubscribe", "set"],
            Verb::LockSet => &["lock", "set"],
            Verb::UnlockSet => &["unlock", "set"],
            Verb::MoveSet => &["move", "set"],
            Verb::Failover => &["failover"],
            Verb::Sync => &["sync"],
            Verb::WaitForEvent => &["wait", "for", "event"],
            Verb::Sleep => &["sleep"],
        }
    }

    /// The options of the command, the required ones first.
    #[tactic(auto, unfolding(crate::specs::Forms::options_of))]
    pub fn options(self) -> &'static [OptionName]
        ensures { result.now ≡ options_of self }
    {
        match self {
            Verb::InitCluster => &[Id, Comment],
            Verb::StoreNode => &[Id, EventNode, Comment],
            Verb::DropNode => &[Id, EventNode],
            Verb::StorePath => &[Server, Client, Conninfo, Connretry],
            Verb::DropPath => &[Server, Client],
            Verb::CreateSet => &[Id, Origin, Comment],
            Verb::DropSet | Verb::LockSet | Verb::UnlockSet => &[Id, Origin],
            Verb::SetAddTable => &[SetId, Origin, Id, FullyQualifiedName, Key, Comment],
            Verb::SubscribeSet => &[Id, Provider, Receiver, Forward],
            Verb::UnsubscribeSet => &[Id, Receiver],
            Verb::MoveSet => &[Id, OldOrigin, NewOrigin],
            Verb::Failover => &[Id, BackupNode],
            Verb::Sync => &[Id],
            Verb::WaitForEvent => &[AwaitedOrigin, Confirmed, WaitOn, Timeout],
            Verb::Sleep => &[Seconds],
        }
    }
}

impl OptionName {
    /// The words of the option, in lower case.
    #[tactic(auto, unfolding(crate::specs::Forms::option_words))]
    pub fn words(self) -> &'static [&'static str]
        ensures { map (λ word. word.now) result.now ≡ option_words self }
    {
        match self {
            OptionName::Id => &["id"],
            OptionName::Comment => &["comment"],
            OptionName::EventNode => &["event", "node"],
            OptionName::Server => &["server"],
            OptionName::Client => &["client"],
            OptionName::Conninfo => &["conninfo"],
            OptionName::Connretry => &["connretry"],
            OptionName::Origin | OptionName::AwaitedOrigin => &["origin"],
            OptionName::SetId => &["set", "id"],
            OptionName::FullyQualifiedName => &["fully", "qualified", "name"],
            OptionName::Key => &["key"],
            OptionName::Provider => &["provider"],
            OptionName::Receiver => &["receiver"],
            OptionName::Forward => &["forward"],
            OptionName::OldOrigin => &["old", "origin"],
            OptionName::NewOrigin => &["new", "origin"],
            OptionName::BackupNode => &["backup", "node"],
            OptionName::Confirmed => &["confirmed"],
            OptionName::WaitOn => &["wait", "on"],
            OptionName::Timeout => &["timeout"],
            OptionName::Seconds => &["seconds"],
        }
    }

    /// The words of the option with one space between them, in lower case.
    #[tactic(auto, unfolding(crate::specs::Forms::option_text, crate::specs::Forms::option_words))]
    pub fn text(self) -> &'static str
        ensures { result.now ≡ option_text self }
    {
        match self {
            OptionName::Id => "id",
            OptionName::Comment => "comment",
            OptionName::EventNode => "event node",
            OptionName::Server => "server",
            OptionName::Client => "client",
            OptionName::Conninfo => "conninfo",
            OptionName::Connretry => "connretry",
            OptionName::Origin | OptionName::AwaitedOrigin => "origin",
            OptionName::SetId => "set id",
            OptionName::FullyQualifiedName => "fully qualified name",
            OptionName::Key => "key",
            OptionName::Provider => "provider",
            OptionName::Receiver => "receiver",
            OptionName::Forward => "forward",
            OptionName::OldOrigin => "old origin",
            OptionName::NewOrigin => "new origin",
            OptionName::BackupNode => "backup node",
            OptionName::Confirmed => "confirmed",
            OptionName::WaitOn => "wait on",
            OptionName::Timeout => "timeout",
            OptionName::Seconds => "seconds",
        }
    }
}
