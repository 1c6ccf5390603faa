// The options that were given to a command so far, and the command that they make.
ghost use Rattle.std.specs.Prelude.{◌≡◌, Ok};
ghost use Rattle.slonik_parse.specs.Answered.{Answers, Sets, and_then};
ghost use Rattle.slonik_parse.specs.declared.form.OptionName.TheVariants.{FullyQualifiedName};
ghost use Rattle.slonik_script.specs.declared.script.Command.TheVariants.{SetAddTable};
ghost use Rattle.slonik_parse.specs.Given.{nothing_given, needed, set_option, made};

use crate::form::{OptionName, Verb};
use crate::misparse::Misparse;
use crate::values::{answer_value, choice_value, id_value, seconds_value, string_value};
use slon_base::Text;
use slonik_script::{Command, NodeChoice};
use slonik_tokens::Token;
use std::alloc::Global;

/// The last value of each option that was given.
#[derive(Drop)]
pub struct Given {
    pub id: Option<u32>,
    pub comment: Option<Text>,
    pub event_node: Option<u32>,
    pub server: Option<u32>,
    pub client: Option<u32>,
    pub conninfo: Option<Text>,
    pub connretry: Option<u32>,
    pub origin: Option<u32>,
    pub set_id: Option<u32>,
    pub fully_qualified_name: Option<Text>,
    pub key: Option<Text>,
    pub provider: Option<u32>,
    pub receiver: Option<u32>,
    pub forward: Option<bool>,
    pub old_origin: Option<u32>,
    pub new_origin: Option<u32>,
    pub backup_node: Option<u32>,
    pub awaited_origin: Option<NodeChoice>,
    pub confirmed: Option<NodeChoice>,
    pub wait_on: Option<u32>,
    pub timeout: Option<u32>,
    pub seconds: Option<u32>,
}

/// Sets an option to a value, if it was read.
macro_rules! set {
    ($field:expr, $read:expr) => {
        match $read {
            Ok(value) => {
                $field = Some(value);
                Ok(())
            }
            Err(misparse) => Err(misparse),
        }
    };
}

impl Given {
    /// No options.
    #[tactic(auto, unfolding(crate::specs::Given::nothing_given))]
    pub fn nothing() -> Given
        ensures { result ≡ nothing_given }
    {
        Given {
            id: None,
            comment: None,
            event_node: None,
            server: None,
            client: None,
            conninfo: None,
            connretry: None,
            origin: None,
            set_id: None,
            fully_qualified_name: None,
            key: None,
            provider: None,
            receiver: None,
            forward: None,
            old_origin: None,
            new_origin: None,
            backup_node: None,
            awaited_origin: None,
            confirmed: None,
            wait_on: None,
            timeout: None,
            seconds: None,
        }
    }

    /// Sets an option to the value that the token is for it, or leaves the options as they were. An earlier value of
    /// the option is forgotten.
    #[tactic(auto, unfolding(crate::specs::Given::set_option))]
    pub fn set(&mut self, alloc: Global, option: OptionName, token: &Token) -> Result<(), Misparse>
        ensures { Sets (set_option option token.now self.old) self.new result }
    {
        match option {
            OptionName::Id => set!(self.id, id_value(token)),
            OptionName::Comment => set!(self.comment, string_value(alloc, token)),
            OptionName::EventNode => set!(self.event_node, id_value(token)),
            OptionName::Server => set!(self.server, id_value(token)),
            OptionName::Client => set!(self.client, id_value(token)),
            OptionName::Conninfo => set!(self.conninfo, string_value(alloc, token)),
            OptionName::Connretry => set!(self.connretry, seconds_value(token)),
            OptionName::Origin => set!(self.origin, id_value(token)),
            OptionName::SetId => set!(self.set_id, id_value(token)),
            OptionName::FullyQualifiedName => {
                set!(self.fully_qualified_name, string_value(alloc, token))
            }
            OptionName::Key => set!(self.key, string_value(alloc, token)),
            OptionName::Provider => set!(self.provider, id_value(token)),
            OptionName::Receiver => set!(self.receiver, id_value(token)),
            OptionName::Forward => set!(self.forward, answer_value(token)),
            OptionName::OldOrigin => set!(self.old_origin, id_value(token)),
            OptionName::NewOrigin => set!(self.new_origin, id_value(token)),
            OptionName::BackupNode => set!(self.backup_node, id_value(token)),
            OptionName::AwaitedOrigin => set!(self.awaited_origin, choice_value(token)),
            OptionName::Confirmed => set!(self.confirmed, choice_value(token)),
            OptionName::WaitOn => set!(self.wait_on, id_value(token)),
            OptionName::Timeout => set!(self.timeout, seconds_value(token)),
            OptionName::Seconds => set!(self.seconds, seconds_value(token)),
        }
    }
}

/// A value that has to be given.
fn need<T>(value: Option<T>, option: OptionName) -> Result<T, Misparse>
    ensures { result ≡ needed option value }
{
    match value {
        Some(value) => Ok(value),
        None => Err(Misparse::MissingOption { option }),
    }
}

impl Given {
    /// The command that the options make, or the first one that is missing. The options are used up.
    pub fn command(&mut self, verb: Verb) -> Result<Command, Misparse>
        ensures { Answers (made verb self.old) result }
    {
        match verb {
            Verb::InitCluster => self.init_cluster(),
            Verb::StoreNode => self.store_node(),
            Verb::DropNode => self.drop_node(),
            Verb::StorePath => self.store_path(),
            Verb::DropPath => self.drop_path(),
            Verb::CreateSet => self.create_set(),
            Verb::DropSet => self.drop_set(),
            Verb::SetAddTable => self.set_add_table(),
            Verb::SubscribeSet => self.subscribe_set(),
            Verb::UnsubscribeSet => self.unsubscribe_set(),
            Verb::LockSet => self.lock_set(),
            Verb::UnlockSet => self.unlock_set(),
            Verb::MoveSet => self.move_set(),
            Verb::Failover => self.failover(),
            Verb::Sync => self.sync(),
            Verb::WaitForEvent => self.wait_for_event(),
            Verb::Sleep => self.sleep(),
        }
    }

    #[tactic(auto, unfolding(crate::specs::Given::made))]
    fn init_cluster(&mut self) -> Result<Command, Misparse>
        ensures { Answers (made Verb.InitCluster self.old) result }
    {
        Ok(Command::InitCluster {
            id: need(self.id, OptionName::Id)?,
            comment: self.comment.take(),
        })
    }

    #[tactic(auto, unfolding(crate::specs::Given::made))]
    fn store_node(&mut self) -> Result<Command, Misparse>
        ensures { Answers (made Verb.StoreNode self.old) result }
    {
        Ok(Command::StoreNode {
            id: need(self.id, OptionName::Id)?,
            event_node: need(self.event_node, OptionName::EventNode)?,
            comment: self.comment.take(),
        })
    }

    #[tactic(auto, unfolding(crate::specs::Given::made))]
    fn drop_node(&mut self) -> Result<Command, Misparse>
        ensures { Answers (made Verb.DropNode self.old) result }
    {
        Ok(Command::DropNode {
            id: need(self.id, OptionName::Id)?,
            event_node: need(self.event_node, OptionName::EventNode)?,
        })
    }

    #[tactic(auto, unfolding(crate::specs::Given::made))]
    fn store_path(&mut self) -> Result<Command, Misparse>
        ensures { Answers (made Verb.StorePath self.old) result }
    {
        Ok(Command::StorePath {
            server: need(self.server, OptionName::Server)?,
            client: need(self.client, OptionName::Client)?,
            conninfo: need(self.conninfo.take(), OptionName::Conninfo)?,
            connretry: self.connretry,
        })
    }

    #[tactic(auto, unfolding(crate::specs::Given::made))]
    fn drop_path(&mut self) -> Result<Command, Misparse>
        ensures { Answers (made Verb.DropPath self.old) result }
    {
        Ok(Command::DropPath {
            server: need(self.server, OptionName::Server)?,
            client: need(self.client, OptionName::Client)?,
        })
    }

    #[tactic(auto, unfolding(crate::specs::Given::made))]
    fn create_set(&mut self) -> Result<Command, Misparse>
        ensures { Answers (made Verb.CreateSet self.old) result }
    {
        Ok(Command::CreateSet {
            id: need(self.id, OptionName::Id)?,
            origin: need(self.origin, OptionName::Origin)?,
            comment: self.comment.take(),
        })
    }

    #[tactic(auto, unfolding(crate::specs::Given::made))]
    fn drop_set(&mut self) -> Result<Command, Misparse>
        ensures { Answers (made Verb.DropSet self.old) result }
    {
        Ok(Command::DropSet {
            id: need(self.id, OptionName::Id)?,
            origin: need(self.origin, OptionName::Origin)?,
        })
    }

    #[tactic(auto, unfolding(crate::specs::Given::made))]
    fn set_add_table(&mut self) -> Result<Command, Misparse>
        ensures { Answers (made Verb.SetAddTable self.old) result }
    {
        let set_id = need(self.set_id, OptionName::SetId)?;
        let origin = need(self.origin, OptionName::Origin)?;
        let id = need(self.id, OptionName::Id)?;
        self.add_named_table(set_id, origin, id)
    }

    /// The command that adds a table, whose numbers were given.
    fn add_named_table(&mut self, set_id: u32, origin: u32, id: u32) -> Result<Command, Misparse>
        ensures { Answers (and_then (needed FullyQualifiedName self.old.fully_qualified_name)
            (λ name. Ok (SetAddTable set_id origin id name self.old.key self.old.comment))) result }
    {
        Ok(Command::SetAddTable {
            set_id,
            origin,
            id,
            fully_qualified_name: need(
                self.fully_qualified_name.take(),
                OptionName::FullyQualifiedName,
            )?,
            key: self.key.take(),
            comment: self.comment.take(),
        })
    }

    #[tactic(auto, unfolding(crate::specs::Given::made))]
    fn subscribe_set(&mut self) -> Result<Command, Misparse>
        ensures { Answers (made Verb.SubscribeSet self.old) result }
    {
        Ok(Command::SubscribeSet {
            id: need(self.id, OptionName::Id)?,
            provider: need(self.provider, OptionName::Provider)?,
            receiver: need(self.receiver, OptionName::Receiver)?,
            forward: self.forward,
        })
    }

    #[tactic(auto, unfolding(crate::specs::Given::made))]
    fn unsubscribe_set(&mut self) -> Result<Command, Misparse>
        ensures { Answers (made Verb.UnsubscribeSet self.old) result }
    {
        Ok(Command::UnsubscribeSet {
            id: need(self.id, OptionName::Id)?,
            receiver: need(self.receiver, OptionName::Receiver)?,
        })
    }

    #[tactic(auto, unfolding(crate::specs::Given::made))]
    fn lock_set(&mut self) -> Result<Command, Misparse>
        ensures { Answers (made Verb.LockSet self.old) result }
    {
        Ok(Command::LockSet {
            id: need(self.id, OptionName::Id)?,
            origin: need(self.origin, OptionName::Origin)?,
        })
    }

    #[tactic(auto, unfolding(crate::specs::Given::made))]
    fn unlock_set(&mut self) -> Result<Command, Misparse>
        ensures { Answers (made Verb.UnlockSet self.old) result }
    {
        Ok(Command::UnlockSet {
            id: need(self.id, OptionName::Id)?,
            origin: need(self.origin, OptionName::Origin)?,
        })
    }

    #[tactic(auto, unfolding(crate::specs::Given::made))]
    fn move_set(&mut self) -> Result<Command, Misparse>
        ensures { Answers (made Verb.MoveSet self.old) result }
    {
        Ok(Command::MoveSet {
            id: need(self.id, OptionName::Id)?,
            old_origin: need(self.old_origin, OptionName::OldOrigin)?,
            new_origin: need(self.new_origin, OptionName::NewOrigin)?,
        })
    }

    #[tactic(auto, unfolding(crate::specs::Given::made))]
    fn failover(&mut self) -> Result<Command, Misparse>
        ensures { Answers (made Verb.Failover self.old) result }
    {
        Ok(Command::Failover {
            id: need(self.id, OptionName::Id)?,
            backup_node: need(self.backup_node, OptionName::BackupNode)?,
        })
    }

    #[tactic(auto, unfolding(crate::specs::Given::made))]
    fn sync(&mut self) -> Result<Command, Misparse>
        ensures { Answers (made Verb.Sync self.old) result }
    {
        Ok(Command::Sync {
            id: need(self.id, OptionName::Id)?,
        })
    }

    #[tactic(auto, unfolding(crate::specs::Given::made))]
    fn wait_for_event(&mut self) -> Result<Command, Misparse>
        ensures { Answers (made Verb.WaitForEvent self.old) result }
    {
        Ok(Command::WaitForEvent {
            origin: need(self.awaited_origin, OptionName::AwaitedOrigin)?,
            confirmed: need(self.confirmed, OptionName::Confirmed)?,
            wait_on: need(self.wait_on, OptionName::WaitOn)?,
            timeout: self.timeout,
        })
    }

    #[tactic(auto, unfolding(crate::specs::Given::made))]
    fn sleep(&mut self) -> Result<Command, Misparse>
        ensures { Answers (made Verb.Sleep self.old) result }
    {
        Ok(Command::Sleep {
            seconds: need(self.seconds, OptionName::Seconds)?,
        })
    }
}
