// The databases of a session, and what each command does with them.
ghost use Rattle.std.specs.Prelude.{None, ◌≡◌, ◌++◌, [], ◌∷◌, length, true, false, Some, IfOk, OnOk, is_ok};
ghost use Rattle.std.specs.List.{position};
ghost use Rattle.std.specs.Str.{bytes_eq};
ghost use Rattle.slon_base.specs.Keeper.{nothing};
ghost use Rattle.slon_model.specs.declared.reply.Answer.TheVariants.{Done as IsDone};
ghost use Rattle.slon_model.specs.declared.reply.Reply.TheVariants.{Accepted as IsAccepted};
ghost use Rattle.slon_model.specs.Names.{find_named};
ghost use Rattle.slon_model.specs.Spoken.{IsSpoken};
ghost use Rattle.slon_model.specs.Tasks.{subject_of, ToRead, ToStep, ToForget, ToStart, ToStop, ToCut, ToJoin, ToSync};
ghost use Rattle.slon_model.specs.Tasks.{ToFetch, ToListen, ToWork};
ghost use Rattle.store_rows.specs.Rows.{IsId};
ghost use Rattle.slon_model.specs.World.{start};
ghost use Rattle.app_store.specs.Base.{base_of};
ghost use Rattle.slonik_exec.specs.Heard.{AreDistinct};
ghost use Rattle.cluster_engine.specs.Agreed.{Agrees};
ghost use Rattle.cluster_engine.specs.Calls as calls;
ghost use Rattle.cluster_engine.specs.Calls.{Moves, IsActed, Steps, ReplyCaused, StaysCertain, StaysQuiet, Adopts};
ghost use Rattle.cluster_engine.specs.Calls.{Makes, MakingReplyCaused, MakesCertain, is_one, is_reading, takes_none};
ghost use Rattle.cluster_engine.specs.Clustered.{cluster_of};
ghost use Rattle.cluster_engine.specs.Subscribing.{Subscribes, SubscribesMade};

use crate::scripts::{Started, end_script, put_back, run_next, start_script};
use crate::slons::{add_cut, add_slon, came_up, forget, remove_cut, remove_slon};
use app_store::Database;
use node_keeper::{Fuse, Keeper};
use slon_base::{ByteMap, Text};
use slon_model::{Answer, Command, DbFault, Delivery, Reading, Refusal, Reply};
use slon_turns::{Aim, Held, Listen, Switched, Work, are_cut, take_poll, take_work};
use slonik_exec::{
    Named, NoMemory, answered, has_node, index_of, index_of_node, refused, take_sync,
};
use std::alloc::{AllocError, Global};

/// The databases of a session, in the order of their making, the scripts that run, which slons are on, which nodes are
/// cut off from one another, the events that wait at nodes, and what nodes fetched of them.
pub struct Cluster<K: Keeper> {
    alloc: Global,
    limit: u32,
    // How many stores it was given, also of databases that it did not keep.
    given: u32,
    databases: Vec<Named<K>>,
    scripts: ByteMap<Started>,
    // The nodes whose slon is on.
    started: Vec<u32>,
    // The pairs of nodes that are cut off from one another.
    cuts: Vec<(u32, u32)>,
    // The events that wait at the nodes of databases, and what these fetched, by the names of the databases.
    held: ByteMap<Held>,
}

// By hand: a derived destructor would be proved anew, with those of all its parts, in each crate that drops a value of
// this type.
impl<K: Keeper> Drop for Cluster<K> {
    fn drop(self) {
        let Cluster {
            alloc: _,
            limit: _,
            given: _,
            databases,
            scripts,
            started,
            cuts,
            held,
        } = self;
        drop(databases);
        drop(scripts);
        drop(started);
        drop(cuts);
        drop(held);
    }
}

/// Whether the store of a new database held a row.
fn is_not_empty(fault: DbFault) -> bool
    ensures { result ≡ calls.is_not_empty fault }
{
    matches!(fault, DbFault::NotEmpty)
}

/// Adds a database behind the others.
fn add_database<K: Keeper>(databases: &mut Vec<Named<K>>, named: Named<K>) -> Result<(), AllocError>
    ensures { OnOk result (databases.new.items ≡ databases.old.items ++ named ∷ []) }
{
    databases.push(named)?;
    Ok(())
}

impl<K: Keeper> Cluster<K> {
    /// No databases yet, of which there may be `limit`.
    pub fn new(alloc: Global, limit: u32) -> Cluster<K>
        ensures agrees { Agrees (start limit) (cluster_of K.kept result) }
        ensures given { (cluster_of K.kept result).given ≡ 0 }
        ensures certain { calls.AllCertain (cluster_of K.kept result) }
        ensures distinct { AreDistinct (cluster_of K.kept result).bases }
    {
        Cluster {
            alloc,
            limit,
            given: 0,
            databases: Vec::new(alloc),
            scripts: ByteMap::new(alloc),
            started: Vec::new(alloc),
            cuts: Vec::new(alloc),
            held: ByteMap::new(alloc),
        }
    }

    /// How many databases there are.
    pub fn len(&self) -> usize
        ensures { result ≡ length (cluster_of K.kept self.now).bases }
    {
        self.databases.len()
    }

    /// How many stores it was given, which is the place of the next one.
    pub fn given(&self) -> u32
        ensures { result ≡ (cluster_of K.kept self.now).given }
    {
        self.given
    }

    fn index_of(&self, name: &Text) -> Option<usize>
        ensures { result ≡ position (λ d. bytes_eq name.now d.name) self.now.databases.items }
    {
        index_of(&self.databases, name.as_slice())
    }

    /// Whether there may be a new database of this name.
    fn grant(&self, name: &Text) -> Result<Reply, NoMemory>
        ensures { IfOk result (λ reply. reply ≡ calls.grant name.now (cluster_of K.kept self.now)) }
    {
        if self.index_of(name).is_some() {
            let name = name.copy(self.alloc)?;
            return Ok(Reply::Refused(Refusal::NameUsed { name }));
        }
        if self.databases.len() < self.limit as usize {
            return Ok(Reply::Accepted(Answer::Done));
        }
        Ok(Reply::Refused(Refusal::Full { limit: self.limit }))
    }

    /// Has the database that the command names obey it. What was held at one that comes up is forgotten.
    fn ask(&mut self, command: &Command) -> Result<Reply, NoMemory>
        requires spoken { IsSpoken command.now }
        requires one { is_one (subject_of command.now) ≡ true }
        ensures { IfOk result (λ reply. Moves command.now (cluster_of K.kept self.old) reply
            (cluster_of K.kept self.new)) }
    {
        let Some(database) = command.name() else {
            unreachable!();
        };
        let Some(i) = self.index_of(database) else {
            let database = database.copy(self.alloc)?;
            return Ok(Reply::Refused(Refusal::NoDatabase { database }));
        };
        let named = &mut self.databases[i];
        let was_up = named.database.is_up();
        let served = named.database.obey(command);
        let risen = came_up(was_up, named.database.is_up());
        forget(&mut self.held, database, risen);
        match served {
            Ok(done) => answered(self.alloc, database, done),
            Err(fault) => refused(
                self.alloc,
                database,
                command.transaction(),
                command.table(),
                fault,
            ),
        }
    }

    /// Runs the next statement of the script of this name. A script ends behind its last statement, and where one is
    /// not accepted.
    fn walk(&mut self, name: &Text) -> Result<Reply, NoMemory>
        requires distinct { AreDistinct (cluster_of K.kept self.old).bases }
        ensures { IfOk result (λ reply. IsActed (ToStep name.now) (cluster_of K.kept self.old) reply
            (cluster_of K.kept self.new)) }
    {
        let Some(started) = self.scripts.remove(name.as_slice()) else {
            let name = name.copy(self.alloc)?;
            return Ok(Reply::Refused(Refusal::NoScript { name }));
        };
        let walked = run_next(self.alloc, &mut self.databases, &started);
        put_back(self.alloc, &mut self.scripts, name, started, walked)
    }

    /// Begins a script.
    fn start(&mut self, name: &Text, reading: Reading) -> Result<Reply, NoMemory>
        ensures { IfOk result (λ reply. IsActed (ToRead name.now reading) (cluster_of K.kept self.old) reply
            (cluster_of K.kept self.new)) }
    {
        start_script(self.alloc, &mut self.scripts, name, reading)
    }

    /// Ends a script.
    fn end(&mut self, name: &Text) -> Result<Reply, NoMemory>
        ensures { IfOk result (λ reply. IsActed (ToForget name.now) (cluster_of K.kept self.old) reply
            (cluster_of K.kept self.new)) }
    {
        end_script(self.alloc, &mut self.scripts, name)
    }

    /// Turns the slon of a node on, if a database is the node.
    fn turn_on(&mut self, node: u32) -> Result<Reply, NoMemory>
        ensures { IfOk result (λ reply. IsActed (ToStart node) (cluster_of K.kept self.old) reply
            (cluster_of K.kept self.new)) }
    {
        if !has_node(&self.databases, node) {
            return Ok(Reply::Refused(Refusal::NoNode { node }));
        }
        add_slon(&mut self.started, node)?;
        Ok(Reply::Accepted(Answer::Done))
    }

    /// Turns the slon of a node off, if a database is the node. What was held there is forgotten.
    fn turn_off(&mut self, node: u32) -> Reply
        requires distinct { AreDistinct (cluster_of K.kept self.old).bases }
        ensures { IsActed (ToStop node) (cluster_of K.kept self.old) result (cluster_of K.kept self.new) }
    {
        let Some(i) = index_of_node(&self.databases, node) else {
            return Reply::Refused(Refusal::NoNode { node });
        };
        forget(&mut self.held, &self.databases[i].name, true);
        remove_slon(&mut self.started, node);
        Reply::Accepted(Answer::Done)
    }

    /// Cuts two nodes off from one another.
    fn cut(&mut self, node: u32, other: u32) -> Result<Reply, NoMemory>
        ensures { IfOk result (λ reply. IsActed (ToCut node other) (cluster_of K.kept self.old) reply
            (cluster_of K.kept self.new)) }
    {
        add_cut(&mut self.cuts, node, other)?;
        Ok(Reply::Accepted(Answer::Done))
    }

    /// Joins two nodes again.
    fn join(&mut self, node: u32, other: u32) -> Reply
        ensures { IsActed (ToJoin node other) (cluster_of K.kept self.old) result (cluster_of K.kept self.new) }
    {
        remove_cut(&mut self.cuts, node, other);
        Reply::Accepted(Answer::Done)
    }

    /// The slon of a node has its turn to emit a SYNC.
    fn sync(&mut self, node: u32) -> Result<Reply, NoMemory>
        requires distinct { AreDistinct (cluster_of K.kept self.old).bases }
        ensures { IfOk result (λ reply. IsActed (ToSync node) (cluster_of K.kept self.old) reply
            (cluster_of K.kept self.new)) }
    {
        take_sync(self.alloc, &mut self.databases, &self.started, node)
    }

    /// The slon of a node has its turn to poll a server.
    fn listen(&mut self, node: u32, server: u32, delivery: Delivery) -> Result<Reply, NoMemory>
        requires distinct { AreDistinct (cluster_of K.kept self.old).bases }
        requires id { IsId server }
        ensures { IfOk result (λ reply. IsActed (ToListen node server delivery) (cluster_of K.kept self.old) reply
            (cluster_of K.kept self.new)) }
    {
        let cut = are_cut(self.cuts.as_slice(), node, server);
        let listen = Listen {
            node,
            server,
            delivery,
            cut,
        };
        take_poll(
            self.alloc,
            &mut self.databases,
            &mut self.held,
            &self.started,
            listen,
        )
    }

    /// The slon of a node has its turn to fetch what comes with an event of an origin.
    fn fetch(&mut self, node: u32, origin: u32) -> Result<Reply, NoMemory>
        requires distinct { AreDistinct (cluster_of K.kept self.old).bases }
        requires id { IsId origin }
        ensures { IfOk result (λ reply. IsActed (ToFetch node origin) (cluster_of K.kept self.old) reply
            (cluster_of K.kept self.new)) }
    {
        let on = Switched {
            started: &self.started,
            cuts: &self.cuts,
        };
        let work = Work {
            node,
            origin,
            aim: Aim::Fetch,
        };
        take_work(self.alloc, &mut self.databases, &mut self.held, on, work)
    }

    /// The slon of a node has its turn to apply an event of an origin.
    fn work(&mut self, node: u32, origin: u32) -> Result<Reply, NoMemory>
        requires distinct { AreDistinct (cluster_of K.kept self.old).bases }
        requires id { IsId origin }
        ensures { IfOk result (λ reply. IsActed (ToWork node origin) (cluster_of K.kept self.old) reply
            (cluster_of K.kept self.new)) }
    {
        let on = Switched {
            started: &self.started,
            cuts: &self.cuts,
        };
        let work = Work {
            node,
            origin,
            aim: Aim::Apply,
        };
        take_work(self.alloc, &mut self.databases, &mut self.held, on, work)
    }

    /// Grants a new database, has a database that is there obey, steps and ends scripts, turns slons on and off and
    /// gives them their turns, and cuts nodes off from one another.
    fn obey(&mut self, command: &Command) -> Result<Reply, NoMemory>
        requires spoken { IsSpoken command.now }
        requires distinct { AreDistinct (cluster_of K.kept self.old).bases }
        requires read { is_reading (subject_of command.now) ≡ false }
        ensures moves { IfOk result (λ reply. Moves command.now (cluster_of K.kept self.old) reply
            (cluster_of K.kept self.new)) }
        ensures spares { takes_none (subject_of command.now) ≡ true → is_ok result ≡ true }
    {
        match command {
            Command::Database { name } => self.grant(name),
            Command::Slonik { .. } => unreachable!(),
            Command::Step { script } => self.walk(script),
            Command::Kill { script } => self.end(script),
            Command::Start { node } => self.turn_on(*node),
            Command::Stop { node } => Ok(self.turn_off(*node)),
            Command::Cut { node, other } => self.cut(*node, *other),
            Command::Join { node, other } => Ok(self.join(*node, *other)),
            Command::Sync { node } => self.sync(*node),
            Command::Listen {
                node,
                server,
                delivery,
            } => self.listen(*node, *server, *delivery),
            Command::Fetch { node, origin } => self.fetch(*node, *origin),
            Command::Work { node, origin } => self.work(*node, *origin),
            _ => self.ask(command),
        }
    }

    /// Runs a command that a session can say, and replies. A new database is only granted: `adopt` makes it over its
    /// store.
    ///
    /// # Errors
    ///
    /// `NoMemory` where there is none, and for a command of a script with an id out of its range or a text above
    /// 4,294,967,295 bytes, which no script has that was read.
    pub fn step(&mut self, command: Command) -> Result<Reply, NoMemory>
        requires spoken { IsSpoken command }
        requires distinct { AreDistinct (cluster_of K.kept self.old).bases }
        ensures moves { IfOk result (λ reply. Moves command (cluster_of K.kept self.old) reply
            (cluster_of K.kept self.new)) }
        ensures steps { IfOk result (λ reply. Steps command (cluster_of K.kept self.old) reply
            (cluster_of K.kept self.new)) }
        ensures cause { IfOk result (λ reply. ReplyCaused reply (cluster_of K.kept self.old)
            (cluster_of K.kept self.new)) }
        ensures certain { IfOk result (λ reply. StaysCertain command (cluster_of K.kept self.old) reply
            (cluster_of K.kept self.new)) }
        ensures quiet { IfOk result (λ reply. StaysQuiet reply (cluster_of K.kept self.old)
            (cluster_of K.kept self.new)) }
        ensures distinct { IfOk result (λ reply. AreDistinct (cluster_of K.kept self.new).bases) }
        ensures subscribes { IfOk result (λ reply. Subscribes command (cluster_of K.kept self.old) reply
            (cluster_of K.kept self.new)) }
        ensures spares { takes_none (subject_of command) ≡ true → is_ok result ≡ true }
    {
        match command {
            Command::Slonik { script, reading } => self.start(&script, reading),
            other => self.obey(&other),
        }
    }

    /// Keeps a database behind the others.
    fn keep(&mut self, name: Text, database: Database<K>) -> Result<(), NoMemory>
        ensures { IfOk result (λ _. cluster_of K.kept self.new ≡ calls.with_base_behind name
            (base_of K.kept database) (cluster_of K.kept self.old)) }
    {
        add_database(&mut self.databases, Named { name, database })?;
        Ok(())
    }

    /// Makes a database of this name over its store, which begins empty, and replies. Where the store fails, the
    /// database is there and down. Where it holds a row, there is no such database.
    ///
    /// # Errors
    ///
    /// `NoMemory` where there is none, and where 4,294,967,295 stores were given before.
    pub fn adopt(&mut self, name: Text, keeper: K) -> Result<Reply, NoMemory>
        ensures adopts { IfOk result (λ reply. Adopts name (K.kept keeper) (cluster_of K.kept self.old) reply
            (cluster_of K.kept self.new)) }
        ensures makes { (K.kept keeper).held ≡ Some nothing →
            IfOk result (λ reply. Makes name (cluster_of K.kept self.old) reply (cluster_of K.kept self.new)) }
        ensures done { (K.kept keeper).held ≡ Some nothing → (K.kept keeper).can_fail ≡ Some 0 →
            IfOk result (λ reply. reply ≡ IsAccepted IsDone) }
        ensures cause { IfOk result (λ reply. MakingReplyCaused name (K.kept keeper) reply (cluster_of K.kept self.old)
            (cluster_of K.kept self.new)) }
        ensures certain { IfOk result (λ reply. MakesCertain (K.kept keeper) (cluster_of K.kept self.old) reply
            (cluster_of K.kept self.new)) }
        ensures quiet { IfOk result (λ reply. StaysQuiet reply (cluster_of K.kept self.old)
            (cluster_of K.kept self.new)) }
        ensures subscribes { (K.kept keeper).held ≡ Some nothing →
            IfOk result (λ reply. SubscribesMade name (cluster_of K.kept self.old) reply
            (cluster_of K.kept self.new)) }
        ensures distinct { find_named name (cluster_of K.kept self.old).bases ≡ None →
            AreDistinct (cluster_of K.kept self.old).bases →
            IfOk result (λ reply. AreDistinct (cluster_of K.kept self.new).bases) }
    {
        let Some(given) = self.given.checked_add(1) else {
            return Err(NoMemory);
        };
        self.given = given;
        let (database, created) = Database::create(self.alloc, Fuse::new(keeper));
        match created {
            Ok(()) => {
                self.keep(name, database)?;
                Ok(Reply::Accepted(Answer::Done))
            }
            Err(fault) => {
                if is_not_empty(fault) {
                    return Ok(Reply::Refused(Refusal::NotEmpty { database: name }));
                }
                let reply = refused(self.alloc, &name, None, None, fault)?;
                self.keep(name, database)?;
                Ok(reply)
            }
        }
    }
}
