// A store whose device is its caller.
ghost use Rattle.std.specs.Prelude.{◌≡◌, ◌↔◌, [], IfOk, IfErr, IsTrue};
ghost use Rattle.std.specs.List.{All};
ghost use Rattle.deferred_disk.specs.Bytes.{orders_bytes};
ghost use Rattle.deferred_disk.specs.Disk.{pending_of};
ghost use Rattle.pazturrok_c.specs.Engine.{AreOutcomesTold, ExecutesMany, IsOutcomeTold, IsBarredByOrders, ExecutesText, IsOpenedOn, StoreTakesSnapshot, IsUnopenedOn, mode_in};
ghost use Rattle.pazturrok_c.specs.Messages.{AnswersAll, AreRepliesTold, EngineBeginsMessages, IsReplyOrRefusalTold};
ghost use Rattle.prevalence_store.specs.calls.Execute.{IsProperOutcome};

use crate::answer::{EngineStore, printed};
use crate::done::{RequestHead, Setting};
use crate::many::{answers_to, texts_of};
use crate::requests::{requests_of, told_of};
use deferred_disk::DeferredDisk;
use disk_trait::Disk;
use fixed_macros::Fixed;
use lisp_object::refusal::{NO_MEMORY, REOPEN};
use messages::Replies;
use plist_state::Seed;
use prevalence_store::{Mode, Outcome, Store};
use six_functions::SixFunctions;
use std::alloc::Global;

/// A store with the six macro functions over a disk whose calls its caller does, and what it answered last.
pub struct Engine {
    alloc: Global,
    store: EngineStore,
    answer: Vec<u8>,
}

impl Drop for Engine {
    fn drop(self) {
        let Engine {
            alloc: _,
            store,
            answer,
        } = self;
        let _closed = store.close();
        drop(answer);
    }
}

fn mode_of(rescue: bool) -> Mode
    ensures { result ≡ mode_in rescue }
{
    if rescue { Mode::Rescue } else { Mode::Current }
}

impl Engine {
    ghost use Rattle.pazturrok_c.specs.EngineCalls.{AreOrdersPerformed};

    /// Opens the store of two files that hold these bytes. Else the number of the refusal: where the store is not
    /// opened on them, or there was no memory for a copy.
    pub(crate) fn open(
        alloc: Global,
        a: Vec<u8>,
        b: Vec<u8>,
        setting: &Setting,
    ) -> Result<Engine, u16>
        ensures opened { IfOk result (λ engine. IsOpenedOn a.items b.items setting.now.limit engine.store) }
        ensures refused { IfErr result (IsUnopenedOn a.items b.items setting.now.limit) }
    {
        let disk = DeferredDisk::new(alloc, a, b);
        let macros = Fixed::new(alloc, SixFunctions::new());
        let seed = Seed::new(setting.seed_first, setting.seed_second);
        match Store::open_with_seed(alloc, disk, macros, setting.limit, seed) {
            Ok(store) => Ok(Engine {
                alloc,
                store,
                answer: Vec::new(alloc),
            }),
            Err(unopened) => Err(unopened.number),
        }
    }

    // Whether all orders were reported done.
    fn is_done(&self) -> bool
        ensures { IsTrue result ↔ (pending_of self.now.store.disk ≡ []) }
    {
        self.store.disk().is_done()
    }

    /// The orders that were not reported done, as bytes.
    pub(crate) fn orders(&self) -> &[u8]
        ensures { result.now ≡ orders_bytes (pending_of self.now.store.disk) }
    {
        self.store.disk().orders()
    }

    /// The last answer.
    pub(crate) fn answer(&self) -> &[u8]
        ensures { result.now ≡ self.now.answer.items }
    {
        &self.answer
    }

    /// Executes a form, unless orders are open.
    pub(crate) fn execute(&mut self, rescue: bool, text: &[u8]) -> u16
        ensures barred { IsBarredByOrders (pending_of self.old.store.disk) self.old self.new result }
        ensures executes { pending_of self.old.store.disk ≡ [] → ExecutesText self.old.store self.new.store
            (mode_in rescue) text.now result self.new.answer.items }
    {
        if !self.is_done() {
            return REOPEN;
        }
        let outcome = self.store.execute(mode_of(rescue), text);
        self.answer_to(&outcome)
    }

    // Keeps the answer to a form, and gives the number.
    fn answer_to(&mut self, outcome: &Outcome) -> u16
        requires { IsProperOutcome outcome.now }
        ensures store { self.new.store ≡ self.old.store }
        ensures answered { IsOutcomeTold self.new.store.world outcome.now result self.new.answer.items }
    {
        match outcome {
            Outcome::Accepted(value) => match printed(self.alloc, &self.store, value) {
                Ok(answer) => {
                    self.answer = answer;
                    0
                }
                Err(_) => NO_MEMORY,
            },
            Outcome::Snapshotted => 0,
            Outcome::Refused(number) => *number,
        }
    }

    /// Executes the forms whose texts end at these places, unless orders are open.
    pub(crate) fn execute_all(&mut self, rescue: bool, texts: &[u8], ends: &[u64]) -> u16
        ensures barred { IsBarredByOrders (pending_of self.old.store.disk) self.old self.new result }
        ensures executes { pending_of self.old.store.disk ≡ [] → ExecutesMany self.old.store self.new.store
            (mode_in rescue) texts.now ends.now result self.new.answer.items }
    {
        if !self.is_done() {
            return REOPEN;
        }
        let Ok(texts) = texts_of(self.alloc, texts, ends) else {
            return NO_MEMORY;
        };
        let Ok(outcomes) = self.store.execute_all(mode_of(rescue), &texts) else {
            return NO_MEMORY;
        };
        self.answer_to_all(&outcomes)
    }

    // Keeps the answers to forms, and gives the number.
    fn answer_to_all(&mut self, outcomes: &[Outcome]) -> u16
        requires { All IsProperOutcome outcomes.now }
        ensures store { self.new.store ≡ self.old.store }
        ensures answered { AreOutcomesTold self.new.store.world outcomes.now result self.new.answer.items }
    {
        match answers_to(self.alloc, &self.store, outcomes) {
            Ok(answer) => {
                self.answer = answer;
                0
            }
            Err(_) => NO_MEMORY,
        }
    }

    /// Begins with messages, unless orders are open. Gives the position.
    pub(crate) fn begin_messages(&mut self, position: &mut u64) -> u16
        ensures barred { IsBarredByOrders (pending_of self.old.store.disk) self.old self.new result }
        ensures begins { pending_of self.old.store.disk ≡ []
            → EngineBeginsMessages self.old.store self.new.store result position.new }
    {
        if !self.is_done() {
            return REOPEN;
        }
        match messages::begin_messages(&mut self.store) {
            Ok(number) => {
                *position = number;
                0
            }
            Err(number) => number,
        }
    }

    /// Answers the requests whose texts end at these places, after the message of the last number, unless orders are open.
    pub(crate) fn answer_requests(&mut self, last: u64, texts: &[u8], heads: &[RequestHead]) -> u16
        ensures barred { IsBarredByOrders (pending_of self.old.store.disk) self.old self.new result }
        ensures answers { pending_of self.old.store.disk ≡ [] → AnswersAll self.old.store self.new.store
            last texts.now heads.now result self.new.answer.items }
    {
        if !self.is_done() {
            return REOPEN;
        }
        let Ok(requests) = requests_of(self.alloc, texts, heads) else {
            return NO_MEMORY;
        };
        let given = messages::answer_requests(&mut self.store, last, &requests);
        self.tell_given(&given)
    }

    // Keeps what is told of what the store gave, and gives the number.
    fn tell_given(&mut self, given: &Result<Replies, u16>) -> u16
        ensures store { self.new.store ≡ self.old.store }
        ensures told { IsReplyOrRefusalTold given.now result self.new.answer.items }
    {
        match given {
            Ok(replies) => self.tell_replies(replies),
            Err(number) => *number,
        }
    }

    // Keeps what is told of replies, and gives the number.
    fn tell_replies(&mut self, replies: &Replies) -> u16
        ensures store { self.new.store ≡ self.old.store }
        ensures told { AreRepliesTold replies.now result self.new.answer.items }
    {
        match told_of(self.alloc, &replies.answers) {
            Ok(answer) => {
                self.answer = answer;
                0
            }
            Err(_) => NO_MEMORY,
        }
    }

    /// Takes a snapshot, unless orders are open.
    pub(crate) fn snapshot(&mut self) -> u16
        ensures barred { IsBarredByOrders (pending_of self.old.store.disk) self.old self.new result }
        ensures snapshots { pending_of self.old.store.disk ≡ []
            → StoreTakesSnapshot self.old.store self.new.store result }
    {
        if !self.is_done() {
            return REOPEN;
        }
        match self.store.snapshot() {
            Outcome::Refused(number) => number,
            _ => 0,
        }
    }

    /// Says that so many bytes of orders were carried out.
    pub(crate) fn report_done(&mut self, count: usize)
        ensures { AreOrdersPerformed self.old self.new count }
    {
        self.store.report_done(count);
    }

    /// The generation of the half in use.
    pub(crate) fn generation(&self) -> u64
        ensures { result ≡ self.now.store.generation }
    {
        self.store.generation()
    }

    /// How many records the half in use has.
    pub(crate) fn record_count(&self) -> u64
        ensures { result ≡ self.now.store.record_count }
    {
        self.store.record_count()
    }

    /// The version of the half in use.
    pub(crate) fn version(&self) -> u16
        ensures { result ≡ self.now.store.version }
    {
        self.store.version()
    }
}
