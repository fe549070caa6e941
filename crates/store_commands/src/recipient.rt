// Who gets the lines of sessions in a row.
ghost use Rattle.std.specs.Prelude.{◌≡◌, None, Some};
ghost use Rattle.sessions.specs.Account.{Account, AreUnderWay};
ghost use Rattle.store_commands.specs.Accounts.{BeginsAccount};

use disk_trait::Disk;
use prevalence_store::{Mode, Store};
use sessions::Recipient;
use std::io::{Read, Write};
use user_macros::MacroFunctions;

/// Who gets the lines of sessions in a row over a store, and is told as each of them begins: its account, if it keeps one, is of that
/// session from then on. `first` is the account as the first of them began.
///
/// Each `Write` is one that keeps no account.
pub trait SessionRecipient<D: Disk, M: MacroFunctions, I: Read>: Recipient<D, M> {
    /// The first session begins, over this store and this input.
    fn begin(&mut self, store: &Store<D, M>, input: &I, mode: Mode)
        requires none { Self.account self.old ≡ None }
        ensures begins { BeginsAccount mode (I.remaining input.now) store.now (Self.account self.new) }
        ensures first { Self.first self.new ≡ Self.account self.new }
        ensures unwritten { Self.contents self.new ≡ Self.contents self.old };

    /// Another session begins, where the last one ended: what was done since lines were last handed on acknowledges nothing.
    fn begin_again(&mut self, store: &Store<D, M>, input: &I, mode: Mode)
        requires under_way { (kept : Account D) → Self.account self.old ≡ Some kept
            → AreUnderWay M.Meaning.functions D.state kept store.now }
        ensures begins { BeginsAccount mode (I.remaining input.now) store.now (Self.account self.new) }
        ensures first { Self.first self.new ≡ Self.first self.old }
        ensures unwritten { Self.contents self.new ≡ Self.contents self.old };
}

impl<D: Disk, M: MacroFunctions, I: Read, W: Write> SessionRecipient<D, M, I> for W {
    fn begin(&mut self, _store: &Store<D, M>, _input: &I, _mode: Mode) {}

    fn begin_again(&mut self, _store: &Store<D, M>, _input: &I, _mode: Mode) {}
}
