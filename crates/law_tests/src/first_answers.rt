//! A recipient that keeps account of a session of messages up to its first answers, and what follows where these messages are fed again.
ghost use Rattle.std.specs.Prelude.{◌≡◌, ◌++◌, ◌<◌, ◌-◌, ◌^◌, ℕ, List, None, Some, map};
ghost use Rattle.disk_trait.specs.Disk.{Image, IsHonest};
ghost use Rattle.feeding_laws.specs.Feeding.{FeedsAgain, HaveNoNames};
ghost use Rattle.message_frames.specs.Frames.{Sent, sent_frame};
ghost use Rattle.message_session.specs.Account.{MessageAccount, AnswersAreStored, IsPositionToldIn, first_message_account};
ghost use Rattle.plist_state.specs.Sound.{IsSoundWorldState};
ghost use Rattle.plist_state.specs.State.{WorldState};
ghost use Rattle.prevalence_store.specs.Theorem.{Keeps};
ghost use Rattle.law_tests.specs.FirstAnswers.{account_by};
ghost use Rattle.prevalence_store.specs.meaning.Files.{MeansWorld};

use crate::AMPLE;
use disk_trait::{Disk, MemoryDisk};
use feeding_laws::feeding_again;
use message_frames::MessageFrame;
use message_session::{AnswerRecipient, MessagesEnd, serve_messages};
use prevalence_store::Store;
use sessions::OutputFault;
use std::alloc::{AllocError, Global};
use std::snapshot::Snapshot;
use std::test::Fail;
use user_macros::{MacroFunctions, Macros, NoFunctions};

/// What a session wrote; and its position, with the store as it was told, until the first answers come.
pub struct FirstAnswers<D: Disk, M: MacroFunctions> {
    bytes: Vec<u8>,
    position: Option<u64>,
    start: Snapshot<Store<D, M>>,
}

impl<D: Disk, M: MacroFunctions> FirstAnswers<D, M> {
    /// Its account begins with this position, as it is told over this store. If the store has no world, it keeps none.
    fn begin(&mut self, store: &Store<D, M>, position: u64)
        ensures bytes { self.new.bytes ≡ self.old.bytes }
        ensures kept { (later : MessageAccount D) → account_by self.new.position self.new.start.value ≡ Some later
            → (world : WorldState) × (store.now.world ≡ Some world) × (later ≡ first_message_account None position world store.now.disk) }
    {
        if store.is_open() {
            self.start = Snapshot::of(store);
            self.position = Some(position);
        } else {
            self.position = None;
        }
    }

    /// Does nothing. The answers to the first frames are handed on with this store: whatever a crash leaves at any moment since the position
    /// was told, these frames and any later ones may be fed to it again, if none has a name.
    fn may_feed_again(&self, store: &Store<D, M>, bytes: &[u8], frames: &[MessageFrame<'_>])
        requires stored { (kept : MessageAccount D) → account_by self.now.position self.now.start.value ≡ Some kept
            → AnswersAreStored M.Meaning.functions D.state kept store.now (map sent_frame frames.now) bytes.now }
        ensures { (kept : MessageAccount D) → account_by self.now.position self.now.start.value ≡ Some kept
            → IsPositionToldIn kept.last kept.now → IsSoundWorldState kept.now
            → IsHonest (D.state kept.disk) → Keeps M.Meaning.functions (D.state kept.disk) kept.now
            → (more : List Sent) (image : Image) (now : WorldState)
            → HaveNoNames (map sent_frame frames.now) → HaveNoNames more
            → (D.state store.now.disk).left_since (D.state kept.disk).moment image → MeansWorld M.Meaning.functions image now
            → FeedsAgain M.Meaning.functions kept.last kept.now (map sent_frame frames.now ++ more) now }
    {
        feeding_again::<D, M>();
        let _ = store;
        let _ = bytes;
        let _ = frames;
    }
}

impl<D: Disk, M: MacroFunctions> AnswerRecipient<D, M> for FirstAnswers<D, M> {
    ghost contents = { λ k. Some k.bytes.items };

    ghost account = { λ k. account_by k.position k.start.value };

    ghost input = { λ _. None };

    fn write_position(
        &mut self,
        store: &Store<D, M>,
        bytes: &[u8],
        position: u64,
    ) -> Result<(), OutputFault> {
        self.begin(store, position);
        self.bytes.write_position(store, bytes, position)
    }

    fn write_answers(
        &mut self,
        store: &Store<D, M>,
        bytes: &[u8],
        frames: &[MessageFrame<'_>],
    ) -> Result<(), OutputFault> {
        self.may_feed_again(store, bytes, frames);
        self.position = None;
        self.bytes.write_answers(store, bytes, frames)
    }
}

/// What a session of messages over the store that a disk holds writes to such a recipient.
fn written<D: Disk + Drop, M: MacroFunctions + Drop>(
    alloc: Global,
    disk: D,
    macros: M,
    input: &[u8],
) -> Result<Vec<u8>, AllocError>
    requires room { (D.state disk).failures < 2 ^ 64 - 1 }
    requires answers { M.answers macros }
{
    let Ok(mut store) = Store::open(alloc, disk, macros, AMPLE) else {
        return Err(AllocError);
    };
    let mut output = FirstAnswers {
        bytes: Vec::new(alloc),
        position: None,
        start: Snapshot::of(&store),
    };
    let mut reader = input;
    let ended = serve_messages(alloc, &mut store, &mut reader, &mut output, 0);
    let _closed = store.close();
    let FirstAnswers {
        bytes,
        position: _,
        start: _,
    } = output;
    match ended {
        MessagesEnd::End => Ok(bytes),
        _ => Err(AllocError),
    }
}

#[test]
fn the_first_answers_are_handed_on(rt: HostRuntime) -> Result<(), Fail> {
    let alloc = rt.alloc();
    let disk = MemoryDisk::new(alloc);
    let macros = Macros::new(alloc, NoFunctions);
    let bytes = written(alloc, disk, macros, b"do 1 20\n(SETF (GET 'A 'B) 7)\n")?;
    assert!(rt; bytes.as_slice() == b"at 0\n1 1\n7\n".as_slice());
    Ok(())
}
