// Who gets the answers of a session.
ghost use Rattle.std.specs.Prelude.{◌≡◌, ℕ, List, map, Option, None, Some, OnOk, OnErr};
ghost use Rattle.std.specs.Option.{option_map};
ghost use Rattle.message_frames.specs.Frames.{position_bytes, sent_frame};
ghost use Rattle.message_session.specs.Account.{MessageAccount, AnswersAreStored, IsPositionToldIn, first_message_account, with_frames};
ghost use Rattle.plist_state.specs.State.{WorldState};
ghost use Rattle.sessions.specs.Streams.{Writes, WritesPart};

use disk_trait::Disk;
use message_frames::MessageFrame;
use prevalence_store::Store;
use sessions::OutputFault;
use std::io::Write;
use user_macros::MacroFunctions;

/// Who gets the position and the answers of a session over a store. A session knows no other way to it, and does not touch the disk
/// there: so at whatever moment answers go out, what their messages wrote is stored, with its position, and they answer the next frames
/// of its input.
///
/// Each `Write` is one that keeps no account.
pub trait AnswerRecipient<D: Disk, R: MacroFunctions> {
    /// The bytes that it holds, where they are known.
    ghost contents: { Self → Option (List ℕ) };

    /// The account that it keeps of its session from the position on, if it keeps one.
    ghost account: { Self → Option (MessageAccount D) };

    /// What the reader of its session had before it was read, if it tells that.
    ghost input: { Self → Option (List ℕ) };

    /// Takes the bytes that tell the position whole, or a part of them from their front. An account begins with it.
    fn write_position(
        &mut self,
        store: &Store<D, R>,
        bytes: &[u8],
        position: u64,
    ) -> Result<(), OutputFault>
        requires begins { (kept : MessageAccount D) → account self.old ≡ Some kept → ⊥ }
        requires told { bytes.now ≡ position_bytes position }
        requires in_world { (world : WorldState) → store.now.world ≡ Some world
            → IsPositionToldIn position world }
        ensures whole { OnOk result (Writes (contents self.old) (contents self.new) bytes.now) }
        ensures part { OnErr result (WritesPart (contents self.old) (contents self.new) bytes.now) }
        ensures kept { (later : MessageAccount D) → account self.new ≡ Some later
            → (world : WorldState) × (store.now.world ≡ Some world)
            × (later ≡ first_message_account (input self.old) position world store.now.disk) }
        ensures input { input self.new ≡ input self.old };

    /// Takes the answers to these frames whole, or a part of them from their front.
    fn write_answers(
        &mut self,
        store: &Store<D, R>,
        bytes: &[u8],
        frames: &[MessageFrame<'_>],
    ) -> Result<(), OutputFault>
        requires stored { (kept : MessageAccount D) → account self.old ≡ Some kept
            → AnswersAreStored R.Meaning.functions D.state kept store.now
            (map sent_frame frames.now) bytes.now }
        ensures whole { OnOk result (Writes (contents self.old) (contents self.new) bytes.now) }
        ensures part { OnErr result (WritesPart (contents self.old) (contents self.new) bytes.now) }
        ensures kept { (later : MessageAccount D) → account self.new ≡ Some later
            → option_map (with_frames R.Meaning.functions (map sent_frame frames.now) store.now)
            (account self.old) ≡ Some later }
        ensures input { input self.new ≡ input self.old };
}

impl<D: Disk, R: MacroFunctions, W: Write> AnswerRecipient<D, R> for W {
    ghost contents = { W.contents };

    ghost account = { λ _. None };

    ghost input = { λ _. None };

    fn write_position(
        &mut self,
        _store: &Store<D, R>,
        bytes: &[u8],
        _position: u64,
    ) -> Result<(), OutputFault> {
        write_whole(self, bytes)
    }

    fn write_answers(
        &mut self,
        _store: &Store<D, R>,
        bytes: &[u8],
        _frames: &[MessageFrame<'_>],
    ) -> Result<(), OutputFault> {
        write_whole(self, bytes)
    }
}

/// Writes a text whole, and flushes it. Where a write fails or takes nothing, a part of it was written, from its front.
pub(crate) fn write_whole<O: Write>(output: &mut O, text: &[u8]) -> Result<(), OutputFault>
    ensures whole { OnOk result (Writes (O.contents output.old) (O.contents output.new) text.now) }
    ensures part { OnErr result (WritesPart (O.contents output.old) (O.contents output.new) text.now) }
{
    match write_text(output, text) {
        Ok(()) => {
            // the answers were taken, so a flush that fails ends no session
            let _flushed = output.flush();
            Ok(())
        }
        Err(fault) => Err(fault),
    }
}

// Writes a text whole, or a part of it from its front.
fn write_text<O: Write>(output: &mut O, text: &[u8]) -> Result<(), OutputFault>
    ensures whole { OnOk result (Writes (O.contents output.old) (O.contents output.new) text.now) }
    ensures part { OnErr result (WritesPart (O.contents output.old) (O.contents output.new) text.now) }
{
    let mut rest = text;
    'pieces: while !rest.is_empty() {
        let Ok(count) = output.write(rest) else {
            return Err(OutputFault);
        };
        if count == 0 {
            return Err(OutputFault);
        }
        rest = &rest[count..];
    }
    Ok(())
}
