//! A session over what is fed again.
ghost use Rattle.std.specs.Prelude.{◌≡◌, ◌<◌, ◌-◌, ◌^◌, ℕ, List, Some};
ghost use Rattle.std.specs.List.{AllByRecursion, flat_map};
ghost use Rattle.feeding_laws.specs.Feeding.{AreAnsweredAgain, FeedsAgain, over, told_position};
ghost use Rattle.message_frames.specs.Frames.{IsFrame, Sent, frame_bytes};
ghost use Rattle.message_session.specs.MessageSessions.{text_limit};
ghost use Rattle.plist_state.specs.State.{WorldState};
ghost use Rattle.messages.specs.Position.{position};

use disk_trait::{Disk, MemoryDisk};
use feeding_laws::{fed_sessions, feeding_on};
use message_session::{MessagesEnd, serve_messages};
use prevalence_store::Store;
use std::alloc::{AllocError, Global};
use std::io::{Read, Write};
use std::test::Fail;
use user_macros::{MacroFunctions, Macros, NoFunctions};

/// A limit that no file of a test comes near.
const AMPLE: u64 = 1 << 30;

/// A session over a store that has a position. If its input are just the messages over it, of frames that may be fed again, and it comes to its
/// end, it writes the answers that were given, and leaves the world after all (`again`).
///
/// `twice`: so it does where the store was stopped once more before, with the world in the middle.
fn feed_again<D: Disk, M: MacroFunctions, I: Read, O: Write>(
    alloc: Global,
    store: &mut Store<D, M>,
    input: &mut I,
    output: &mut O,
) -> MessagesEnd
    ensures again { (last p : ℕ) (first now : WorldState) (frames : List Sent)
        → store.old.world ≡ Some now → FeedsAgain M.Meaning.functions last first frames now → position now ≡ Some p
        → AllByRecursion (IsFrame text_limit) frames
        → I.remaining input.old ≡ Some (flat_map frame_bytes (over p frames))
        → result ≡ MessagesEnd.End
        → AreAnsweredAgain M.Meaning.functions store.new last first frames p (O.contents output.old) (O.contents output.new) }
    ensures twice { (last p : ℕ) (first middle now : WorldState) (frames : List Sent)
        → store.old.world ≡ Some now → FeedsAgain M.Meaning.functions last first frames middle
        → FeedsAgain M.Meaning.functions (told_position middle) middle (over (told_position middle) frames) now
        → position now ≡ Some p → AllByRecursion (IsFrame text_limit) frames
        → I.remaining input.old ≡ Some (flat_map frame_bytes (over p frames))
        → result ≡ MessagesEnd.End
        → AreAnsweredAgain M.Meaning.functions store.new last first frames p (O.contents output.old) (O.contents output.new) }
    ensures macros { store.new.macros ≡ store.old.macros }
{
    let ended = serve_messages(alloc, store, input, output, 0);
    fed_sessions::<D, M>();
    feeding_on();
    ended
}

/// Two sessions in a row over the store that a disk holds, over these inputs.
fn feed_both<D: Disk + Drop, M: MacroFunctions + Drop, I: Read, J: Read, O: Write>(
    alloc: Global,
    disk: D,
    macros: M,
    first: &mut I,
    second: &mut J,
    output: &mut O,
) -> Result<(), AllocError>
    requires room { (D.state disk).failures < 2 ^ 64 - 1 }
    requires answers { M.answers macros }
{
    let Ok(mut store) = Store::open(alloc, disk, macros, AMPLE) else {
        return Err(AllocError);
    };
    let _first = feed_again(alloc, &mut store, first, output);
    let _second = feed_again(alloc, &mut store, second, output);
    let _closed = store.close();
    Ok(())
}

/// What they write over fresh files.
fn written_by_both(alloc: Global, first: &[u8], second: &[u8]) -> Result<Vec<u8>, AllocError> {
    let disk = MemoryDisk::new(alloc);
    if disk.failures() > 0 {
        return Err(AllocError);
    }
    let mut output = Vec::new(alloc);
    let mut input = first;
    let mut later = second;
    let macros = Macros::new(alloc, NoFunctions);
    feed_both(alloc, disk, macros, &mut input, &mut later, &mut output)?;
    Ok(output)
}

const FIRST: &[u8] = b"do 1 20\n(SETF (GET 'A 'B) 7)\ndo 2 11\n(GET 'A 'B)\ndo 3 11\n(GET 'A 'C)\n";

/// The first message wrote, and the others came with it: the position is the last number.
const WRITTEN: &[u8] = b"at 0\n1 1\n7\n2 1\n7\n3 3\nNIL\nat 3\n2 15\n! 50 OLD-NUMBER\n4 1\n7\n";

#[test]
fn what_is_fed_again_is_done_once(rt: HostRuntime) -> Result<(), Fail> {
    let written = written_by_both(
        rt.alloc(),
        FIRST,
        b"do 2 11\n(GET 'A 'B)\ndo 4 11\n(GET 'A 'B)\n",
    )?;
    assert!(rt; written.as_slice() == WRITTEN);
    Ok(())
}
