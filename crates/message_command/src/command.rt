// A session of messages, as the words ask.
ghost use Rattle.std.specs.Prelude.{◌≡◌, ◌<◌, ◌-◌, ◌^◌, ℕ, Bool, List, [], map, None, Some, true};
ghost use Rattle.clap.specs.Words.{Text};
ghost use Rattle.command_words.specs.MessageLine.{message_faults, messages_in};
ghost use Rattle.store_commands.specs.Commands.{OpensFolder};
ghost use Rattle.store_commands.specs.Folders.{OpensStore};
ghost use Rattle.message_command.specs.Session.{ServesAfter, ServesOn, session_status};
ghost use Rattle.store_commands.specs.Status.{EndsAfter, TakesWords};
ghost use Rattle.store_commands.specs.declared.told.Remark.{Remark};
ghost use Rattle.user_macros.specs.Functions.{are_registered};

use command_words::{Messages, messages_in};
use disk_trait::{Disk, HostError};
use lisp_object::refusal::INPUT;
use message_session::{AnswerRecipient, MessagesEnd, serve_messages};
use messages::NO_POSITION;
use plist_state::Seed;
use std::convert::AsStr;
use std::fmt::Write as WriteText;
use std::io::{Read, Write};
use std::random::RandomSource;
use store_commands::{
    Folders, Opening, Remark, Status, TellsCause, answer_words, end_with, end_with_told,
    open_folder,
};
use user_macros::MacroFunctions;

/// Serves the frames of an input over the store in a folder, as the words ask (`Way::Messages` of `command_words`), and answers how that
/// ended. The first word is the program's name. What ends the session is told on `faults`. Where no store is opened, nothing is read or
/// written.
pub fn run_messages<R, M, S, I, O, F>(
    rt: &R,
    macros: M,
    words: &[S],
    input: &mut I,
    output: &mut O,
    faults: &mut F,
) -> Status
where
    R: Folders + RandomSource + AllocGlobal,
    M: MacroFunctions + Drop,
    S: AsStr,
    I: Read,
    O: Write,
    F: Write,
    requires answers { M.answers macros }
    ensures ends { EndsAfter (message_faults (map S.text words.now)) result }
    ensures opened { (folder : Text) (existing : Bool) (every : ℕ)
        → message_faults (map S.text words.now) ≡ []
        → messages_in (map S.text words.now) ≡ Some (folder, existing, every)
        → (told : Remark) × OpensFolder input.old input.new output.old output.new
        (OpensStore R.Disk.state R.Disk.tells (R.opens rt.now))
        (ServesAfter M.Meaning.functions R.Disk.state macros (are_registered M.Meaning.functions (M.functions macros))
        I.remaining O.contents input.old input.new output.old output.new None result)
        folder existing result told }
{
    match messages_in(rt.alloc(), words) {
        Ok(messages) => serve_asked(rt, macros, messages, input, output, faults),
        Err(error) => {
            let status = answer_words(&error, output, faults);
            end_with(faults, status)
        }
    }
}

// Opens the folder, and serves.
fn serve_asked<R, M, I, O, F>(
    rt: &R,
    macros: M,
    messages: Messages<'_>,
    input: &mut I,
    output: &mut O,
    faults: &mut F,
) -> Status
where
    R: Folders + RandomSource + AllocGlobal,
    M: MacroFunctions + Drop,
    I: Read,
    O: Write,
    F: Write,
    requires answers { M.answers macros }
    ensures taken { TakesWords result }
    ensures opened { (told : Remark) × OpensFolder input.old input.new output.old output.new
        (OpensStore R.Disk.state R.Disk.tells (R.opens rt.now))
        (ServesAfter M.Meaning.functions R.Disk.state macros (are_registered M.Meaning.functions (M.functions macros))
        I.remaining O.contents input.old input.new output.old output.new None result)
        messages.entry.folder.now messages.entry.existing result told }
{
    let Ok(seed) = Seed::draw(rt) else {
        return end_with(faults, Status::Fault(INPUT));
    };
    let disk = match open_folder(rt, messages.folder, messages.existing) {
        Ok(disk) => disk,
        Err(error) => {
            let status = Status::of_host(&error);
            return end_with_told(faults, status, &Remark::Cause(error), messages.folder);
        }
    };
    let alloc = rt.alloc();
    let opening = Opening {
        alloc,
        disk,
        macros,
        seed,
    };
    let (ended, disk) = serve_on(opening, messages.snapshot_every, input, output);
    end_after(faults, ended, &disk, messages.folder)
}

/// Serves the frames of an input over the store that a disk holds. Gives how it ended, and the disk as the store left it. Where no store is
/// opened, nothing is read or written.
///
/// It knows no way to the output but that of a session (`AnswerRecipient`): so nothing goes there that is not stored by then. What is done
/// after the last answers is of the next frames alone, by the account of a recipient that keeps one.
pub fn serve_on<D, M, I, O>(
    opening: Opening<D, M>,
    snapshot_every: u64,
    input: &mut I,
    output: &mut O,
) -> (MessagesEnd, D)
where
    D: Disk,
    M: MacroFunctions + Drop,
    I: Read,
    O: AnswerRecipient<D, M>,
    requires room { (D.state opening.disk).failures < 2 ^ 64 - 1 }
    requires answers { M.answers opening.macros }
    requires none { O.account output.old ≡ None }
    requires of_input { (all : List ℕ) → O.input output.old ≡ Some all → I.remaining input.old ≡ Some all }
    ensures { ServesOn M.Meaning.functions D.state opening.macros
        (are_registered M.Meaning.functions (M.functions opening.macros)) I.remaining O.contents
        input.old input.new output.old output.new (O.account output.new) opening.disk result.1 result.0 }
{
    let alloc = opening.alloc;
    match opening.open() {
        Ok(store) => {
            let mut store = store;
            // a snapshot leaves the half that was in use as it is, with zeros behind it
            store.write_zeros_ahead(if snapshot_every == 0 { u64::MAX } else { 0 });
            let (generation, records) = (store.generation(), store.record_count());
            let ended = serve_messages(alloc, &mut store, input, output, snapshot_every);
            // zeros come with the second record
            let more = store.record_count() > records.saturating_add(1);
            let wrote = more | (store.generation() != generation);
            let cut = store.cut_zeros(wrote);
            let (disk, _macros) = store.close();
            (ended.after_cut(cut), disk)
        }
        Err(unopened) => (MessagesEnd::Fault(unopened.number), unopened.disk),
    }
}

// The status after a session that ended so; what ended it is told.
fn end_after<D: TellsCause, F: Write>(
    faults: &mut F,
    ended: MessagesEnd,
    disk: &D,
    folder: &str,
) -> Status
    ensures { result ≡ session_status ended }
{
    match ended {
        MessagesEnd::End => end_with(faults, Status::Done),
        MessagesEnd::NoFrame(place) => {
            let _ = writeln!(faults, "no frame at byte {place}");
            Status::FormRefused
        }
        MessagesEnd::Fault(NO_POSITION) => {
            let _ = writeln!(faults, "! {NO_POSITION} NO-POSITION");
            Status::Fault(NO_POSITION)
        }
        MessagesEnd::Fault(number) => match disk.cause() {
            Some(failed) => {
                let told = Remark::Cause(HostError::Failed(failed));
                end_with_told(faults, Status::Fault(number), &told, folder)
            }
            None => end_with(faults, Status::Fault(number)),
        },
    }
}
