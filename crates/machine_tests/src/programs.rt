//! The program on a machine whose disks are honest, and what is there at each moment of it.
ghost use Rattle.std.specs.Prelude.{◌≡◌, ◌⊎◌, Bool, map};
ghost use Rattle.clap.specs.Words.{Text};
ghost use Rattle.command_words.specs.CommandLine.{IsTakenByLine};
ghost use Rattle.command_words.specs.declared.words.Task.{Task};
ghost use Rattle.session_words.specs.declared.wanted.SessionOptions.{SessionOptions};
ghost use Rattle.store_commands.specs.Commands.{AreStreamsUntouched, OpensFolder, IsStatusOfUnopenedStore};
ghost use Rattle.store_commands.specs.Folders.{OpensStore};
ghost use Rattle.store_commands.specs.declared.told.Remark.{Remark};
ghost use Rattle.machine_tests.specs.Machine.{IsHonestMachine, IsThereByThen};
ghost use Rattle.user_macros.specs.Functions.{are_registered};

use crate::laws::what_was_answered_is_found;
use diagnostics::Places;
use std::convert::AsStr;
use std::io::Write;
use std::random::RandomSource;
use store_commands::{Folders, SessionOutput, Status, program, what_a_session_wrote_is_there};
use user_macros::MacroFunctions;

/// The program, on a machine whose disks are honest as they are opened.
///
/// If its words ask for `run`, either no store is opened, of which the status tells, and nothing is read or written. Or a session goes over
/// the store there.
///
/// - `found`: where the disk reads what a crash left of an earlier session, it begins with what that session had answered.
/// - `opening`: a crash while the store is opened leaves what the files meant before.
/// - `there`: from the moment on at which lines went out of the program for the k-th time, a crash leaves the world after all forms of at
///   least k times, and of no time a part.
pub fn run_on_machine<R, M, S, I, O, T, F>(
    rt: &R,
    macros: M,
    words: &[S],
    input: &mut I,
    output: &mut SessionOutput<'_, O, T>,
    faults: &mut F,
) -> Status
where
    R: Folders + RandomSource + AllocGlobal,
    M: MacroFunctions + Drop,
    S: AsStr,
    I: Places,
    O: Write,
    T: Write,
    F: Write,
    requires answers { M.answers macros }
    requires honest { IsHonestMachine R.Disk.state (R.opens rt.now) }
    ensures { (folder : Text) (existing : Bool) (wanted : SessionOptions)
        → IsTakenByLine (map S.text words.now) folder existing (Task.Run wanted)
        → (told : Remark) × OpensFolder input.old input.new output.old output.new
        (OpensStore R.Disk.state R.Disk.tells (R.opens rt.now))
        (λ disk. IsThereByThen M.Meaning.functions wanted R.Disk.state macros
        (I.remaining input.old) (I.remaining input.new)
        (O.contents output.old.output) (O.contents output.new.output) disk
        ⊎ ((back : R.Disk) × IsStatusOfUnopenedStore M.Meaning.functions R.Disk.state disk back
        (are_registered M.Meaning.functions (M.functions macros)) result
        × AreStreamsUntouched input.old input.new output.old output.new))
        folder existing result told }
{
    what_a_session_wrote_is_there::<R::Disk, M>();
    what_was_answered_is_found::<R::Disk, R::Disk, M, M>();
    program(rt, macros, words, input, output, faults)
}
