//! The system as a machine whose disks are honest, and the program there.
ghost use Rattle.std.specs.Prelude.{◌≡◌, ◌⊎◌, Bool, map};
ghost use Rattle.clap.specs.Words.{Text};
ghost use Rattle.command_words.specs.CommandLine.{IsTakenByLine};
ghost use Rattle.command_words.specs.declared.words.Task.{Task};
ghost use Rattle.device_disk.specs.Told.{DeviceDiskValue, told_of};
ghost use Rattle.device_disk.specs.declared.host.HostDevice.{HostDevice};
ghost use Rattle.session_words.specs.declared.wanted.SessionOptions.{SessionOptions};
ghost use Rattle.store_commands.specs.Commands.{AreStreamsUntouched, OpensFolder, IsStatusOfUnopenedStore};
ghost use Rattle.store_commands.specs.Folders.{OpensStore};
ghost use Rattle.store_commands.specs.declared.told.Remark.{Remark};
ghost use Rattle.machine_tests.specs.Machine.{IsHonestMachine, IsThereByThen};
ghost use Rattle.user_macros.specs.Functions.{are_registered};

use crate::programs::run_on_machine;
use device_disk::{DeviceDisk, HostDevice};
use diagnostics::Places;
use std::convert::AsStr;
use std::io::Write;
use store_commands::{Folders, SessionOutput, Status, TellsCause};
use system_folders::Syncing;
use user_macros::MacroFunctions;

/// The system is a machine whose disks are honest as they are opened, without the word by which a form is kept with one sync and with it.
///
/// What is known of such a disk is known of the two files as far as the system does what four calls of it say: to read, to write, to cut and
/// to sync (`a_crash_leaves_what_is_told` of device_disk).
pub fn the_system_is_honest<'a>(rt: &HostRuntime, system: &Syncing<'a>)
    ensures always { IsHonestMachine told_of (⟦<HostRuntime as Folders>⟧.opens rt.now) }
    ensures asked { IsHonestMachine told_of (⟦<Syncing<'a> as Folders>⟧.opens system.now) }
{}

/// The program on the system, of whose files is said what the words ask for: what `run_on_machine` says, without its premise.
pub fn run_on_system<'a, M, S, I, O, T, F>(
    system: &Syncing<'a>,
    macros: M,
    words: &[S],
    input: &mut I,
    output: &mut SessionOutput<'_, O, T>,
    faults: &mut F,
) -> Status
where
    M: MacroFunctions + Drop,
    S: AsStr,
    I: Places,
    O: Write,
    T: Write,
    F: Write,
    requires answers { M.answers macros }
    ensures { (folder : Text) (existing : Bool) (wanted : SessionOptions)
        → IsTakenByLine (map S.text words.now) folder existing (Task.Run wanted)
        → (told : Remark) × OpensFolder input.old input.new output.old output.new
        (OpensStore told_of (⟦<DeviceDisk<HostDevice> as TellsCause>⟧.tells)
        (⟦<Syncing<'a> as Folders>⟧.opens system.now))
        (λ disk. IsThereByThen M.Meaning.functions wanted told_of macros
        (I.remaining input.old) (I.remaining input.new)
        (O.contents output.old.output) (O.contents output.new.output) disk
        ⊎ ((back : DeviceDiskValue HostDevice) × IsStatusOfUnopenedStore M.Meaning.functions told_of disk back
        (are_registered M.Meaning.functions (M.functions macros)) result
        × AreStreamsUntouched input.old input.new output.old output.new))
        folder existing result told }
{
    run_on_machine(system, macros, words, input, output, faults)
}
