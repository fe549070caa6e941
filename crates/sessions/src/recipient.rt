// Who gets the lines of a session.
ghost use Rattle.std.specs.Prelude.{◌≡◌, ℕ, List, Option, None, Some, Err, OnOk, OnErr};
ghost use Rattle.std.specs.Option.{option_map};
ghost use Rattle.form_eval.specs.Acceptance.{accept};
ghost use Rattle.form_eval.specs.Laws.{MayEvaluate};
ghost use Rattle.lisp_object.specs.Datum.{object_of};
ghost use Rattle.sessions.specs.Account.{Account, AreStored, with_forms};
ghost use Rattle.sessions.specs.Streams.{Writes, WritesPart};

use crate::ending::Place;
use crate::output::write_text;
use disk_trait::Disk;
use form_eval::ReadForm;
use plist_state::World;
use prevalence_store::{Store, WholeMacros};
use std::io::Write;
use user_macros::MacroFunctions;

/// A write failed, or took nothing.
#[derive(Clone, Copy)]
pub struct OutputFault;

/// A form of a session: what was read, its own text, and where it begins in the input.
#[derive(Clone, Copy)]
pub struct SessionForm<'a> {
    /// What was read.
    pub read: &'a ReadForm,
    /// The bytes of the form alone.
    pub own: &'a [u8],
    /// Where it begins: `start` and `at` are the same.
    pub place: Place,
}

/// Who gets the lines of a session over a store. A session knows no other way to it than `write_lines`, and does not touch the disk there:
/// so at whatever moment lines go out, what they acknowledge is stored, and it is of this session.
///
/// It may also hear of forms that are refused, before their lines go out. What it does then changes neither the world nor what it holds of the
/// session.
///
/// Each `Write` is a recipient, one that keeps no account and does not listen.
pub trait Recipient<D: Disk, R: MacroFunctions> {
    /// The bytes that it holds, where they are known.
    ghost contents: { Self → Option (List ℕ) };

    /// The account that it keeps of its session, if it keeps one.
    ghost account: { Self → Option (Account D) };

    /// That account as the session began.
    ghost first: { Self → Option (Account D) };

    /// Takes the lines of so many forms whole, or a part of them from their front.
    fn write_lines(
        &mut self,
        store: &Store<D, R>,
        lines: &[u8],
        forms: usize,
    ) -> Result<(), OutputFault>
        requires stored { (kept : Account D) → account self.old ≡ Some kept
            → AreStored R.Meaning.functions D.state kept store.now lines.now forms }
        ensures whole { OnOk result (Writes (contents self.old) (contents self.new) lines.now) }
        ensures part { OnErr result (WritesPart (contents self.old) (contents self.new) lines.now) }
        ensures kept { (later : Account D) → account self.new ≡ Some later
            → option_map (with_forms forms store.now) (account self.old) ≡ Some later }
        ensures first { first self.new ≡ first self.old };

    /// Whether it wants to hear of each form that is refused. In a session with groups a group then ends before such a form, which is answered
    /// by itself. Where it does not listen, a group may have refused forms of which it does not hear.
    fn is_listening(&self) -> bool;

    /// Hears that the evaluation of a form was refused with this number, before its line goes out. It may evaluate in the world, which is as it was
    /// before the form, and gives it back so, its marks too. It sees neither the disk nor the log.
    fn hear_refusal(
        &mut self,
        world: &mut World,
        macros: &WholeMacros<R>,
        number: u16,
        form: SessionForm<'_>,
    )
        requires may { MayEvaluate world.old.0.packages form.read.now }
        requires refused { accept R.Meaning.functions.names world.old.0 (object_of form.read.now.datum)
            ≡ Err number }
        ensures same { world.new ≡ world.old }
        ensures unwritten { contents self.new ≡ contents self.old }
        ensures kept { account self.new ≡ account self.old }
        ensures first { first self.new ≡ first self.old };
}

impl<D: Disk, R: MacroFunctions, W: Write> Recipient<D, R> for W {
    ghost contents = { W.contents };

    ghost account = { λ _. None };

    ghost first = { λ _. None };

    /// Flushes what was written whole.
    fn write_lines(
        &mut self,
        _store: &Store<D, R>,
        lines: &[u8],
        _forms: usize,
    ) -> Result<(), OutputFault> {
        write_text(self, lines)?;
        // the lines were taken, so a flush that fails ends no session
        let _flushed = self.flush();
        Ok(())
    }

    fn is_listening(&self) -> bool {
        false
    }

    fn hear_refusal(
        &mut self,
        _world: &mut World,
        _macros: &WholeMacros<R>,
        _number: u16,
        _form: SessionForm<'_>,
    ) {}
}
