// What a session has read and not answered yet.
ghost use Rattle.std.specs.Prelude.{◌≡◌, ◌+◌, ◌<◌, ◌≤◌, ◌^◌, ℕ, List, [], ◌∷◌, ◌++◌, drop, take, length, IfOk, OnOk, vec_len};
ghost use Rattle.plist_state.specs.State.{WorldState};
ghost use Rattle.form_reader.specs.Reader.{fed, begun, limits_of, HasBegunAfter, IsAfterBytes, Steps, StepsBegun, BeginsLater, RefusesFrom, IsOutcome, IsSoundStep};
ghost use Rattle.prevalence_store.specs.meaning.Acceptance.{between, form_limits, read_in, setting_in, table_in};
ghost use Rattle.user_macros.specs.Functions.{Functions};
ghost use Rattle.sessions.specs.steps.Input.{AreAllThere, IsPending, IsSoundFed, PlacesAreWithin, FeedsInput, FinishesInput, FeedsPart};

use form_eval::ReadForm;
use form_reader::{Advance, FormReader, Limits, ReadOutcome};
use plist_state::World;
use prevalence_store::{WholeMacros, base_in, package_in, readtable_in};
use readtable_core::Readtable;
use session_words::Mode;
use std::alloc::{AllocError, Global};
use user_macros::MacroFunctions;

mod plain;
mod property_line;

pub(crate) use property_line::FoundLine;

/// What was read and is not answered yet: a reader that was fed it, and the bytes since what the reader has open began.
#[derive(Drop)]
pub(crate) struct Pending {
    reader: FormReader,
    text: Vec<u8>,
    // how many bytes come before `text`
    dropped: usize,
}

/// A form that was read, its own text, and its place in the input.
#[derive(Drop)]
pub(crate) struct PlacedForm {
    pub(crate) read: ReadForm,
    /// Its own text.
    pub(crate) own: Vec<u8>,
    /// Where this begins among the bytes since the last form.
    pub(crate) start: usize,
    /// Where what follows it begins.
    pub(crate) next: usize,
}

/// What bytes more, or the end of the input, are to what is pending.
#[derive(Drop)]
pub(crate) enum Fed {
    /// There is no form yet; at the end, there is none.
    Nothing,
    /// A form. If `left`, the last byte is the first of what follows it.
    Form {
        form: PlacedForm,
        left: bool,
    },
    /// A refusal: its number, where what is refused begins among the bytes since the last form, and its place among them.
    Refused {
        number: u16,
        start: usize,
        at: usize,
    },
}

/// What a piece of the input is to what is pending, up to the first byte that decides something.
#[derive(Drop)]
pub(crate) struct FedPiece {
    pub(crate) fed: Fed,
    /// How many bytes were fed.
    pub(crate) count: usize,
}

impl Pending {
    /// Before the first byte.
    pub(crate) fn new(alloc: Global) -> Pending
        ensures none { (functions : Functions) (world : WorldState) (mode : Mode)
            → IsPending functions world mode result [] }
        ensures count { fed result.reader ≡ 0 }
    {
        Pending {
            reader: FormReader::new(alloc, Limits::form()),
            text: Vec::new(alloc),
            dropped: 0,
        }
    }

    /// The bytes of a piece, in the same world and mode as those since the last form, up to the first that decides
    /// something. The readtable is looked up once. After an error, want of memory alone, nothing is known of what is
    /// pending: it is not fed again.
    pub(crate) fn feed<R: MacroFunctions>(
        &mut self,
        alloc: Global,
        world: &World,
        macros: &WholeMacros<R>,
        mode: Mode,
        piece: &[u8],
    ) -> Result<FedPiece, AllocError>
        requires pending { (bytes : List ℕ)
            × IsPending R.Meaning.functions world.now.0 mode self.old bytes }
        requires some { 0 < length piece.now }
        requires count { fed self.old.reader + length piece.now ≤ 2 ^ 63 }
        ensures feeds { (bytes : List ℕ)
            → IsPending R.Meaning.functions world.now.0 mode self.old bytes
            → IfOk result (λ part. FeedsInput R.Meaning.functions world.now.0 mode self.new
            (bytes ++ take part.count piece.now) part.fed) }
        ensures part { IfOk result (FeedsPart piece.now (fed self.old.reader) (fed self.new.reader)) }
        ensures all_there { IfOk result (λ part. AreAllThere world.now.0 part.fed) }
        ensures count { fed self.new.reader ≤ fed self.old.reader + length piece.now }
    {
        let readtable = readtable_in(world, mode);
        let mut count = 0;
        'bytes: for byte in piece {
            match self.feed_plain(alloc, readtable, world, mode, &piece[count..])? {
                Some(form) => {
                    let count = count + form.own.len();
                    return Ok(FedPiece {
                        fed: Fed::Form { form, left: false },
                        count,
                    });
                }
                None => {}
            }
            count += 1;
            match self.feed_byte(readtable, world, macros, mode, *byte)? {
                Fed::Nothing => {}
                fed => return Ok(FedPiece { fed, count }),
            }
        }
        let fed = Fed::Nothing;
        Ok(FedPiece { fed, count })
    }

    // One byte more, under the readtable of the world.
    fn feed_byte<R: MacroFunctions>(
        &mut self,
        readtable: &Readtable,
        world: &World,
        macros: &WholeMacros<R>,
        mode: Mode,
        byte: u8,
    ) -> Result<Fed, AllocError>
        requires table { readtable.now ≡ table_in world.now.0 mode }
        requires pending { (bytes : List ℕ)
            × IsPending R.Meaning.functions world.now.0 mode self.old bytes }
        requires count { fed self.old.reader < 2 ^ 63 }
        ensures feeds { (bytes : List ℕ)
            → IsPending R.Meaning.functions world.now.0 mode self.old bytes
            → IfOk result (FeedsInput R.Meaning.functions world.now.0 mode self.new
            (bytes ++ byte ∷ [])) }
        ensures sound { IfOk result IsSoundFed }
        ensures all_there { IfOk result (AreAllThere world.now.0) }
        ensures within { IfOk result (PlacesAreWithin (fed self.old.reader + 1)) }
        ensures count { fed self.new.reader ≤ fed self.old.reader + 1 }
    {
        self.text.push(byte)?;
        let alloc = *self.text.allocator();
        match step_in(&mut self.reader, readtable, world, macros, mode, byte)? {
            Advance::More => {
                self.discard(alloc)?;
                Ok(Fed::Nothing)
            }
            Advance::Refused { code, at } => Ok(Fed::Refused {
                number: code,
                start: self.reader.begun(),
                at,
            }),
            Advance::Form {
                datum,
                start,
                end,
                next,
            } => {
                let own = own_text(alloc, self.text.as_slice(), self.dropped, start, end)?;
                let left = next - self.dropped < self.text.len();
                self.text.clear();
                self.dropped = 0;
                let form = PlacedForm {
                    read: ReadForm {
                        datum,
                        known: false,
                    },
                    own,
                    start,
                    next,
                };
                Ok(Fed::Form { form, left })
            }
        }
    }

    // Lets the bytes go that come before what the reader has open.
    fn discard(&mut self, alloc: Global) -> Result<(), AllocError>
        requires begun { (self.old.dropped ≤ begun self.old.reader)
            × (begun self.old.reader ≤ self.old.dropped + vec_len self.old.text) }
        ensures kept { OnOk result ((bytes : List ℕ)
            → self.old.text.items ≡ drop self.old.dropped bytes
            → self.new.text.items ≡ drop self.new.dropped bytes) }
        ensures only { OnOk result (self.new.dropped ≡ begun self.new.reader) }
        ensures reader { self.new.reader ≡ self.old.reader }
    {
        let begun = self.reader.begun();
        let count = begun - self.dropped;
        if count == 0 {
            return Ok(());
        }
        if count == self.text.len() {
            // mostly nothing is open, and the room of the text serves the bytes to come
            self.text.clear();
            self.dropped = begun;
            return Ok(());
        }
        self.text = Vec::from_slice(alloc, &self.text[count..])?;
        self.dropped = begun;
        Ok(())
    }

    /// The end of the input, in the same world and mode as the bytes since the last form.
    pub(crate) fn finish<R: MacroFunctions>(
        self,
        alloc: Global,
        world: &World,
        macros: &WholeMacros<R>,
        mode: Mode,
    ) -> Result<Fed, AllocError>
        requires pending { (bytes : List ℕ)
            × IsPending R.Meaning.functions world.now.0 mode self bytes }
        requires count { fed self.reader ≤ 2 ^ 63 }
        ensures finishes { (bytes : List ℕ)
            → IsPending R.Meaning.functions world.now.0 mode self bytes
            → IfOk result (FinishesInput R.Meaning.functions world.now.0 mode bytes) }
        ensures sound { IfOk result IsSoundFed }
        ensures all_there { IfOk result (AreAllThere world.now.0) }
        ensures within { IfOk result (PlacesAreWithin (fed self.reader)) }
    {
        let Pending {
            reader,
            text,
            dropped,
        } = self;
        match finish_in(reader, world, macros, mode)? {
            ReadOutcome::Empty => Ok(Fed::Nothing),
            ReadOutcome::Refused { code, at } => Ok(Fed::Refused {
                number: code,
                start: dropped,
                at,
            }),
            ReadOutcome::Form {
                datum,
                start,
                end,
                next,
            } => {
                let own = own_text(alloc, text.as_slice(), dropped, start, end)?;
                let form = PlacedForm {
                    read: ReadForm {
                        datum,
                        known: false,
                    },
                    own,
                    start,
                    next,
                };
                Ok(Fed::Form { form, left: false })
            }
        }
    }
}

// The text of a form, by its offsets among bytes of which so many were dropped.
fn own_text(
    alloc: Global,
    text: &[u8],
    dropped: usize,
    start: usize,
    end: usize,
) -> Result<Vec<u8>, AllocError>
    requires kept { dropped ≤ start }
    requires order { start ≤ end }
    requires within { end ≤ dropped + length text.now }
    ensures { (bytes : List ℕ) → text.now ≡ drop dropped bytes
        → IfOk result (λ own. own.items ≡ between start end bytes) }
{
    Vec::from_slice(alloc, &text[start - dropped..end - dropped])
}

// One byte more to a reader, as the world reads in this mode, under its readtable.
fn step_in<R: MacroFunctions>(
    reader: &mut FormReader,
    readtable: &Readtable,
    world: &World,
    macros: &WholeMacros<R>,
    mode: Mode,
    byte: u8,
) -> Result<Advance, AllocError>
    // The readtable is that of the world.
    requires table { readtable.now ≡ table_in world.now.0 mode }
    requires limits { limits_of reader.old ≡ form_limits }
    requires count { fed reader.old < 2 ^ 63 }

    // What the byte is, with those before it.
    ensures steps { (bytes : List ℕ)
        → IsAfterBytes (setting_in R.Meaning.functions world.now.0 mode) reader.old bytes
        → IfOk result (Steps (setting_in R.Meaning.functions world.now.0 mode)
        reader.new (bytes ++ byte ∷ [])) }
    ensures has_begun { (bytes : List ℕ)
        → IsAfterBytes (setting_in R.Meaning.functions world.now.0 mode) reader.old bytes
        → HasBegunAfter (setting_in R.Meaning.functions world.now.0 mode) reader.old bytes
        → IfOk result (StepsBegun (setting_in R.Meaning.functions world.now.0 mode)
        reader.new (bytes ++ byte ∷ [])) }

    // The limits stay, at most one byte more is fed, and a form that it gives is sound.
    ensures limits { limits_of reader.new ≡ limits_of reader.old }
    ensures count { fed reader.new ≤ fed reader.old + 1 }
    ensures begun { IfOk result (BeginsLater reader.old reader.new) }
    ensures sound { IfOk result IsSoundStep }
{
    let package = package_in(world, mode);
    let base = base_in(world, mode);
    let functions = macros.functions();
    reader.step(byte, readtable, base, world.packages(), package, functions)
}

// The end of the text to a reader, as the world reads in this mode.
fn finish_in<R: MacroFunctions>(
    reader: FormReader,
    world: &World,
    macros: &WholeMacros<R>,
    mode: Mode,
) -> Result<ReadOutcome, AllocError>
    requires limits { limits_of reader ≡ form_limits }
    requires count { fed reader ≤ 2 ^ 63 }
    ensures outcome { (bytes : List ℕ)
        → IsAfterBytes (setting_in R.Meaning.functions world.now.0 mode) reader bytes
        → IfOk result (λ outcome. IsOutcome outcome
        (read_in R.Meaning.functions world.now.0 mode bytes)) }
    ensures has_begun { (bytes : List ℕ)
        → HasBegunAfter (setting_in R.Meaning.functions world.now.0 mode) reader bytes
        → IfOk result (RefusesFrom (setting_in R.Meaning.functions world.now.0 mode)
        bytes (begun reader)) }
{
    let readtable = readtable_in(world, mode);
    let package = package_in(world, mode);
    let base = base_in(world, mode);
    let functions = macros.functions();
    reader.finish(readtable, base, world.packages(), package, functions)
}
