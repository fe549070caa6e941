//! Bytes that are fed at once.
ghost use Rattle.std.specs.Prelude.{◌≡◌, ◌<◌, ◌≤◌, ◌+◌, ◌^◌, ℕ, true, List, ◌++◌, length, take, Ok, IfOk, IsErr, OnErr};
ghost use Rattle.std.specs.List.{list_all};
ghost use Rattle.package_table.specs.Table.{IsPackage};
ghost use Rattle.lisp_reading.specs.Setting.{setting_of};
ghost use Rattle.lisp_reading.specs.Reading.{is_whitespace};
ghost use Rattle.form_reader.specs.declared.reader.Advance.TheVariants.{More as AdvanceMore, Refused as AdvanceRefused};
ghost use Rattle.form_reader.specs.Reader.{limits_of, fed, begun, RanOutOfMemory, HasRefused, IsBetweenForms, LeavesBetween, IsAfterBytes, HasBegunAfter, StepsBegun, IsSoundStep, FeedsReader, AdvancesFed, is_more};

use crate::reader::{Advance, FormReader};
use package_table::Packages;
use readtable_core::Readtable;
use std::alloc::AllocError;
use user_macros::MacroFunctions;

impl Advance {
    /// Whether more bytes decide.
    pub(crate) fn is_more(&self) -> bool
        ensures { result ≡ is_more self.now }
    {
        match self {
            Advance::More => true,
            Advance::Form { .. } => false,
            Advance::Refused { .. } => false,
        }
    }
}

impl FormReader {
    /// Bytes of the text, of which there are some, under what the bytes before them were read under: as many steps, one after the
    /// other, up to the first that does not answer `More`. Gives how many steps those are, and what the last of them answers. After a
    /// refusal it answers the same again, whatever it is read under.
    pub fn feed<R: MacroFunctions>(
        &mut self,
        bytes: &[u8],
        readtable: &Readtable,
        base: u8,
        packages: &Packages,
        current: &[u8],
        macros: &R,
    ) -> Result<(usize, Advance), AllocError>
        requires answers { R.answers macros.now }
        requires lowest_base { 2 ≤ base }
        requires highest_base { base ≤ 36 }
        requires current { IsPackage packages.now.0 current.now }
        requires some { 0 < length bytes.now }
        requires count { fed self.old + length bytes.now ≤ 2 ^ 63 }

        // What the bytes come to is what so many steps come to: up to the first that answers something else than
        // `More`.
        ensures feeds { (before : List ℕ) → IsAfterBytes
            (setting_of (limits_of self.old) readtable.now base packages.now.0 current.now
            (R.functions macros.now))
            self.old before → IfOk result (λ got. FeedsReader
            (setting_of (limits_of self.old) readtable.now base packages.now.0 current.now
            (R.functions macros.now))
            self.new before bytes.now got.0 got.1) }
        ensures some { IfOk result (λ got. 0 < got.0) }
        ensures within { IfOk result (λ got. got.0 ≤ length bytes.now) }
        ensures whole { IfOk result (λ got. got.1 ≡ AdvanceMore → got.0 ≡ length bytes.now) }

        // It counts the bytes that it takes, and keeps its limits; a form that it gives is sound.
        ensures limits { limits_of self.new ≡ limits_of self.old }
        ensures fed { fed self.new ≤ fed self.old + length bytes.now }
        ensures advances { IfOk result (λ got. AdvancesFed self.old self.new got.0 got.1) }
        ensures sound { IfOk result (λ got. IsSoundStep got.1) }

        // After a refusal, and after it ran out of memory, it answers the same again.
        ensures refused { (number offset : ℕ) → HasRefused self.old number offset
            → (result ≡ Ok (1, AdvanceRefused number offset)) × (self.new ≡ self.old) }
        ensures memory { OnErr result (RanOutOfMemory self.new) }
        ensures spent { RanOutOfMemory self.old → IsErr result }

        // Between forms whitespace leaves the reader there.
        ensures between { IsBetweenForms self.old → list_all (is_whitespace readtable.now) bytes.now ≡ true
            → 0 < (limits_of self.old).text
            → (result ≡ Ok (length bytes.now, AdvanceMore)) × IsBetweenForms self.new }
        ensures between_forms { IfOk result (λ got. LeavesBetween self.new got.1) }
        ensures nothing_open { IfOk result (λ got. got.1 ≡ AdvanceMore
            → begun self.new ≡ fed self.new → IsBetweenForms self.new) }

        // If it knew where the form began that is open, it still does.
        ensures has_begun { (before : List ℕ) → IsAfterBytes
            (setting_of (limits_of self.old) readtable.now base packages.now.0 current.now
            (R.functions macros.now))
            self.old before → HasBegunAfter
            (setting_of (limits_of self.old) readtable.now base packages.now.0 current.now
            (R.functions macros.now))
            self.old before → IfOk result (λ got. StepsBegun
            (setting_of (limits_of self.old) readtable.now base packages.now.0 current.now
            (R.functions macros.now))
            self.new (before ++ take got.0 bytes.now) got.1) }
    {
        let mut taken = 0;
        for byte in bytes {
            let advance = self.step(*byte, readtable, base, packages, current, macros)?;
            if advance.is_more() {
                taken += 1;
            } else {
                return Ok((taken + 1, advance));
            }
        }
        Ok((taken, Advance::More))
    }
}
