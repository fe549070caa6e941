//! Tokens, fed byte by byte.
ghost use Rattle.std.specs.Prelude.{◌≡◌, ◌+◌, ◌-◌, ◌<◌, ℕ, if◌then◌else◌, false, is_ok, Err, List, [], ◌∷◌, ◌++◌, IsTrue, Ok, IfOk, OnErr, MatchResult};
ghost use Rattle.token_scan.specs.declared.mark.Mark.TheVariants.{Plain, Quoted, Bar};
ghost use Rattle.token_scan.specs.declared.refusal.ScanRefusal.TheVariants.{EndOfFile};
ghost use Rattle.token_scan.specs.Marks.{is_ascii_mark, are_ascii};
ghost use Rattle.token_scan.specs.Tokens.{TypedByte, met, kind, with_front, one_more, plain, escaped_character, after_single_escape, outside, token, escaped_token, fault_of_scan};
ghost use Rattle.token_scan.specs.declared.stage.Stage.TheVariants.{Outside, Inside, EscapedOutside, EscapedInside, Refused};

use crate::stage::Stage;
use crate::{Mark, Marks, ScanRefusal};
use readtable_core::{Syntax, traits_of};
use smallvec::SmallVec;
use std::alloc::{AllocError, Global};
use std::marker::Model;

/// What a byte is to a token.
#[derive(Clone, Copy, Debug, PartialEq, Eq)]
pub enum FedByte {
    /// The byte was taken, and the token goes on.
    More,
    /// The token ends before the byte, which was not taken.
    Ended,
    /// The token is refused at the byte.
    Refused(ScanRefusal),
}

/// A token as far as it was fed.
#[derive(Drop)]
pub struct TokenScan {
    marks: Marks,
    left: usize,
    stage: Stage,
}

impl Model for TokenScan {
    ghost use Rattle.token_scan.specs.ByteByByte.{Scan};

    ghost Value = { Scan };

    ghost use Rattle.std.specs.Prelude.{IsTrue};
    ghost use Rattle.token_scan.specs.Marks.{are_ascii};

    ghost view = { λ t. record { marks = t.marks.items; left = t.left; stage = t.stage } };

    ghost invariant = { λ t. IsTrue (are_ascii t.marks.items) };
}

impl TokenScan {
    ghost use Rattle.token_scan.specs.declared.scan.FedByte.TheVariants.{More, Refused as FedRefused};
    ghost use Rattle.token_scan.specs.ByteByByte.{first_scan, begun_escaped, refused_scan, from_stage, token_from, fed_gives, LeavesBy, ScanLeaves};

    /// An empty token of at most `limit` characters, which bars and escapes are not. It keeps `alloc` for its marks.
    pub fn begin(alloc: Global, limit: usize) -> TokenScan
        ensures value { result ≡ first_scan limit }
        ensures token { (at : ℕ) (text : List TypedByte)
            → token_from result at text ≡ token limit at text }
    {
        TokenScan::starting(alloc, limit, Stage::Outside)
    }

    /// The same, but the first character is taken as an escaped one is, whatever its syntax type, as that of a character's
    /// name is (standard 2.4.8.1).
    pub fn begin_escaped(alloc: Global, limit: usize) -> TokenScan
        ensures value { result ≡ begun_escaped limit }
        ensures token { (at : ℕ) (text : List TypedByte)
            → token_from result at text ≡ escaped_token limit at text }
    {
        TokenScan::starting(alloc, limit, Stage::EscapedOutside)
    }

    /// Feeds `byte`, which has the syntax type `syntax` in the readtable in force (standard 2.2, steps 8 and 9). A byte
    /// over 127 is invalid whatever `syntax` is. After a refusal each call answers that refusal again.
    ///
    /// # Errors
    ///
    /// Out of memory for a mark; then nothing has changed.
    #[tactic(auto, unfolding(crate::specs::Tokens::outside))]
    pub fn feed(&mut self, syntax: Syntax, byte: u8) -> Result<FedByte, AllocError>
        ensures gives { (at : ℕ) (more : List TypedByte) → IfOk result (λ fed.
            token_from self.old at (met syntax byte ∷ more) ≡ fed_gives fed self.new at (met syntax byte) more) }
        ensures leaves { IfOk result (λ fed. ScanLeaves fed self.old (met syntax byte) self.new) }
        ensures unchanged { OnErr result (self.new ≡ self.old) }
        ensures repeats { (refusal : ScanRefusal) → self.old.stage ≡ Refused refusal
            → result ≡ Ok (FedRefused refusal) }
        ensures no_end { result ≡ Ok (FedRefused EndOfFile) → self.old.stage ≡ Refused EndOfFile }
    {
        match (self.stage, kind_of(syntax, byte)) {
            (Stage::Refused(refusal), _) => Ok(FedByte::Refused(refusal)),
            // After a single escape any character is one of the token, whatever its syntax type.
            (Stage::EscapedOutside, _) => self.feed_escaped(byte, Stage::Outside),
            (Stage::EscapedInside, _) => self.feed_escaped(byte, Stage::Inside),
            (_, Syntax::Invalid) => Ok(self.refuse(ScanRefusal::InvalidCharacter)),
            (Stage::Outside, Syntax::SingleEscape) => Ok(self.pass_escape(Stage::EscapedOutside)),
            (Stage::Inside, Syntax::SingleEscape) => Ok(self.pass_escape(Stage::EscapedInside)),
            (Stage::Outside, Syntax::MultipleEscape) => self.feed_bar(Stage::Inside),
            (Stage::Inside, Syntax::MultipleEscape) => self.feed_bar(Stage::Outside),
            (Stage::Outside, Syntax::Whitespace | Syntax::TerminatingMacro) => Ok(FedByte::Ended),
            (Stage::Outside, _) => self.feed_plain(byte),
            (Stage::Inside, _) => self.feed_quoted(byte, Stage::Inside),
        }
    }

    /// Ends the token at the end of the input (standard 2.2, steps 8 and 9). It takes no memory.
    ///
    /// # Errors
    ///
    /// `EndOfFile` after a single escape or between multiple escapes, and an earlier refusal. Each later call answers it
    /// again.
    #[tactic(auto, unfolding(crate::specs::Tokens::outside))]
    pub fn finish(&mut self) -> Result<(), ScanRefusal>
        ensures gives { (at : ℕ) → MatchResult result
            (λ _. token_from self.old at [] ≡ Ok (self.old.marks, at, []))
            (λ refusal. token_from self.old at [] ≡ fault_of_scan refusal at) }
        ensures leaves { MatchResult result
            (λ _. (self.new ≡ self.old) × (self.old.stage ≡ Outside))
            (λ refusal. self.new ≡ refused_scan self.old refusal) }
        ensures repeats { (refusal : ScanRefusal) → self.old.stage ≡ Refused refusal
            → result ≡ Err refusal }
    {
        match self.stage {
            Stage::Outside => Ok(()),
            Stage::Refused(refusal) => Err(refusal),
            _ => {
                self.stage = Stage::Refused(ScanRefusal::EndOfFile);
                Err(ScanRefusal::EndOfFile)
            }
        }
    }

    /// The marks so far, whose characters are below 128. It takes no memory.
    pub fn marks(&self) -> &[Mark]
        ensures value { result.now ≡ self.now.marks }
        ensures ascii { IsTrue (are_ascii self.now.marks) }
    {
        self.marks.as_slice()
    }

    /// The marks so far, whose characters are below 128, moved out. It takes no memory.
    pub fn into_marks(self) -> Marks
        ensures value { result.items ≡ self.marks }
        ensures ascii { IsTrue (are_ascii self.marks) }
    {
        self.marks
    }

    fn starting(alloc: Global, limit: usize, stage: Stage) -> TokenScan
        ensures { result ≡ record { marks = []; left = limit; stage = stage } }
    {
        TokenScan {
            marks: SmallVec::new(alloc),
            left: limit,
            stage,
        }
    }

    // Takes a single escape, after which the next byte is at `stage`.
    fn pass_escape(&mut self, stage: Stage) -> FedByte
        ensures value { result ≡ More }
        ensures after { self.new ≡ record self.old { stage = stage } }
    {
        self.stage = stage;
        FedByte::More
    }

    // Takes a multiple escape, after which the next byte is at `stage`.
    fn feed_bar(&mut self, stage: Stage) -> Result<FedByte, AllocError>
        ensures more { IfOk result (λ fed. fed ≡ More) }
        ensures after { self.new ≡ (if is_ok result
            then record self.old { marks = self.old.marks ++ Bar ∷ []; stage = stage }
            else self.old) }
    {
        self.add(Mark::Bar, stage)?;
        Ok(FedByte::More)
    }

    // Takes a character that is not escaped.
    fn feed_plain(&mut self, byte: u8) -> Result<FedByte, AllocError>
        requires { byte < 128 }
        ensures gives { (x : TypedByte) (at : ℕ) (more : List TypedByte) → IfOk result (λ fed.
            with_front self.old.marks (one_more self.old.left at (λ left. plain byte at (outside left (at + 1) more)))
            ≡ fed_gives fed self.new at x more) }
        ensures leaves { IfOk result (λ fed.
            LeavesBy (Plain byte ∷ []) false fed self.old self.new) }
        ensures unchanged { OnErr result (self.new ≡ self.old) }
        ensures no_end { result ≡ Ok (FedRefused EndOfFile) → ⊥ }
    {
        // One character too many is refused as that, also where its trait is invalid.
        if self.left == 0 {
            return Ok(self.refuse(ScanRefusal::TokenTooLong));
        }
        if traits_of(byte).is_invalid() {
            return Ok(self.refuse(ScanRefusal::InvalidTrait));
        }
        self.add_character(Mark::Plain(byte), Stage::Outside)?;
        Ok(FedByte::More)
    }

    // Takes a byte after a single escape.
    fn feed_escaped(&mut self, byte: u8, back: Stage) -> Result<FedByte, AllocError>
        ensures gives { (syntax : Syntax) (at : ℕ) (more : List TypedByte) → IfOk result (λ fed.
            with_front self.old.marks
            (after_single_escape (met syntax byte) self.old.left at (λ left. from_stage back left (at + 1) more))
            ≡ fed_gives fed self.new at (met syntax byte) more) }
        ensures leaves { IfOk result (λ fed.
            LeavesBy (Quoted byte ∷ []) false fed self.old self.new) }
        ensures unchanged { OnErr result (self.new ≡ self.old) }
        ensures no_end { result ≡ Ok (FedRefused EndOfFile) → ⊥ }
    {
        if byte >= 128 {
            return Ok(self.refuse(ScanRefusal::InvalidCharacter));
        }
        self.feed_quoted(byte, back)
    }

    // Takes a character that is quoted, after which the next byte is at `back`.
    fn feed_quoted(&mut self, byte: u8, back: Stage) -> Result<FedByte, AllocError>
        requires { byte < 128 }
        ensures gives { (x : TypedByte) (at : ℕ) (more : List TypedByte) → IfOk result (λ fed.
            with_front self.old.marks (one_more self.old.left at (λ left. escaped_character byte (from_stage back left (at + 1) more)))
            ≡ fed_gives fed self.new at x more) }
        ensures leaves { IfOk result (λ fed.
            LeavesBy (Quoted byte ∷ []) false fed self.old self.new) }
        ensures unchanged { OnErr result (self.new ≡ self.old) }
        ensures no_end { result ≡ Ok (FedRefused EndOfFile) → ⊥ }
    {
        if self.left == 0 {
            return Ok(self.refuse(ScanRefusal::TokenTooLong));
        }
        self.add_character(Mark::Quoted(byte), back)?;
        Ok(FedByte::More)
    }

    // Adds the mark of a character.
    fn add_character(&mut self, mark: Mark, stage: Stage) -> Result<(), AllocError>
        requires left { 0 < self.old.left }
        requires ascii { IsTrue (is_ascii_mark mark) }
        ensures after { self.new ≡ (if is_ok result
            then record { marks = self.old.marks ++ mark ∷ []; left = self.old.left - 1; stage = stage }
            else self.old) }
    {
        self.add(mark, stage)?;
        self.left -= 1;
        Ok(())
    }

    fn add(&mut self, mark: Mark, stage: Stage) -> Result<(), AllocError>
        requires { IsTrue (is_ascii_mark mark) }
        ensures after { self.new ≡ (if is_ok result
            then record self.old { marks = self.old.marks ++ mark ∷ []; stage = stage }
            else self.old) }
    {
        self.marks.push(mark)?;
        self.stage = stage;
        Ok(())
    }

    fn refuse(&mut self, refusal: ScanRefusal) -> FedByte
        ensures value { result ≡ FedRefused refusal }
        ensures after { self.new ≡ refused_scan self.old refusal }
    {
        self.stage = Stage::Refused(refusal);
        FedByte::Refused(refusal)
    }
}

/// The syntax type that counts.
fn kind_of(syntax: Syntax, byte: u8) -> Syntax
    ensures { result ≡ kind (met syntax byte) }
{
    if byte < 128 { syntax } else { Syntax::Invalid }
}
