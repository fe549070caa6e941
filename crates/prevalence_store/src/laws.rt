//! The theorem over any calls in a row and over any openings after them, that files mean one world, and that files of versions 1 and 2
//! mean what they meant.
ghost use Rattle.std.specs.Prelude.{◌≡◌, ◌↔◌, ℕ, ◌+◌, Bool, true, List, [], ◌++◌, take, Some, Ok, Err};
ghost use Rattle.disk_trait.specs.Disk.{Image, IsFresh, IsHonest, Throughout};
ghost use Rattle.gate_log.specs.Layout.{LogRecord};
ghost use Rattle.prevalence_store.specs.meaning.Acceptance.{Acceptance, accepts, IsFormNumber};
ghost use Rattle.prevalence_store.specs.meaning.Files.{MeansWorld};
ghost use Rattle.prevalence_store.specs.meaning.Version1.{accepts1, MeansWorld1};
ghost use Rattle.prevalence_store.specs.meaning.Version2.{accepts2, MeansWorld2};
ghost use Rattle.session_words.specs.declared.mode.Mode.{Mode};
ghost use Rattle.prevalence_store.specs.calls.Open.{IsNoWord, IsUnopened, limit_at_open};
ghost use Rattle.prevalence_store.specs.Theorem.{Call, Headline, IsAfterSome, IsStoppedBetween, Keeps, KeepsSome, MeansSome, Reopens, Run, acknowledged_of, disk_after, forms_of};
ghost use Rattle.plist_state.specs.State.{WorldState, initial};
ghost use Rattle.user_macros.specs.Functions.{Functions};

use disk_trait::Disk;

/// An image means one world at most.
pub fn one_world()
    ensures { (functions : Functions) (image : Image) (one other : WorldState)
        → MeansWorld functions image one → MeansWorld functions image other → one ≡ other }
{}

/// Fresh files mean the initial world, whatever a crash leaves of them.
pub fn fresh_files<D: Disk>()
    ensures { (functions : Functions) (disk : D)
        → IsFresh (D.state disk) → Keeps functions (D.state disk) initial }
{}

/// What version 1 accepted, and what files meant to a program of version 1, is accepted and meant as before, by worlds that
/// read in base 10. So a store whose half in use is of version 1 opens with the world that it had.
pub fn version_1_stays()
    ensures forms { (functions : Functions) (world : WorldState) (mode : Mode) (text : List ℕ)
        → (given : Acceptance) → world.read_base ≡ 10
        → accepts1 functions world mode text ≡ Ok given
        → (accepts functions world mode text ≡ Ok given) × (given.world.read_base ≡ 10) }
    ensures files { (functions : Functions) (image : Image) (world : WorldState)
        → MeansWorld1 functions image world
        → MeansWorld functions image world × (world.read_base ≡ 10) }
{}

/// What version 2 accepted, and what files meant to a program of version 2, is accepted and meant as before. So a store whose half in
/// use is of version 2 opens with the world that it had.
pub fn version_2_stays()
    ensures forms { (functions : Functions) (world : WorldState) (mode : Mode) (text : List ℕ)
        → (given : Acceptance) → accepts2 functions world mode text ≡ Ok given
        → accepts functions world mode text ≡ Ok given }
    ensures files { (functions : Functions) (image : Image) (world : WorldState)
        → MeansWorld2 functions image world → MeansWorld functions image world }
{}

/// A form is refused under a number of 1 to 47 alone: the numbers from 60 on are those of the store.
pub fn form_numbers()
    ensures { (functions : Functions) (world : WorldState) (mode : Mode) (text : List ℕ)
        → (number : ℕ) → accepts functions world mode text ≡ Err number → IsFormNumber number }
{}

/// Whatever calls are made in a row from the opening of an honest disk on, a crash at any moment and an opening of what
/// it leaves, with macro functions of the same meaning, give the world after some of the forms that they took, from the
/// first on, and after all those that were acknowledged. Such an opening, if each function is registered, is refused for
/// memory, for a device fault, for a disk that does not claim that its writes mix, or for room for a first half alone.
pub fn headline<D: Disk>()
    ensures holds { (functions : Functions) (start : D) (world : WorldState)
        → (earlier later : List (Call D))
        → IsHonest (D.state start) → Keeps functions (D.state start) world
        → Run functions D.state start (Some world) (earlier ++ later)
        → Headline functions D.state start world earlier later }
    ensures refused { (functions : Functions) (start : D) (world : WorldState)
        → (earlier later : List (Call D)) (image : Image) (crashed back : D) (limit number : ℕ)
        → IsHonest (D.state start) → Keeps functions (D.state start) world
        → Run functions D.state start (Some world) (earlier ++ later)
        → (D.state (disk_after start (earlier ++ later))).left_since
        (D.state (disk_after start earlier)).moment image
        → (D.state crashed).reads ≡ image → IsHonest (D.state crashed)
        → (refused : IsUnopened functions D.state crashed true limit number back)
        → IsNoWord (D.state crashed).mixes (limit_at_open limit) image refused.fault }
{}

/// Openings in a row, after any calls: also where the last call met a device fault, or the process was stopped in it and
/// the machine goes on. What a crash then leaves is no longer one world, but the world after some of the forms.
///
/// - `begun`, `stopped`: how the calls leave the disk, at their end, and where they were stopped.
/// - `opened`, `refused`: a store that is opened then has the world after some of the forms. An opening is never refused
///   for what the files hold, and a refused one leaves the disk to be opened again. A crash at any moment of either
///   leaves the world after some of the forms, as before it.
/// - `interrupted`: an opening that was stopped itself leaves the disk to be opened again too.
/// - `further`: what is kept from the world of an opened store on is kept from the first world on, after the forms
///   before it. So there may be calls and openings again, any number of times.
/// - `no_forms`: where no forms were taken it is that one world.
pub fn recoveries<D: Disk>()
    ensures begun { (functions : Functions) (start : D) (world : WorldState)
        → (calls : List (Call D))
        → IsHonest (D.state start) → Keeps functions (D.state start) world
        → Run functions D.state start (Some world) calls
        → KeepsSome functions (D.state (disk_after start calls)) world
        (forms_of calls) (acknowledged_of calls) }
    ensures stopped { (functions : Functions) (start stopped : D) (world : WorldState)
        → (earlier later : List (Call D))
        → IsHonest (D.state start) → Keeps functions (D.state start) world
        → Run functions D.state start (Some world) (earlier ++ later)
        → IsStoppedBetween (D.state (disk_after start earlier))
        (D.state (disk_after start (earlier ++ later))) (D.state stopped)
        → KeepsSome functions (D.state stopped) world
        (forms_of (earlier ++ later)) (acknowledged_of earlier) }
    ensures opened { (functions : Functions) (start opened : D) (world now : WorldState)
        → (forms : List LogRecord) (least : ℕ)
        → IsHonest (D.state start) → KeepsSome functions (D.state start) world forms least
        → Reopens functions (D.state start) (D.state opened) now
        → IsAfterSome functions world forms least now
        × Throughout (D.state start) (D.state opened) (MeansSome functions world forms least) }
    ensures refused { (functions : Functions) (start back : D) (whole : Bool)
        → (world : WorldState) (forms : List LogRecord) (least limit number : ℕ)
        → IsHonest (D.state start) → KeepsSome functions (D.state start) world forms least
        → (refused : IsUnopened functions D.state start whole limit number back)
        → IsHonest (D.state back) × KeepsSome functions (D.state back) world forms least
        × Throughout (D.state start) (D.state back) (MeansSome functions world forms least)
        × IsNoWord (D.state start).mixes (limit_at_open limit) (D.state start).reads refused.fault }
    ensures interrupted { (functions : Functions) (start now stopped : D) (world : WorldState)
        → (forms : List LogRecord) (least : ℕ)
        → Throughout (D.state start) (D.state now) (MeansSome functions world forms least)
        → IsStoppedBetween (D.state start) (D.state now) (D.state stopped)
        → KeepsSome functions (D.state stopped) world forms least }
    ensures further { (functions : Functions) (disk : D) (world now : WorldState)
        → (forms more : List LogRecord) (least fewer : ℕ)
        → (given : IsAfterSome functions world forms least now)
        → KeepsSome functions (D.state disk) now more fewer
        → KeepsSome functions (D.state disk) world
        (take given.count forms ++ more) (given.count + fewer) }
    ensures no_forms { (functions : Functions) (disk : D) (world : WorldState)
        → Keeps functions (D.state disk) world
        ↔ KeepsSome functions (D.state disk) world [] 0 }
{}
