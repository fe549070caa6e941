//! Calls whose forms are logged together.
ghost use Rattle.std.specs.Prelude.{List, ◌++◌, Some};
ghost use Rattle.disk_trait.specs.Disk.{IsHonest};
ghost use Rattle.plist_state.specs.State.{WorldState};
ghost use Rattle.prevalence_store.specs.Theorem.{Call, Keeps, Run};
ghost use Rattle.store_laws.specs.Batches.{AreTogether, InWholeCalls};
ghost use Rattle.user_macros.specs.Functions.{Functions};

use disk_trait::Disk;

/// Of calls in a row, each of which logs its forms together, a crash at any moment leaves the world after all forms of some calls, from
/// the first on, and of none a part; and a store that is opened then has this world. `headline` says it of the forms alone, so that it
/// allows a part of a group.
///
/// Each call of `execute`, each of `execute_all` whose texts are together (`IsTogether`), and each time that a session hands lines on
/// is such a call.
pub fn batches<D: Disk>()
    ensures { (functions : Functions) (start : D) (world : WorldState) (earlier later : List (Call D))
        → IsHonest (D.state start) → Keeps functions (D.state start) world
        → Run functions D.state start (Some world) (earlier ++ later)
        → AreTogether functions D.state start (Some world) (earlier ++ later)
        → InWholeCalls functions D.state start world earlier later }
{}
