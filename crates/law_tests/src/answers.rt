//! The answer to a form, by a program that has more operators than an earlier one.
ghost use Rattle.std.specs.Prelude.{◌≡◌, ◌<◌, ◌-◌, ◌^◌, IfOk, Ok, Some};
ghost use Rattle.lisp_object.specs.Datum.{object_of};
ghost use Rattle.plist_state.specs.State.{WorldState};
ghost use Rattle.prevalence_store.specs.meaning.Acceptance.{Acceptance, Rules, accepts_by, rules_in_force};
ghost use Rattle.session_words.specs.declared.mode.Mode.{Mode};
ghost use Rattle.wider_functions.specs.Among.{AreRulesAmong};

use crate::AMPLE;
use disk_trait::{Disk, MemoryDisk};
use lisp_object::Datum;
use lisp_object::refusal::REOPEN;
use prevalence_store::{Mode, Outcome, Store};
use std::alloc::{AllocError, Global};
use std::test::Fail;
use user_macros::{MacroFunctions, Macros, NoFunctions};
use wider_functions::more_operators_change_nothing;

/// Executes a form: its value, or the number under which it is refused. If a program with fewer operators accepts it, it has the same value
/// there.
fn answered<D: Disk, M: MacroFunctions>(store: &mut Store<D, M>, form: &[u8]) -> Result<Datum, u16>
    ensures { IfOk result (λ value. (w : WorldState) (fewer : Rules) (given : Acceptance)
        → store.old.world ≡ Some w → AreRulesAmong fewer rules_in_force
        → accepts_by fewer M.Meaning.functions w Mode.Current form.now ≡ Ok given → object_of value ≡ given.value) }
{
    more_operators_change_nothing();
    match store.execute(Mode::Current, form) {
        Outcome::Accepted(value) => Ok(value),
        Outcome::Snapshotted => Err(REOPEN),
        Outcome::Refused(number) => Err(number),
    }
}

/// Whether a new store accepts a form.
fn is_accepted<D: Disk + Drop, M: MacroFunctions + Drop>(
    alloc: Global,
    disk: D,
    macros: M,
    form: &[u8],
) -> Result<bool, AllocError>
    requires room { (D.state disk).failures < 2 ^ 64 - 1 }
    requires answers { M.answers macros }
{
    let Ok(mut store) = Store::open(alloc, disk, macros, AMPLE) else {
        return Err(AllocError);
    };
    let answer = answered(&mut store, form);
    let _closed = store.close();
    Ok(answer.is_ok())
}

#[test]
fn a_form_is_answered(rt: HostRuntime) -> Result<(), Fail> {
    let disk = MemoryDisk::new(rt.alloc());
    let macros = Macros::new(rt.alloc(), NoFunctions);
    assert!(rt; is_accepted(rt.alloc(), disk, macros, b"(LIST 1)")?);
    Ok(())
}
