//! The answer to a form: the same with more macro functions, and its number where it is refused.
ghost use Rattle.std.specs.Prelude.{◌≡◌, ◌<◌, ◌-◌, ◌^◌, ℕ, IfErr, IfOk, Err, Ok, Some};
ghost use Rattle.lisp_object.specs.Datum.{object_of};
ghost use Rattle.plist_state.specs.State.{WorldState};
ghost use Rattle.prevalence_store.specs.meaning.Acceptance.{Acceptance, accepts, IsFormNumber};
ghost use Rattle.user_macros.specs.Functions.{Functions};
ghost use Rattle.wider_functions.specs.Among.{AreAmong};

use crate::troubled_disks::{AMPLE, Trouble};
use disk_trait::{Disk, MemoryDisk};
use lisp_object::Datum;
use lisp_object::refusal::REOPEN;
use prevalence_store::{Mode, Outcome, Store, form_numbers};
use std::alloc::Global;
use std::test::Fail;
use user_macros::{MacroFunctions, Macros, NoFunctions};
use wider_functions::forms_stay_accepted;

/// Executes a form: its value, or the number under which it is refused.
///
/// - `wider`: a form that is accepted has this value with more macro functions too.
/// - `number`: a number below 60 is that of a form.
fn answered<D: Disk, M: MacroFunctions>(store: &mut Store<D, M>, form: &[u8]) -> Result<Datum, u16>
    ensures wider { IfOk result (λ value. (w : WorldState) (more : Functions) → store.old.world ≡ Some w
        → AreAmong M.Meaning.functions more → (given : Acceptance)
        × (accepts more w Mode.Current form.now ≡ Ok given) × (object_of value ≡ given.value)) }
    ensures number { IfErr result (λ number. (w : WorldState) → store.old.world ≡ Some w → number < 60
        → (accepts M.Meaning.functions w Mode.Current form.now ≡ Err number) × IsFormNumber number) }
{
    forms_stay_accepted();
    form_numbers();
    match store.execute(Mode::Current, form) {
        Outcome::Accepted(value) => Ok(value),
        Outcome::Snapshotted => Err(REOPEN),
        Outcome::Refused(number) => Err(number),
    }
}

/// The number under which a new store refuses a form, 0 where it accepts it.
fn number_of<D: Disk + Drop, M: MacroFunctions + Drop>(
    alloc: Global,
    disk: D,
    macros: M,
    form: &[u8],
) -> Result<u16, Trouble>
    requires room { (D.state disk).failures < 2 ^ 64 - 1 }
    requires answers { M.answers macros }
{
    let Ok(mut store) = Store::open(alloc, disk, macros, AMPLE) else {
        return Err(Trouble::Memory);
    };
    let answer = answered(&mut store, form);
    let _closed = store.close();
    match answer {
        Ok(_) => Ok(0),
        Err(number) => Ok(number),
    }
}

#[test]
fn a_form_has_a_value_or_a_number(rt: HostRuntime) -> Result<(), Fail> {
    let forms: [(&[u8], u16); 3] = [(b"(LIST 1)", 0), (b"(", 1), (b"(A)", 31)];
    for (form, wanted) in forms {
        let disk = MemoryDisk::new(rt.alloc());
        let macros = Macros::new(rt.alloc(), NoFunctions);
        assert_eq!(rt; number_of(rt.alloc(), disk, macros, form)?, wanted);
    }
    Ok(())
}
