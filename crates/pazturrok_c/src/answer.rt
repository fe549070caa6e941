// The bytes of answers.
ghost use Rattle.std.specs.Prelude.{◌≡◌, true, IfOk};
ghost use Rattle.lisp_object.specs.Datum.{is_proper, object_of};
ghost use Rattle.pazturrok_c.specs.Engine.{value_text_in};

use canon_printer::print;
use deferred_disk::DeferredDisk;
use fixed_macros::Fixed;
use lisp_object::Datum;
use prevalence_store::Store;
use six_functions::SixFunctions;
use std::alloc::{AllocError, Global};

/// The store of an engine.
pub(crate) type EngineStore = Store<DeferredDisk, Fixed<SixFunctions>>;

/// A value, as it is printed in the world of a store that has one. It fails only for want of memory.
pub(crate) fn printed(
    alloc: Global,
    store: &EngineStore,
    value: &Datum,
) -> Result<Vec<u8>, AllocError>
    requires { is_proper value.now ≡ true }
    ensures { IfOk result (λ text. text.items ≡ value_text_in store.now.world (object_of value.now)) }
{
    let Some(world) = store.world() else {
        return Err(AllocError);
    };
    world.soundness();
    print(alloc, value, world.packages(), world.current_package())
}
