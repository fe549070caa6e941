//! Printed objects, added to a text.
ghost use Rattle.std.specs.Prelude.{◌≡◌, ◌++◌, true, OnOk};
ghost use Rattle.lisp_object.specs.Datum.{object_of, is_proper};
ghost use Rattle.world_text.specs.ObjectTexts.{object_text};

use canon_printer::print;
use lisp_object::Datum;
use package_table::Packages;
use package_table::standardized::COMMON_LISP_USER;
use std::alloc::{AllocError, Global};

/// Adds the printed text of an object. The object is let go here, so that the next one finds its memory free.
pub(crate) fn push_printed(
    alloc: Global,
    text: &mut Vec<u8>,
    datum: Datum,
    packages: &Packages,
) -> Result<(), AllocError>
    requires { is_proper datum ≡ true }
    ensures { OnOk result (text.new.items
        ≡ text.old.items ++ object_text packages.now.0 (object_of datum)) }
{
    packages.soundness();
    let printed = print(alloc, &datum, packages, COMMON_LISP_USER)?;
    text.extend_from_slice(printed.as_slice())
}
