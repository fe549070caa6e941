//! The operators on packages (standard 11.2).
ghost use Rattle.std.specs.Prelude.{◌≡◌, true, IfErr, IfOk};
ghost use Rattle.lisp_object.specs.Datum.{object_of};
ghost use Rattle.package_table.specs.Table.{IsPackage, package_named, full_name};
ghost use Rattle.lisp_operators.specs.Packages.{make, enter, intern};
ghost use Rattle.lisp_operators.specs.EvaluationAnswers.{IsArgument, IsPackageOr, Answers, done, IsProperValue, AreArgumentsOf, CarriesOut};

use crate::EvaluationError::Refused;
use crate::arguments::{name_or, one, one_and_rest};
use crate::{Evaluated, EvaluationError, kinds, values};
use lisp_object::Datum;
use lisp_object::refusal::NO_SUCH_PACKAGE;
use package_table::standardized::{CL, CL_USER, COMMON_LISP, COMMON_LISP_USER};
use plist_state::World;
use std::alloc::Global;

/// The package of this name or nickname. Takes no memory.
pub(crate) fn package_named<'a>(world: &'a World, name: &[u8]) -> Result<&'a [u8], EvaluationError>
    ensures named { IsPackageOr (λ p. p.now) result (package_named world.now.0.packages name.now) }
    ensures there { IfOk result (λ p. IsPackage world.now.0.packages p.now) }
{
    world.packages().find(name).ok_or(Refused(NO_SUCH_PACKAGE))
}

/// The name for which a nickname stands; any other name is itself.
pub(crate) fn full_name(name: &[u8]) -> &[u8]
    ensures { result.now ≡ full_name name.now }
{
    if name == CL {
        return COMMON_LISP;
    }
    if name == CL_USER {
        return COMMON_LISP_USER;
    }
    name
}

/// MAKE-PACKAGE: its name. Refused where a package has that name already, or there is no room for one more.
/// After an error the world may have changed, but for its marks: who calls it goes back to one.
pub fn make(
    alloc: Global,
    world: &mut World,
    values: &[Datum],
) -> Result<Evaluated, EvaluationError>
    requires { AreArgumentsOf world.old values.now }
    ensures gives { CarriesOut make values.now world.old.0 world.new.0 result }
    ensures proper { IfOk result IsProperValue }
    ensures marked { world.new.1 ≡ world.old.1 }
{
    let name = kinds::name(one(values)?)?;
    world.make(name)?;
    Ok(Evaluated {
        value: values::text(alloc, name)?,
        wrote: true,
    })
}

/// IN-PACKAGE, of its argument as it is written: the name of the package that becomes current. Refused where the
/// argument names no package. After an error the world is as it was.
pub fn enter(alloc: Global, world: &mut World, name: &Datum) -> Result<Evaluated, EvaluationError>
    requires { IsArgument world.old.0.packages name.now }
    ensures gives { Answers done result world.new.0 (enter (object_of name.now) world.old.0) }
    ensures proper { IfOk result IsProperValue }
    ensures unchanged { IfErr result (λ _. world.new ≡ world.old) }
    ensures marked { world.new.1 ≡ world.old.1 }
{
    world.soundness();
    let package = Vec::from_slice(alloc, package_named(world, kinds::name(name)?)?)?;
    let value = values::text(alloc, package.as_slice())?;
    world.set_current_package(package.as_slice())?;
    Ok(Evaluated { value, wrote: true })
}

/// INTERN: the symbol that the package finds by the name, or a new one. It wrote if the symbol is new.
/// After an error the world may have changed, but for its marks: who calls it goes back to one.
pub fn intern(
    alloc: Global,
    world: &mut World,
    values: &[Datum],
) -> Result<Evaluated, EvaluationError>
    requires { AreArgumentsOf world.old values.now }
    ensures gives { CarriesOut intern values.now world.old.0 world.new.0 result }
    ensures proper { IfOk result IsProperValue }
    ensures marked { world.new.1 ≡ world.old.1 }
{
    let (name, rest) = one_and_rest(values)?;
    let name = kinds::text(name)?;
    let package = package_named(world, name_or(rest, world.current_package())?)?;
    let package = Vec::from_slice(alloc, package)?;
    let interned = world.intern(package.as_slice(), name)?;
    world.soundness();
    Ok(Evaluated {
        value: values::symbol(alloc, interned.home.as_slice(), name)?,
        wrote: interned.is_new,
    })
}
