//! What an operator makes of the values of its arguments.
ghost use Rattle.std.specs.Prelude.{◌≡◌, IfOk};
ghost use Rattle.lisp_operators.specs.Readtables.{AreFunctionNames};
ghost use Rattle.lisp_operators.specs.Evaluation.{also};
ghost use Rattle.evaluator.specs.Operations.{function_of_operation, set_at, has_default_at};
ghost use Rattle.evaluator.specs.StandIns.{seen};
ghost use Rattle.lisp_operators.specs.EvaluationAnswers.{Answers, done, IsProperValue, AreArgumentsOf, CarriesOut, objects};

use crate::computed::computed;
use crate::control::after;
use crate::effects::{effect, truth};
use crate::operation::Operation;
use crate::place::PlaceForm;
use crate::values::Values;
use crate::wanted::{EvaluationTask, ValueUse, seen};
use lisp_object::Datum;
use lisp_object::refusal::ARGUMENT_KIND;
use lisp_operators::EvaluationError::Refused;
use lisp_operators::look_ups::look_up;
use lisp_operators::places::change;
use lisp_operators::read_base::set_base;
use lisp_operators::readtables::{get_dispatch, make_dispatch, set_dispatch, set_macro};
use lisp_operators::{Evaluated, EvaluationError, package_lists, packages, properties, readtables};
use plist_state::World;
use readtable_core::FnName;
use std::alloc::Global;

/// What an operator gives of these values, which were evaluated for it. After an error the world may have changed, but
/// for its marks: who calls it goes back to one.
pub(crate) fn perform(
    alloc: Global,
    world: &mut World,
    names: &[FnName],
    task: EvaluationTask,
    place: PlaceForm,
    values: Values,
) -> Result<Evaluated, EvaluationError>
    requires names { AreFunctionNames names.now }
    requires values { AreArgumentsOf world.old values.values.items }
    ensures gives { Answers done result world.new.0
        (also values.wrote
        (seen task.wanted (function_of_operation names.now task.operation place
        (objects values.values.items) world.old.0))) }
    ensures proper { IfOk result IsProperValue }
    ensures marked { world.new.1 ≡ world.old.1 }
{
    let Values { values, wrote } = values;
    let operation = task.operation;
    match task.wanted {
        ValueUse::Value => after(
            wrote,
            carry_out(alloc, world, names, operation, place, values),
        ),
        ValueUse::Truth => after(wrote, truth(alloc, world, names, operation, place, values)),
        ValueUse::Depth => {
            let evaluated = carry_out(alloc, world, names, operation, place, values);
            after(wrote, seen(evaluated, ValueUse::Depth))
        }
        ValueUse::Nothing => after(wrote, effect(alloc, world, names, operation, place, values)),
    }
}

/// What an operator gives of the values of its arguments, where these wrote nothing. An operator that takes its arguments as they are written,
/// or decides which are evaluated, is refused. After an error the world may have changed, but for its marks: who calls it goes back to one.
pub fn carry_out(
    alloc: Global,
    world: &mut World,
    names: &[FnName],
    operation: Operation,
    place: PlaceForm,
    values: Vec<Datum>,
) -> Result<Evaluated, EvaluationError>
    requires names { AreFunctionNames names.now }
    requires values { AreArgumentsOf world.old values.items }
    ensures gives { CarriesOut (function_of_operation names.now operation place) values.items
        world.old.0 world.new.0 result }
    ensures proper { IfOk result IsProperValue }
    ensures marked { world.new.1 ≡ world.old.1 }
{
    match operation {
        Operation::Get => properties::get(alloc, world, values),
        Operation::Setf => put(alloc, world, place, values),
        Operation::Remprop => properties::remove(alloc, world, values),
        Operation::SymbolPlist => properties::symbol_plist(alloc, world, values),
        Operation::Incf => properties::increment(alloc, world, values),
        Operation::Push => properties::push(alloc, world, values),
        Operation::MakePackage => packages::make(alloc, world, values.as_slice()),
        Operation::Export => package_lists::export(alloc, world, values.as_slice()),
        Operation::Import => package_lists::import(alloc, world, values.as_slice()),
        Operation::UsePackage => package_lists::use_package(alloc, world, values.as_slice()),
        Operation::Intern => packages::intern(alloc, world, values.as_slice()),
        Operation::CopyReadtable => readtables::copy_readtable(alloc, world, values.as_slice()),
        Operation::InReadtable => readtables::enter_readtable(alloc, world, values.as_slice()),
        Operation::SetSyntaxFromChar => readtables::set_syntax(alloc, world, values.as_slice()),
        Operation::SetMacroCharacter => set_macro(alloc, world, names, values.as_slice()),
        Operation::GetMacroCharacter => readtables::get_macro(alloc, world, values.as_slice()),
        Operation::MakeDispatchMacroCharacter => make_dispatch(alloc, world, values.as_slice()),
        Operation::SetDispatchMacroCharacter => set_dispatch(
            alloc,
            world,
            names,
            values.as_slice(),
        ),
        Operation::GetDispatchMacroCharacter => get_dispatch(alloc, world, values.as_slice()),
        Operation::ReadtableCase => readtables::readtable_case(alloc, world, values.as_slice()),
        Operation::Computes(function) => computed(alloc, function, values),
        Operation::LooksUp(operator) => look_up(alloc, world, operator, values.as_slice()),
        Operation::Changes(operator) => change(alloc, world, operator, has_default(place), values),
        Operation::Quote => Err(Refused(ARGUMENT_KIND)),
        Operation::Progn => Err(Refused(ARGUMENT_KIND)),
        Operation::If => Err(Refused(ARGUMENT_KIND)),
        Operation::MakeList => Err(Refused(ARGUMENT_KIND)),
        Operation::InPackage => Err(Refused(ARGUMENT_KIND)),
        Operation::Decides(_) => Err(Refused(ARGUMENT_KIND)),
    }
}

// Whether a property has a default there.
fn has_default(place: PlaceForm) -> bool
    ensures { result ≡ has_default_at place }
{
    match place {
        PlaceForm::PropertyOr => true,
        PlaceForm::Property => false,
        PlaceForm::Case => false,
        PlaceForm::ReadBase => false,
    }
}

// SETF of a property, of a readtable's case, or of the read base.
fn put(
    alloc: Global,
    world: &mut World,
    place: PlaceForm,
    values: Vec<Datum>,
) -> Result<Evaluated, EvaluationError>
    requires { AreArgumentsOf world.old values.items }
    ensures gives { CarriesOut (set_at place) values.items world.old.0 world.new.0 result }
    ensures proper { IfOk result IsProperValue }
    ensures marked { world.new.1 ≡ world.old.1 }
{
    match place {
        PlaceForm::Property | PlaceForm::PropertyOr => properties::set(alloc, world, values),
        PlaceForm::Case => readtables::set_case(alloc, world, values.as_slice()),
        PlaceForm::ReadBase => set_base(world, values.as_slice()),
    }
}
