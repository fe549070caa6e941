// What is done with the values of arguments.
ghost use Rattle.std.specs.Prelude.{◌≡◌, ◌∷◌, List, IfOk};
ghost use Rattle.lisp_object.specs.Object.{Object, list_of};
ghost use Rattle.lisp_object.specs.Datum.{object_of};
ghost use Rattle.package_table.specs.Table.{Name, Table};
ghost use Rattle.plist_state.specs.State.{WorldState};
ghost use Rattle.plist_state.specs.Sound.{IsValue};
ghost use Rattle.lisp_operators.specs.Evaluation.{Evaluation};
ghost use Rattle.lisp_operators.specs.Packages.{enter};
ghost use Rattle.lisp_operators.specs.EvaluationAnswers.{Answers, CarriesOut, done, IsProper, AreProper, IsProperValue, IsArgument, AreArgumentsOf, objects};
ghost use Rattle.lisp_operators.specs.Readtables.{AreFunctionNames};
ghost use Rattle.evaluator.specs.Operators.{computed, first};
ghost use Rattle.evaluator.specs.Operations.{operator, action_of};
ghost use Rattle.evaluator.specs.Value.{rest};
ghost use Rattle.kept_functions.specs.Definitions.{defun_value};
ghost use Rattle.kept_functions.specs.Counting.{here, at_point};
ghost use Rattle.lexical_evaluation.specs.Values.{named_function, called_operator, steps_over_packages};
ghost use Rattle.lexical_evaluation.specs.Machine.{Ways, StepsOn, KeepsOutcome, Spends, finished_in, named_by_first, global_value};
ghost use Rattle.lexical_evaluation.specs.Ways.{ways, performed};
ghost use Rattle.lexical_evaluation.specs.Arguments.{AreArguments, MayFinish, IsMachineOf, IsLeftOf, StepsToArguments, StepsToGrown};

use super::head::{is_function, toll};
use super::{Machine, NextStep};
use crate::frame::Target;
use evaluator::{Operation, PlaceForm, carry_out, computed_of_list, symbol_value};
use kept_functions::{define, define_reader, function_in, weight};
use lisp_object::refusal::{ARGUMENT_COUNT, ARGUMENT_KIND, NOT_A_FORM, UNKNOWN_OPERATOR};
use lisp_object::{Datum, Items};
use lisp_operators::EvaluationError::Refused;
use lisp_operators::{Evaluated, EvaluationError, either, kinds, packages, values};
use plist_state::World;
use readtable_core::FnName;
use std::alloc::{AllocError, Global};
use value_functions::{ValueFunction, apply};

// A function of values alone: one that takes any number of them is refused where LIST of them is.
fn compute(
    alloc: Global,
    function: ValueFunction,
    values: Vec<Datum>,
) -> Result<Evaluated, EvaluationError>
    requires { AreProper values.items }
    ensures gives { (s : WorldState) → CarriesOut (computed function) values.items s s result }
    ensures proper { IfOk result IsProperValue }
{
    if function.most().is_none() {
        return computed_of_list(alloc, function, values::list(alloc, values));
    }
    match apply(alloc, function, values) {
        Ok(value) => Ok(Evaluated {
            value,
            wrote: false,
        }),
        Err(error) => Err(error),
    }
}

// The first of these is taken away, and NIL is given where there is none.
fn take_first(alloc: Global, values: &mut Vec<Datum>) -> Result<Datum, AllocError>
    requires { AreProper values.old.items }
    ensures first { IfOk result (λ d. object_of d ≡ first (list_of (objects values.old.items))) }
    ensures others { IfOk result
        (λ _. list_of (objects values.new.items) ≡ rest (list_of (objects values.old.items))) }
    ensures proper { IfOk result IsProper }
    ensures others_proper { AreProper values.new.items }
{
    if values.is_empty() {
        return values::empty_list(alloc);
    }
    Ok(values.remove(0))
}

// The list of these.
fn listed(alloc: Global, items: Vec<Datum>) -> Result<Datum, AllocError>
    requires { AreProper items.items }
    ensures list { IfOk result (λ d. object_of d ≡ list_of (objects items.items)) }
    ensures proper { IfOk result IsProper }
{
    if items.is_empty() {
        return values::empty_list(alloc);
    }
    Ok(Datum::List {
        items: Items::from_vec(items),
        tail: None,
    })
}

// What an operator gives of these values.
fn perform(
    alloc: Global,
    world: &mut World,
    names: &[FnName],
    operation: Operation,
    place: PlaceForm,
    values: Vec<Datum>,
) -> Result<Evaluated, EvaluationError>
    requires names { AreFunctionNames names.now }
    requires values { AreArgumentsOf world.old values.items }
    ensures gives { CarriesOut (performed names.now operation place) values.items
        world.old.0 world.new.0 result }
    ensures proper { IfOk result IsProperValue }
    ensures marked { world.new.1 ≡ world.old.1 }
{
    match operation {
        Operation::MakeList => values::list(alloc, values),
        Operation::Computes(function) => compute(alloc, function, values),
        _ => carry_out(alloc, world, names, operation, place, values),
    }
}

impl Machine {
    // What an operator gave, from the first of two states to the second: it takes its weight.
    fn made(
        &mut self,
        made: Result<Evaluated, EvaluationError>,
    ) -> Result<NextStep, EvaluationError>
        requires { IfOk made IsProperValue }
        ensures gives { (w : Ways) (s t : WorldState) (o : Evaluation Object) → Answers done made t o
            → KeepsOutcome w s t self.old self.new result (λ rules around p. at_point p o) }
        ensures arguments { (u : Table) → IfOk made (λ e. IsMachineOf u self.old × IsArgument u e.value)
            → IsLeftOf u self.new result }
    {
        match made {
            Err(error) => Err(error),
            Ok(evaluated) => {
                let Evaluated { value, wrote } = evaluated;
                self.wrote = either(self.wrote, wrote);
                self.spend(weight(&value))?;
                Ok(NextStep::Give(value))
            }
        }
    }

    /// The values of arguments are all there.
    pub(crate) fn finish(
        &mut self,
        world: &mut World,
        names: &[FnName],
        target: Target,
        values: Vec<Datum>,
    ) -> Result<NextStep, EvaluationError>
        requires names { AreFunctionNames names.now }
        requires values { AreArgumentsOf world.old values.items }
        requires target { MayFinish world.old.0.packages target values.items }
        ensures gives { KeepsOutcome (ways names.now) world.old.0 world.new.0 self.old self.new result
            (λ rules around p. finished_in rules (performed names.now) around target (objects values.items) p) }
        ensures marked { world.new.1 ≡ world.old.1 }
        ensures arguments { StepsToGrown world.old.0.packages world.new.0.packages self.old self.new result }
    {
        match target {
            Target::Operation(operation, place, steps) => {
                self.take_steps(steps)?;
                self.operate(world, names, operation, place, values)
            }
            Target::Function(head) => self.call_named(world, names, &head, values),
            Target::NamedByFirst => self.call_first(world, names, values),
            Target::Written(parts) => self.call_written(parts, values),
            Target::First => self.give_first(values),
            Target::Enter => self.enter_package(world, values),
            Target::Global => self.global(world, values),
            Target::Define => self.define(world, values),
            Target::DefineReader => self.define_reader(world, values),
        }
    }

    // So many steps are taken, where they are not cut off.
    fn take_steps(&mut self, steps: u64) -> Result<(), EvaluationError>
        ensures { Spends steps self.old self.new result }
    {
        self.spend(steps)
    }

    // An operator, whose steps over packages are taken.
    fn operate(
        &mut self,
        world: &mut World,
        names: &[FnName],
        operation: Operation,
        place: PlaceForm,
        values: Vec<Datum>,
    ) -> Result<NextStep, EvaluationError>
        requires names { AreFunctionNames names.now }
        requires values { AreArgumentsOf world.old values.items }
        ensures gives { (w : Ways) → KeepsOutcome w world.old.0 world.new.0 self.old self.new result
            (λ rules around p. at_point p (performed names.now operation place (objects values.items) p.state)) }
        ensures marked { world.new.1 ≡ world.old.1 }
        ensures arguments { StepsToGrown world.old.0.packages world.new.0.packages self.old self.new result }
    {
        world.soundness();
        let made = perform(self.alloc, world, names, operation, place, values);
        self.made(made)
    }

    // The function that a symbol names, of these values: an operator, or a function of the world.
    fn call_named(
        &mut self,
        world: &mut World,
        names: &[FnName],
        named: &Datum,
        values: Vec<Datum>,
    ) -> Result<NextStep, EvaluationError>
        requires names { AreFunctionNames names.now }
        requires named { IsProper named.now }
        requires values { AreArgumentsOf world.old values.items }
        ensures gives { KeepsOutcome (ways names.now) world.old.0 world.new.0 self.old self.new result
            (λ rules around p. named_function rules (object_of named.now) (objects values.items) p) }
        ensures marked { world.new.1 ≡ world.old.1 }
        ensures arguments { StepsToGrown world.old.0.packages world.new.0.packages self.old self.new result }
    {
        world.soundness();
        let Ok((home, name)) = kinds::symbol(named) else {
            return Err(Refused(ARGUMENT_KIND));
        };
        match Operation::of_symbol(home, name) {
            Some(operation) => {
                let steps = toll(home, name);
                self.call_operator(world, names, operation, steps, values)
            }
            None => match function_in(world, home, name) {
                Some(definition) => self.call_function(definition, values),
                None => Err(Refused(UNKNOWN_OPERATOR)),
            },
        }
    }

    // An operator as a function.
    fn call_operator(
        &mut self,
        world: &mut World,
        names: &[FnName],
        operation: Operation,
        steps: u64,
        values: Vec<Datum>,
    ) -> Result<NextStep, EvaluationError>
        requires names { AreFunctionNames names.now }
        requires values { AreArgumentsOf world.old values.items }
        ensures gives { (w : Ways) (head : Object) → steps ≡ steps_over_packages head
            → KeepsOutcome w world.old.0 world.new.0 self.old self.new result
            (λ rules around p. called_operator head (operator names.now operation) (action_of names.now operation) (objects values.items) p) }
        ensures marked { world.new.1 ≡ world.old.1 }
        ensures arguments { StepsToGrown world.old.0.packages world.new.0.packages self.old self.new result }
    {
        if !is_function(operation) {
            return Err(Refused(UNKNOWN_OPERATOR));
        }
        if !operation.counts(values.len()) {
            return Err(Refused(ARGUMENT_COUNT));
        }
        self.take_steps(steps)?;
        self.operate(world, names, operation, PlaceForm::Property, values)
    }

    // The function that the first value names, of the others.
    fn call_first(
        &mut self,
        world: &mut World,
        names: &[FnName],
        values: Vec<Datum>,
    ) -> Result<NextStep, EvaluationError>
        requires names { AreFunctionNames names.now }
        requires values { AreArgumentsOf world.old values.items }
        ensures gives { KeepsOutcome (ways names.now) world.old.0 world.new.0 self.old self.new result
            (λ rules around p. named_by_first rules (objects values.items) p) }
        ensures marked { world.new.1 ≡ world.old.1 }
        ensures arguments { StepsToGrown world.old.0.packages world.new.0.packages self.old self.new result }
    {
        if values.is_empty() {
            return Err(Refused(ARGUMENT_COUNT));
        }
        let mut others = values;
        let first = others.remove(0);
        self.call_named(world, names, &first, others)
    }

    // PROG1.
    fn give_first(&mut self, values: Vec<Datum>) -> Result<NextStep, EvaluationError>
        requires { AreProper values.items }
        ensures gives { StepsOn self.old self.new result
            (λ does rules around p. here (first (list_of (objects values.items))) p) }
        ensures arguments { StepsToArguments self.old self.new result (λ u. AreArguments u values.items) }
    {
        let mut values = values;
        Ok(NextStep::Give(take_first(self.alloc, &mut values)?))
    }

    // IN-PACKAGE.
    fn enter_package(
        &mut self,
        world: &mut World,
        values: Vec<Datum>,
    ) -> Result<NextStep, EvaluationError>
        requires { AreArgumentsOf world.old values.items }
        ensures gives { (w : Ways) → KeepsOutcome w world.old.0 world.new.0 self.old self.new result
            (λ rules around p. at_point p (enter (first (list_of (objects values.items))) p.state)) }
        ensures marked { world.new.1 ≡ world.old.1 }
        ensures arguments { StepsToGrown world.old.0.packages world.new.0.packages self.old self.new result }
    {
        world.soundness();
        let mut values = values;
        let name = take_first(self.alloc, &mut values)?;
        let entered = packages::enter(self.alloc, world, &name);
        self.made(entered)
    }

    // The value of a symbol that no form binds.
    fn global(&mut self, world: &World, values: Vec<Datum>) -> Result<NextStep, EvaluationError>
        requires { AreArguments world.now.0.packages values.items }
        ensures gives { (names : List Name)
            → KeepsOutcome (ways names) world.now.0 world.now.0 self.old self.new result
            (λ rules around p. global_value rules (objects values.items) p) }
        ensures arguments { StepsToGrown world.now.0.packages world.now.0.packages self.old self.new result }
    {
        if values.is_empty() {
            return Err(Refused(NOT_A_FORM));
        }
        let mut others = values;
        let symbol = others.remove(0);
        self.give_global(world, &symbol)
    }

    // The value of a symbol of the language.
    fn give_global(&mut self, world: &World, symbol: &Datum) -> Result<NextStep, EvaluationError>
        requires { IsArgument world.now.0.packages symbol.now }
        ensures gives { (names : List Name) (xs : List Object)
            → KeepsOutcome (ways names) world.now.0 world.now.0 self.old self.new result
            (λ rules around p. global_value rules (object_of symbol.now ∷ xs) p) }
        ensures arguments { StepsToGrown world.now.0.packages world.now.0.packages self.old self.new result }
    {
        world.soundness();
        match kinds::symbol(symbol) {
            Ok((_home, _name)) => {
                let value = symbol_value(self.alloc, world, symbol);
                self.made(value)
            }
            Err(_) => Err(Refused(NOT_A_FORM)),
        }
    }

    // DEFUN.
    fn define(&mut self, world: &mut World, values: Vec<Datum>) -> Result<NextStep, EvaluationError>
        requires values { AreArgumentsOf world.old values.items }
        requires list { IsValue world.old.0.packages (list_of (objects values.items)) }
        ensures gives { (w : Ways) → KeepsOutcome w world.old.0 world.new.0 self.old self.new result
            (λ rules around p. at_point p (defun_value (first (list_of (objects values.items))) (rest (list_of (objects values.items))) p.state)) }
        ensures marked { world.new.1 ≡ world.old.1 }
        ensures arguments { StepsToGrown world.old.0.packages world.new.0.packages self.old self.new result }
    {
        world.soundness();
        let mut values = values;
        let name = take_first(self.alloc, &mut values)?;
        let definition = listed(self.alloc, values)?;
        let defined = define(self.alloc, world, name, definition);
        self.made(defined)
    }

    // DEFINE-READER.
    fn define_reader(
        &mut self,
        world: &mut World,
        values: Vec<Datum>,
    ) -> Result<NextStep, EvaluationError>
        requires values { AreArgumentsOf world.old values.items }
        requires list { IsValue world.old.0.packages (list_of (objects values.items)) }
        ensures gives { (names : List Name)
            → KeepsOutcome (ways names) world.old.0 world.new.0 self.old self.new result
            (λ rules around p. rules.defined_reader (list_of (objects values.items)) p) }
        ensures marked { world.new.1 ≡ world.old.1 }
        ensures arguments { StepsToGrown world.old.0.packages world.new.0.packages self.old self.new result }
    {
        if values.is_empty() {
            return Err(Refused(ARGUMENT_KIND));
        }
        world.soundness();
        let mut values = values;
        let name = take_first(self.alloc, &mut values)?;
        let definition = listed(self.alloc, values)?;
        let defined = define_reader(self.alloc, world, name, definition);
        self.made(defined)
    }
}
