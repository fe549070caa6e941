// A form is taken apart.
ghost use Rattle.std.specs.Prelude.{ℕ, ◌≡◌, ◌≢◌, ◌<◌, ◌≤◌, ◌+◌, ◌-◌, true, false, List, [], Option, None, length, reverse};
ghost use Rattle.lisp_object.specs.Object.{Object, list_of};
ghost use Rattle.lisp_object.specs.Datum.{object_of};
ghost use Rattle.package_table.specs.Table.{Name};
ghost use Rattle.plist_state.specs.State.{WorldState};
ghost use Rattle.lisp_operators.specs.EvaluationAnswers.{IsProper, AreProper, objects, IsArgument};
ghost use Rattle.evaluator.specs.Operators.{first, is_interned};
ghost use Rattle.evaluator.specs.Operations.{OperationTakesCount, action_of, operator};
ghost use Rattle.evaluator.specs.ArgumentValues.{arguments_in, refusal_of_place, place_form_of};
ghost use Rattle.kept_functions.specs.Counting.{here, then_on};
ghost use Rattle.lexical_evaluation.specs.Values.{an_operator, steps_over_packages, value_in, values_in, choice_in, action_in, form_value, named_function};
ghost use Rattle.lexical_evaluation.specs.Machine.{StepsOn, KeepsOutcome, to_come, finished_in, AreProperBindings};
ghost use Rattle.lexical_evaluation.specs.Ways.{ways, head_shown, head_in, parts_in, is_call};
ghost use Rattle.lexical_evaluation.specs.Arguments.{AreArguments, MayFinish, StepsToArguments};
ghost use Rattle.plist_state.specs.Sound.{IsValue};

use super::head::{FormHead, head_at, toll};
use super::places::arguments;
use super::{Machine, NextStep};
use crate::frame::{Awaiting, Target};
use evaluator::{Operation, PlaceForm, check_place};
use kept_functions::{bound_in, symbol_in, weight};
use lisp_object::Datum;
use lisp_object::refusal::{ARGUMENT_COUNT, NOT_A_FORM, UNKNOWN_OPERATOR};
use lisp_operators::EvaluationError::Refused;
use lisp_operators::{EvaluationError, kinds};
use plist_state::World;

impl Machine {
    /// A form.
    pub(crate) fn begin(&mut self, world: &World, form: Datum) -> Result<NextStep, EvaluationError>
        requires form { IsProper form }
        requires bindings { AreProperBindings self.old }
        ensures gives { (names : List Name)
            → KeepsOutcome (ways names) world.now.0 world.now.0 self.old self.new result
            (λ rules around p. value_in rules around p (object_of form)) }
        ensures arguments { StepsToArguments self.old self.new result (λ u. IsArgument u form) }
    {
        match form.into_list() {
            Ok((items, tail)) => {
                if tail.is_some() {
                    return Err(Refused(NOT_A_FORM));
                }
                self.begin_list(world, items.into_vec())
            }
            Err(atom) => self.begin_atom(atom),
        }
    }

    // A form that is no list.
    fn begin_atom(&mut self, atom: Datum) -> Result<NextStep, EvaluationError>
        requires form { IsProper atom }
        requires bindings { AreProperBindings self.old }
        requires atom { (items : List Datum) (tail : Option Datum) → atom ≢ Datum.List items tail }
        ensures gives { StepsOn self.old self.new result
            (λ does rules around p. value_in rules around p (object_of atom)) }
        ensures arguments { StepsToArguments self.old self.new result (λ u. IsArgument u atom) }
    {
        match &atom {
            Datum::Uninterned(_) => Err(Refused(NOT_A_FORM)),
            Datum::Symbol { .. } => self.begin_symbol(atom),
            Datum::List { .. } => unreachable!(),
            Datum::Integer(_) => Ok(NextStep::Give(atom)),
            Datum::Rational(_) => Ok(NextStep::Give(atom)),
            Datum::Char(_) => Ok(NextStep::Give(atom)),
            Datum::Text(_) => Ok(NextStep::Give(atom)),
            Datum::Vector(_) => Ok(NextStep::Give(atom)),
        }
    }

    // A variable: a copy of its value, where a form binds it.
    fn begin_symbol(&mut self, symbol: Datum) -> Result<NextStep, EvaluationError>
        requires form { IsProper symbol }
        requires bindings { AreProperBindings self.old }
        requires symbol { is_interned (object_of symbol) ≡ true }
        ensures gives { StepsOn self.old self.new result
            (λ does rules around p. value_in rules around p (object_of symbol)) }
        ensures arguments { StepsToArguments self.old self.new result (λ u. IsArgument u symbol) }
    {
        let (home, name) = symbol_in(&symbol);
        match bound_in(self.bindings.as_slice(), home, name) {
            Some(value) => {
                let value = value.copy(self.alloc)?;
                self.spend(weight(&value))?;
                Ok(NextStep::Give(value))
            }
            None => {
                let mut values = Vec::new(self.alloc);
                values.push(symbol)?;
                Ok(NextStep::Finish(Target::Global, values))
            }
        }
    }

    // A list of these.
    fn begin_list(&mut self, world: &World, items: Vec<Datum>) -> Result<NextStep, EvaluationError>
        requires some { 0 < length items.items }
        requires items { AreProper items.items }
        ensures gives { (names : List Name)
            → KeepsOutcome (ways names) world.now.0 world.now.0 self.old self.new result
            (λ rules around p. value_in rules around p (list_of (objects items.items))) }
        ensures arguments { StepsToArguments self.old self.new result
            (λ u. IsValue u (list_of (objects items.items))) }
    {
        let Ok((home, name)) = kinds::symbol(&items.as_slice()[0]) else {
            return Err(Refused(NOT_A_FORM));
        };
        let head = head_at(world, home, name);
        let steps = toll(home, name);
        self.spend(1)?;
        self.begin_form(head, steps, items)
    }

    // A list, by what is at its head, where its step is taken.
    fn begin_form(
        &mut self,
        head: FormHead,
        steps: u64,
        items: Vec<Datum>,
    ) -> Result<NextStep, EvaluationError>
        requires some { 0 < length items.items }
        requires items { AreProper items.items }
        requires steps { steps ≡ steps_over_packages (head_in items.items) }
        ensures gives { (names : List Name) (s : WorldState)
            → KeepsOutcome (ways names) s s self.old self.new result
            (λ rules around p. form_value rules p (head_in items.items) (head_shown names head) (arguments_in items.items) (parts_in rules around p (arguments_in items.items))) }
        ensures arguments { StepsToArguments self.old self.new result
            (λ u. IsValue u (list_of (objects items.items))) }
    {
        match head {
            FormHead::Operator(operation) => self.begin_operator(operation, steps, items),
            FormHead::Local(operator) => {
                if !operator.takes(items.len() - 1) {
                    return Err(Refused(ARGUMENT_COUNT));
                }
                self.begin_local(operator, arguments(items))
            }
            FormHead::Function => self.begin_call(items),
            FormHead::Unknown => Err(Refused(UNKNOWN_OPERATOR)),
        }
    }

    // A call of a function of the world: its arguments.
    fn begin_call(&mut self, items: Vec<Datum>) -> Result<NextStep, EvaluationError>
        requires some { 0 < length items.items }
        requires items { AreProper items.items }
        ensures gives { StepsOn self.old self.new result
            (λ does rules around p. then_on (values_in rules around p (arguments_in items.items))
            (λ xs later. named_function rules (head_in items.items) xs later)) }
        ensures arguments { StepsToArguments self.old self.new result
            (λ u. IsValue u (list_of (objects items.items))) }
    {
        let mut forms = items;
        forms.reverse();
        match forms.pop() {
            None => Err(Refused(NOT_A_FORM)),
            Some(head) => {
                let values = Vec::new(self.alloc);
                self.gather(Target::Function(head), forms, values)
            }
        }
    }

    // An operator: the number of its arguments, its place, and then its arguments.
    fn begin_operator(
        &mut self,
        operation: Operation,
        steps: u64,
        items: Vec<Datum>,
    ) -> Result<NextStep, EvaluationError>
        requires some { 0 < length items.items }
        requires items { AreProper items.items }
        ensures gives { (names : List Name) (head : Object) (s : WorldState)
            → steps ≡ steps_over_packages head
            → KeepsOutcome (ways names) s s self.old self.new result
            (λ rules around p. form_value rules p head (an_operator (operator names operation)) (arguments_in items.items) (parts_in rules around p (arguments_in items.items))) }
        ensures arguments { StepsToArguments self.old self.new result
            (λ u. IsValue u (list_of (objects items.items))) }
    {
        if !operation.counts(items.len() - 1) {
            return Err(Refused(ARGUMENT_COUNT));
        }
        match check_place(operation, items.as_slice()) {
            Ok(place) => self.begin_action(operation, place, steps, arguments(items)),
            Err(error) => Err(error),
        }
    }

    // What an operator does with its arguments, the next one last.
    fn begin_action(
        &mut self,
        operation: Operation,
        place: PlaceForm,
        steps: u64,
        forms: Vec<Datum>,
    ) -> Result<NextStep, EvaluationError>
        requires counted { OperationTakesCount operation (length forms.items + 1) }
        requires forms { AreProper forms.items }
        requires refusal { refusal_of_place operation (to_come forms.items) ≡ None }
        requires place { place ≡ place_form_of operation (to_come forms.items) }
        ensures gives { (names : List Name) (head : Object) (s : WorldState)
            → steps ≡ steps_over_packages head
            → KeepsOutcome (ways names) s s self.old self.new result
            (λ rules around p. action_in head p (action_of names operation) (to_come forms.items) (parts_in rules around p (to_come forms.items))) }
        ensures arguments { StepsToArguments self.old self.new result (λ u. IsValue u (to_come forms.items)) }
    {
        match operation {
            Operation::Quote => self.begin_quote(forms),
            Operation::Progn => self.sequence(forms),
            Operation::If => self.begin_choice(forms),
            Operation::InPackage => self.finish_forms(Target::Enter, forms),
            Operation::Decides(decision) => self.begin_decision(decision, forms),
            Operation::Setf => self.gather_at_place(operation, place, forms),
            Operation::Incf => self.gather_at_place(operation, place, forms),
            Operation::Changes(_) => self.gather_at_place(operation, place, forms),
            Operation::Push => self.gather_before_place(place, forms),
            _ => self.begin_function(operation, place, steps, forms),
        }
    }

    // A function of the values of its arguments.
    fn begin_function(
        &mut self,
        operation: Operation,
        place: PlaceForm,
        steps: u64,
        forms: Vec<Datum>,
    ) -> Result<NextStep, EvaluationError>
        requires { (names : List Name) → is_call (action_of names operation) ≡ true }
        ensures gives { (names : List Name) (head : Object) (s : WorldState)
            → steps ≡ steps_over_packages head
            → KeepsOutcome (ways names) s s self.old self.new result
            (λ rules around p. action_in head p (action_of names operation) (to_come forms.items) (parts_in rules around p (to_come forms.items))) }
        ensures arguments { StepsToArguments self.old self.new result (λ u. AreArguments u forms.items) }
    {
        let values = Vec::new(self.alloc);
        self.gather(Target::Operation(operation, place, steps), forms, values)
    }

    // QUOTE: the argument as it is written.
    fn begin_quote(&mut self, forms: Vec<Datum>) -> Result<NextStep, EvaluationError>
        requires { 0 < length forms.items }
        ensures gives { StepsOn self.old self.new result
            (λ does rules around p. here (first (to_come forms.items)) p) }
        ensures arguments { StepsToArguments self.old self.new result (λ u. AreArguments u forms.items) }
    {
        let mut forms = forms;
        match forms.pop() {
            Some(form) => Ok(NextStep::Give(form)),
            None => unreachable!(),
        }
    }

    // IF: its test.
    fn begin_choice(&mut self, forms: Vec<Datum>) -> Result<NextStep, EvaluationError>
        requires { 2 ≤ length forms.items }
        ensures gives { StepsOn self.old self.new result
            (λ does rules around p. choice_in rules around p (to_come forms.items)) }
        ensures arguments { StepsToArguments self.old self.new result (λ u. AreArguments u forms.items) }
    {
        let mut forms = forms;
        match forms.pop() {
            Some(test) => {
                self.frames.push(Awaiting::Choice(forms))?;
                Ok(NextStep::Evaluate(test))
            }
            None => unreachable!(),
        }
    }

    /// These forms as they are written, the next one last.
    pub(super) fn finish_forms(
        &mut self,
        target: Target,
        forms: Vec<Datum>,
    ) -> Result<NextStep, EvaluationError>
        ensures gives { StepsOn self.old self.new result
            (λ does rules around p. finished_in rules does around target (objects (reverse forms.items)) p) }
        ensures arguments { StepsToArguments self.old self.new result
            (λ u. MayFinish u target (reverse forms.items) × AreArguments u forms.items) }
    {
        let mut values = forms;
        values.reverse();
        Ok(NextStep::Finish(target, values))
    }
}
