// LET and LET*, and the variables that are seen.
ghost use Rattle.std.specs.Prelude.{◌≡◌, ◌++◌, [], ◌∷◌, true, IfOk, option_map, IfSome};
ghost use Rattle.std.specs.List.{list_all};
ghost use Rattle.lisp_object.specs.Object.{list_of};
ghost use Rattle.lisp_object.specs.Datum.{object_of};
ghost use Rattle.plist_state.specs.Views.{symbol_of};
ghost use Rattle.lisp_operators.specs.EvaluationAnswers.{IsProper, AreProper, objects, IsArgument};
ghost use Rattle.lisp_operators.specs.Members.{symbols_in};
ghost use Rattle.kept_functions.specs.Environments.{binding};
ghost use Rattle.kept_functions.specs.KeptFunctions.{binding_shown};
ghost use Rattle.lexical_evaluation.specs.Values.{is_binding, is_binding_of, are_bindings, variable_named, bound_in};
ghost use Rattle.lexical_evaluation.specs.Machine.{StepsOn, SeesMore, binding_parts, parts_shown, bound_then, to_come, variables_seen};
ghost use Rattle.lexical_evaluation.specs.Arguments.{AreArguments, HaveArguments, IsMachineOf, StepsToArguments};
ghost use Rattle.package_table.specs.Table.{Table};

use super::conditional::headed;
use super::{Machine, NextStep};
use crate::frame::Awaiting;
use kept_functions::{Binding, is_variable, proper_items, symbol_in};
use lisp_object::Datum;
use lisp_object::refusal::{ARGUMENT_COUNT, ARGUMENT_KIND};
use lisp_operators::EvaluationError;
use lisp_operators::EvaluationError::Refused;
use plist_state::Symbol;
use std::alloc::{AllocError, Global};

// Whether a list of these items is a binding.
fn is_binding_of(items: &[Datum]) -> bool
    requires { AreProper items.now }
    ensures { result ≡ is_binding_of (objects items.now) }
{
    if items.len() != 2 {
        return false;
    }
    is_variable(&items[0])
}

// Whether it is a variable and the form of its value.
fn is_binding(datum: &Datum) -> bool
    requires { IsProper datum.now }
    ensures { result ≡ is_binding (object_of datum.now) }
{
    match proper_items(datum) {
        Some(items) => is_binding_of(items),
        None => false,
    }
}

// Whether each of these is one.
fn each_is_binding(items: &[Datum]) -> bool
    requires { AreProper items.now }
    ensures { result ≡ list_all is_binding (objects items.now) }
{
    for item in items {
        if !is_binding(item) {
            return false;
        }
    }
    true
}

// Whether it is a list of bindings.
fn are_bindings(datum: &Datum) -> bool
    requires { IsProper datum.now }
    ensures { result ≡ are_bindings (object_of datum.now) }
{
    match proper_items(datum) {
        Some(items) => each_is_binding(items),
        None => false,
    }
}

// The symbol that it is, as one of its own.
fn variable_named(alloc: Global, datum: &Datum) -> Result<Symbol, AllocError>
    requires { IsProper datum.now }
    ensures { IfOk result (λ s. symbol_of s ≡ variable_named (object_of datum.now)) }
{
    let (home, name) = symbol_in(datum);
    Symbol::from_bytes(alloc, home, name)
}

/// Variables with these values, the innermost last.
pub(super) fn bound_to(
    alloc: Global,
    variables: &[Datum],
    values: Vec<Datum>,
) -> Result<Vec<Binding>, AllocError>
    requires { AreProper variables.now }
    ensures gives { IfOk result
        (λ made. variables_seen made.items ≡ binding (symbols_in variables.now) (objects values.items) []) }
    ensures arguments { (u : Table) → AreArguments u values.items
        → IfOk result (λ made. HaveArguments u made.items) }
{
    let mut values = values;
    values.reverse();
    let mut made = Vec::new(alloc);
    for datum in variables {
        match values.pop() {
            None => return Ok(made),
            Some(value) => {
                let variable = variable_named(alloc, datum)?;
                made.push(Binding { variable, value })?;
            }
        }
    }
    Ok(made)
}

// What is in a list of bindings, the next one last.
fn bindings_to_come(alloc: Global, list: Datum) -> Result<Vec<Datum>, AllocError>
    requires { IsProper list }
    ensures forms { are_bindings (object_of list) ≡ true
        → IfOk result (λ v. to_come v.items ≡ object_of list) }
    ensures proper { IfOk result (λ v. AreProper v.items) }
{
    match headed(list) {
        Some((first, others)) => {
            let mut bindings = others;
            bindings.push(first)?;
            Ok(bindings)
        }
        None => Ok(Vec::new(alloc)),
    }
}

// The variable and the form of a binding.
fn binding_parts(alloc: Global, binding: Datum) -> Result<Option<(Symbol, Datum)>, AllocError>
    requires { IsProper binding }
    ensures gives { IfOk result (λ parts. option_map parts_shown parts ≡ binding_parts (object_of binding)) }
    ensures proper { IfOk result (λ parts. IfSome parts (λ p. IsProper p.1)) }
{
    match headed(binding) {
        None => Ok(None),
        Some((variable, parts)) => {
            let mut parts = parts;
            match parts.pop() {
                None => Ok(None),
                Some(form) => {
                    let variable = variable_named(alloc, &variable)?;
                    Ok(Some((variable, form)))
                }
            }
        }
    }
}

impl Machine {
    /// These variables are seen, inside of what is seen already, until what is in hand has its value.
    pub(crate) fn scope(&mut self, made: Vec<Binding>) -> Result<(), AllocError>
        ensures sees { IfOk result (λ _. SeesMore self.old self.new made.items) }
        ensures arguments { (u : Table) → IsMachineOf u self.old → HaveArguments u made.items
            → IfOk result (λ _. IsMachineOf u self.new) }
    {
        let mut made = made;
        let length = self.bindings.len();
        self.frames.push(Awaiting::Scope(length))?;
        self.bindings.append(&mut made)?;
        Ok(())
    }

    /// LET, and LET* where it is in turn: the bindings, and then forms, the next one last.
    pub(crate) fn bind(
        &mut self,
        in_turn: bool,
        forms: Vec<Datum>,
    ) -> Result<NextStep, EvaluationError>
        requires { AreProper forms.items }
        ensures gives { StepsOn self.old self.new result
            (λ does rules around p. bound_in rules around in_turn p (to_come forms.items)) }
        ensures arguments { StepsToArguments self.old self.new result (λ u. AreArguments u forms.items) }
    {
        let mut forms = forms;
        match forms.pop() {
            None => Err(Refused(ARGUMENT_COUNT)),
            Some(bindings) => {
                if !are_bindings(&bindings) {
                    return Err(Refused(ARGUMENT_KIND));
                }
                let others = bindings_to_come(self.alloc, bindings)?;
                let made = Vec::new(self.alloc);
                self.bind_next(in_turn, others, made, forms)
            }
        }
    }

    // The next binding, or the forms once there is none.
    fn bind_next(
        &mut self,
        in_turn: bool,
        others: Vec<Datum>,
        made: Vec<Binding>,
        forms: Vec<Datum>,
    ) -> Result<NextStep, EvaluationError>
        requires others { AreProper others.items }
        requires made { in_turn ≡ true → made.items ≡ [] }
        ensures gives { StepsOn self.old self.new result
            (λ does rules around p. bound_then rules in_turn around (variables_seen made.items ++ around) (to_come others.items) (to_come forms.items) p) }
        ensures arguments { StepsToArguments self.old self.new result
            (λ u. AreArguments u others.items × HaveArguments u made.items × AreArguments u forms.items) }
    {
        let mut others = others;
        match others.pop() {
            None => {
                self.scope(made)?;
                self.sequence(forms)
            }
            Some(binding) => {
                let parts = binding_parts(self.alloc, binding)?;
                match parts {
                    None => Err(Refused(ARGUMENT_KIND)),
                    Some((variable, form)) => {
                        self.frames
                            .push(Awaiting::Bind(in_turn, variable, others, made, forms))?;
                        Ok(NextStep::Evaluate(form))
                    }
                }
            }
        }
    }

    /// The next binding, where the variable before it has its value.
    pub(crate) fn bound(
        &mut self,
        in_turn: bool,
        binding: Binding,
        others: Vec<Datum>,
        made: Vec<Binding>,
        forms: Vec<Datum>,
    ) -> Result<NextStep, EvaluationError>
        requires { AreProper others.items }
        ensures gives { StepsOn self.old self.new result
            (λ does rules around p. bound_then rules in_turn around (binding_shown binding ∷ (variables_seen made.items ++ around)) (to_come others.items) (to_come forms.items) p) }
        ensures arguments { StepsToArguments self.old self.new result
            (λ u. IsArgument u binding.value × AreArguments u others.items × HaveArguments u made.items × AreArguments u forms.items) }
    {
        let mut made = made;
        made.push(binding)?;
        if in_turn {
            self.scope(made)?;
            let none = Vec::new(self.alloc);
            return self.bind_next(true, others, none, forms);
        }
        self.bind_next(false, others, made, forms)
    }
}
