// The operators that bind, take a function or define one.
ghost use Rattle.std.specs.Prelude.{ℕ, ◌≡◌, ◌<◌, List, true, length, is_some, codes, Ok, IfOk};
ghost use Rattle.lisp_object.specs.Object.{Object, pair, nil, list_of};
ghost use Rattle.lisp_object.specs.Datum.{object_of};
ghost use Rattle.package_table.specs.Table.{Name, Table};
ghost use Rattle.plist_state.specs.State.{WorldState};
ghost use Rattle.lisp_operators.specs.EvaluationAnswers.{IsProper, AreProper, objects, IsArgument};
ghost use Rattle.evaluator.specs.Operators.{first};
ghost use Rattle.kept_functions.specs.Environments.{variables_of};
ghost use Rattle.evaluator.specs.Value.{rest};
ghost use Rattle.kept_functions.specs.LocalOperators.{takes_so_many, is_own_symbol};
ghost use Rattle.lexical_evaluation.specs.Values.{local_value, applied_in, other_value_in};
ghost use Rattle.lexical_evaluation.specs.Machine.{StepsOn, KeepsOutcome, to_come};
ghost use Rattle.lexical_evaluation.specs.Ways.{ways, parts_in, IsCallee, is_headed_by_lambda, is_headed_by_function, IsWritten, IsQuoted};
ghost use Rattle.lexical_evaluation.specs.Arguments.{AreArguments, StepsToArguments, IsCalleeOf};
ghost use Rattle.plist_state.specs.Sound.{IsValue};

use super::conditional::headed;
use super::{Machine, NextStep};
use crate::frame::Target;
use evaluator::{clause, is_standard};
use kept_functions::{LocalOperator, PAZTURROK, symbol_in, variables_in};
use lisp_object::Datum;
use lisp_object::refusal::{ARGUMENT_COUNT, ARGUMENT_KIND, UNKNOWN_OPERATOR};
use lisp_operators::EvaluationError::Refused;
use lisp_operators::{EvaluationError, kinds, values};

/// The function that a form stands for: one that is written down, one that is named, or what the value of the form names.
#[derive(Debug, Drop)]
pub(crate) enum Callee {
    Written(Vec<Datum>),
    Named(Datum),
    Valued(Datum),
}

// Whether it is the symbol LAMBDA of PAZTURROK.
fn is_lambda(datum: &Datum) -> bool
    requires { IsProper datum.now }
    ensures { result ≡ is_own_symbol (codes "LAMBDA") (object_of datum.now) }
{
    match kinds::symbol(datum) {
        Ok((home, name)) => home == PAZTURROK && name == b"LAMBDA".as_slice(),
        Err(_) => false,
    }
}

// Whether it is a list that ends in NIL with LAMBDA at its head.
fn is_headed_by_lambda(datum: &Datum) -> bool
    requires { IsProper datum.now }
    ensures { result ≡ is_headed_by_lambda (object_of datum.now) }
{
    match clause(datum) {
        Some(items) => is_lambda(&items[0]),
        None => false,
    }
}

// The same, of FUNCTION.
fn is_headed_by_function(datum: &Datum) -> bool
    requires { IsProper datum.now }
    ensures { result ≡ is_headed_by_function (object_of datum.now) }
{
    match clause(datum) {
        Some(items) => is_standard(&items[0], b"FUNCTION"),
        None => false,
    }
}

// Whether the first of these is a list of variables.
fn has_variables(parts: &[Datum]) -> bool
    requires some { 0 < length parts.now }
    requires proper { AreProper parts.now }
    ensures { result ≡ is_some (variables_of (first (list_of (objects parts.now)))) }
{
    variables_in(&parts[0]).is_some()
}

// LAMBDA: the variables and the forms that it writes down.
fn written(lambda: Datum) -> Result<Callee, EvaluationError>
    requires proper { IsProper lambda }
    requires lambda { is_headed_by_lambda (object_of lambda) ≡ true }
    ensures gives { IsWritten (rest (object_of lambda)) result }
    ensures arguments { (u : Table) → IsArgument u lambda → IfOk result (IsCalleeOf u) }
{
    match headed(lambda) {
        None => Err(Refused(ARGUMENT_KIND)),
        Some((_lambda, forms)) => {
            let mut parts = forms;
            parts.reverse();
            if parts.is_empty() {
                return Err(Refused(ARGUMENT_COUNT));
            }
            if !has_variables(parts.as_slice()) {
                return Err(Refused(ARGUMENT_KIND));
            }
            Ok(Callee::Written(parts))
        }
    }
}

// FUNCTION: the function that its argument names or writes down.
fn quoted(function: Datum) -> Result<Callee, EvaluationError>
    requires proper { IsProper function }
    requires function { is_headed_by_function (object_of function) ≡ true }
    ensures gives { IsQuoted (rest (object_of function)) result }
    ensures arguments { (u : Table) → IsArgument u function → IfOk result (IsCalleeOf u) }
{
    match headed(function) {
        None => Err(Refused(ARGUMENT_COUNT)),
        Some((_function, forms)) => {
            let mut forms = forms;
            match forms.pop() {
                None => Err(Refused(ARGUMENT_COUNT)),
                Some(named) => {
                    if !forms.is_empty() {
                        return Err(Refused(ARGUMENT_COUNT));
                    }
                    quoted_form(named)
                }
            }
        }
    }
}

// The function that the argument of FUNCTION names or writes down.
fn quoted_form(named: Datum) -> Result<Callee, EvaluationError>
    requires { IsProper named }
    ensures gives { IsQuoted (pair (object_of named) nil) result }
    ensures arguments { (u : Table) → IsArgument u named → IfOk result (IsCalleeOf u) }
{
    if is_headed_by_lambda(&named) {
        return written(named);
    }
    if kinds::is_pair(&named) {
        return Err(Refused(ARGUMENT_KIND));
    }
    Ok(Callee::Named(named))
}

// The function that a form stands for.
fn callee_of(form: Datum) -> Result<Callee, EvaluationError>
    requires { IsProper form }
    ensures gives { IsCallee (object_of form) result }
    ensures arguments { (u : Table) → IsArgument u form → IfOk result (IsCalleeOf u) }
{
    if is_headed_by_lambda(&form) {
        return written(form);
    }
    if is_headed_by_function(&form) {
        return quoted(form);
    }
    Ok(Callee::Valued(form))
}

impl Machine {
    /// An operator that binds, takes a function or defines one, of its arguments, the next one last.
    pub(super) fn begin_local(
        &mut self,
        operator: LocalOperator,
        forms: Vec<Datum>,
    ) -> Result<NextStep, EvaluationError>
        requires counted { takes_so_many operator (length forms.items) ≡ true }
        requires forms { AreProper forms.items }
        ensures gives { (names : List Name) (s : WorldState)
            → KeepsOutcome (ways names) s s self.old self.new result
            (λ rules around p. local_value rules p operator (to_come forms.items) (parts_in rules around p (to_come forms.items))) }
        ensures arguments { StepsToArguments self.old self.new result (λ u. IsValue u (to_come forms.items)) }
    {
        match operator {
            LocalOperator::Let => self.bind(false, forms),
            LocalOperator::LetInTurn => self.bind(true, forms),
            LocalOperator::Funcall => self.begin_funcall(forms),
            LocalOperator::Sweeps(_) => Err(Refused(UNKNOWN_OPERATOR)),
            LocalOperator::GivesValues => self.first_or_nil(forms),
            LocalOperator::Defun => self.finish_forms(Target::Define, forms),
            LocalOperator::DefineReader => self.finish_forms(Target::DefineReader, forms),
        }
    }

    // The value of the first form, and NIL where there is none.
    fn first_or_nil(&mut self, forms: Vec<Datum>) -> Result<NextStep, EvaluationError>
        ensures gives { StepsOn self.old self.new result
            (λ does rules around p. other_value_in rules around p (to_come forms.items)) }
        ensures arguments { StepsToArguments self.old self.new result (λ u. AreArguments u forms.items) }
    {
        let mut forms = forms;
        match forms.pop() {
            None => Ok(NextStep::Give(values::empty_list(self.alloc)?)),
            Some(form) => Ok(NextStep::Evaluate(form)),
        }
    }

    // FUNCALL: the function, and then the arguments.
    fn begin_funcall(&mut self, forms: Vec<Datum>) -> Result<NextStep, EvaluationError>
        requires { AreProper forms.items }
        ensures gives { StepsOn self.old self.new result
            (λ does rules around p. applied_in rules around p (to_come forms.items)) }
        ensures arguments { StepsToArguments self.old self.new result (λ u. AreArguments u forms.items) }
    {
        let mut others = forms;
        match others.pop() {
            None => Err(Refused(ARGUMENT_COUNT)),
            Some(form) => match callee_of(form) {
                Ok(function) => self.begin_arguments(function, others),
                Err(error) => Err(error),
            },
        }
    }

    // The arguments of a function, the next one last.
    fn begin_arguments(
        &mut self,
        function: Callee,
        forms: Vec<Datum>,
    ) -> Result<NextStep, EvaluationError>
        ensures gives { (x : Object) → IsCallee x (Ok function) → StepsOn self.old self.new result
            (λ does rules around p. applied_in rules around p (pair x (to_come forms.items))) }
        ensures arguments { StepsToArguments self.old self.new result
            (λ u. IsCalleeOf u function × AreArguments u forms.items) }
    {
        let values = Vec::new(self.alloc);
        match function {
            Callee::Written(parts) => self.gather(Target::Written(parts), forms, values),
            Callee::Named(name) => self.gather(Target::Function(name), forms, values),
            Callee::Valued(form) => {
                let mut forms = forms;
                forms.push(form)?;
                self.gather(Target::NamedByFirst, forms, values)
            }
        }
    }
}
