//! The operators, by their names.
ghost use Rattle.std.specs.Prelude.{◌≡◌, ◌+◌, true, bytes_eq, List, option_map, IfOk};
ghost use Rattle.std.specs.Option.{option_or};
ghost use Rattle.lisp_object.specs.Datum.{object_of};
ghost use Rattle.lisp_object.specs.Object.{symbol};
ghost use Rattle.package_table.specs.Table.{Name};
ghost use Rattle.evaluator.specs.Operators.{operator_named, operator_of, operator_of_function, pazturrok_operator, counts, world_operator};
ghost use Rattle.evaluator.specs.Operations.{least, most, operator, OperationTakesCount, among, operators_on_data, operators_on_packages, operators_on_readtables, operators_that_decide};
ghost use Rattle.evaluator.specs.ArgumentValues.{IsOperatorHead};
ghost use Rattle.value_functions.specs.Functions.{function_named};
ghost use Rattle.lisp_operators.specs.EvaluationAnswers.{IsProper};

use crate::decision::Decision;
use lisp_object::Datum;
use lisp_object::refusal::{ARGUMENT_COUNT, NOT_A_FORM, UNKNOWN_OPERATOR};
use lisp_operators::EvaluationError::Refused;
use lisp_operators::look_ups::LookUp;
use lisp_operators::places::PlaceChange;
use lisp_operators::{EvaluationError, kinds};
use package_table::standardized::COMMON_LISP;
use value_functions::ValueFunction;

// The package of the operators that COMMON-LISP does not have.
const PAZTURROK: &[u8] = b"PAZTURROK";

/// An operator: a symbol that may be at the head of a form (standard 3.1.2.1.2). Of those of PAZTURROK `Computes` are a function
/// of the values of their arguments alone, `Decides` decide which of their forms are evaluated, `LooksUp` look symbols and
/// packages up, and `Changes` change a place. All others are at home in COMMON-LISP.
#[derive(Clone, Copy, Debug, PartialEq, Eq)]
pub enum Operation {
    Quote,
    Progn,
    If,
    MakeList,
    Get,
    Setf,
    Remprop,
    SymbolPlist,
    Incf,
    Push,
    MakePackage,
    InPackage,
    Export,
    Import,
    UsePackage,
    Intern,
    CopyReadtable,
    InReadtable,
    SetSyntaxFromChar,
    SetMacroCharacter,
    GetMacroCharacter,
    MakeDispatchMacroCharacter,
    SetDispatchMacroCharacter,
    GetDispatchMacroCharacter,
    ReadtableCase,
    Computes(ValueFunction),
    Decides(Decision),
    LooksUp(LookUp),
    Changes(PlaceChange),
}

impl Operation {
    /// The operator of this name.
    #[tactic(auto, using(crate::proofs::Heads::operator_named_among))]
    pub(crate) fn named(name: &[u8]) -> Option<Operation>
        ensures { (names : List Name)
            → option_map (operator names) result ≡ operator_named names name.now }
    {
        match on_data(name) {
            Some(operation) => Some(operation),
            None => match on_packages(name) {
                Some(operation) => Some(operation),
                None => on_readtables(name),
            },
        }
    }

    /// The operator of PAZTURROK of this name that is a function of values, looks up, or changes a place.
    #[tactic(auto, using(crate::proofs::Heads::function_found, crate::proofs::Heads::look_up_found, crate::proofs::Heads::change_found, crate::proofs::Heads::none_found))]
    fn of_values(name: &[u8]) -> Option<Operation>
        ensures { (names : List Name)
            → option_map (operator names) result
            ≡ option_or (option_map operator_of_function (function_named name.now)) (world_operator name.now) }
    {
        if let Some(function) = ValueFunction::named(name) {
            return Some(Operation::Computes(function));
        }
        if let Some(operator) = LookUp::named(name) {
            return Some(Operation::LooksUp(operator));
        }
        match PlaceChange::named(name) {
            Some(operator) => Some(Operation::Changes(operator)),
            None => None,
        }
    }

    /// The operator of PAZTURROK of this name.
    #[tactic(auto, using(crate::proofs::Heads::decision_found, crate::proofs::Heads::decision_missing))]
    fn of_pazturrok(name: &[u8]) -> Option<Operation>
        ensures { (names : List Name)
            → option_map (operator names) result ≡ pazturrok_operator name.now }
    {
        match that_decides(name) {
            Some(operation) => Some(operation),
            None => Operation::of_values(name),
        }
    }

    /// The operator of the symbol with this home and this name.
    #[tactic(auto, using(crate::proofs::Heads::of_lisp, crate::proofs::Heads::of_own, crate::proofs::Heads::of_none))]
    pub fn of_symbol(home: &[u8], name: &[u8]) -> Option<Operation>
        ensures { (names : List Name)
            → option_map (operator names) result ≡ operator_of names (symbol home.now name.now) }
    {
        if is_name(home, COMMON_LISP) {
            return Operation::named(name);
        }
        if is_name(home, PAZTURROK) {
            return Operation::of_pazturrok(name);
        }
        None
    }

    // How many arguments it takes at least.
    fn least(self) -> usize
        ensures { result ≡ least self }
    {
        match self {
            Operation::Quote
            | Operation::SymbolPlist
            | Operation::Incf
            | Operation::MakePackage
            | Operation::InPackage
            | Operation::Export
            | Operation::Import
            | Operation::UsePackage
            | Operation::Intern
            | Operation::InReadtable
            | Operation::GetMacroCharacter
            | Operation::MakeDispatchMacroCharacter
            | Operation::ReadtableCase => 1,
            Operation::Progn | Operation::MakeList => 0,
            Operation::If
            | Operation::Get
            | Operation::Setf
            | Operation::Remprop
            | Operation::Push
            | Operation::CopyReadtable
            | Operation::SetSyntaxFromChar
            | Operation::SetMacroCharacter
            | Operation::GetDispatchMacroCharacter => 2,
            Operation::SetDispatchMacroCharacter => 3,
            Operation::Computes(function) => function.least(),
            Operation::Decides(Decision::And)
            | Operation::Decides(Decision::Or)
            | Operation::Decides(Decision::Cond) => 0,
            Operation::Decides(_) => 1,
            Operation::LooksUp(operator) => operator.least(),
            Operation::Changes(_) => 1,
        }
    }

    // How many it takes at most, where there is such a number.
    fn most(self) -> Option<usize>
        ensures { result ≡ most self }
    {
        match self {
            Operation::Quote
            | Operation::SymbolPlist
            | Operation::MakePackage
            | Operation::InPackage
            | Operation::InReadtable
            | Operation::ReadtableCase => Some(1),
            Operation::Progn | Operation::MakeList => None,
            Operation::If
            | Operation::Get
            | Operation::MakeDispatchMacroCharacter
            | Operation::GetDispatchMacroCharacter => Some(3),
            Operation::Setf
            | Operation::Remprop
            | Operation::Incf
            | Operation::Push
            | Operation::Export
            | Operation::Import
            | Operation::UsePackage
            | Operation::Intern
            | Operation::CopyReadtable
            | Operation::GetMacroCharacter => Some(2),
            Operation::SetSyntaxFromChar
            | Operation::SetMacroCharacter
            | Operation::SetDispatchMacroCharacter => Some(4),
            Operation::Computes(function) => function.most(),
            Operation::Decides(Decision::Assert) => Some(2),
            Operation::Decides(_) => None,
            Operation::LooksUp(operator) => Some(operator.most()),
            Operation::Changes(operator) => Some(operator.most()),
        }
    }

    /// Whether it takes so many arguments.
    pub fn counts(self, number: usize) -> bool
        ensures value { (names : List Name) → result ≡ counts (operator names self) number }
        ensures counted { result ≡ true → OperationTakesCount self (number + 1) }
    {
        if number < self.least() {
            return false;
        }
        match self.most() {
            Some(most) => number <= most,
            None => true,
        }
    }
}

/// What is at the head of a form of so many arguments. Refused as `NOT_A_FORM` where the head is no symbol, as
/// `UNKNOWN_OPERATOR` where it names none, and as `ARGUMENT_COUNT` where it does not take so many.
pub(crate) fn operation_of(head: &Datum, number: usize) -> Result<Operation, EvaluationError>
    requires { IsProper head.now }
    ensures head { (names : List Name) → IsOperatorHead names (object_of head.now) number result }
    ensures counted { IfOk result (λ operation. OperationTakesCount operation (number + 1)) }
{
    let Ok((home, name)) = kinds::symbol(head) else {
        return Err(Refused(NOT_A_FORM));
    };
    let Some(operation) = Operation::of_symbol(home, name) else {
        return Err(Refused(UNKNOWN_OPERATOR));
    };
    if !operation.counts(number) {
        return Err(Refused(ARGUMENT_COUNT));
    }
    Ok(operation)
}

fn is_name(name: &[u8], wanted: &[u8]) -> bool
    ensures { result ≡ bytes_eq name.now wanted.now }
{
    name == wanted
}

// The operators of control and on data.
fn on_data(name: &[u8]) -> Option<Operation>
    ensures { result ≡ among operators_on_data name.now }
{
    if is_name(name, b"QUOTE") {
        Some(Operation::Quote)
    } else if is_name(name, b"PROGN") {
        Some(Operation::Progn)
    } else if is_name(name, b"IF") {
        Some(Operation::If)
    } else if is_name(name, b"LIST") {
        Some(Operation::MakeList)
    } else if is_name(name, b"GET") {
        Some(Operation::Get)
    } else if is_name(name, b"SETF") {
        Some(Operation::Setf)
    } else if is_name(name, b"REMPROP") {
        Some(Operation::Remprop)
    } else if is_name(name, b"SYMBOL-PLIST") {
        Some(Operation::SymbolPlist)
    } else if is_name(name, b"INCF") {
        Some(Operation::Incf)
    } else if is_name(name, b"PUSH") {
        Some(Operation::Push)
    } else {
        None
    }
}

// The operators on packages.
fn on_packages(name: &[u8]) -> Option<Operation>
    ensures { result ≡ among operators_on_packages name.now }
{
    if is_name(name, b"MAKE-PACKAGE") {
        Some(Operation::MakePackage)
    } else if is_name(name, b"IN-PACKAGE") {
        Some(Operation::InPackage)
    } else if is_name(name, b"EXPORT") {
        Some(Operation::Export)
    } else if is_name(name, b"IMPORT") {
        Some(Operation::Import)
    } else if is_name(name, b"USE-PACKAGE") {
        Some(Operation::UsePackage)
    } else if is_name(name, b"INTERN") {
        Some(Operation::Intern)
    } else {
        None
    }
}

// The operators on readtables.
fn on_readtables(name: &[u8]) -> Option<Operation>
    ensures { result ≡ among operators_on_readtables name.now }
{
    if is_name(name, b"COPY-READTABLE") {
        Some(Operation::CopyReadtable)
    } else if is_name(name, b"IN-READTABLE") {
        Some(Operation::InReadtable)
    } else if is_name(name, b"SET-SYNTAX-FROM-CHAR") {
        Some(Operation::SetSyntaxFromChar)
    } else if is_name(name, b"SET-MACRO-CHARACTER") {
        Some(Operation::SetMacroCharacter)
    } else if is_name(name, b"GET-MACRO-CHARACTER") {
        Some(Operation::GetMacroCharacter)
    } else if is_name(name, b"MAKE-DISPATCH-MACRO-CHARACTER") {
        Some(Operation::MakeDispatchMacroCharacter)
    } else if is_name(name, b"SET-DISPATCH-MACRO-CHARACTER") {
        Some(Operation::SetDispatchMacroCharacter)
    } else if is_name(name, b"GET-DISPATCH-MACRO-CHARACTER") {
        Some(Operation::GetDispatchMacroCharacter)
    } else if is_name(name, b"READTABLE-CASE") {
        Some(Operation::ReadtableCase)
    } else {
        None
    }
}

// The operators of PAZTURROK that decide which of their forms are evaluated.
fn that_decides(name: &[u8]) -> Option<Operation>
    ensures { result ≡ among operators_that_decide name.now }
{
    if is_name(name, b"AND") {
        Some(Operation::Decides(Decision::And))
    } else if is_name(name, b"OR") {
        Some(Operation::Decides(Decision::Or))
    } else if is_name(name, b"COND") {
        Some(Operation::Decides(Decision::Cond))
    } else if is_name(name, b"WHEN") {
        Some(Operation::Decides(Decision::When))
    } else if is_name(name, b"UNLESS") {
        Some(Operation::Decides(Decision::Unless))
    } else if is_name(name, b"PROG1") {
        Some(Operation::Decides(Decision::Prog1))
    } else if is_name(name, b"ASSERT") {
        Some(Operation::Decides(Decision::Assert))
    } else {
        None
    }
}
