// What is at the head of a form.
ghost use Rattle.std.specs.Prelude.{ℕ, ◌≡◌, List, [], ◌∷◌, bytes_eq, codes};
ghost use Rattle.std.specs.List.{list_any};
ghost use Rattle.lisp_object.specs.Object.{symbol};
ghost use Rattle.package_table.specs.Table.{Name};
ghost use Rattle.evaluator.specs.Operations.{action_of};
ghost use Rattle.kept_functions.specs.LocalOperators.{local_operator_of};
ghost use Rattle.lexical_evaluation.specs.Values.{head_of, steps_over_packages};
ghost use Rattle.lexical_evaluation.specs.Ways.{ways, head_shown, is_call};

use evaluator::Operation;
use kept_functions::bounds::PACKAGE_STEPS;
use kept_functions::{LocalOperator, PAZTURROK, function_in};
use package_table::standardized::COMMON_LISP;
use plist_state::World;

/// What is at the head of a form: an operator, one that binds, takes a function or defines one, or a function of the world.
#[derive(Clone, Copy, Debug)]
pub(crate) enum FormHead {
    Operator(Operation),
    Local(LocalOperator),
    Function,
    Unknown,
}

fn is_name(name: &[u8], wanted: &[u8]) -> bool
    ensures { result ≡ bytes_eq name.now wanted.now }
{
    name == wanted
}

// The operator of a symbol that binds, takes a function or defines one.
fn local_operator(home: &[u8], name: &[u8]) -> Option<LocalOperator>
    ensures { result ≡ local_operator_of (symbol home.now name.now) }
{
    if !is_name(home, PAZTURROK) {
        return None;
    }
    LocalOperator::named(name)
}

/// What is at the head of a form, by its symbol.
pub(super) fn head_at(world: &World, home: &[u8], name: &[u8]) -> FormHead
    ensures { (names : List Name) (n : ℕ)
        → head_of ((ways names).rules n) world.now.0 (symbol home.now name.now) ≡ head_shown names result }
{
    match Operation::of_symbol(home, name) {
        Some(operation) => FormHead::Operator(operation),
        None => match local_operator(home, name) {
            Some(operator) => FormHead::Local(operator),
            None => match function_in(world, home, name) {
                Some(_) => FormHead::Function,
                None => FormHead::Unknown,
            },
        },
    }
}

// Whether an operator of COMMON-LISP may look at a whole package.
fn looks_at_packages(name: &[u8]) -> bool
    ensures { result
        ≡ list_any (bytes_eq name.now) (codes "EXPORT" ∷ codes "IMPORT" ∷ codes "USE-PACKAGE" ∷ []) }
{
    is_name(name, b"EXPORT") || is_name(name, b"IMPORT") || is_name(name, b"USE-PACKAGE")
}

/// The steps of an operator that may look at a whole package.
pub(super) fn toll(home: &[u8], name: &[u8]) -> u64
    ensures { result ≡ steps_over_packages (symbol home.now name.now) }
{
    if is_name(home, COMMON_LISP) && looks_at_packages(name) {
        return PACKAGE_STEPS;
    }
    if is_name(home, PAZTURROK) && is_name(name, b"SYMBOLS-WITH") {
        return PACKAGE_STEPS;
    }
    0
}

/// Whether an operator is a function: it has no rule of its own for its arguments.
pub(super) fn is_function(operation: Operation) -> bool
    ensures { (names : List Name) → result ≡ is_call (action_of names operation) }
{
    match operation {
        Operation::Quote => false,
        Operation::Progn => false,
        Operation::If => false,
        Operation::Setf => false,
        Operation::Incf => false,
        Operation::Push => false,
        Operation::InPackage => false,
        Operation::Decides(_) => false,
        Operation::Changes(_) => false,
        Operation::MakeList => true,
        Operation::Get => true,
        Operation::Remprop => true,
        Operation::SymbolPlist => true,
        Operation::MakePackage => true,
        Operation::Export => true,
        Operation::Import => true,
        Operation::UsePackage => true,
        Operation::Intern => true,
        Operation::CopyReadtable => true,
        Operation::InReadtable => true,
        Operation::SetSyntaxFromChar => true,
        Operation::SetMacroCharacter => true,
        Operation::GetMacroCharacter => true,
        Operation::MakeDispatchMacroCharacter => true,
        Operation::SetDispatchMacroCharacter => true,
        Operation::GetDispatchMacroCharacter => true,
        Operation::ReadtableCase => true,
        Operation::Computes(_) => true,
        Operation::LooksUp(_) => true,
    }
}
