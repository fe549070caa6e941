//! The operators of PAZTURROK that bind variables, take functions, or define them, by their names.
ghost use Rattle.std.specs.Prelude.{◌≡◌};
ghost use Rattle.kept_functions.specs.LocalOperators.{local_among, local_operators, local_rows, takes_so_many};

/// A function of lists that takes a function (standard 14.2, 15.2).
#[derive(Clone, Copy, Debug, PartialEq, Eq)]
pub enum Sweep {
    Mapcar,
    FindIf,
    RemoveIfNot,
    Reduce,
}

/// An operator that binds variables, takes a function, or defines one.
#[derive(Clone, Copy, Debug, PartialEq, Eq)]
pub enum LocalOperator {
    Let,
    LetInTurn,
    Funcall,
    Sweeps(Sweep),
    GivesValues,
    Defun,
    DefineReader,
}

// Each of them by its name.
const OPERATORS: [(&str, LocalOperator); 10] = [
    ("LET", LocalOperator::Let),
    ("LET*", LocalOperator::LetInTurn),
    ("FUNCALL", LocalOperator::Funcall),
    ("MAPCAR", LocalOperator::Sweeps(Sweep::Mapcar)),
    ("FIND-IF", LocalOperator::Sweeps(Sweep::FindIf)),
    ("REMOVE-IF-NOT", LocalOperator::Sweeps(Sweep::RemoveIfNot)),
    ("REDUCE", LocalOperator::Sweeps(Sweep::Reduce)),
    ("VALUES", LocalOperator::GivesValues),
    ("DEFUN", LocalOperator::Defun),
    ("DEFINE-READER", LocalOperator::DefineReader),
];

impl LocalOperator {
    /// The operator of PAZTURROK of this name.
    pub fn named(name: &[u8]) -> Option<LocalOperator>
        ensures { result ≡ local_among local_operators name.now }
    {
        named_in(&OPERATORS, name)
    }

    /// Whether it takes so many arguments.
    pub fn takes(self, number: usize) -> bool
        ensures { result ≡ takes_so_many self number }
    {
        match self {
            LocalOperator::Let => 1 <= number,
            LocalOperator::LetInTurn => 1 <= number,
            LocalOperator::Funcall => 1 <= number,
            LocalOperator::Sweeps(Sweep::Reduce) => 2 <= number && number <= 4,
            LocalOperator::Sweeps(_) => number == 2,
            LocalOperator::GivesValues => number <= 1,
            LocalOperator::Defun => 2 <= number,
            LocalOperator::DefineReader => 3 <= number,
        }
    }
}

// The operator beside the name in these rows.
fn named_in(rows: &[(&str, LocalOperator)], name: &[u8]) -> Option<LocalOperator>
    ensures { result ≡ local_among (local_rows rows.now) name.now }
{
    for (known, operator) in rows {
        if known.as_bytes() == name {
            return Some(*operator);
        }
    }
    None
}
