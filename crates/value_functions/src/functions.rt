//! The functions, by their names.
ghost use Rattle.std.specs.Prelude.{◌≡◌};
ghost use Rattle.value_functions.specs.Functions.{function_named, fewest_arguments, most_arguments, function_among, function_rows};

/// Whether two objects are the same (standard 5.3).
#[derive(Clone, Copy, Debug, PartialEq, Eq)]
pub enum Equality {
    Eql,
    Equal,
}

/// What an object is (standard 4.2, 5.3).
#[derive(Clone, Copy, Debug, PartialEq, Eq)]
pub enum Predicate {
    Not,
    Consp,
    Symbolp,
    Stringp,
    Integerp,
    Characterp,
    Vectorp,
}

/// How numbers are to one another (standard 12.2).
#[derive(Clone, Copy, Debug, PartialEq, Eq)]
pub enum Comparison {
    Same,
    Different,
    Less,
    AtMost,
    Greater,
    AtLeast,
}

/// The least or the greatest of numbers (standard 12.2).
#[derive(Clone, Copy, Debug, PartialEq, Eq)]
pub enum Extreme {
    Min,
    Max,
}

/// Sums, differences and products of integers (standard 12.2).
#[derive(Clone, Copy, Debug, PartialEq, Eq)]
pub enum Arithmetic {
    Plus,
    Minus,
    Times,
}

/// Division of integers, rounded down (standard 12.2).
#[derive(Clone, Copy, Debug, PartialEq, Eq)]
pub enum Division {
    Floor,
    Mod,
}

/// The functions on texts and the names of symbols (standard 16.2, 10.2).
#[derive(Clone, Copy, Debug, PartialEq, Eq)]
pub enum OnTexts {
    SameText,
    TextLess,
    SymbolName,
}

/// The functions on pairs and lists (standard 14.2).
#[derive(Clone, Copy, Debug, PartialEq, Eq)]
pub enum OnLists {
    Cons,
    Car,
    Cdr,
    Nth,
    Member,
    Assoc,
    Adjoin,
}

/// The functions on lists, vectors and texts (standard 15.2, 17.3).
#[derive(Clone, Copy, Debug, PartialEq, Eq)]
pub enum OnSequences {
    Length,
    Reverse,
    Remove,
    Svref,
}

/// What is built of any number of objects (standard 14.2, 15.2).
#[derive(Clone, Copy, Debug, PartialEq, Eq)]
pub enum Building {
    Append,
    Vector,
}

/// A function whose value depends on its arguments alone: a symbol of PAZTURROK that may be at the head of a form.
#[derive(Clone, Copy, Debug, PartialEq, Eq)]
pub enum ValueFunction {
    Equality(Equality),
    Predicate(Predicate),
    Comparison(Comparison),
    Extreme(Extreme),
    Arithmetic(Arithmetic),
    Division(Division),
    OnTexts(OnTexts),
    OnLists(OnLists),
    OnSequences(OnSequences),
    Building(Building),
}

// Each function by its name.
const FUNCTIONS: [(&str, ValueFunction); 38] = [
    ("EQL", ValueFunction::Equality(Equality::Eql)),
    ("EQUAL", ValueFunction::Equality(Equality::Equal)),
    ("NOT", ValueFunction::Predicate(Predicate::Not)),
    ("CONSP", ValueFunction::Predicate(Predicate::Consp)),
    ("SYMBOLP", ValueFunction::Predicate(Predicate::Symbolp)),
    ("STRINGP", ValueFunction::Predicate(Predicate::Stringp)),
    ("INTEGERP", ValueFunction::Predicate(Predicate::Integerp)),
    (
        "CHARACTERP",
        ValueFunction::Predicate(Predicate::Characterp),
    ),
    ("VECTORP", ValueFunction::Predicate(Predicate::Vectorp)),
    ("=", ValueFunction::Comparison(Comparison::Same)),
    ("/=", ValueFunction::Comparison(Comparison::Different)),
    ("<", ValueFunction::Comparison(Comparison::Less)),
    ("<=", ValueFunction::Comparison(Comparison::AtMost)),
    (">", ValueFunction::Comparison(Comparison::Greater)),
    (">=", ValueFunction::Comparison(Comparison::AtLeast)),
    ("MIN", ValueFunction::Extreme(Extreme::Min)),
    ("MAX", ValueFunction::Extreme(Extreme::Max)),
    ("+", ValueFunction::Arithmetic(Arithmetic::Plus)),
    ("-", ValueFunction::Arithmetic(Arithmetic::Minus)),
    ("*", ValueFunction::Arithmetic(Arithmetic::Times)),
    ("FLOOR", ValueFunction::Division(Division::Floor)),
    ("MOD", ValueFunction::Division(Division::Mod)),
    ("STRING=", ValueFunction::OnTexts(OnTexts::SameText)),
    ("STRING<", ValueFunction::OnTexts(OnTexts::TextLess)),
    ("SYMBOL-NAME", ValueFunction::OnTexts(OnTexts::SymbolName)),
    ("CONS", ValueFunction::OnLists(OnLists::Cons)),
    ("CAR", ValueFunction::OnLists(OnLists::Car)),
    ("CDR", ValueFunction::OnLists(OnLists::Cdr)),
    ("NTH", ValueFunction::OnLists(OnLists::Nth)),
    ("MEMBER", ValueFunction::OnLists(OnLists::Member)),
    ("ASSOC", ValueFunction::OnLists(OnLists::Assoc)),
    ("ADJOIN", ValueFunction::OnLists(OnLists::Adjoin)),
    ("LENGTH", ValueFunction::OnSequences(OnSequences::Length)),
    ("REVERSE", ValueFunction::OnSequences(OnSequences::Reverse)),
    ("REMOVE", ValueFunction::OnSequences(OnSequences::Remove)),
    ("SVREF", ValueFunction::OnSequences(OnSequences::Svref)),
    ("APPEND", ValueFunction::Building(Building::Append)),
    ("VECTOR", ValueFunction::Building(Building::Vector)),
];

impl ValueFunction {
    /// The function of this name.
    #[tactic(auto, unfolding(crate::specs::Functions::function_named))]
    pub fn named(name: &[u8]) -> Option<ValueFunction>
        ensures { result ≡ function_named name.now }
    {
        named_in(&FUNCTIONS, name)
    }

    /// How many arguments it takes at least.
    pub fn least(self) -> usize
        ensures { result ≡ fewest_arguments self }
    {
        match self {
            ValueFunction::Equality(_) => 2,
            ValueFunction::Predicate(_) => 1,
            ValueFunction::Comparison(_) => 1,
            ValueFunction::Extreme(_) => 1,
            ValueFunction::Arithmetic(function) => least_of_arithmetic(function),
            ValueFunction::Division(function) => least_of_division(function),
            ValueFunction::OnTexts(function) => least_on_texts(function),
            ValueFunction::OnLists(function) => least_on_lists(function),
            ValueFunction::OnSequences(function) => least_on_sequences(function),
            ValueFunction::Building(_) => 0,
        }
    }

    /// How many it takes at most, where there is such a number.
    pub fn most(self) -> Option<usize>
        ensures { result ≡ most_arguments self }
    {
        match self {
            ValueFunction::Equality(_) => Some(2),
            ValueFunction::Predicate(_) => Some(1),
            ValueFunction::Comparison(function) => most_of_comparison(function),
            ValueFunction::Extreme(_) => None,
            ValueFunction::Arithmetic(_) => None,
            ValueFunction::Division(_) => Some(2),
            ValueFunction::OnTexts(function) => most_on_texts(function),
            ValueFunction::OnLists(function) => most_on_lists(function),
            ValueFunction::OnSequences(function) => most_on_sequences(function),
            ValueFunction::Building(_) => None,
        }
    }
}

// How many arguments such a function takes at least.
fn least_of_arithmetic(function: Arithmetic) -> usize
    ensures { result ≡ fewest_arguments (ValueFunction.Arithmetic function) }
{
    match function {
        Arithmetic::Plus | Arithmetic::Times => 0,
        Arithmetic::Minus => 1,
    }
}

// How many arguments such a function takes at least.
fn least_of_division(function: Division) -> usize
    ensures { result ≡ fewest_arguments (ValueFunction.Division function) }
{
    match function {
        Division::Floor => 1,
        Division::Mod => 2,
    }
}

// How many arguments such a function takes at least.
fn least_on_texts(function: OnTexts) -> usize
    ensures { result ≡ fewest_arguments (ValueFunction.OnTexts function) }
{
    match function {
        OnTexts::SameText | OnTexts::TextLess => 2,
        OnTexts::SymbolName => 1,
    }
}

// How many arguments such a function takes at least.
fn least_on_lists(function: OnLists) -> usize
    ensures { result ≡ fewest_arguments (ValueFunction.OnLists function) }
{
    match function {
        OnLists::Cons | OnLists::Nth | OnLists::Member | OnLists::Assoc | OnLists::Adjoin => 2,
        OnLists::Car | OnLists::Cdr => 1,
    }
}

// How many arguments such a function takes at least.
fn least_on_sequences(function: OnSequences) -> usize
    ensures { result ≡ fewest_arguments (ValueFunction.OnSequences function) }
{
    match function {
        OnSequences::Length | OnSequences::Reverse => 1,
        OnSequences::Remove | OnSequences::Svref => 2,
    }
}

// How many it takes at most.
fn most_of_comparison(function: Comparison) -> Option<usize>
    ensures { result ≡ most_arguments (ValueFunction.Comparison function) }
{
    match function {
        Comparison::Same
        | Comparison::Less
        | Comparison::AtMost
        | Comparison::Greater
        | Comparison::AtLeast => None,
        Comparison::Different => Some(2),
    }
}

// How many it takes at most.
fn most_on_texts(function: OnTexts) -> Option<usize>
    ensures { result ≡ most_arguments (ValueFunction.OnTexts function) }
{
    match function {
        OnTexts::SameText | OnTexts::TextLess => Some(2),
        OnTexts::SymbolName => Some(1),
    }
}

// How many it takes at most.
fn most_on_lists(function: OnLists) -> Option<usize>
    ensures { result ≡ most_arguments (ValueFunction.OnLists function) }
{
    match function {
        OnLists::Cons | OnLists::Nth | OnLists::Member | OnLists::Assoc | OnLists::Adjoin => Some(
            2,
        ),
        OnLists::Car | OnLists::Cdr => Some(1),
    }
}

// How many it takes at most.
fn most_on_sequences(function: OnSequences) -> Option<usize>
    ensures { result ≡ most_arguments (ValueFunction.OnSequences function) }
{
    match function {
        OnSequences::Length | OnSequences::Reverse => Some(1),
        OnSequences::Remove | OnSequences::Svref => Some(2),
    }
}

// The function beside the name in these rows.
fn named_in(rows: &'static [(&'static str, ValueFunction)], name: &[u8]) -> Option<ValueFunction>
    ensures { result ≡ function_among (function_rows rows.now) name.now }
{
    'rows: for (known, function) in rows {
        if known.as_bytes() == name {
            return Some(*function);
        }
    }
    None
}
