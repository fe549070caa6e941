//! The refusals: a number and a name for each. A call that refuses answers one of these numbers, and `NO_MEMORY` only where
//! a growth was refused. Code and contracts cite a number by its name here; specs/Refusal.antt writes each beside its name once
//! more, and the contract of `name_of` says that both are the same.
ghost use Rattle.std.specs.Prelude.{◌≡◌};
ghost use Rattle.lisp_object.specs.Refusal.{name_of, name_among, rows_of};

// Reading: 1 to 26.

/// The input ends within an object, an escape, bars, a text, a block or a dispatch.
pub const END_OF_FILE: u16 = 1;

/// A byte over 127, or a character whose syntax type is invalid where an object or a token is read.
pub const INVALID_CHARACTER: u16 = 2;

/// A character in a token, not escaped, that has the trait invalid.
pub const INVALID_TRAIT: u16 = 3;

/// A closing parenthesis with nothing open that it closes.
pub const STRAY_CLOSE: u16 = 4;

/// A dot out of place, or a second object after the dot of a list.
pub const DOT_CONTEXT: u16 = 5;

/// A token of two or more dots and nothing else.
pub const DOTS_ONLY: u16 = 6;

/// A token in the syntax of a float.
pub const FLOAT_TOKEN: u16 = 7;

/// A number, as written, beyond 128 bits.
pub const NUMBER_RANGE: u16 = 8;

/// A ratio whose denominator is zero.
pub const ZERO_DENOMINATOR: u16 = 9;

/// Colons in a token that are no package markers.
pub const PACKAGE_MARKERS: u16 = 10;

/// A token's prefix that no package has as its name.
pub const NO_PACKAGE: u16 = 11;

/// A symbol after one package marker that is not external there.
pub const NOT_EXTERNAL: u16 = 12;

/// A new name in COMMON-LISP.
pub const LOCKED_PACKAGE: u16 = 13;

/// A sub-character without a function.
pub const NO_DISPATCH: u16 = 14;

/// A numeric argument over 999,999; or a token read in a given base, where the base is missing or not 2 to 36.
pub const NUMERIC_ARGUMENT: u16 = 15;

/// A name of no character.
pub const CHARACTER_NAME: u16 = 16;

/// A token that is no rational in the radix asked for.
pub const RADIX_TOKEN: u16 = 17;

/// More objects in a vector than its length, or none where its length is over 0, or a vector with a repeated last object whose
/// size is over 1,000,000.
pub const VECTOR_LENGTH: u16 = 18;

/// A token that names no uninterned symbol.
pub const UNINTERNED_TOKEN: u16 = 19;

/// A macro function refused what it gathered.
pub const MACRO_REFUSED: u16 = 20;

/// A macro function answered an object that may not be part of a form.
pub const MACRO_ANSWER: u16 = 21;

/// More open calls that read objects than the nesting allows.
pub const TOO_DEEP: u16 = 22;

/// A form, or a discarded call at top level, longer than the limit.
pub const FORM_TOO_LONG: u16 = 23;

/// A token of more characters than the limit.
pub const TOKEN_TOO_LONG: u16 = 24;

/// Syntax of the standard that is left out here.
pub const OUT_OF_PROFILE: u16 = 25;

/// More text after the form.
pub const TEXT_LEFT_OVER: u16 = 26;

// Evaluation: 30 to 47.

/// An object that is no form.
pub const NOT_A_FORM: u16 = 30;

/// A form whose operator is not known.
pub const UNKNOWN_OPERATOR: u16 = 31;

/// Too few or too many arguments.
pub const ARGUMENT_COUNT: u16 = 32;

/// An argument of another kind than the operator takes.
pub const ARGUMENT_KIND: u16 = 33;

/// No package has that name.
pub const NO_SUCH_PACKAGE: u16 = 34;

/// A package has that name already.
pub const PACKAGE_EXISTS: u16 = 35;

/// The package may not be changed.
pub const PACKAGE_IS_LOCKED: u16 = 36;

/// A package would find two symbols by one name.
pub const NAME_CONFLICT: u16 = 37;

/// The symbol is not accessible in the package.
pub const NOT_ACCESSIBLE: u16 = 38;

/// No readtable has that name.
pub const NO_READTABLE: u16 = 39;

/// The standard readtable may not be changed.
pub const STANDARD_READTABLE: u16 = 40;

/// No macro function has that name.
pub const NO_MACRO: u16 = 41;

/// The character is no dispatching macro character.
pub const NOT_DISPATCHING: u16 = 42;

/// A decimal digit may be no sub-character.
pub const DIGIT_SUBCHARACTER: u16 = 43;

/// An integer beyond 128 bits.
pub const INTEGER_RANGE: u16 = 44;

/// A value deeper than the limit.
pub const VALUE_TOO_DEEP: u16 = 45;

/// A limit of the world or of a value's size.
pub const LIMIT: u16 = 46;

/// The test of an assertion has the value NIL.
pub const ASSERTION_FAILED: u16 = 47;

// The store: 60 to 68, and 90.

/// The device failed.
pub const DEVICE: u16 = 60;

/// The device failed earlier, and the store has to be opened again.
pub const REOPEN: u16 = 61;

/// The files do not hold what a store writes.
pub const DAMAGED: u16 = 62;

/// A macro function that the files name is not there.
pub const MISSING_MACRO: u16 = 63;

/// The record does not fit into the half file.
pub const LOG_FULL: u16 = 64;

/// The snapshot does not fit into the half file.
pub const SNAPSHOT_TOO_LARGE: u16 = 65;

/// The files are of a version that is not known.
pub const VERSION: u16 = 66;

/// Reading the input failed.
pub const INPUT: u16 = 67;

/// Writing the output failed.
pub const OUTPUT: u16 = 68;

/// A growth was refused.
pub const NO_MEMORY: u16 = 90;

// Each refusal by its number, with its name as it is in an answer, in the order of the numbers.
pub(crate) const NAMES: [(u16, &str); 54] = [
    (END_OF_FILE, "END-OF-FILE"),
    (INVALID_CHARACTER, "INVALID-CHARACTER"),
    (INVALID_TRAIT, "INVALID-TRAIT"),
    (STRAY_CLOSE, "STRAY-CLOSE"),
    (DOT_CONTEXT, "DOT-CONTEXT"),
    (DOTS_ONLY, "DOTS-ONLY"),
    (FLOAT_TOKEN, "FLOAT-TOKEN"),
    (NUMBER_RANGE, "NUMBER-RANGE"),
    (ZERO_DENOMINATOR, "ZERO-DENOMINATOR"),
    (PACKAGE_MARKERS, "PACKAGE-MARKERS"),
    (NO_PACKAGE, "NO-PACKAGE"),
    (NOT_EXTERNAL, "NOT-EXTERNAL"),
    (LOCKED_PACKAGE, "LOCKED-PACKAGE"),
    (NO_DISPATCH, "NO-DISPATCH"),
    (NUMERIC_ARGUMENT, "NUMERIC-ARGUMENT"),
    (CHARACTER_NAME, "CHARACTER-NAME"),
    (RADIX_TOKEN, "RADIX-TOKEN"),
    (VECTOR_LENGTH, "VECTOR-LENGTH"),
    (UNINTERNED_TOKEN, "UNINTERNED-TOKEN"),
    (MACRO_REFUSED, "MACRO-REFUSED"),
    (MACRO_ANSWER, "MACRO-ANSWER"),
    (TOO_DEEP, "TOO-DEEP"),
    (FORM_TOO_LONG, "FORM-TOO-LONG"),
    (TOKEN_TOO_LONG, "TOKEN-TOO-LONG"),
    (OUT_OF_PROFILE, "OUT-OF-PROFILE"),
    (TEXT_LEFT_OVER, "TEXT-LEFT-OVER"),
    (NOT_A_FORM, "NOT-A-FORM"),
    (UNKNOWN_OPERATOR, "UNKNOWN-OPERATOR"),
    (ARGUMENT_COUNT, "ARGUMENT-COUNT"),
    (ARGUMENT_KIND, "ARGUMENT-KIND"),
    (NO_SUCH_PACKAGE, "NO-SUCH-PACKAGE"),
    (PACKAGE_EXISTS, "PACKAGE-EXISTS"),
    (PACKAGE_IS_LOCKED, "PACKAGE-IS-LOCKED"),
    (NAME_CONFLICT, "NAME-CONFLICT"),
    (NOT_ACCESSIBLE, "NOT-ACCESSIBLE"),
    (NO_READTABLE, "NO-READTABLE"),
    (STANDARD_READTABLE, "STANDARD-READTABLE"),
    (NO_MACRO, "NO-MACRO"),
    (NOT_DISPATCHING, "NOT-DISPATCHING"),
    (DIGIT_SUBCHARACTER, "DIGIT-SUBCHARACTER"),
    (INTEGER_RANGE, "INTEGER-RANGE"),
    (VALUE_TOO_DEEP, "VALUE-TOO-DEEP"),
    (LIMIT, "LIMIT"),
    (ASSERTION_FAILED, "ASSERTION-FAILED"),
    (DEVICE, "DEVICE"),
    (REOPEN, "REOPEN"),
    (DAMAGED, "DAMAGED"),
    (MISSING_MACRO, "MISSING-MACRO"),
    (LOG_FULL, "LOG-FULL"),
    (SNAPSHOT_TOO_LARGE, "SNAPSHOT-TOO-LARGE"),
    (VERSION, "VERSION"),
    (INPUT, "INPUT"),
    (OUTPUT, "OUTPUT"),
    (NO_MEMORY, "NO-MEMORY"),
];

/// The name of a refusal by its number, as it is in an answer; empty for a number that is none. It takes no memory.
#[tactic(auto, unfolding(crate::specs::Refusal::name_of))]
pub fn name_of(number: u16) -> &'static str
    ensures { result.now ≡ name_of number }
{
    name_in(&NAMES, number)
}

// The name beside the number in these rows.
fn name_in(rows: &'static [(u16, &'static str)], number: u16) -> &'static str
    ensures { result.now ≡ name_among (rows_of rows.now) number }
{
    'rows: for (known, name) in rows {
        if *known == number {
            return name;
        }
    }
    ""
}
