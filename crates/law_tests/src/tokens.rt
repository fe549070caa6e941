//! What the laws of tokens and of look-ups say of a token and of a name.
ghost use Rattle.std.specs.Prelude.{◌≡◌, ◌≤◌, ◌<◌, All, Bool, IfOk, IsTrue, List, Some, false, length, true, ℕ};
ghost use Rattle.std.specs.List.{list_all};
ghost use Rattle.std.specs.Option.{option_map};
ghost use Rattle.package_table.specs.Table.{Finds, IsPresent};
ghost use Rattle.token_meaning.specs.Grammar.{IsDigits, IsInteger};
ghost use Rattle.token_meaning.specs.Meanings.{is_unescaped, number_or_name};
ghost use Rattle.token_meaning.specs.Numbers.{integer_of, is_point};
ghost use Rattle.token_meaning.specs.Results.{AnswersMeaning, view_number};
ghost use Rattle.token_scan.specs.Marks.{are_ascii, characters};
ghost use Rattle.token_scan.specs.ByteByByte.{token_from};
ghost use Rattle.token_scan.specs.Spelling.{Spells, SpellsEscaped, Splits};
ghost use Rattle.token_scan.specs.Tokens.{TypedByte};

use lisp_object::Datum;
use package_table::standardized::COMMON_LISP_USER;
use package_table::{Interned, PackageError, Packages, look_up_laws};
use readtable_core::Syntax;
use std::alloc::Global;
use std::test::Fail;
use token_meaning::{
    MeaningError, MeaningRefusal, TokenMeaning, meaning, numbers_are_concatenations, rational,
    rationals_are_concatenations,
};
use token_scan::{Mark, TokenScan, escaped_token_laws, token_laws};

/// Begins a token: the text that it takes spells its marks, in whole, and their characters are below 128.
fn begin_token(alloc: Global, limit: usize) -> TokenScan
    ensures splits { (at : ℕ) (text : List TypedByte)
        → IfOk (token_from result at text) (λ t. Splits (Spells false) limit at text t.0 t.1 t.2) }
    ensures ascii { (at : ℕ) (text : List TypedByte)
        → IfOk (token_from result at text) (λ t. IsTrue (are_ascii t.0)) }
{
    token_laws();
    TokenScan::begin(alloc, limit)
}

/// The same of one whose first character is taken as an escaped one.
fn begin_escaped_token(alloc: Global, limit: usize) -> TokenScan
    ensures splits { (at : ℕ) (text : List TypedByte)
        → IfOk (token_from result at text) (λ t. Splits SpellsEscaped limit at text t.0 t.1 t.2) }
    ensures ascii { (at : ℕ) (text : List TypedByte)
        → IfOk (token_from result at text) (λ t. IsTrue (are_ascii t.0)) }
{
    escaped_token_laws();
    TokenScan::begin_escaped(alloc, limit)
}

/// What a token writes in digits of a base: a sign and digits are the integer that they are worth.
fn rational_of_token(marks: &[Mark], base: u8) -> Option<Result<Datum, MeaningRefusal>>
    requires lowest_base { 2 ≤ base }
    requires highest_base { base ≤ 36 }
    ensures { (negative : Bool) (size : ℕ) → list_all is_unescaped marks.now ≡ true
        → IsDigits base (characters marks.now) negative size
        → option_map view_number result ≡ Some (integer_of negative size) }
{
    rationals_are_concatenations();
    rational(marks, base)
}

/// What a token is that has no escaped character and is no dot: a sign and digits in the base, or decimal digits and a point, are the integer that
/// they are worth.
fn meaning_of_token(alloc: Global, marks: &[Mark], base: u8) -> Result<TokenMeaning, MeaningError>
    requires lowest_base { 2 ≤ base }
    requires highest_base { base ≤ 36 }
    requires marks { 0 < length marks.now }
    ensures { (negative : Bool) (size : ℕ) → list_all is_unescaped marks.now ≡ true
        → list_all is_point (characters marks.now) ≡ false → IsInteger base (characters marks.now) negative size
        → AnswersMeaning result (number_or_name (Some (integer_of negative size)) marks.now) }
{
    numbers_are_concatenations();
    meaning(alloc, marks, base)
}

/// Interns a name in a package, which finds the symbol by it then, as its home does.
fn intern_name(packages: &mut Packages, owner: &[u8], name: &[u8]) -> Result<Interned, PackageError>
    requires { All (λ b. b < 128) name.now }
    ensures finds { IfOk result (λ interned. Finds packages.new.0 owner.now name.now interned.home) }
    ensures at_home { IfOk result (λ interned. IsPresent packages.new.0 interned.home name.now interned.home) }
{
    look_up_laws();
    let interned = packages.intern(owner, name)?;
    packages.soundness();
    Ok(interned)
}

/// How many marks a token of two letters has, begun in both ways.
fn counts_of_two_letters(alloc: Global) -> Result<(usize, usize), Fail> {
    let mut plain = begin_token(alloc, 10);
    let mut escaped = begin_escaped_token(alloc, 10);
    for byte in b"AB" {
        let _fed = plain.feed(Syntax::Constituent, *byte)?;
        let _fed_escaped = escaped.feed(Syntax::Constituent, *byte)?;
    }
    Ok((plain.marks().len(), escaped.marks().len()))
}

#[test]
fn letters_are_marks(rt: HostRuntime) -> Result<(), Fail> {
    assert!(rt; counts_of_two_letters(rt.alloc())? == (2, 2));
    Ok(())
}

#[test]
fn a_token_of_digits_is_a_number(rt: HostRuntime) -> Result<(), Fail> {
    let given = meaning_of_token(rt.alloc(), &[Mark::Plain(b'-'), Mark::Plain(b'7')], 10);
    assert!(rt; matches!(&given, Ok(TokenMeaning::Number(Datum::Integer(-7)))));
    Ok(())
}

#[test]
fn digits_are_an_integer(rt: HostRuntime) -> Result<(), Fail> {
    let given = rational_of_token(&[Mark::Plain(b'1'), Mark::Plain(b'0')], 16);
    assert!(rt; matches!(&given, Some(Ok(Datum::Integer(16)))));
    Ok(())
}

#[test]
fn a_name_is_found_once_it_is_there(rt: HostRuntime) -> Result<(), Fail> {
    let mut packages = Packages::new(rt.alloc())?;
    let first = intern_name(&mut packages, COMMON_LISP_USER, b"APPLE")?;
    let again = intern_name(&mut packages, COMMON_LISP_USER, b"APPLE")?;
    assert!(rt; first.is_new && !again.is_new);
    Ok(())
}
