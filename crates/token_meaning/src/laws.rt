//! Laws of the syntax of numbers, as the contract of a function that does nothing.
ghost use Rattle.std.specs.Prelude.{◌≡◌, ◌≤◌, ℕ, Bool, List, Some, Err, IfSome};
ghost use Rattle.token_meaning.specs.declared.refusal.MeaningRefusal.TheVariants.{FloatToken};
ghost use Rattle.token_meaning.specs.Numbers.{integer_of, ratio_of, number_in_base, rational_number};
ghost use Rattle.token_meaning.specs.Grammar.{IsDigits, IsInteger, IsRatio, IsRational, IsFloat, GivesNumber};

/// The numbers are those of the grammar, in which a text is the parts of its form, one after the other: an integer and a
/// ratio give their value, a float that is no integer is refused, and what gives a value or is refused is in one of the
/// forms. A ratio is no integer and no float. A text in the forms of an integer and of a float, as `1e5` in base 16, is
/// the integer.
pub fn numbers_are_concatenations()
    ensures integer { (base : ℕ) (text : List ℕ) (negative : Bool) (size : ℕ)
        → base ≤ 36 → IsInteger base text negative size → number_in_base base text ≡ Some (integer_of negative size) }
    ensures ratio { (base : ℕ) (text : List ℕ) (negative : Bool) (numerator denominator : ℕ)
        → base ≤ 36 → IsRatio base text negative numerator denominator
        → number_in_base base text ≡ Some (ratio_of negative numerator denominator) }
    ensures float { (base : ℕ) (text : List ℕ)
        → IsFloat text → ((negative : Bool) (size : ℕ) → IsInteger base text negative size → ⊥)
        → number_in_base base text ≡ Some (Err FloatToken) }
    ensures ratio_is_no_integer { (base : ℕ) (text : List ℕ) (negative : Bool) (numerator denominator : ℕ)
        → base ≤ 36 → IsRatio base text negative numerator denominator
        → (below_zero : Bool) (size : ℕ) → IsInteger base text below_zero size → ⊥ }
    ensures ratio_is_no_float { (base : ℕ) (text : List ℕ) (negative : Bool) (numerator denominator : ℕ)
        → IsRatio base text negative numerator denominator → IsFloat text → ⊥ }
    ensures found { (base : ℕ) (text : List ℕ) → IfSome (number_in_base base text) (GivesNumber base text) }
{}

/// The rationals of digits alone are those of the grammar: a sign and digits, or a sign and digits on both sides of a slash.
/// A point is in none.
pub fn rationals_are_concatenations()
    ensures integer { (base : ℕ) (text : List ℕ) (negative : Bool) (size : ℕ)
        → base ≤ 36 → IsDigits base text negative size → rational_number base text ≡ Some (integer_of negative size) }
    ensures ratio { (base : ℕ) (text : List ℕ) (negative : Bool) (numerator denominator : ℕ)
        → base ≤ 36 → IsRatio base text negative numerator denominator
        → rational_number base text ≡ Some (ratio_of negative numerator denominator) }
    ensures found { (base : ℕ) (text : List ℕ) → IfSome (rational_number base text) (IsRational base text) }
{}
