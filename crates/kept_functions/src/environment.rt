//! Variables and their values.
ghost use Rattle.std.specs.Prelude.{◌≡◌, All, IfSome, option_map};
ghost use Rattle.lisp_object.specs.Datum.{object_of};
ghost use Rattle.lisp_operators.specs.EvaluationAnswers.{IsProper};
ghost use Rattle.kept_functions.specs.Environments.{bound, is_same_variable};
ghost use Rattle.kept_functions.specs.KeptFunctions.{seen_from, binding_shown};

use lisp_object::Datum;
use plist_state::Symbol;

/// A variable and its value.
#[derive(Debug, Drop)]
pub struct Binding {
    pub variable: Symbol,
    pub value: Datum,
}

// Whether it is the binding of this variable.
fn binds(binding: &Binding, home: &[u8], name: &[u8]) -> bool
    ensures { result ≡ is_same_variable (binding_shown binding.now).0 (home.now, name.now) }
{
    binding.variable.home() == home && binding.variable.name() == name
}

/// The value of a variable in these, of which the last one that is it counts. It is proper where all values are.
pub fn bound_in<'a>(bindings: &'a [Binding], home: &[u8], name: &[u8]) -> Option<&'a Datum>
    ensures value { option_map (λ d. object_of d.now) result
        ≡ bound (seen_from 0 bindings.now) (home.now, name.now) }
    ensures proper { All (λ b. IsProper b.value) bindings.now → IfSome result (λ d. IsProper d.now) }
{
    let mut index = bindings.len();
    while 0 < index {
        index -= 1;
        if binds(&bindings[index], home, name) {
            return Some(&bindings[index].value);
        }
    }
    None
}
