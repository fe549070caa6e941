//! Symbols are interned in their homes.
ghost use Rattle.std.specs.Prelude.{◌≡◌, ◌<◌, true, bytes_eq, All, IfErr, IfOk};
ghost use Rattle.std.specs.List.{list_any};
ghost use Rattle.package_table.specs.Table.{common_lisp, common_lisp_names};
ghost use Rattle.package_table.specs.Changes.{AnswersPackages};
ghost use Rattle.plist_state.specs.Changes.{with_packages};
ghost use Rattle.lisp_operators.specs.EvaluationAnswers.{MakesPackages};
ghost use Rattle.plist_state.specs.Readers.{borrowed_symbol, borrowed_symbols};
ghost use Rattle.form_eval.specs.Acceptance.{after_symbol_interned, with_symbols_interned, is_new_symbol};

use lisp_operators::either;
use package_table::PackageError;
use package_table::standardized::COMMON_LISP;
use plist_state::World;

// Whether it is this name.
fn is_name(name: &[u8], wanted: &[u8]) -> bool
    ensures { result ≡ bytes_eq name.now wanted.now }
{
    name == wanted
}

// Whether it is one of the names that stand in most forms. COMMON-LISP always has them.
fn is_common(name: &[u8]) -> bool
    ensures { result ≡ true → list_any (bytes_eq name.now) common_lisp_names ≡ true }
{
    if is_name(name, b"NIL") {
        return true;
    }
    if is_name(name, b"QUOTE") {
        return true;
    }
    if is_name(name, b"GET") {
        return true;
    }
    is_name(name, b"SETF")
}

// Whether a symbol is one that COMMON-LISP always has, and that stands in most forms. It is not looked up.
fn is_always_there(home: &[u8], name: &[u8]) -> bool
    ensures home { result ≡ true → home.now ≡ common_lisp }
    ensures name { result ≡ true → list_any (bytes_eq name.now) common_lisp_names ≡ true }
{
    if !is_name(home, COMMON_LISP) {
        return false;
    }
    is_common(name)
}

// A symbol is interned in its home, and whether it is new. One that is there is copied nowhere.
fn intern_one(world: &mut World, symbol: &(&[u8], &[u8])) -> Result<bool, PackageError>
    requires { All (λ b. b < 128) symbol.now.1.now }
    ensures gives { AnswersPackages (λ _. world.new.0.packages) result
        (after_symbol_interned world.old.0.packages (borrowed_symbol symbol.now)) }
    ensures is_new { IfOk result (λ b. b ≡ is_new_symbol world.old.0.packages (borrowed_symbol symbol.now)) }
    ensures rest { world.new ≡ (with_packages world.old.0 world.new.0.packages, world.old.1) }
    ensures unchanged { IfErr result (λ _. world.new ≡ world.old) }
{
    world.soundness();
    if is_always_there(symbol.0, symbol.1) {
        return Ok(false);
    }
    if world.packages().is_symbol(symbol.0, symbol.1) {
        return Ok(false);
    }
    match world.intern(symbol.0, symbol.1) {
        Ok(interned) => Ok(interned.is_new),
        Err(error) => Err(error),
    }
}

/// Each of these symbols is interned in its home, one after the other, and whether one of them is new. After an error a
/// part of them may be interned: who calls it goes back to a mark.
pub(crate) fn intern_all(
    world: &mut World,
    symbols: &[(&[u8], &[u8])],
) -> Result<bool, PackageError>
    requires { All (λ p. All (λ b. b < 128) p.1.now) symbols.now }
    ensures gives { MakesPackages result world.new.0.packages
        (with_symbols_interned world.old.0.packages (borrowed_symbols symbols.now)) }
    ensures rest { world.new ≡ (with_packages world.old.0 world.new.0.packages, world.old.1) }
{
    let mut wrote = false;
    for symbol in symbols {
        match intern_one(world, symbol) {
            Ok(is_new) => wrote = either(wrote, is_new),
            Err(error) => return Err(error),
        }
    }
    Ok(wrote)
}
