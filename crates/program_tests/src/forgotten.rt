//! A world from which the symbols went that it does not need.
ghost use Rattle.std.specs.Prelude.{◌≡◌, ◌+◌, IfOk, Some};
ghost use Rattle.forgotten_names.specs.WorldsWithoutNames.{without_unneeded_symbols};
ghost use Rattle.package_table.specs.Lookup.{home_by_name, is_used};
ghost use Rattle.package_table.specs.Readers.{imports};
ghost use Rattle.package_table.specs.Table.{Name, symbol_count};
ghost use Rattle.plist_state.specs.Readers.{borrowed_symbols};
ghost use Rattle.plist_state.specs.Sound.{IsSoundWorldState};

use forgetting_laws::{forgettable_symbols_go, imports_stay};
use forgotten_names::{
    forget, forgettable_count, forgetting_again_changes_nothing, forgotten_worlds_are_sound,
    needed_symbols_stay, nothing_to_forget, what_is_not_forgotten,
};
use plist_state::{Seed, World};
use std::alloc::{AllocError, Global};
use std::test::Fail;
use user_macros::{MacroFunctions, Macros, NoFunctions};

/// A world without the symbols that it does not need, of which those in `held` are none; and how many went.
///
/// - `sound`, `again`: it is a world, and nothing more would go from it.
/// - `count`, `none`: so many symbols are gone, and if there were none, it is the same world.
/// - `kept`: what a package finds by a name it found before.
/// - `imports`, `uses`, `rest`: all else is as it was.
fn without_unneeded<M: MacroFunctions>(
    alloc: Global,
    world: &World,
    held: &[(&[u8], &[u8])],
    macros: &M,
) -> Result<(World, usize), AllocError>
    requires answers { M.answers macros.now }
    ensures sound { IfOk result (λ left. IsSoundWorldState left.0.0) }
    ensures again { IfOk result (λ left. without_unneeded_symbols (borrowed_symbols held.now) left.0.0 ≡ left.0.0) }
    ensures count { IfOk result (λ left. symbol_count left.0.0.packages + left.1 ≡ symbol_count world.now.0.packages) }
    ensures none { IfOk result (λ left. left.1 ≡ 0 → left.0.0 ≡ world.now.0) }
    ensures kept { IfOk result (λ left. (p n h : Name) → home_by_name left.0.0.packages p n ≡ Some h → home_by_name world.now.0.packages p n ≡ Some h) }
    ensures imports { IfOk result (λ left. (p : Name) → imports left.0.0.packages p ≡ imports world.now.0.packages p) }
    ensures uses { IfOk result (λ left. (p q : Name) → is_used left.0.0.packages p q ≡ is_used world.now.0.packages p q) }
    ensures rest { IfOk result (λ left. left.0.0 ≡ record world.now.0 { packages = left.0.0.packages }) }
{
    forgotten_worlds_are_sound();
    forgetting_again_changes_nothing();
    forgettable_symbols_go();
    nothing_to_forget();
    needed_symbols_stay();
    imports_stay();
    what_is_not_forgotten();
    world.soundness();
    let count = forgettable_count(alloc, world, held)?;
    let left = forget(alloc, world, held, macros, Seed::fixed())?;
    Ok((left, count))
}

/// The first world with two more symbols, A and B.
fn with_two_symbols(alloc: Global) -> Result<World, AllocError> {
    let mut world = World::new(alloc)?;
    let Ok(_) = world.intern(b"COMMON-LISP-USER", b"A") else {
        return Err(AllocError);
    };
    let Ok(_) = world.intern(b"COMMON-LISP-USER", b"B") else {
        return Err(AllocError);
    };
    Ok(world)
}

/// How many symbols go from it where these are held, and how many go then.
fn counted_twice(alloc: Global, held: &[(&[u8], &[u8])]) -> Result<(usize, usize), AllocError> {
    let world = with_two_symbols(alloc)?;
    let macros = Macros::new(alloc, NoFunctions);
    let (left, count) = without_unneeded(alloc, &world, held, &macros)?;
    let (_same, more) = without_unneeded(alloc, &left, held, &macros)?;
    Ok((count, more))
}

#[test]
fn unneeded_symbols_go_once(rt: HostRuntime) -> Result<(), Fail> {
    assert!(rt; counted_twice(rt.alloc(), &[(b"COMMON-LISP-USER", b"A")])? == (1, 0));
    Ok(())
}
