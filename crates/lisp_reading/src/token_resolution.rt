//! What a token means where packages are known.
ghost use Rattle.std.specs.Prelude.{◌≡◌, ◌<◌, ◌≤◌, true, length, Ok, Err, IfOk, IsTrue};
ghost use Rattle.std.specs.List.{list_all};
ghost use Rattle.lisp_object.specs.Ascii.{is_ascii};
ghost use Rattle.package_table.specs.Table.{IsPackage};
ghost use Rattle.package_table.specs.Resolving.{home_of, resolution_of};
ghost use Rattle.token_scan.specs.Marks.{are_ascii};
ghost use Rattle.token_meaning.specs.Folding.{folded_marks};
ghost use Rattle.token_meaning.specs.Meanings.{meaning_of};
ghost use Rattle.token_meaning.specs.Results.{is_ascii_name, view_meaning, IsProperNumber, HasAsciiName};
ghost use Rattle.lisp_reading.specs.declared.token_resolution.ResolutionError.TheVariants.{OutOfMemory};
ghost use Rattle.lisp_reading.specs.Naming.{named, symbol_at, symbol_in, told_meaning, TellsMeaning, view_resolved, view_home};

use crate::held_objects::HeldObject;
use lisp_object::Bytes;
use package_table::standardized::KEYWORD;
use package_table::{PackageError, Packages, Resolved};
use readtable_core::Case;
use std::alloc::{AllocError, Global};
use token_meaning::{MeaningError, TokenMeaning, TokenName, fold_case, meaning};
use token_scan::Marks;

/// What a token means.
#[derive(Drop)]
pub enum ResolvedToken {
    /// An object.
    Object(HeldObject),
    /// The dot of a list.
    Dot,
}

/// Why nothing was told: out of memory, or the number of a refusal.
#[derive(Clone, Copy)]
pub enum ResolutionError {
    OutOfMemory,
    Refused(u16),
}

impl From<AllocError> for ResolutionError {
    ghost use Rattle.lisp_reading.specs.declared.token_resolution.ResolutionError.TheVariants.{OutOfMemory};

    ghost from_gives = { λ _ e. e ≡ OutOfMemory };

    fn from(_error: AllocError) -> ResolutionError {
        ResolutionError::OutOfMemory
    }
}

/// The meaning of a token with at least one mark, in this base and this package. Refused as the token or its package
/// is, with the number of the refusal; `OutOfMemory` else. Nothing is changed.
#[inline(always)]
pub fn tell(
    alloc: Global,
    case: Case,
    packages: &Packages,
    current: &[u8],
    base: u8,
    mut marks: Marks,
) -> Result<ResolvedToken, ResolutionError>
    requires marks { 0 < length marks.items }
    requires ascii { IsTrue (are_ascii marks.items) }
    requires lowest_base { 2 ≤ base }
    requires highest_base { base ≤ 36 }
    requires current { IsPackage packages.now.0 current.now }
    ensures tells { TellsMeaning result
        (told_meaning packages.now.0 current.now (meaning_of base (folded_marks case marks.items))) }
{
    fold_case(case, marks.as_mut_slice());
    match meaning(alloc, marks.as_slice(), base) {
        Ok(meant) => tell_meaning(alloc, packages, current, meant),
        Err(MeaningError::OutOfMemory) => Err(ResolutionError::OutOfMemory),
        Err(MeaningError::Refused(refusal)) => Err(ResolutionError::Refused(refusal.number())),
    }
}

#[inline(always)]
fn tell_meaning(
    alloc: Global,
    packages: &Packages,
    current: &[u8],
    meant: TokenMeaning,
) -> Result<ResolvedToken, ResolutionError>
    requires proper { IsProperNumber meant }
    requires ascii { HasAsciiName meant }
    requires current { IsPackage packages.now.0 current.now }
    ensures tells { TellsMeaning result (told_meaning packages.now.0 current.now (Ok (view_meaning meant))) }
{
    match meant {
        TokenMeaning::Number(datum) => {
            // The number is looked at: it is sound.
            let _proper = datum.is_proper();
            Ok(ResolvedToken::Object(HeldObject::new(datum)))
        }
        TokenMeaning::Dot => Ok(ResolvedToken::Dot),
        TokenMeaning::Name(own) => named(alloc, packages, current, own),
    }
}

/// The symbol of a name (standard 2.3.5).
#[tactic(auto, using(crate::proofs::Homes::in_seen, crate::proofs::Homes::at_seen))]
#[inline(always)]
fn named(
    alloc: Global,
    packages: &Packages,
    current: &[u8],
    own: TokenName,
) -> Result<ResolvedToken, ResolutionError>
    requires ascii { is_ascii_name own ≡ true }
    requires current { IsPackage packages.now.0 current.now }
    ensures { TellsMeaning result (named packages.now.0 current.now own) }
{
    packages.soundness();
    match own {
        TokenName::Unqualified(name) => {
            let resolved = packages.resolve(current, name.as_slice());
            symbol_in(alloc, resolved, name)
        }
        TokenName::Keyword(name) => Ok(ResolvedToken::Object(HeldObject::symbol(
            alloc, KEYWORD, name,
        )?)),
        TokenName::External { package, name } => {
            let home = packages.resolve_external(package.as_slice(), name.as_slice());
            symbol_at(alloc, home, name)
        }
        TokenName::Internal { package, name } => {
            let resolved = packages.resolve_internal(package.as_slice(), name.as_slice());
            symbol_in(alloc, resolved, name)
        }
    }
}

/// The symbol of this name in the package that was found.
#[inline(always)]
fn symbol_in(
    alloc: Global,
    resolved: Result<Resolved<'_>, PackageError>,
    name: Bytes,
) -> Result<ResolvedToken, ResolutionError>
    requires home { IfOk resolved (λ r. list_all is_ascii (home_of (resolution_of r)) ≡ true) }
    requires name { list_all is_ascii name ≡ true }
    ensures { TellsMeaning result (symbol_in name (view_resolved resolved.entry)) }
{
    match resolved {
        Ok(Resolved::Found(home)) => Ok(ResolvedToken::Object(HeldObject::symbol(
            alloc, home, name,
        )?)),
        Ok(Resolved::New(home)) => Ok(ResolvedToken::Object(HeldObject::symbol(
            alloc, home, name,
        )?)),
        Err(error) => Err(ResolutionError::Refused(error.number())),
    }
}

/// The symbol of this name at the home that was found.
#[inline(always)]
fn symbol_at(
    alloc: Global,
    found: Result<&[u8], PackageError>,
    name: Bytes,
) -> Result<ResolvedToken, ResolutionError>
    requires home { IfOk found (λ h. list_all is_ascii h.now ≡ true) }
    requires name { list_all is_ascii name ≡ true }
    ensures { TellsMeaning result (symbol_at name (view_home found.entry)) }
{
    match found {
        Ok(home) => Ok(ResolvedToken::Object(HeldObject::symbol(alloc, home, name)?)),
        Err(error) => Err(ResolutionError::Refused(error.number())),
    }
}
