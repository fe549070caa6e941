//! The forms that make the readtables.
//! After an error, want of memory alone, a part may be added.
ghost use Rattle.std.specs.Prelude.{◌≡◌, ◌<◌, ◌≤◌, ◌++◌, codes, None, get_or, IfSome, OnOk};
ghost use Rattle.std.specs.List.{flat_map, range_with_len};
ghost use Rattle.readtable_core.specs.Cases.{case_name};
ghost use Rattle.readtable_core.specs.Tables.{entry_at, standard as standard_table};
ghost use Rattle.canon_printer.specs.Written.{AddsText};
ghost use Rattle.world_forms.specs.NameTokens.{character_argument};
ghost use Rattle.world_forms.specs.Readtables.{character_of_type, kind_argument, table_argument, table_end, like_line, syntax_line, macro_line, sub_line, dispatch_lines};
ghost use Rattle.world_forms.specs.Readtables.{entry_lines, changed_lines, set_case_line, case_line, table_lines, named_lines, readtable_lines};

use crate::texts::{push_character, push_keyword, push_value};
use lisp_object::Bytes;
use package_table::Packages;
use package_table::standardized::KEYWORD;
use plist_state::{STANDARD, World};
use readtable_core::{Case, CharacterSlot, FnName, Readtable, Syntax};
use std::alloc::{AllocError, Global};

/// The first character with this syntax type and no function in the standard readtable.
#[tactic(auto, unfolding(crate::specs::Readtables::character_of_type))]
fn character_of_type(standard: &Readtable, syntax: Syntax) -> Option<u8>
    requires { standard.now ≡ standard_table }
    ensures value { result ≡ character_of_type syntax }
    ensures below { IfSome result (λ c. c < 128) }
{
    (0..128u8).find(|c| standard.syntax(*c) == syntax && standard.macro_of(*c).is_none())
}

/// The forms of one readtable.
#[derive(Clone, Copy)]
struct Forms<'a> {
    alloc: Global,
    packages: &'a Packages,
    standard: &'a Readtable,
    name: &'a [u8],
}

impl Forms<'_> {
    fn push_character(&self, text: &mut Vec<u8>, c: u8) -> Result<(), AllocError>
        requires { c < 128 }
        ensures { OnOk result (AddsText text.old text.new (character_argument c)) }
    {
        push_character(self.alloc, text, self.packages, c)
    }

    /// The readtable as an argument.
    fn push_table_name(&self, text: &mut Vec<u8>) -> Result<(), AllocError>
        ensures { OnOk result (AddsText text.old text.new (table_argument self.now.name.now)) }
    {
        text.push(b' ')?;
        push_value(text, b"", b"", KEYWORD, self.name)
    }

    /// The same, and the end of the form.
    fn push_end(&self, text: &mut Vec<u8>) -> Result<(), AllocError>
        ensures { OnOk result (AddsText text.old text.new (table_end self.now.name.now)) }
    {
        self.push_table_name(text)?;
        text.extend_from_slice(b")\n")
    }

    /// A character that is as another one in the standard readtable.
    fn push_like(&self, text: &mut Vec<u8>, c: u8, there: u8) -> Result<(), AllocError>
        requires character { c < 128 }
        requires there { there < 128 }
        ensures { OnOk result (AddsText text.old text.new (like_line self.now.name.now c there)) }
    {
        text.extend_from_slice(b"(SET-SYNTAX-FROM-CHAR")?;
        self.push_character(text, c)?;
        self.push_character(text, there)?;
        self.push_table_name(text)?;
        text.extend_from_slice(b" :STANDARD)\n")?;
        Ok(())
    }

    /// A character without a function.
    #[tactic(auto, unfolding(crate::specs::Readtables::syntax_line))]
    fn push_syntax(&self, text: &mut Vec<u8>, c: u8, syntax: Syntax) -> Result<(), AllocError>
        requires standard { self.now.standard.now ≡ standard_table }
        requires character { c < 128 }
        ensures { OnOk result (AddsText text.old text.new (syntax_line self.now.name.now c syntax)) }
    {
        match character_of_type(self.standard, syntax) {
            Some(there) => self.push_like(text, c, there),
            None => Ok(()),
        }
    }

    /// A character with a function.
    #[tactic(auto, unfolding(crate::specs::Readtables::macro_line))]
    fn push_macro(
        &self,
        text: &mut Vec<u8>,
        c: u8,
        function: FnName,
        syntax: Syntax,
    ) -> Result<(), AllocError>
        requires { c < 128 }
        ensures { OnOk result (AddsText text.old text.new
            (macro_line self.now.name.now c function syntax)) }
    {
        text.extend_from_slice(b"(SET-MACRO-CHARACTER")?;
        self.push_character(text, c)?;
        push_keyword(text, function.as_bytes())?;
        push_kind(text, syntax)?;
        self.push_end(text)
    }

    /// A sub-character that has a function.
    #[tactic(auto, unfolding(crate::specs::Readtables::sub_line))]
    fn push_sub(
        &self,
        text: &mut Vec<u8>,
        c: u8,
        sub: u8,
        function: Option<FnName>,
    ) -> Result<(), AllocError>
        requires character { c < 128 }
        requires sub_character { sub < 128 }
        ensures { OnOk result (AddsText text.old text.new
            (sub_line self.now.name.now c sub function)) }
    {
        let Some(function) = function else {
            return Ok(());
        };
        text.extend_from_slice(b"(SET-DISPATCH-MACRO-CHARACTER")?;
        self.push_character(text, c)?;
        self.push_character(text, sub)?;
        push_keyword(text, function.as_bytes())?;
        self.push_end(text)
    }

    fn push_sub_of(
        &self,
        text: &mut Vec<u8>,
        c: u8,
        entry: &CharacterSlot,
        sub: u8,
    ) -> Result<(), AllocError>
        requires character { c < 128 }
        requires sub_character { sub < 128 }
        ensures { OnOk result (AddsText text.old text.new
            (sub_line self.now.name.now c sub (get_or entry.now.dispatch sub None))) }
    {
        self.push_sub(text, c, sub, function_at(entry, sub))
    }

    /// The sub-characters below `count`.
    fn push_subs(
        &self,
        text: &mut Vec<u8>,
        c: u8,
        entry: &CharacterSlot,
        count: u8,
    ) -> Result<(), AllocError>
        requires character { c < 128 }
        requires count { count ≤ 128 }
        ensures { OnOk result (AddsText text.old text.new
            (flat_map (λ sub. sub_line self.now.name.now c sub (get_or entry.now.dispatch sub None))
            (range_with_len 0 count))) }
    {
        for sub in 0..count {
            self.push_sub_of(text, c, entry, sub)?;
        }
        Ok(())
    }

    /// A dispatching character, and its sub-characters.
    fn push_dispatch(
        &self,
        text: &mut Vec<u8>,
        c: u8,
        entry: &CharacterSlot,
    ) -> Result<(), AllocError>
        requires { c < 128 }
        ensures { OnOk result (AddsText text.old text.new
            (dispatch_lines self.now.name.now c entry.now)) }
    {
        text.extend_from_slice(b"(MAKE-DISPATCH-MACRO-CHARACTER")?;
        self.push_character(text, c)?;
        push_kind(text, entry.syntax())?;
        self.push_end(text)?;
        self.push_subs(text, c, entry, 128)?;
        Ok(())
    }

    fn push_entry(&self, text: &mut Vec<u8>, c: u8, entry: &CharacterSlot) -> Result<(), AllocError>
        requires standard { self.now.standard.now ≡ standard_table }
        requires character { c < 128 }
        ensures { OnOk result (AddsText text.old text.new
            (entry_lines self.now.name.now c entry.now)) }
    {
        match entry.function() {
            None => self.push_syntax(text, c, entry.syntax()),
            Some(function) if function.is_dispatch() => self.push_dispatch(text, c, entry),
            Some(function) => self.push_macro(text, c, function, entry.syntax()),
        }
    }

    /// A character, if its entry is not as in the standard readtable.
    #[tactic(auto, unfolding(crate::specs::Readtables::changed_lines))]
    fn push_changed(&self, text: &mut Vec<u8>, table: &Readtable, c: u8) -> Result<(), AllocError>
        requires standard { self.now.standard.now ≡ standard_table }
        requires character { c < 128 }
        ensures { OnOk result (AddsText text.old text.new
            (changed_lines self.now.name.now table.now c)) }
    {
        if table.same_entry(self.standard, c) {
            return Ok(());
        }
        self.push_entry(text, c, entry_here(table, c))
    }

    /// The characters below `count` whose entries are not as in the standard readtable.
    fn push_characters(
        &self,
        text: &mut Vec<u8>,
        table: &Readtable,
        count: u8,
    ) -> Result<(), AllocError>
        requires standard { self.now.standard.now ≡ standard_table }
        requires count { count ≤ 128 }
        ensures { OnOk result (AddsText text.old text.new
            (flat_map (changed_lines self.now.name.now table.now) (range_with_len 0 count))) }
    {
        for c in 0..count {
            self.push_changed(text, table, c)?;
        }
        Ok(())
    }

    /// The case of this name.
    fn push_set_case(&self, text: &mut Vec<u8>, case: &[u8]) -> Result<(), AllocError>
        ensures { OnOk result (AddsText text.old text.new (set_case_line self.now.name.now case.now)) }
    {
        text.extend_from_slice(b"(SETF (READTABLE-CASE")?;
        self.push_table_name(text)?;
        text.push(b')')?;
        push_keyword(text, case)?;
        text.extend_from_slice(b")\n")?;
        Ok(())
    }

    /// The case, if it is another than in the standard readtable.
    #[tactic(auto, unfolding(crate::specs::Readtables::case_line))]
    fn push_case(&self, text: &mut Vec<u8>, letters: Case) -> Result<(), AllocError>
        ensures { OnOk result (AddsText text.old text.new (case_line self.now.name.now letters)) }
    {
        match letters {
            Case::Upcase => Ok(()),
            Case::Downcase | Case::Preserve | Case::Invert => {
                self.push_set_case(text, letters.name())
            }
        }
    }

    /// All of it.
    fn push_table(&self, text: &mut Vec<u8>, table: &Readtable) -> Result<(), AllocError>
        requires { self.now.standard.now ≡ standard_table }
        ensures { OnOk result (AddsText text.old text.new
            (table_lines self.now.name.now table.now)) }
    {
        text.extend_from_slice(b"(COPY-READTABLE :STANDARD")?;
        self.push_end(text)?;
        self.push_case(text, table.case())?;
        self.push_characters(text, table, 128)?;
        Ok(())
    }
}

/// Whether a macro character ends tokens, as an argument.
fn push_kind(text: &mut Vec<u8>, syntax: Syntax) -> Result<(), AllocError>
    ensures { OnOk result (AddsText text.old text.new (kind_argument syntax)) }
{
    match syntax {
        Syntax::NonTerminatingMacro => text.extend_from_slice(b" T"),
        Syntax::Invalid
        | Syntax::Whitespace
        | Syntax::Constituent
        | Syntax::TerminatingMacro
        | Syntax::SingleEscape
        | Syntax::MultipleEscape => text.extend_from_slice(b" NIL"),
    }
}

/// The function of a sub-character in an entry; None where it has none, or the entry is of no dispatching character.
fn function_at(entry: &CharacterSlot, sub: u8) -> Option<FnName>
    ensures { result ≡ get_or entry.now.dispatch sub None }
{
    let function = entry.dispatch().get(usize::from(sub))?;
    *function
}

/// The entry of a character of a readtable.
fn entry_here(table: &Readtable, c: u8) -> &CharacterSlot
    requires { c < 128 }
    ensures { result.now ≡ entry_at table.now c }
{
    table.soundness();
    &table.entries()[usize::from(c)]
}

/// The readtable of a name; the standard one never changes.
#[tactic(auto, unfolding(crate::specs::Readtables::named_lines))]
fn push_named(
    alloc: Global,
    text: &mut Vec<u8>,
    world: &World,
    standard: &Readtable,
    name: &[u8],
) -> Result<(), AllocError>
    requires { standard.now ≡ standard_table }
    ensures { OnOk result (AddsText text.old text.new (named_lines world.now.0 name.now)) }
{
    if name == STANDARD {
        return Ok(());
    }
    let Some(table) = world.readtable(name) else {
        return Ok(());
    };
    let forms = Forms {
        alloc,
        packages: world.packages(),
        standard,
        name,
    };
    forms.push_table(text, table)
}

fn push_each(
    alloc: Global,
    text: &mut Vec<u8>,
    world: &World,
    standard: &Readtable,
    names: &[Bytes],
) -> Result<(), AllocError>
    requires { standard.now ≡ standard_table }
    ensures { OnOk result (AddsText text.old text.new
        (flat_map (named_lines world.now.0) names.now)) }
{
    for name in names {
        push_named(alloc, text, world, standard, name.as_slice())?;
    }
    Ok(())
}

/// Adds the forms that make the readtables of a world, but for the standard one. After an error, want of memory alone,
/// a part may be added.
#[tactic(auto, unfolding(crate::specs::Readtables::readtable_lines))]
pub(crate) fn push_readtables(
    alloc: Global,
    text: &mut Vec<u8>,
    world: &World,
) -> Result<(), AllocError>
    ensures { OnOk result (AddsText text.old text.new (readtable_lines world.now.0)) }
{
    let standard = Readtable::standard(alloc)?;
    let names = world.readtable_names(alloc)?;
    push_each(alloc, text, world, &standard, names.as_slice())
}
