//! Laws of the definition of reading, as contracts of functions that do nothing.
ghost use Rattle.std.specs.Prelude.{◌≡◌, ◌≤◌, ◌<◌, ◌∷◌, ◌++◌, ◌-◌, true, ℕ, List, Option, IsTrue, length, take, drop};
ghost use Rattle.lisp_object.specs.Object.{Object, object_depth};
ghost use Rattle.lisp_object.specs.declared.refusal.TheConstants.{END_OF_FILE, OUT_OF_PROFILE};
ghost use Rattle.readtable_core.specs.Names.{is_among};
ghost use Rattle.readtable_core.specs.Tables.{Table};
ghost use Rattle.package_table.specs.Table.{Name, Table as Packages, AreSoundPackages};
ghost use Rattle.user_macros.specs.Functions.{Functions, named_among};
ghost use Rattle.lisp_reading.specs.declared.limits.Limits.{Limits};
ghost use Rattle.lisp_reading.specs.declared.way.Keep.{Keep};
ghost use Rattle.lisp_reading.specs.Plans.{GiveSame, loop, run};
ghost use Rattle.lisp_reading.specs.Setting.{Setting, setting_of};
ghost use Rattle.lisp_reading.specs.Gathering.{text_turn, line_turn, block_turn, number_turn};
ghost use Rattle.lisp_reading.specs.Reading.{is_whitespace, form, empty, refused, next_item_turn, next_item, items_turn, items_after, attempt, outcome, reads_at, reads, IsFramed};
ghost use Rattle.lisp_reading.specs.Deciding.{deciding, decided_at, decided_from};
ghost use Rattle.lisp_reading.specs.SamePackages.{FindsSame};
ghost use Rattle.lisp_reading.specs.DiscardedText.{IsDiscardedText};
ghost use Rattle.lisp_reading.specs.Fitting.{IsFitting};

/// A form is read again, alone, from the bytes from its start up to its end. They are one byte or more, and with it at
/// most one more byte is discarded.
pub fn forms_are_framed()
    ensures { (setting : Setting) (text : List ℕ) (x : Object) (start end next : ℕ)
        → reads setting text ≡ form x start end next → IsFramed setting text x start end next }
{}

/// A form that ends before a byte of the text is the same whatever follows the text. So a reader may give it without
/// waiting for more.
pub fn forms_are_decided()
    ensures { (setting : Setting) (text more : List ℕ) (x : Object) (start end next : ℕ)
        → reads setting text ≡ form x start end next → end < length text
        → reads setting (text ++ more) ≡ form x start end next }
{}

/// A form has at most as many bytes as the limit of the text says.
pub fn forms_are_within_the_limit()
    ensures { (setting : Setting) (text : List ℕ) (x : Object) (start end next : ℕ)
        → reads setting text ≡ form x start end next → end - start ≤ setting.limits.text }
{}

/// A text is empty exactly where it is discarded text: whitespace, and calls that give no object, one after the other.
pub fn empty_texts_are_discarded()
    ensures discarded { (setting : Setting) (text : List ℕ)
        → reads setting text ≡ empty → IsDiscardedText setting text }
    ensures empty { (setting : Setting) (text : List ℕ)
        → IsDiscardedText setting text → reads setting text ≡ empty }
{}

/// A refusal is at the end of the text at most, and one before the end is the same whatever follows the text. So a reader
/// may give it as soon as the byte at its offset is there.
pub fn refusals_are_decided()
    ensures inside { (setting : Setting) (text : List ℕ) (number offset : ℕ)
        → reads setting text ≡ refused number offset → offset ≤ length text }
    ensures decided { (setting : Setting) (text more : List ℕ) (number offset : ℕ)
        → reads setting text ≡ refused number offset → offset < length text
        → reads setting (text ++ more) ≡ refused number offset }
{}

/// A form with which a byte more was discarded is read again from its own bytes and this one, whatever follows them; and the
/// byte is whitespace, right after the form.
pub fn spaced_forms_are_framed()
    ensures again { (setting : Setting) (text more : List ℕ) (x : Object) (start end next : ℕ)
        → reads setting text ≡ form x start end next → end < next
        → reads setting (take (next - start) (drop start text) ++ more)
        ≡ form x 0 (end - start) (next - start) }
    ensures space { (setting : Setting) (text : List ℕ) (x : Object) (start end next : ℕ)
        → reads setting text ≡ form x start end next → end < next
        → (c : ℕ) × (rest : List ℕ) × (drop end text ≡ c ∷ rest)
        × (is_whitespace setting.table c ≡ true) }
{}

/// A form that was read in sound packages has a depth of at most 100, and its symbols fit the packages: what the home of a
/// symbol finds by its name, if anything, is this symbol. So the form may be evaluated and stored. Of each form that
/// was read, in any packages and under any limits, the depth is within the nesting.
pub fn forms_fit()
    ensures fit { (setting : Setting) (text : List ℕ) (x : Object) (start end next : ℕ)
        → AreSoundPackages setting.packages → setting.limits.nesting ≤ 100 → setting.limits.token ≤ 4096
        → reads setting text ≡ form x start end next → IsFitting setting.packages x }
    ensures depth { (setting : Setting) (text : List ℕ) (x : Object) (start end next : ℕ)
        → reads setting text ≡ form x start end next → object_depth x ≤ setting.limits.nesting }
{}

/// What is read depends on the packages only through which names are packages, and what each finds and shows by each name.
pub fn only_what_is_found_matters()
    ensures { (setting : Setting) (packages : Packages) (text : List ℕ)
        → FindsSame setting.packages packages
        → reads (record setting { packages = packages }) text ≡ reads setting text }
{}

/// Where the attempt begins that decides a text is, of a form, its start. It goes on attempt by attempt, and no number of turns
/// is in it.
pub fn a_text_is_decided()
    ensures form { (setting : Setting) (text : List ℕ) (x : Object) (start end next : ℕ)
        → reads setting text ≡ form x start end next → decided_from setting text ≡ start }
    ensures goes_on { (setting : Setting) (start : ℕ) (text : List ℕ) → decided_at setting start text
        ≡ deciding start (λ next cs. decided_at setting next cs)
        (run setting.table setting.limits (attempt setting setting.limits.nesting) 0 text) }
{}

/// What is read is what the next byte says, and then what is read after it: before a form, before the next item of a call,
/// among objects, in a text, a line, a block and a number. No number of turns is in it.
pub fn reading_goes_on()
    ensures form { (setting : Setting) (start : ℕ) (text : List ℕ) → reads_at setting start text
        ≡ outcome setting.table start (λ next cs. reads_at setting next cs)
        (run setting.table setting.limits (attempt setting setting.limits.nesting) 0 text) }
    ensures next_item { (setting : Setting) (room : ℕ) (close : Option ℕ)
        → GiveSame setting.table setting.limits (next_item setting close (attempt setting room))
        (next_item_turn setting.table close (attempt setting room)
        (λ u. next_item setting close (attempt setting room)) tt) }
    ensures items { (setting : Setting) (room close : ℕ) (xs : List Object)
        → GiveSame setting.table setting.limits
        (items_after setting close (attempt setting room) xs)
        (items_turn setting close (attempt setting room)
        (items_after setting close (attempt setting room)) xs) }
    ensures text { (setting : Setting) (terminator : ℕ) (text : List ℕ)
        → GiveSame setting.table setting.limits
        (loop setting.limits (text_turn setting.table terminator) text)
        (text_turn setting.table terminator
        (loop setting.limits (text_turn setting.table terminator)) text) }
    ensures line { (setting : Setting) (keep : Keep) (text : List ℕ)
        → GiveSame setting.table setting.limits (loop setting.limits (line_turn keep) text)
        (line_turn keep (loop setting.limits (line_turn keep)) text) }
    ensures block { (setting : Setting) (levels : ℕ × ℕ)
        → GiveSame setting.table setting.limits (loop setting.limits block_turn levels)
        (block_turn (loop setting.limits block_turn) levels) }
    ensures number { (setting : Setting) (number : Option ℕ)
        → GiveSame setting.table setting.limits (loop setting.limits number_turn number)
        (number_turn (loop setting.limits number_turn) number) }
{}

/// A text is refused under a number of reading alone, 1 to 25, whatever the functions of users answer.
pub fn refusals_are_of_reading()
    ensures { (setting : Setting) (text : List ℕ) (number offset : ℕ)
        → reads setting text ≡ refused number offset
        → (END_OF_FILE ≤ number) × (number ≤ OUT_OF_PROFILE) }
{}

/// What is read depends on the registered functions only through their names: where two registries have the same names, the
/// setting is the same. So where each function of a meaning is registered, a text is read under all its names.
pub fn only_registered_names_matter()
    ensures { (limits : Limits) (table : Table) (base : ℕ) (packages : Packages) (current : Name)
        (functions : Functions) (names : List (List ℕ))
        → ((name : List ℕ) → IsTrue (is_among functions.names name) → IsTrue (is_among names name))
        → ((name : List ℕ) → IsTrue (is_among names name) → IsTrue (is_among functions.names name))
        → setting_of limits table base packages current (named_among names functions)
        ≡ setting_of limits table base packages current functions }
{}
