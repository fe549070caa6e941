//! Laws of readers, as contracts of functions that do nothing.
ghost use Rattle.std.specs.Prelude.{◌≡◌, ◌≤◌, ◌++◌, ℕ, List, length};
ghost use Rattle.lisp_object.specs.Object.{Object};
ghost use Rattle.form_reader.specs.declared.reader.FormReader.{FormReader};
ghost use Rattle.form_reader.specs.declared.reader.Advance.TheVariants.{More};
ghost use Rattle.form_reader.specs.Reader.{IsAfterBytes, IsBetweenForms, Steps};
ghost use Rattle.lisp_reading.specs.Setting.{Setting};
ghost use Rattle.lisp_reading.specs.Reading.{ReadingResult, form, empty, outcome, reads_at, reads};

/// Where a step answers `More`, no outcome is that of every text that begins with the bytes it was fed: a form, and a
/// refusal, was answered as soon as the bytes were there that decide it.
pub fn what_is_decided_is_answered()
    ensures { (setting : Setting) (reader : FormReader) (bytes : List ℕ) (o : ReadingResult)
        → Steps setting reader bytes More → ((more : List ℕ) → reads setting (bytes ++ more) ≡ o) → ⊥ }
{}

/// The bytes before a reader that is between forms are discarded text, and the text after them is read as a text that begins
/// there.
pub fn texts_begin_between_forms()
    ensures discarded { (setting : Setting) (reader : FormReader) (bytes : List ℕ)
        → IsAfterBytes setting reader bytes → IsBetweenForms reader → reads setting bytes ≡ empty }
    ensures begins { (setting : Setting) (reader : FormReader) (bytes more : List ℕ)
        → IsAfterBytes setting reader bytes → IsBetweenForms reader
        → reads setting (bytes ++ more) ≡ reads_at setting (length bytes) more }
{}

/// A form that is read under a limit of the text is read under each larger one, as the same object at the same offsets,
/// whatever was discarded before it. So what was accepted stays accepted where the limit grows.
pub fn wider_limits()
    ensures { (setting : Setting) (text : List ℕ) (most : ℕ) (x : Object) (start end next : ℕ)
        → setting.limits.text ≤ most
        → reads setting text ≡ form x start end next
        → reads (record setting { limits = record setting.limits { text = most } }) text
        ≡ form x start end next }
{}
