// What a line at a terminal asks for that is no form of a store.
use std::io::Write;

/// Where the prompts of a terminal go, which may know what the pages say.
pub trait Prompts: Write {
    /// Writes what the pages say of an operator or of the number of a refusal, and tells whether they were at hand.
    fn write_page(&mut self, word: &[u8]) -> bool;
}

/// What a line asks for.
#[derive(Clone, Copy)]
pub enum Wish<'a> {
    Nothing,
    Help,
    /// What the pages say of this word.
    Page(&'a [u8]),
    Leaving,
}

/// What a line asks for, be it words or a form of them.
pub fn wish_of(line: &[u8]) -> Wish<'_> {
    let words = without_blanks(line);
    let words = match words {
        [b'(', inner @ .., b')'] => without_blanks(inner),
        _ => words,
    };
    let (first, rest) = first_word(words);
    if is_one_of(first, &LEAVE) && rest.is_empty() {
        return Wish::Leaving;
    }
    if !is_one_of(first, &HELP) {
        return Wish::Nothing;
    }
    match plain_word(rest) {
        [] => Wish::Help,
        word if word.iter().all(|byte| byte.is_ascii_graphic()) => Wish::Page(word),
        _ => Wish::Nothing,
    }
}

/// Words that ask for help.
const HELP: [&[u8]; 4] = [b"help", b":help", b"?", b"describe"];

/// Words that would leave.
const LEAVE: [&[u8]; 4] = [b"quit", b"exit", b":quit", b":exit"];

// Whether a word is one of these, in upper or lower case.
fn is_one_of(word: &[u8], words: &[&[u8]]) -> bool {
    for known in words {
        if word.eq_ignore_ascii_case(*known) {
            return true;
        }
    }
    false
}

// The first word, and what comes after it.
fn first_word(words: &[u8]) -> (&[u8], &[u8]) {
    let end = match words.iter().position(|byte| *byte == b' ') {
        Some(end) => end,
        None => words.len(),
    };
    match words.split_at_checked(end) {
        Some((first, rest)) => (first, without_blanks(rest)),
        None => (words, b"".as_slice()),
    }
}

// A word without a quote before it, and without the package of operators.
fn plain_word(word: &[u8]) -> &[u8] {
    let word = match word {
        [b'"', inner @ .., b'"'] => inner,
        [b'\'', inner @ ..] => inner,
        _ => word,
    };
    match word.split_at_checked(OWN.len()) {
        Some((package, name)) if package.eq_ignore_ascii_case(OWN) => name,
        _ => word,
    }
}

/// The package of operators, before a name.
const OWN: &[u8] = b"PAZTURROK::";

// A text without blanks round it.
fn without_blanks(text: &[u8]) -> &[u8] {
    text.trim_ascii()
}
