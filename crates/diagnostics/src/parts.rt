// Where the part stands that is told of a refused form.

/// What stands before the name of an operator that is not known.
const OPERATOR: &[u8] = b"no operator ";

/// What is read of a form, as the standard readtable reads it.
#[derive(Clone, Copy, Debug, PartialEq, Eq)]
enum PartReading {
    Plain,
    Comment,
    Text,
    Bars,
    /// After an escape.
    Escaped,
    /// After one within a text.
    EscapedText,
}

/// A walk through the text of a form, in which a name is sought.
#[derive(Clone, Copy)]
struct Walk<'a> {
    form: &'a [u8],
    name: &'a [u8],
    // whether the name is the first of a list
    is_operator: bool,
    reading: PartReading,
    // where the token begins that is open
    token: Option<usize>,
    // whether the next token is the first of a list, and whether it is quoted
    is_first: bool,
    is_quoted: bool,
    // where the name was found, and how often
    found: usize,
    count: usize,
}

/// How many bytes of a form come before the name of the part that a text tells of, if the name stands there once: the operator of a list, or a
/// token that is none.
pub(crate) fn place_of_part(form: &[u8], text: &[u8]) -> Option<usize> {
    let (name, is_operator) = name_in(text)?;
    let mut walk = Walk {
        form,
        name,
        is_operator,
        reading: PartReading::Plain,
        token: None,
        is_first: false,
        is_quoted: false,
        found: 0,
        count: 0,
    };
    'bytes: for (at, byte) in form.iter().enumerate() {
        walk.step(at, *byte);
    }
    walk.end_token(form.len());
    if walk.count == 1 {
        Some(walk.found)
    } else {
        None
    }
}

// The name that is told in a text, and whether it is that of an operator.
fn name_in(text: &[u8]) -> Option<(&[u8], bool)> {
    if let Some(rest) = text.strip_prefix(OPERATOR) {
        return Some((operator_in(rest), true));
    }
    let colon = text.iter().position(|byte| *byte == b':')?;
    match text.get(colon..)? {
        [_, b' ', b'(', rest @ ..] => Some((token_in(rest), true)),
        [_, b' ', rest @ ..] => Some((token_in(rest), false)),
        _ => None,
    }
}

/// How many bytes of a text name the part: what stands behind an operator tells how it becomes known, or which one may have been meant.
pub(crate) fn length_of_name(text: &[u8]) -> usize {
    match text.strip_prefix(OPERATOR) {
        Some(rest) => OPERATOR.len().saturating_add(operator_in(rest).len()),
        None => text.len(),
    }
}

// The operator that a text begins with, behind which a colon may stand.
fn operator_in(text: &[u8]) -> &[u8] {
    match token_in(text) {
        [name @ .., b':'] => name,
        name => name,
    }
}

// The front of a text up to what ends a token there.
fn token_in(text: &[u8]) -> &[u8] {
    let end = match text.iter().position(|byte| ends_name(*byte)) {
        Some(end) => end,
        None => text.len(),
    };
    match text.get(..end) {
        Some(front) => front,
        None => text,
    }
}

// Whether a name that is written ends before this byte.
fn ends_name(byte: u8) -> bool {
    byte == b' ' || byte == b')' || byte == b';' || byte == b'('
}

impl Walk<'_> {
    // Takes note of a byte.
    fn step(&mut self, at: usize, byte: u8) {
        self.reading = match (self.reading, byte) {
            (PartReading::Plain, _) => self.step_plainly(at, byte),
            (PartReading::Comment, b'\n') => PartReading::Plain,
            (PartReading::Text, b'"') => PartReading::Plain,
            (PartReading::Text, b'\\') => PartReading::EscapedText,
            (PartReading::EscapedText, _) => PartReading::Text,
            (PartReading::Bars, b'|') => PartReading::Plain,
            (PartReading::Escaped, _) => PartReading::Plain,
            (reading, _) => reading,
        };
    }

    // Takes note of a byte that is in no comment and in no text, and tells how to go on.
    fn step_plainly(&mut self, at: usize, byte: u8) -> PartReading {
        match byte {
            b' ' | b'\t' | b'\r' | b'\n' => self.end_token(at),
            b'(' | b')' | b'"' | b'\'' => self.delimit(at, byte),
            b';' => {
                self.end_token(at);
                return PartReading::Comment;
            }
            _ => self.begin_token(at),
        }
        match byte {
            b'"' => PartReading::Text,
            b'|' => PartReading::Bars,
            b'\\' => PartReading::Escaped,
            _ => PartReading::Plain,
        }
    }

    // A byte that ends a token and stands for itself.
    fn delimit(&mut self, at: usize, byte: u8) {
        self.end_token(at);
        self.is_first = byte == b'(';
        self.is_quoted = byte == b'\'';
    }

    // A token is open from here on, if none is.
    fn begin_token(&mut self, at: usize) {
        if self.token.is_none() {
            self.token = Some(at);
        }
    }

    // Whether the name stands between two places.
    fn is_name(&self, begin: usize, end: usize) -> bool {
        match self.form.get(begin..end) {
            Some(token) => token.eq_ignore_ascii_case(self.name),
            None => false,
        }
    }

    // Looks at the token that ends, if one is open.
    fn end_token(&mut self, at: usize) {
        let Some(begin) = self.token else {
            return;
        };
        let is_meant = if self.is_operator {
            self.is_first
        } else {
            !self.is_first && !self.is_quoted
        };
        if is_meant && self.is_name(begin, at) {
            self.found = begin;
            self.count = self.count.saturating_add(1);
        }
        self.token = None;
        self.is_first = false;
        self.is_quoted = false;
    }
}
