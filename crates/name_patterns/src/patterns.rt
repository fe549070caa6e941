//! Names that are like a pattern with stars.
ghost use Rattle.std.specs.List.{position};
ghost use Rattle.std.specs.Option.{option_map_or};
ghost use Rattle.std.specs.Prelude.{◌≡◌, ◌<◌, ◌-◌, ◌∷◌, [], ℕ, List, MatchOption, IfSome, Some, None, drop, false, if◌then◌else◌, length, option_map};
ghost use Rattle.std.specs.Str.{str_eq_ignore_ascii_case};
ghost use Rattle.name_patterns.specs.Pattern.{begins_with, matches_pieces, is_like, is_star, pieces, some_end};

/// Whether a name is like a pattern: in upper or lower case, each star of the pattern for any text, also for none.
pub fn is_like(pattern: &[u8], name: &[u8]) -> bool
    ensures { result ≡ is_like pattern.now name.now }
{
    let Some((front, rest)) = cut_at_star(pattern) else {
        return is_same(name, pattern);
    };
    match after_front(front, name) {
        Some(text) => some_end_is_like(rest, text),
        None => false,
    }
}

// Whether some end of a text is like a pattern. Each piece is taken where it first stands: what follows it there is longest.
fn some_end_is_like(pattern: &[u8], text: &[u8]) -> bool
    ensures { result ≡ some_end (matches_pieces (pieces pattern.now)) text.now }
{
    let mut left = pattern;
    let mut rest = text;
    while let Some((piece, others)) = cut_at_star(left) {
        let Some(after) = after_first(piece, rest) else {
            return false;
        };
        left = others;
        rest = after;
    }
    ends_with(left, rest)
}

// The first piece of a pattern and what stands behind its star, if it has one.
fn cut_at_star(pattern: &[u8]) -> Option<(&[u8], &[u8])>
    ensures { MatchOption result (pieces pattern.now ≡ pattern.now ∷ [])
        (λ cut. (pieces pattern.now ≡ cut.0.now ∷ pieces cut.1.now) × (length cut.1.now < length pattern.now)) }
{
    match first_star(pattern) {
        Some(at) => Some((&pattern[..at], &pattern[at + 1..])),
        None => None,
    }
}

fn first_star(pattern: &[u8]) -> Option<usize>
    ensures value { result ≡ position is_star pattern.now }
    ensures within { IfSome result (λ at. at < length pattern.now) }
{
    pattern.iter().position(|byte| *byte == b'*')
}

// What follows a part where it first stands in a text.
fn after_first<'a>(part: &[u8], text: &'a [u8]) -> Option<&'a [u8]>
    ensures { (others : List ℕ) → some_end (matches_pieces (part.now ∷ pieces others)) text.now
        ≡ option_map_or (λ rest. some_end (matches_pieces (pieces others)) rest.now) result false }
{
    let mut rest = text;
    while !begins_with(part, rest) {
        let [_, after @ ..] = rest else {
            return None;
        };
        rest = after;
    }
    after_front(part, rest)
}

// What follows a part with which a text begins.
fn after_front<'a>(part: &[u8], text: &'a [u8]) -> Option<&'a [u8]>
    ensures { option_map (λ rest. rest.now) result
        ≡ (if begins_with part.now text.now then Some (drop (length part.now) text.now) else None) }
{
    if begins_with(part, text) {
        Some(&text[part.len()..])
    } else {
        None
    }
}

// Whether a text begins with a part, in upper or lower case.
fn begins_with(part: &[u8], text: &[u8]) -> bool
    ensures { result ≡ begins_with part.now text.now }
{
    let front = &text[..part.len().min(text.len())];
    front.eq_ignore_ascii_case(part)
}

// Whether a text ends with a part, in upper or lower case.
fn ends_with(part: &[u8], text: &[u8]) -> bool
    ensures { result ≡ some_end (matches_pieces (part.now ∷ [])) text.now }
{
    is_same(end_of(text, part.len()), part)
}

// The last so many bytes of a text, or all of it.
fn end_of(text: &[u8], count: usize) -> &[u8]
    ensures { result.now ≡ drop (length text.now - count) text.now }
{
    &text[text.len().saturating_sub(count)..]
}

// Whether a text is another one, in upper or lower case.
fn is_same(text: &[u8], other: &[u8]) -> bool
    ensures { result ≡ str_eq_ignore_ascii_case text.now other.now }
{
    text.eq_ignore_ascii_case(other)
}
