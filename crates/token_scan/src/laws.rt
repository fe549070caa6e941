//! What holds of every token.
ghost use Rattle.std.specs.Prelude.{◌≡◌, ◌≤◌, ◌<◌, ◌+◌, ◌++◌, ℕ, List, length, false, Ok, IfOk, IsTrue, MatchResult};
ghost use Rattle.readtable_core.specs.Tables.{Table};
ghost use Rattle.token_scan.specs.declared.mark.Mark.{Mark};
ghost use Rattle.token_scan.specs.declared.stage.Stage.TheVariants.{Outside};
ghost use Rattle.token_scan.specs.Tokens.{TypedByte, token, token_in, escaped_token, escaped_token_in};
ghost use Rattle.token_scan.specs.Marks.{character_count, are_ascii};
ghost use Rattle.token_scan.specs.Spelling.{Spells, SpellsEscaped, Splits, IsSpelledAt, may_end};
ghost use Rattle.token_scan.specs.ByteByByte.{Scan, has_begun, token_from};

/// What holds of every token (standard 2.2). A text that gives a token splits into the bytes that spell its marks, in
/// whole, and the rest, which is empty or begins with a byte that ends a token; and each such text gives that token. Under
/// a readtable the bytes taken give the same token by themselves and before each byte that ends one. The characters are
/// below 128. No offset that a token gives is before its first byte. A token that has begun has a mark where it may end. For
/// proofs: it does nothing.
pub fn token_laws()
    ensures splits { (limit at : ℕ) (text : List TypedByte) →
        IfOk (token limit at text) (λ t. Splits (Spells false) limit at text t.0 t.1 t.2) }
    ensures whole { (limit at : ℕ) (taken rest : List TypedByte) (marks : List Mark) →
        Spells false taken marks → character_count marks ≤ limit → IsTrue (may_end rest)
        → token limit at (taken ++ rest) ≡ Ok (marks, at + length taken, rest) }
    ensures stands { (table : Table) (limit at : ℕ) (text : List ℕ) →
        IfOk (token_in table limit at text) (λ t. IsSpelledAt table (token_in table limit at) at text t.0 t.1 t.2) }
    ensures ascii { (limit at : ℕ) (text : List TypedByte) →
        IfOk (token limit at text) (λ t. IsTrue (are_ascii t.0)) }
    ensures forwards { (scan : Scan) (at : ℕ) (text : List TypedByte) →
        MatchResult (token_from scan at text) (λ t. at ≤ t.1) (λ e. at ≤ e.at) }
    ensures begun { (scan : Scan) → IsTrue (has_begun scan) → scan.stage ≡ Outside
        → 0 < length scan.marks }
{}

/// The same of a token whose first character is taken as an escaped one, as that of a character's name is (standard
/// 2.4.8.1). For proofs: it does nothing.
pub fn escaped_token_laws()
    ensures splits { (limit at : ℕ) (text : List TypedByte) →
        IfOk (escaped_token limit at text) (λ t. Splits SpellsEscaped limit at text t.0 t.1 t.2) }
    ensures whole { (limit at : ℕ) (taken rest : List TypedByte) (marks : List Mark) →
        SpellsEscaped taken marks → character_count marks ≤ limit → IsTrue (may_end rest)
        → escaped_token limit at (taken ++ rest) ≡ Ok (marks, at + length taken, rest) }
    ensures stands { (table : Table) (limit at : ℕ) (text : List ℕ) →
        IfOk (escaped_token_in table limit at text)
        (λ t. IsSpelledAt table (escaped_token_in table limit at) at text t.0 t.1 t.2) }
    ensures ascii { (limit at : ℕ) (text : List TypedByte) →
        IfOk (escaped_token limit at text) (λ t. IsTrue (are_ascii t.0)) }
{}
