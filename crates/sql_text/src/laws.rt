//! What the grammar, and what its parts stand for, are known for.

ghost use Rattle.std.specs.Prelude.{◌≡◌, ◌↔◌, ◌≤◌, ◌<◌, ◌^◌, ℕ, List, ◌∷◌, length, true, FitsSigned};
ghost use Rattle.std.specs.Fmt.{signed_decimal};
ghost use Rattle.std.specs.Int.{w64};
ghost use Rattle.std.specs.List.{All};
ghost use Rattle.sql_lex.specs.Spelling.{ArePairs, doubled};
ghost use Rattle.sql_lex.specs.Tokens.{tokens};
ghost use Rattle.sql_text.specs.Checks.{same_name};
ghost use Rattle.sql_text.specs.Grammar.{IsStatement, Tree};
ghost use Rattle.sql_text.specs.Number.{number_of};
ghost use Rattle.sql_text.specs.Spelled.{capitals, number_value, IsPlain, undoubled, bytes_of_pairs, pairs_of};
ghost use Rattle.sql_text.specs.Valid.{IsBigInt};

/// One text is one statement at most.
pub fn one_statement()
    ensures { (text : List ℕ) (c d : Tree) → length text ≤ 32767 → IsStatement c (tokens text) → IsStatement d (tokens text) → c ≡ d }
{}

/// Two names are the same where their capitals are; capitals have themselves as capitals.
pub fn names_are_compared_as_capitals()
    ensures same { (a b : List ℕ) → (same_name a b ≡ true) ↔ (capitals a ≡ capitals b) }
    ensures once { (a : List ℕ) → capitals (capitals a) ≡ capitals a }
{}

/// A text with each quote doubled stands for that text.
pub fn doubled_quotes_are_undone()
    ensures { (text : List ℕ) → undoubled (doubled text) ≡ text }
{}

/// Pairs of hexadecimal digits stand for bytes, which written in capitals are these pairs.
pub fn pairs_stand_for_bytes()
    ensures bytes { (text : List ℕ) → ArePairs text → All (λ b. b < 256) (bytes_of_pairs text) }
    ensures written { (text : List ℕ) → ArePairs text → pairs_of (bytes_of_pairs text) ≡ capitals text }
{}

/// Digits stand for the number that is written so, zeros before them count for nothing, and a `-`
/// stands for its opposite. A number of a statement lies in BIGINT.
pub fn digits_stand_for_numbers()
    ensures zeros { (text : List ℕ) → number_of (48 ∷ text) ≡ number_of text }
    ensures written { (text : List ℕ) → IsPlain text → number_of text < 2 ^ 64 → signed_decimal (number_value text) ≡ text }
    ensures negative { (text : List ℕ) → IsPlain text → 0 < number_of text → number_of text < 2 ^ 64 → signed_decimal (number_value (45 ∷ text)) ≡ 45 ∷ text }
    ensures fits { (text : List ℕ) → IsBigInt text → FitsSigned w64 (number_value text) }
{}
