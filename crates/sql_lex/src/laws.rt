//! What the tokens of a text are known for.

ghost use Rattle.std.specs.Prelude.{ℕ, List};
ghost use Rattle.std.specs.Str.{IsUtf8};
ghost use Rattle.sql_lex.specs.Markers.{AreNumbered};
ghost use Rattle.sql_lex.specs.Spelling.{AllSpelled, AllReadable};
ghost use Rattle.sql_lex.specs.Stands.{AllStand, LieApart};
ghost use Rattle.sql_lex.specs.Tokens.{tokens};

/// Each name, number, text and bytes that a token has is the slice of the text at its place.
pub fn parts_stand_in_the_text()
    ensures { (text : List ℕ) → AllStand text (tokens text) }
{}

/// The tokens of a text lie in it one behind the other, and their parts do not overlap.
pub fn tokens_lie_apart()
    ensures { (text : List ℕ) → LieApart text (tokens text) }
{}

/// At its place each token is spelled as plain words say, and takes all bytes that go on with it.
pub fn tokens_are_spelled_so()
    ensures { (text : List ℕ) → AllSpelled text (tokens text) }
{}

/// What stands between the quotes of a text is UTF-8, as the text around it is.
pub fn texts_are_utf8()
    ensures { (text : List ℕ) → IsUtf8 text → AllReadable (tokens text) }
{}

/// Markers are numbered from 0 in the order of the text.
pub fn markers_are_numbered()
    ensures { (text : List ℕ) → AreNumbered 0 (tokens text) }
{}
