//! Tokens of one fixed spelling.

ghost use Rattle.std.specs.Prelude.{◌≡◌, ◌↔◌, ◌==◌, IsTrue, length, filter};
ghost use Rattle.sql_lex.specs.Terminal as spec;

/// A token of one fixed spelling: a word of the grammar, in letters of either case, or a sign.
#[derive(Clone, Copy, Debug, PartialEq, Eq)]
pub enum Terminal {
    Create,
    Table,
    Primary,
    Key,
    Not,
    Null,
    SmallInt,
    Integer,
    Int,
    BigInt,
    VarChar,
    VarBinary,
    Insert,
    Into,
    Values,
    Update,
    Set,
    Where,
    Delete,
    From,
    Select,
    Or,
    And,
    Is,
    /// `(`
    Open,
    /// `)`
    Close,
    /// `,`
    Comma,
    /// `*`
    Star,
    /// `+`
    Plus,
}

/// The words of the grammar that have so many bytes. None of them can be a name.
#[tactic(auto, unfolding(crate::specs::Terminal::words))]
pub(crate) fn words_of(bytes: usize) -> &'static [Terminal]
    ensures { result.now ≡ filter (λ w. length (spec.spelling w) == bytes) spec.words }
{
    match bytes {
        2 => &[Terminal::Or, Terminal::Is],
        3 => &[
            Terminal::Key,
            Terminal::Not,
            Terminal::Int,
            Terminal::Set,
            Terminal::And,
        ],
        4 => &[Terminal::Null, Terminal::Into, Terminal::From],
        5 => &[Terminal::Table, Terminal::Where],
        6 => &[
            Terminal::Create,
            Terminal::BigInt,
            Terminal::Insert,
            Terminal::Values,
            Terminal::Update,
            Terminal::Delete,
            Terminal::Select,
        ],
        7 => &[Terminal::Primary, Terminal::Integer, Terminal::VarChar],
        8 => &[Terminal::SmallInt],
        9 => &[Terminal::VarBinary],
        _ => &[],
    }
}

impl Terminal {
    /// The token's bytes, letters as capitals.
    pub fn spelling(self) -> &'static [u8]
        ensures { result.now ≡ spec.spelling self }
    {
        match self {
            Terminal::Create => b"CREATE",
            Terminal::Table => b"TABLE",
            Terminal::Primary => b"PRIMARY",
            Terminal::Key => b"KEY",
            Terminal::Not => b"NOT",
            Terminal::Null => b"NULL",
            Terminal::SmallInt => b"SMALLINT",
            Terminal::Integer => b"INTEGER",
            Terminal::Int => b"INT",
            Terminal::BigInt => b"BIGINT",
            Terminal::VarChar => b"VARCHAR",
            Terminal::VarBinary => b"VARBINARY",
            Terminal::Insert => b"INSERT",
            Terminal::Into => b"INTO",
            Terminal::Values => b"VALUES",
            Terminal::Update => b"UPDATE",
            Terminal::Set => b"SET",
            Terminal::Where => b"WHERE",
            Terminal::Delete => b"DELETE",
            Terminal::From => b"FROM",
            Terminal::Select => b"SELECT",
            Terminal::Or => b"OR",
            Terminal::And => b"AND",
            Terminal::Is => b"IS",
            Terminal::Open => b"(",
            Terminal::Close => b")",
            Terminal::Comma => b",",
            Terminal::Star => b"*",
            Terminal::Plus => b"+",
        }
    }

    fn number(self) -> u8
        ensures { result ≡ spec.number self }
    {
        match self {
            Terminal::Create => 0,
            Terminal::Table => 1,
            Terminal::Primary => 2,
            Terminal::Key => 3,
            Terminal::Not => 4,
            Terminal::Null => 5,
            Terminal::SmallInt => 6,
            Terminal::Integer => 7,
            Terminal::Int => 8,
            Terminal::BigInt => 9,
            Terminal::VarChar => 10,
            Terminal::VarBinary => 11,
            Terminal::Insert => 12,
            Terminal::Into => 13,
            Terminal::Values => 14,
            Terminal::Update => 15,
            Terminal::Set => 16,
            Terminal::Where => 17,
            Terminal::Delete => 18,
            Terminal::From => 19,
            Terminal::Select => 20,
            Terminal::Or => 21,
            Terminal::And => 22,
            Terminal::Is => 23,
            Terminal::Open => 24,
            Terminal::Close => 25,
            Terminal::Comma => 26,
            Terminal::Star => 27,
            Terminal::Plus => 28,
        }
    }

    /// Whether the two are the same token.
    #[tactic(auto, unfolding(crate::specs::Terminal::is_same))]
    pub fn is(self, other: Terminal) -> bool
        ensures number { result ≡ spec.is_same self other }
        ensures same { IsTrue result ↔ (self ≡ other) }
    {
        self.number() == other.number()
    }
}
