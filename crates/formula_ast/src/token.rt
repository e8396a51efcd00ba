/// What a token is.
#[derive(Clone, Copy, Debug, PartialEq, Eq, Drop)]
pub enum TokenKind {
    /// A word that begins with a small letter, other than a reserved one.
    Name,
    /// A word that begins with a capital letter.
    Variable,
    /// Digits.
    Number,
    /// `$` and digits.
    Further,
    Symbol,
    Pred,
    Solve,
    Exists,
    Forall,
    Finite,
    Win,
    True,
    False,
    LeftParen,
    RightParen,
    Comma,
    Stop,
    Slash,
    Amp,
    Bar,
    Tilde,
    Equal,
    Differ,
    Colon,
    Define,
    Arrow,
    DoubleArrow,
}

/// A token: its kind, the offset of its first byte, and the offset behind its last byte.
#[derive(Clone, Copy, Debug, PartialEq, Eq, Drop)]
pub struct Token {
    pub kind: TokenKind,
    pub from: usize,
    pub to: usize,
}
