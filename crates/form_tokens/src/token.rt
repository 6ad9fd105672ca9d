use field_text::Text;

/// A token of an expression.
#[derive(Debug, Drop)]
pub enum Token {
    /// One to 15 digits.
    Digits(i64),
    /// What stands between two quotes of one kind.
    Quoted(Text),
    /// `/a/b` or `/a/b/@c`, as it is written.
    Absolute(Text),
    /// `../a/b`, as it is written.
    Relative(Text),
    Name(Text),
    Dot,
    Open,
    Close,
    OpenBracket,
    CloseBracket,
    Comma,
    Equal,
    NotEqual,
    Less,
    LessEqual,
    Greater,
    GreaterEqual,
    Plus,
    Minus,
    Star,
}
