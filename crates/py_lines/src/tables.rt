// The keywords and signs. The number of each is its position among the variants.
ghost use Rattle.std.specs.Prelude.{◌≡◌, option_map, position};
ghost use Rattle.std.specs.Str.{bytes_eq};
ghost use Rattle.py_lines.specs.Tables as spec;

/// A keyword (The Python Language Reference 3, section 2.3.1).
#[derive(Clone, Copy)]
pub enum Keyword {
    False,
    None,
    True,
    And,
    As,
    Assert,
    Async,
    Await,
    Break,
    Class,
    Continue,
    Def,
    Del,
    Elif,
    Else,
    Except,
    Finally,
    For,
    From,
    Global,
    If,
    Import,
    In,
    Is,
    Lambda,
    Nonlocal,
    Not,
    Or,
    Pass,
    Raise,
    Return,
    Try,
    While,
    With,
    Yield,
}

/// A sign: first those of the language, then those that it refuses, then the refused ones with `=`.
#[derive(Clone, Copy)]
pub enum Sign {
    /// `(`
    OpenRound,
    /// `)`
    CloseRound,
    /// `[`
    OpenSquare,
    /// `]`
    CloseSquare,
    /// `{`
    OpenCurly,
    /// `}`
    CloseCurly,
    /// `,`
    Comma,
    /// `:`
    Colon,
    /// `.`
    Dot,
    /// `=`
    Assign,
    /// `+`
    Plus,
    /// `-`
    Minus,
    /// `*`
    Star,
    /// `//`
    FloorDivide,
    /// `%`
    Percent,
    /// `==`
    Equal,
    /// `!=`
    NotEqual,
    /// `<`
    Less,
    /// `<=`
    LessEqual,
    /// `>`
    Greater,
    /// `>=`
    GreaterEqual,
    /// `+=`
    PlusAssign,
    /// `-=`
    MinusAssign,
    /// `*=`
    StarAssign,
    /// `//=`
    FloorDivideAssign,
    /// `%=`
    PercentAssign,
    /// `;`
    Semicolon,
    /// `@`
    At,
    /// `/`
    Slash,
    /// `**`
    Power,
    /// `&`
    And,
    /// `|`
    Or,
    /// `^`
    Xor,
    /// `~`
    Tilde,
    /// `<<`
    ShiftLeft,
    /// `>>`
    ShiftRight,
    /// `:=`
    Walrus,
    /// `->`
    Arrow,
    /// `;=`
    SemicolonAssign,
    /// `@=`
    AtAssign,
    /// `/=`
    SlashAssign,
    /// `**=`
    PowerAssign,
    /// `&=`
    AndAssign,
    /// `|=`
    OrAssign,
    /// `^=`
    XorAssign,
    /// `~=`
    TildeAssign,
    /// `<<=`
    ShiftLeftAssign,
    /// `>>=`
    ShiftRightAssign,
    /// `:==`
    WalrusAssign,
    /// `->=`
    ArrowAssign,
}

/// What the keywords are spelled, in the order of their numbers.
const KEYWORD_TEXTS: [&[u8]; 35] = [
    b"False",
    b"None",
    b"True",
    b"and",
    b"as",
    b"assert",
    b"async",
    b"await",
    b"break",
    b"class",
    b"continue",
    b"def",
    b"del",
    b"elif",
    b"else",
    b"except",
    b"finally",
    b"for",
    b"from",
    b"global",
    b"if",
    b"import",
    b"in",
    b"is",
    b"lambda",
    b"nonlocal",
    b"not",
    b"or",
    b"pass",
    b"raise",
    b"return",
    b"try",
    b"while",
    b"with",
    b"yield",
];

const KEYWORDS: [Keyword; 35] = [
    Keyword::False,
    Keyword::None,
    Keyword::True,
    Keyword::And,
    Keyword::As,
    Keyword::Assert,
    Keyword::Async,
    Keyword::Await,
    Keyword::Break,
    Keyword::Class,
    Keyword::Continue,
    Keyword::Def,
    Keyword::Del,
    Keyword::Elif,
    Keyword::Else,
    Keyword::Except,
    Keyword::Finally,
    Keyword::For,
    Keyword::From,
    Keyword::Global,
    Keyword::If,
    Keyword::Import,
    Keyword::In,
    Keyword::Is,
    Keyword::Lambda,
    Keyword::Nonlocal,
    Keyword::Not,
    Keyword::Or,
    Keyword::Pass,
    Keyword::Raise,
    Keyword::Return,
    Keyword::Try,
    Keyword::While,
    Keyword::With,
    Keyword::Yield,
];

/// What the signs are spelled, in the order of their numbers.
const SIGN_TEXTS: [&[u8]; 50] = [
    b"(", b")", b"[", b"]", b"{", b"}", b",", b":", b".", b"=", b"+", b"-", b"*", b"//", b"%",
    b"==", b"!=", b"<", b"<=", b">", b">=", b"+=", b"-=", b"*=", b"//=", b"%=", b";", b"@", b"/",
    b"**", b"&", b"|", b"^", b"~", b"<<", b">>", b":=", b"->", b";=", b"@=", b"/=", b"**=", b"&=",
    b"|=", b"^=", b"~=", b"<<=", b">>=", b":==", b"->=",
];

const SIGNS: [Sign; 50] = [
    Sign::OpenRound,
    Sign::CloseRound,
    Sign::OpenSquare,
    Sign::CloseSquare,
    Sign::OpenCurly,
    Sign::CloseCurly,
    Sign::Comma,
    Sign::Colon,
    Sign::Dot,
    Sign::Assign,
    Sign::Plus,
    Sign::Minus,
    Sign::Star,
    Sign::FloorDivide,
    Sign::Percent,
    Sign::Equal,
    Sign::NotEqual,
    Sign::Less,
    Sign::LessEqual,
    Sign::Greater,
    Sign::GreaterEqual,
    Sign::PlusAssign,
    Sign::MinusAssign,
    Sign::StarAssign,
    Sign::FloorDivideAssign,
    Sign::PercentAssign,
    Sign::Semicolon,
    Sign::At,
    Sign::Slash,
    Sign::Power,
    Sign::And,
    Sign::Or,
    Sign::Xor,
    Sign::Tilde,
    Sign::ShiftLeft,
    Sign::ShiftRight,
    Sign::Walrus,
    Sign::Arrow,
    Sign::SemicolonAssign,
    Sign::AtAssign,
    Sign::SlashAssign,
    Sign::PowerAssign,
    Sign::AndAssign,
    Sign::OrAssign,
    Sign::XorAssign,
    Sign::TildeAssign,
    Sign::ShiftLeftAssign,
    Sign::ShiftRightAssign,
    Sign::WalrusAssign,
    Sign::ArrowAssign,
];

fn position_of(bytes: &[u8], table: &[&[u8]]) -> Option<usize>
    ensures { result ≡ position (λ other. bytes_eq other.now bytes.now) table.now }
{
    table.iter().position(|other| *other == bytes)
}

/// The keyword that the word is, if it is one.
pub fn find_keyword(word: &[u8]) -> Option<Keyword>
    ensures { result ≡ option_map spec.keyword_at (spec.keyword_number word.now) }
{
    let place = position_of(word, &KEYWORD_TEXTS)?;
    Some(KEYWORDS[place])
}

/// The sign that the bytes are, if they are one.
pub fn find_sign(bytes: &[u8]) -> Option<Sign>
    ensures { result ≡ option_map spec.sign_at (spec.sign_number bytes.now) }
{
    let place = position_of(bytes, &SIGN_TEXTS)?;
    Some(SIGNS[place])
}

/// The keyword's number.
pub fn number_of_keyword(keyword: Keyword) -> u8
    ensures { result ≡ spec.keyword_index keyword }
{
    keyword as u8
}

/// The sign's number.
pub fn number_of_sign(sign: Sign) -> u8
    ensures { result ≡ spec.sign_index sign }
{
    sign as u8
}
