//! The punctuators.

ghost use Rattle.std.specs.Prelude.{◌≡◌};
ghost use Rattle.ob_lex.specs.Words as words;

/// A mark of the language (ECMA-262, "Punctuators", without `#`, `@` and `#!`).
#[derive(Clone, Copy, Debug, PartialEq, Eq)]
pub enum Punctuator {
    /// `{`
    OpenBrace,
    /// `}`
    CloseBrace,
    /// `(`
    OpenParenthesis,
    /// `)`
    CloseParenthesis,
    /// `[`
    OpenBracket,
    /// `]`
    CloseBracket,
    /// `.`
    Dot,
    /// `;`
    Semicolon,
    /// `,`
    Comma,
    /// `<`
    Less,
    /// `>`
    Greater,
    /// `<=`
    LessEqual,
    /// `>=`
    GreaterEqual,
    /// `==`
    Equal,
    /// `!=`
    NotEqual,
    /// `===`
    Same,
    /// `!==`
    NotSame,
    /// `+`
    Plus,
    /// `-`
    Minus,
    /// `*`
    Star,
    /// `/`
    Slash,
    /// `%`
    Percent,
    /// `**`
    StarStar,
    /// `++`
    PlusPlus,
    /// `--`
    MinusMinus,
    /// `<<`
    ShiftLeft,
    /// `>>`
    ShiftRight,
    /// `>>>`
    ShiftRightUnsigned,
    /// `&`
    Ampersand,
    /// `|`
    Bar,
    /// `^`
    Caret,
    /// `!`
    Not,
    /// `~`
    Tilde,
    /// `&&`
    And,
    /// `||`
    Or,
    /// `??`
    Coalesce,
    /// `?`
    Question,
    /// `?.`
    QuestionDot,
    /// `:`
    Colon,
    /// `=`
    Assign,
    /// `+=`
    PlusAssign,
    /// `-=`
    MinusAssign,
    /// `*=`
    StarAssign,
    /// `/=`
    SlashAssign,
    /// `%=`
    PercentAssign,
    /// `**=`
    StarStarAssign,
    /// `<<=`
    ShiftLeftAssign,
    /// `>>=`
    ShiftRightAssign,
    /// `>>>=`
    ShiftRightUnsignedAssign,
    /// `&=`
    AmpersandAssign,
    /// `|=`
    BarAssign,
    /// `^=`
    CaretAssign,
    /// `&&=`
    AndAssign,
    /// `||=`
    OrAssign,
    /// `??=`
    CoalesceAssign,
    /// `=>`
    Arrow,
    /// `...`
    Ellipsis,
}

impl Punctuator {
    /// How the punctuator is written.
    #[tactic(auto, unfolding(crate::specs::Words::mark_spelling))]
    pub fn as_str(self) -> &'static str
        ensures { result.now ≡ words.mark_spelling self }
    {
        match self {
            Punctuator::OpenBrace => "{",
            Punctuator::CloseBrace => "}",
            Punctuator::OpenParenthesis => "(",
            Punctuator::CloseParenthesis => ")",
            Punctuator::OpenBracket => "[",
            Punctuator::CloseBracket => "]",
            Punctuator::Dot => ".",
            Punctuator::Semicolon => ";",
            Punctuator::Comma => ",",
            Punctuator::Less => "<",
            Punctuator::Greater => ">",
            Punctuator::LessEqual => "<=",
            Punctuator::GreaterEqual => ">=",
            Punctuator::Equal => "==",
            Punctuator::NotEqual => "!=",
            Punctuator::Same => "===",
            Punctuator::NotSame => "!==",
            Punctuator::Plus => "+",
            Punctuator::Minus => "-",
            Punctuator::Star => "*",
            Punctuator::Slash => "/",
            Punctuator::Percent => "%",
            Punctuator::StarStar => "**",
            Punctuator::PlusPlus => "++",
            Punctuator::MinusMinus => "--",
            Punctuator::ShiftLeft => "<<",
            Punctuator::ShiftRight => ">>",
            Punctuator::ShiftRightUnsigned => ">>>",
            Punctuator::Ampersand => "&",
            Punctuator::Bar => "|",
            Punctuator::Caret => "^",
            Punctuator::Not => "!",
            Punctuator::Tilde => "~",
            Punctuator::And => "&&",
            Punctuator::Or => "||",
            Punctuator::Coalesce => "??",
            Punctuator::Question => "?",
            Punctuator::QuestionDot => "?.",
            Punctuator::Colon => ":",
            Punctuator::Assign => "=",
            Punctuator::PlusAssign => "+=",
            Punctuator::MinusAssign => "-=",
            Punctuator::StarAssign => "*=",
            Punctuator::SlashAssign => "/=",
            Punctuator::PercentAssign => "%=",
            Punctuator::StarStarAssign => "**=",
            Punctuator::ShiftLeftAssign => "<<=",
            Punctuator::ShiftRightAssign => ">>=",
            Punctuator::ShiftRightUnsignedAssign => ">>>=",
            Punctuator::AmpersandAssign => "&=",
            Punctuator::BarAssign => "|=",
            Punctuator::CaretAssign => "^=",
            Punctuator::AndAssign => "&&=",
            Punctuator::OrAssign => "||=",
            Punctuator::CoalesceAssign => "??=",
            Punctuator::Arrow => "=>",
            Punctuator::Ellipsis => "...",
        }
    }
}

/// The punctuators that begin with a character, the longer before the shorter.
#[tactic(auto, unfolding(crate::specs::Words::marks_of))]
pub(crate) fn marks_of(first: char) -> &'static [Punctuator]
    ensures { result.now ≡ words.marks_of first }
{
    match first {
        '{' => &[Punctuator::OpenBrace],
        '}' => &[Punctuator::CloseBrace],
        '(' => &[Punctuator::OpenParenthesis],
        ')' => &[Punctuator::CloseParenthesis],
        '[' => &[Punctuator::OpenBracket],
        ']' => &[Punctuator::CloseBracket],
        '.' => &[Punctuator::Ellipsis, Punctuator::Dot],
        ';' => &[Punctuator::Semicolon],
        ',' => &[Punctuator::Comma],
        '<' => &[
            Punctuator::ShiftLeftAssign,
            Punctuator::LessEqual,
            Punctuator::ShiftLeft,
            Punctuator::Less,
        ],
        '>' => &[
            Punctuator::ShiftRightUnsignedAssign,
            Punctuator::ShiftRightUnsigned,
            Punctuator::ShiftRightAssign,
            Punctuator::GreaterEqual,
            Punctuator::ShiftRight,
            Punctuator::Greater,
        ],
        '=' => &[
            Punctuator::Same,
            Punctuator::Equal,
            Punctuator::Arrow,
            Punctuator::Assign,
        ],
        '!' => &[Punctuator::NotSame, Punctuator::NotEqual, Punctuator::Not],
        '+' => &[
            Punctuator::PlusPlus,
            Punctuator::PlusAssign,
            Punctuator::Plus,
        ],
        '-' => &[
            Punctuator::MinusMinus,
            Punctuator::MinusAssign,
            Punctuator::Minus,
        ],
        '*' => &[
            Punctuator::StarStarAssign,
            Punctuator::StarStar,
            Punctuator::StarAssign,
            Punctuator::Star,
        ],
        '/' => &[Punctuator::SlashAssign, Punctuator::Slash],
        '%' => &[Punctuator::PercentAssign, Punctuator::Percent],
        '&' => &[
            Punctuator::AndAssign,
            Punctuator::And,
            Punctuator::AmpersandAssign,
            Punctuator::Ampersand,
        ],
        '|' => &[
            Punctuator::OrAssign,
            Punctuator::Or,
            Punctuator::BarAssign,
            Punctuator::Bar,
        ],
        '^' => &[Punctuator::CaretAssign, Punctuator::Caret],
        '~' => &[Punctuator::Tilde],
        '?' => &[
            Punctuator::CoalesceAssign,
            Punctuator::Coalesce,
            Punctuator::QuestionDot,
            Punctuator::Question,
        ],
        ':' => &[Punctuator::Colon],
        _ => &[],
    }
}
