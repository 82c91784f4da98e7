//! The reserved words.

ghost use Rattle.std.specs.Prelude.{◌≡◌};
ghost use Rattle.ob_base.specs.Reserved as words;

/// A word that is no name: the reserved words of ECMA-262 ("Keywords and Reserved Words") and those
/// of this project.
#[derive(Clone, Copy, Debug, PartialEq, Eq)]
pub enum ReservedWord {
    Arguments,
    Async,
    Await,
    Break,
    Case,
    Catch,
    Class,
    Const,
    Continue,
    Debugger,
    Default,
    Delete,
    Do,
    Else,
    Enum,
    Export,
    Extends,
    False,
    Finally,
    For,
    Function,
    If,
    Import,
    In,
    Instanceof,
    Let,
    Mutable,
    New,
    Null,
    Return,
    Static,
    Super,
    Switch,
    This,
    Throw,
    True,
    Try,
    Typeof,
    Undefined,
    Var,
    Viewof,
    Void,
    While,
    With,
    Yield,
}

impl ReservedWord {
    /// How the word is written.
    #[tactic(auto, unfolding(crate::specs::Reserved::spelling))]
    pub fn as_str(self) -> &'static str
        ensures { result.now ≡ words.spelling self }
    {
        match self {
            ReservedWord::Arguments => "arguments",
            ReservedWord::Async => "async",
            ReservedWord::Await => "await",
            ReservedWord::Break => "break",
            ReservedWord::Case => "case",
            ReservedWord::Catch => "catch",
            ReservedWord::Class => "class",
            ReservedWord::Const => "const",
            ReservedWord::Continue => "continue",
            ReservedWord::Debugger => "debugger",
            ReservedWord::Default => "default",
            ReservedWord::Delete => "delete",
            ReservedWord::Do => "do",
            ReservedWord::Else => "else",
            ReservedWord::Enum => "enum",
            ReservedWord::Export => "export",
            ReservedWord::Extends => "extends",
            ReservedWord::False => "false",
            ReservedWord::Finally => "finally",
            ReservedWord::For => "for",
            ReservedWord::Function => "function",
            ReservedWord::If => "if",
            ReservedWord::Import => "import",
            ReservedWord::In => "in",
            ReservedWord::Instanceof => "instanceof",
            ReservedWord::Let => "let",
            ReservedWord::Mutable => "mutable",
            ReservedWord::New => "new",
            ReservedWord::Null => "null",
            ReservedWord::Return => "return",
            ReservedWord::Static => "static",
            ReservedWord::Super => "super",
            ReservedWord::Switch => "switch",
            ReservedWord::This => "this",
            ReservedWord::Throw => "throw",
            ReservedWord::True => "true",
            ReservedWord::Try => "try",
            ReservedWord::Typeof => "typeof",
            ReservedWord::Undefined => "undefined",
            ReservedWord::Var => "var",
            ReservedWord::Viewof => "viewof",
            ReservedWord::Void => "void",
            ReservedWord::While => "while",
            ReservedWord::With => "with",
            ReservedWord::Yield => "yield",
        }
    }

    /// The reserved word that is written so, if there is one.
    pub fn named(name: &str) -> Option<ReservedWord>
        ensures { result ≡ words.reserved_word name.now }
    {
        match name.as_bytes() {
            [] => None,
            [first, ..] => find_word(words_of(*first), name),
        }
    }
}

/// Each reserved word, in alphabetical order.
pub const RESERVED_WORDS: [ReservedWord; 45] = [
    ReservedWord::Arguments,
    ReservedWord::Async,
    ReservedWord::Await,
    ReservedWord::Break,
    ReservedWord::Case,
    ReservedWord::Catch,
    ReservedWord::Class,
    ReservedWord::Const,
    ReservedWord::Continue,
    ReservedWord::Debugger,
    ReservedWord::Default,
    ReservedWord::Delete,
    ReservedWord::Do,
    ReservedWord::Else,
    ReservedWord::Enum,
    ReservedWord::Export,
    ReservedWord::Extends,
    ReservedWord::False,
    ReservedWord::Finally,
    ReservedWord::For,
    ReservedWord::Function,
    ReservedWord::If,
    ReservedWord::Import,
    ReservedWord::In,
    ReservedWord::Instanceof,
    ReservedWord::Let,
    ReservedWord::Mutable,
    ReservedWord::New,
    ReservedWord::Null,
    ReservedWord::Return,
    ReservedWord::Static,
    ReservedWord::Super,
    ReservedWord::Switch,
    ReservedWord::This,
    ReservedWord::Throw,
    ReservedWord::True,
    ReservedWord::Try,
    ReservedWord::Typeof,
    ReservedWord::Undefined,
    ReservedWord::Var,
    ReservedWord::Viewof,
    ReservedWord::Void,
    ReservedWord::While,
    ReservedWord::With,
    ReservedWord::Yield,
];

/// The reserved words that begin with a letter.
#[tactic(auto, unfolding(crate::specs::Reserved::words_of))]
fn words_of(first: u8) -> &'static [ReservedWord]
    ensures { result.now ≡ words.words_of first }
{
    match first {
        b'a' => &[
            ReservedWord::Arguments,
            ReservedWord::Async,
            ReservedWord::Await,
        ],
        b'b' => &[ReservedWord::Break],
        b'c' => &[
            ReservedWord::Case,
            ReservedWord::Catch,
            ReservedWord::Class,
            ReservedWord::Const,
            ReservedWord::Continue,
        ],
        b'd' => &[
            ReservedWord::Debugger,
            ReservedWord::Default,
            ReservedWord::Delete,
            ReservedWord::Do,
        ],
        b'e' => &[
            ReservedWord::Else,
            ReservedWord::Enum,
            ReservedWord::Export,
            ReservedWord::Extends,
        ],
        b'f' => &[
            ReservedWord::False,
            ReservedWord::Finally,
            ReservedWord::For,
            ReservedWord::Function,
        ],
        b'i' => &[
            ReservedWord::If,
            ReservedWord::Import,
            ReservedWord::In,
            ReservedWord::Instanceof,
        ],
        b'l' => &[ReservedWord::Let],
        b'm' => &[ReservedWord::Mutable],
        b'n' => &[ReservedWord::New, ReservedWord::Null],
        b'r' => &[ReservedWord::Return],
        b's' => &[
            ReservedWord::Static,
            ReservedWord::Super,
            ReservedWord::Switch,
        ],
        b't' => &[
            ReservedWord::This,
            ReservedWord::Throw,
            ReservedWord::True,
            ReservedWord::Try,
            ReservedWord::Typeof,
        ],
        b'u' => &[ReservedWord::Undefined],
        b'v' => &[ReservedWord::Var, ReservedWord::Viewof, ReservedWord::Void],
        b'w' => &[ReservedWord::While, ReservedWord::With],
        b'y' => &[ReservedWord::Yield],
        _ => &[],
    }
}

fn find_word(list: &[ReservedWord], name: &str) -> Option<ReservedWord>
    ensures { result ≡ words.find_word list.now name.now }
{
    for word in list {
        if word.as_str() == name {
            return Some(*word);
        }
    }
    None
}
