//! How words and marks are spelled.

ghost use Rattle.std.specs.Prelude.{◌≡◌};
ghost use Rattle.sc_lexer.specs.Spelling.{word_text, mark_text, word_of, mark_of};

use sc_tree::{Mark, Word};

/// Every reserved word.
static WORDS: [Word; 38] = [
    Word::Int,
    Word::Void,
    Word::If,
    Word::Else,
    Word::While,
    Word::Do,
    Word::For,
    Word::Return,
    Word::Break,
    Word::Continue,
    Word::Global,
    Word::Spread,
    Word::Sizeof,
    Word::ForMine,
    Word::Null,
    Word::MyProc,
    Word::Procs,
    Word::Auto,
    Word::Char,
    Word::Const,
    Word::Default,
    Word::Case,
    Word::Double,
    Word::Enum,
    Word::Extern,
    Word::Float,
    Word::Goto,
    Word::Long,
    Word::Register,
    Word::Short,
    Word::Signed,
    Word::Static,
    Word::Struct,
    Word::Switch,
    Word::Typedef,
    Word::Union,
    Word::Unsigned,
    Word::Volatile,
];

/// Every mark, the longer ones first.
static MARKS: [Mark; 46] = [
    Mark::ShiftLeftEqual,
    Mark::ShiftRightEqual,
    Mark::ColonColon,
    Mark::ColonEqual,
    Mark::ColonMinus,
    Mark::EqualEqual,
    Mark::NotEqual,
    Mark::LessEqual,
    Mark::GreaterEqual,
    Mark::ShiftLeft,
    Mark::ShiftRight,
    Mark::AndAnd,
    Mark::OrOr,
    Mark::PlusPlus,
    Mark::MinusMinus,
    Mark::PlusEqual,
    Mark::MinusEqual,
    Mark::StarEqual,
    Mark::SlashEqual,
    Mark::PercentEqual,
    Mark::AndEqual,
    Mark::OrEqual,
    Mark::CaretEqual,
    Mark::OpenRound,
    Mark::CloseRound,
    Mark::OpenSquare,
    Mark::CloseSquare,
    Mark::OpenCurly,
    Mark::CloseCurly,
    Mark::Semicolon,
    Mark::Comma,
    Mark::Question,
    Mark::Colon,
    Mark::Equal,
    Mark::Plus,
    Mark::Minus,
    Mark::Star,
    Mark::Slash,
    Mark::Percent,
    Mark::And,
    Mark::Or,
    Mark::Caret,
    Mark::Tilde,
    Mark::Not,
    Mark::Less,
    Mark::Greater,
];

/// The reserved word that the name is, if it is one.
#[tactic(auto, unfolding(crate::specs::Spelling::word_of))]
pub fn word_of(name: &[u8]) -> Option<Word>
    ensures { result ≡ word_of name.now }
{
    WORDS.iter().copied().find(|w| name == word_text(*w))
}

/// The longest mark that the bytes begin with, if there is one.
#[tactic(auto, unfolding(crate::specs::Spelling::mark_of))]
pub fn mark_of(bytes: &[u8]) -> Option<Mark>
    ensures { result ≡ mark_of bytes.now }
{
    MARKS
        .iter()
        .copied()
        .find(|m| bytes.starts_with(mark_text(*m)))
}

/// How the reserved word is spelled.
pub fn word_text(word: Word) -> &'static [u8]
    ensures { result.now ≡ word_text word }
{
    match word {
        Word::Int => b"int",
        Word::Void => b"void",
        Word::If => b"if",
        Word::Else => b"else",
        Word::While => b"while",
        Word::Do => b"do",
        Word::For => b"for",
        Word::Return => b"return",
        Word::Break => b"break",
        Word::Continue => b"continue",
        Word::Global => b"global",
        Word::Spread => b"spread",
        Word::Sizeof => b"sizeof",
        Word::ForMine => b"for_my_1d",
        Word::Null => b"NULL",
        Word::MyProc => b"MYPROC",
        Word::Procs => b"PROCS",
        Word::Auto => b"auto",
        Word::Char => b"char",
        Word::Const => b"const",
        Word::Default => b"default",
        Word::Case => b"case",
        Word::Double => b"double",
        Word::Enum => b"enum",
        Word::Extern => b"extern",
        Word::Float => b"float",
        Word::Goto => b"goto",
        Word::Long => b"long",
        Word::Register => b"register",
        Word::Short => b"short",
        Word::Signed => b"signed",
        Word::Static => b"static",
        Word::Struct => b"struct",
        Word::Switch => b"switch",
        Word::Typedef => b"typedef",
        Word::Union => b"union",
        Word::Unsigned => b"unsigned",
        Word::Volatile => b"volatile",
    }
}

/// How the mark is spelled.
pub fn mark_text(mark: Mark) -> &'static [u8]
    ensures { result.now ≡ mark_text mark }
{
    match mark {
        Mark::ShiftLeftEqual => b"<<=",
        Mark::ShiftRightEqual => b">>=",
        Mark::ColonColon => b"::",
        Mark::ColonEqual => b":=",
        Mark::ColonMinus => b":-",
        Mark::EqualEqual => b"==",
        Mark::NotEqual => b"!=",
        Mark::LessEqual => b"<=",
        Mark::GreaterEqual => b">=",
        Mark::ShiftLeft => b"<<",
        Mark::ShiftRight => b">>",
        Mark::AndAnd => b"&&",
        Mark::OrOr => b"||",
        Mark::PlusPlus => b"++",
        Mark::MinusMinus => b"--",
        Mark::PlusEqual => b"+=",
        Mark::MinusEqual => b"-=",
        Mark::StarEqual => b"*=",
        Mark::SlashEqual => b"/=",
        Mark::PercentEqual => b"%=",
        Mark::AndEqual => b"&=",
        Mark::OrEqual => b"|=",
        Mark::CaretEqual => b"^=",
        Mark::OpenRound => b"(",
        Mark::CloseRound => b")",
        Mark::OpenSquare => b"[",
        Mark::CloseSquare => b"]",
        Mark::OpenCurly => b"{",
        Mark::CloseCurly => b"}",
        Mark::Semicolon => b";",
        Mark::Comma => b",",
        Mark::Question => b"?",
        Mark::Colon => b":",
        Mark::Equal => b"=",
        Mark::Plus => b"+",
        Mark::Minus => b"-",
        Mark::Star => b"*",
        Mark::Slash => b"/",
        Mark::Percent => b"%",
        Mark::And => b"&",
        Mark::Or => b"|",
        Mark::Caret => b"^",
        Mark::Tilde => b"~",
        Mark::Not => b"!",
        Mark::Less => b"<",
        Mark::Greater => b">",
    }
}
