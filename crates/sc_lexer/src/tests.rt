//! Tables of sources with what they are read as.

use crate::{LexError, lex};
use sc_base::LIMITS;
use sc_tree::{Lexed, Mark, Token, TokenKind, Word};
use std::test::Fail;

/// What the text is read as. No text of these tests is longer than a source may be.
fn read(rt: &HostRuntime, text: &[u8]) -> Result<Lexed, LexError> {
    if text.len() as u64 > LIMITS.source {
        return Err(LexError::OutOfMemory);
    }
    lex(rt.alloc(), text)
}

/// Whether the text is one token of this kind from its first byte on.
fn is_one(rt: &HostRuntime, text: &str, kind: TokenKind) -> bool {
    let whole = Token {
        kind,
        at: 0,
        line: 1,
    };
    match read(rt, text.as_bytes()) {
        Ok(lexed) => lexed.tokens.as_slice() == [whole].as_slice(),
        Err(_) => false,
    }
}

/// Whether the text is refused so.
fn is_refused(rt: &HostRuntime, text: &str, error: LexError) -> bool {
    match read(rt, text.as_bytes()) {
        Ok(_) => false,
        Err(found) => found == error,
    }
}

/// Whether the text has these tokens.
fn has_tokens(rt: &HostRuntime, text: &str, tokens: &[Token]) -> bool {
    match read(rt, text.as_bytes()) {
        Ok(lexed) => lexed.tokens.as_slice() == tokens,
        Err(_) => false,
    }
}

const fn token(kind: TokenKind, at: u32, line: u32) -> Token {
    Token { kind, at, line }
}

const fn mark(mark: Mark, at: u32) -> Token {
    Token {
        kind: TokenKind::Mark(mark),
        at,
        line: 1,
    }
}

const fn name(number: u32, at: u32) -> Token {
    Token {
        kind: TokenKind::Name(number),
        at,
        line: 1,
    }
}

#[test]
fn every_mark_is_one_token(rt: HostRuntime) -> Result<(), Fail> {
    let table = [
        ("<<=", Mark::ShiftLeftEqual),
        (">>=", Mark::ShiftRightEqual),
        ("::", Mark::ColonColon),
        (":=", Mark::ColonEqual),
        (":-", Mark::ColonMinus),
        ("==", Mark::EqualEqual),
        ("!=", Mark::NotEqual),
        ("<=", Mark::LessEqual),
        (">=", Mark::GreaterEqual),
        ("<<", Mark::ShiftLeft),
        (">>", Mark::ShiftRight),
        ("&&", Mark::AndAnd),
        ("||", Mark::OrOr),
        ("++", Mark::PlusPlus),
        ("--", Mark::MinusMinus),
        ("+=", Mark::PlusEqual),
        ("-=", Mark::MinusEqual),
        ("*=", Mark::StarEqual),
        ("/=", Mark::SlashEqual),
        ("%=", Mark::PercentEqual),
        ("&=", Mark::AndEqual),
        ("|=", Mark::OrEqual),
        ("^=", Mark::CaretEqual),
        ("(", Mark::OpenRound),
        (")", Mark::CloseRound),
        ("[", Mark::OpenSquare),
        ("]", Mark::CloseSquare),
        ("{", Mark::OpenCurly),
        ("}", Mark::CloseCurly),
        (";", Mark::Semicolon),
        (",", Mark::Comma),
        ("?", Mark::Question),
        (":", Mark::Colon),
        ("=", Mark::Equal),
        ("+", Mark::Plus),
        ("-", Mark::Minus),
        ("*", Mark::Star),
        ("/", Mark::Slash),
        ("%", Mark::Percent),
        ("&", Mark::And),
        ("|", Mark::Or),
        ("^", Mark::Caret),
        ("~", Mark::Tilde),
        ("!", Mark::Not),
        ("<", Mark::Less),
        (">", Mark::Greater),
    ];
    for (text, mark) in table {
        assert!(rt; is_one(&rt, text, TokenKind::Mark(mark)), "{text}");
    }
    Ok(())
}

#[test]
fn every_reserved_word_is_one_token(rt: HostRuntime) -> Result<(), Fail> {
    let table = [
        ("int", Word::Int),
        ("void", Word::Void),
        ("if", Word::If),
        ("else", Word::Else),
        ("while", Word::While),
        ("do", Word::Do),
        ("for", Word::For),
        ("return", Word::Return),
        ("break", Word::Break),
        ("continue", Word::Continue),
        ("global", Word::Global),
        ("spread", Word::Spread),
        ("sizeof", Word::Sizeof),
        ("for_my_1d", Word::ForMine),
        ("NULL", Word::Null),
        ("MYPROC", Word::MyProc),
        ("PROCS", Word::Procs),
        ("auto", Word::Auto),
        ("char", Word::Char),
        ("const", Word::Const),
        ("default", Word::Default),
        ("case", Word::Case),
        ("double", Word::Double),
        ("enum", Word::Enum),
        ("extern", Word::Extern),
        ("float", Word::Float),
        ("goto", Word::Goto),
        ("long", Word::Long),
        ("register", Word::Register),
        ("short", Word::Short),
        ("signed", Word::Signed),
        ("static", Word::Static),
        ("struct", Word::Struct),
        ("switch", Word::Switch),
        ("typedef", Word::Typedef),
        ("union", Word::Union),
        ("unsigned", Word::Unsigned),
        ("volatile", Word::Volatile),
    ];
    for (text, word) in table {
        assert!(rt; is_one(&rt, text, TokenKind::Word(word)), "{text}");
    }
    Ok(())
}

#[test]
fn the_longest_is_taken(rt: HostRuntime) -> Result<(), Fail> {
    let plus = [mark(Mark::PlusPlus, 0), mark(Mark::Plus, 2)];
    assert!(rt; has_tokens(&rt, "+++", plus.as_slice()));
    let stores = [
        name(0, 0),
        mark(Mark::Question, 2),
        name(1, 4),
        mark(Mark::ColonMinus, 6),
        name(2, 8),
    ];
    assert!(rt; has_tokens(&rt, "c ? a :-b", stores.as_slice()));
    let minus = [
        name(0, 0),
        mark(Mark::Question, 2),
        name(1, 4),
        mark(Mark::Colon, 6),
        mark(Mark::Minus, 8),
        name(2, 9),
    ];
    assert!(rt; has_tokens(&rt, "c ? a : -b", minus.as_slice()));
    let colons = [
        mark(Mark::ColonColon, 0),
        mark(Mark::ColonEqual, 2),
        mark(Mark::ShiftRightEqual, 4),
    ];
    assert!(rt; has_tokens(&rt, ":::=>>=", colons.as_slice()));
    let words = [name(0, 0), name(1, 5), name(0, 9)];
    assert!(rt; has_tokens(&rt, "int_ ifx int_", words.as_slice()));
    Ok(())
}

#[test]
fn numbers_have_their_values(rt: HostRuntime) -> Result<(), Fail> {
    let table = [
        ("0", 0),
        ("7", 7),
        ("90210", 90210),
        ("0x0", 0),
        ("0XfF", 255),
        ("9223372036854775807", 9223372036854775807),
        ("0x7fffffffffffffff", 9223372036854775807),
    ];
    for (text, value) in table {
        assert!(rt; is_one(&rt, text, TokenKind::Number(value)), "{text}");
    }
    Ok(())
}

#[test]
fn gaps_count_lines(rt: HostRuntime) -> Result<(), Fail> {
    let tokens = [
        token(TokenKind::Name(0), 8, 2),
        token(TokenKind::Name(1), 20, 3),
        token(TokenKind::Mark(Mark::Slash), 22, 3),
    ];
    assert!(rt; has_tokens(&rt, "// a #\n\ta/*/ \n * **/b /", tokens.as_slice()));
    assert!(rt; has_tokens(&rt, " \t\r\x0b\x0c\n/**/ //", [].as_slice()));
    Ok(())
}

#[test]
fn a_defined_name_is_its_number_from_then_on(rt: HostRuntime) -> Result<(), Fail> {
    let text = "K\n # include <a> \"\n#define K 0x2 // two\nK k\n\t#define k 3 /* */ /* */\nk K";
    let tokens = [
        token(TokenKind::Name(0), 0, 1),
        token(TokenKind::Number(2), 40, 4),
        token(TokenKind::Name(1), 42, 4),
        token(TokenKind::Number(3), 69, 6),
        token(TokenKind::Number(2), 71, 6),
    ];
    assert!(rt; has_tokens(&rt, text, tokens.as_slice()));
    Ok(())
}

#[test]
fn formats_and_names_are_kept_once(rt: HostRuntime) -> Result<(), Fail> {
    let lexed = read(&rt, b"\"a\\n\\t\\\\\\\"\" \"\" b \"a\\n\\t\\\\\\\"\" b cc")?;
    let kinds = [
        token(TokenKind::Format(0), 0, 1),
        token(TokenKind::Format(1), 12, 1),
        token(TokenKind::Name(0), 15, 1),
        token(TokenKind::Format(0), 17, 1),
        token(TokenKind::Name(0), 29, 1),
        token(TokenKind::Name(1), 31, 1),
    ];
    assert_eq!(rt; lexed.tokens.as_slice(), kinds.as_slice());
    assert_eq!(rt; lexed.names.text(1), Some(b"cc".as_slice()));
    assert_eq!(rt; lexed.names.text(2), None);
    let texts = lexed.texts.as_slice();
    assert_eq!(rt; texts.len(), 2);
    assert_eq!(rt; texts[0].as_slice(), b"a\n\t\\\"".as_slice());
    assert_eq!(rt; texts[1].as_slice(), b"".as_slice());
    Ok(())
}

#[test]
fn refusals_name_the_first_bad_place(rt: HostRuntime) -> Result<(), Fail> {
    let table = [
        ("a @", LexError::BadByte { at: 2 }),
        ("08", LexError::BadByte { at: 1 }),
        ("1u", LexError::BadByte { at: 1 }),
        ("12_", LexError::BadByte { at: 2 }),
        (" 0x", LexError::BadByte { at: 2 }),
        ("0xfg", LexError::BadByte { at: 3 }),
        ("\"ab", LexError::BadByte { at: 3 }),
        ("\"ab\n\"", LexError::BadByte { at: 3 }),
        ("\"a\\x\"", LexError::BadByte { at: 2 }),
        ("\"a\\", LexError::BadByte { at: 2 }),
        ("x # define K 1", LexError::BadByte { at: 2 }),
        ("/* */ #define K 1", LexError::BadByte { at: 6 }),
        ("/*\n*/ #define K 1", LexError::BadByte { at: 6 }),
        ("a /* b", LexError::OpenComment { at: 2 }),
        ("/*/", LexError::OpenComment { at: 0 }),
        ("a 9223372036854775808", LexError::WideNumber { at: 2 }),
        ("0x8000000000000000z", LexError::WideNumber { at: 0 }),
        ("#undef K", LexError::BadDirective { line: 1 }),
        ("\n#defineK 1", LexError::BadDirective { line: 2 }),
        ("#define int 1", LexError::BadDirective { line: 1 }),
        (
            "#define K 1\n#define K 2",
            LexError::BadDirective { line: 2 },
        ),
        (
            "#define K 9223372036854775808",
            LexError::BadDirective { line: 1 },
        ),
        ("#define K 08", LexError::BadDirective { line: 1 }),
        ("#define K 1 2", LexError::BadDirective { line: 1 }),
        ("#define K 1 /* \n */", LexError::BadDirective { line: 1 }),
        ("#define K", LexError::BadDirective { line: 1 }),
        ("#", LexError::BadDirective { line: 1 }),
    ];
    for (text, error) in table {
        assert!(rt; is_refused(&rt, text, error), "{text}");
    }
    Ok(())
}

/// 65,536 semicolons, and then the text.
fn many(rt: &HostRuntime, text: &[u8]) -> Result<Lexed, LexError> {
    let Ok(mut source) = Vec::from_slice(rt.alloc(), [b';'; 65536].as_slice()) else {
        return Err(LexError::OutOfMemory);
    };
    let Ok(()) = source.extend_from_slice(text) else {
        return Err(LexError::OutOfMemory);
    };
    read(rt, source.as_slice())
}

#[test]
fn one_token_more_is_too_many(rt: HostRuntime) -> Result<(), Fail> {
    let lexed = many(&rt, b" // the end")?;
    assert_eq!(rt; lexed.tokens.as_slice().len(), 65536);
    assert!(rt; many(&rt, b"08").is_err_and(|e| e == LexError::TooManyTokens));
    assert!(rt;
        many(&rt, b"9223372036854775808").is_err_and(|e| e == LexError::WideNumber { at: 65536 })
    );
    Ok(())
}
