//! Texts with what they are read as.

mod show;
mod spell;

use sc_base::LIMITS;
use sc_parser::{ParseError, parse};
use sc_tree::{Token, Tree};
use show::{show_body, show_items, show_tree};
use spell::spell;
use std::test::Fail;

/// What the tokens are read as. No test has more of them than a source may have.
fn read(rt: &HostRuntime, tokens: &[Token]) -> Result<Tree, ParseError> {
    if tokens.len() as u64 > LIMITS.tokens {
        return Err(ParseError::OutOfMemory);
    }
    parse(rt.alloc(), tokens)
}

/// Why the text is refused.
fn refusal(rt: &HostRuntime, text: &str) -> Result<Option<ParseError>, Fail> {
    let tokens = spell(rt.alloc(), text)?;
    match read(rt, tokens.as_slice()) {
        Ok(_) => Ok(None),
        Err(error) => Ok(Some(error)),
    }
}

/// The statements of the function `a ( ) { .. }`. The first token of the text is number 5.
fn body(rt: &HostRuntime, text: &str) -> Result<String, Fail> {
    let whole = format!(in rt.alloc(); "a ( ) {{ {text} }}")?;
    let tokens = spell(rt.alloc(), whole.as_str())?;
    let tree = read(rt, tokens.as_slice())?;
    let shown = show_body(rt.alloc(), &tree)?;
    Ok(shown)
}

#[test]
fn operators_bind_as_in_c(rt: HostRuntime) -> Result<(), Fail> {
    let table = [
        ("1 + 2 - 3 ;", "(Simple (Chain 1@5 Add@6 2@7 Sub@8 3@9)@5)"),
        (
            "1 / 2 % 3 >> 4 ;",
            "(Simple (Chain (Chain 1@5 Div@6 2@7 Rem@8 3@9)@5 Shr@10 4@11)@5)",
        ),
        (
            "1 <= 2 > 3 >= 4 != 5 ;",
            "(Simple (Chain (Chain 1@5 Le@6 2@7 Gt@8 3@9 Ge@10 4@11)@5 Ne@12 5@13)@5)",
        ),
        ("1 && 2 && 3 ;", "(Simple (And 1@5 2@7 3@9)@5)"),
        (
            "1 || 2 && 3 | 4 ^ 5 & 6 == 7 < 8 << 9 + 10 * 11 ;",
            "(Simple (Or 1@5 (And 2@7 (Chain 3@9 Or@10 (Chain 4@11 Xor@12 (Chain 5@13 And@14 (Chain 6@15 Eq@16 (Chain 7@17 Lt@18 (Chain 8@19 Shl@20 (Chain 9@21 Add@22 (Chain 10@23 Mul@24 11@25)@23)@21)@19)@17)@15)@13)@11)@9)@7)@5)",
        ),
        (
            "1 * 2 + 3 << 4 < 5 == 6 & 7 ^ 8 | 9 && 10 || 11 ;",
            "(Simple (Or (And (Chain (Chain (Chain (Chain (Chain (Chain (Chain (Chain 1@5 Mul@6 2@7)@5 Add@8 3@9)@5 Shl@10 4@11)@5 Lt@12 5@13)@5 Eq@14 6@15)@5 And@16 7@17)@5 Xor@18 8@19)@5 Or@20 9@21)@5 10@23)@5 11@25)@5)",
        ),
        (
            "c ? a : b ? x : y ;",
            "(Simple (Cond n2@5 n0@7 (Cond n1@9 n23@11 n24@13)@9.10)@5.6)",
        ),
        (
            "a ? b = 1 : c = d ;",
            "(Simple (Assign None (Cond n0@5 (Assign None n1@7 1@9)@7.8 n2@11)@5.6 n3@13)@5.12)",
        ),
        (
            "a = b = c ;",
            "(Simple (Assign None n0@5 (Assign None n1@7 n2@9)@7.8)@5.6)",
        ),
        (
            "a += b -= c *= d /= e %= f &= g |= h ^= i <<= j >>= k ;",
            "(Simple (Assign Some(Add) n0@5 (Assign Some(Sub) n1@7 (Assign Some(Mul) n2@9 (Assign Some(Div) n3@11 (Assign Some(Rem) n4@13 (Assign Some(And) n5@15 (Assign Some(Or) n6@17 (Assign Some(Xor) n7@19 (Assign Some(Shl) n8@21 (Assign Some(Shr) n9@23 n10@25)@23.24)@21.22)@19.20)@17.18)@15.16)@13.14)@11.12)@9.10)@7.8)@5.6)",
        ),
    ];
    for (text, want) in table {
        let found = body(&rt, text)?;
        assert_eq!(rt; found.as_str(), want, "{text}");
    }
    Ok(())
}

#[test]
fn operands_have_their_places(rt: HostRuntime) -> Result<(), Fail> {
    let table = [
        ("7 ;", "(Simple 7@5)"),
        ("NULL ;", "(Simple NULL@5)"),
        ("MYPROC ;", "(Simple MYPROC@5)"),
        ("PROCS ;", "(Simple PROCS@5)"),
        ("sizeof ( int ) ;", "(Simple SizeInt@5)"),
        ("b ( ) ;", "(Simple (Call n1)@5)"),
        (
            "b ( 1 , \"f\" , c ) ;",
            "(Simple (Call n1 1@7 f0@9 n2@11)@5)",
        ),
        (
            "- + ! ~ * & ++ -- a ;",
            "(Simple (Minus (Plus (Not (Invert (Deref (Address (Step true (Step false n0@13)@12)@11)@10)@9)@8)@7)@6)@5)",
        ),
        (
            "- a [ b = 1 ] [ 2 ] ++ -- ;",
            "(Simple (Minus (Postfix n0@6 Index@7 (Assign None n1@8 1@10)@8.9 Index@12 2@13 Up@15 Down@16)@6)@5)",
        ),
        (
            "b ( ) [ 0 ] ;",
            "(Simple (Postfix (Call n1)@5 Index@8 0@9)@5)",
        ),
        ("( int ) a ;", "(Simple (Cast [] n0@8)@5)"),
        (
            "( int * global * spread * ) - a ;",
            "(Simple (Cast [Global, Spread, Local] (Minus n0@14)@13)@5)",
        ),
        ("( int ) ( a ) ;", "(Simple (Cast [] n0@8.9)@5)"),
        (
            "( int ) a [ 0 ] ;",
            "(Simple (Cast [] (Postfix n0@8 Index@9 0@10)@8)@5)",
        ),
        ("( a ) [ 1 ] ;", "(Simple (Postfix n0@5.6 Index@8 1@9)@5)"),
        (
            "( a + b ) * c ;",
            "(Simple (Chain (Chain n0@6 Add@7 n1@8)@5 Mul@10 n2@11)@5)",
        ),
        ("( ( a && b ) ) ;", "(Simple (And n0@7 n1@9)@5)"),
        ("( a || b ) ;", "(Simple (Or n0@6 n1@8)@5)"),
        ("( a [ 1 ] ) ;", "(Simple (Postfix n0@6 Index@7 1@8)@5)"),
        ("( a = b ) ;", "(Simple (Assign None n0@6 n1@8)@5.7)"),
        (
            "( a ? - b : c ) ;",
            "(Simple (Cond n0@6 (Minus n1@9)@8 n2@11)@5.7)",
        ),
    ];
    for (text, want) in table {
        let found = body(&rt, text)?;
        assert_eq!(rt; found.as_str(), want, "{text}");
    }
    Ok(())
}

#[test]
fn each_statement_once(rt: HostRuntime) -> Result<(), Fail> {
    let table = [
        ("{ 1 ; { } }", "(Block (Simple 1@6)(Block ))"),
        (";", "(Empty)"),
        (
            "int a , * b = 1 , * global * c = d = 2 ;",
            "(Declare (n0@6 [] -) (n1@9 [Local] 1@11) (n2@16 [Global, Local] (Assign None n3@18 2@20)@18.19))",
        ),
        ("a := b ;", "(Split false@6 n0@5 n1@7)"),
        (
            "* p :- q + 1 ;",
            "(Split true@7 (Deref n15@6)@5 (Chain n16@8 Add@9 1@10)@8)",
        ),
        ("while ( a ) b ;", "(While n0@7(Simple n1@9))"),
        ("do a ; while ( b ) ;", "(DoWhile (Simple n0@6)n1@10)"),
        (
            "for ( a ; b ; c ) d ;",
            "(For n0@7 n1@9 n2@11(Simple n3@13))",
        ),
        ("for ( ; ; ) ;", "(For - - -(Empty))"),
        (
            "for_my_1d ( a , b + 1 ) c ;",
            "(ForMine n0@7 (Chain n1@9 Add@10 1@11)@9(Simple n2@13))",
        ),
        ("return ;", "(Return@5 -)"),
        ("return a ;", "(Return@5 n0@6)"),
        ("break ; continue ;", "(Break@5)(Continue@7)"),
    ];
    for (text, want) in table {
        let found = body(&rt, text)?;
        assert_eq!(rt; found.as_str(), want, "{text}");
    }
    Ok(())
}

#[test]
fn an_else_belongs_to_the_nearest_if(rt: HostRuntime) -> Result<(), Fail> {
    let table = [
        ("if ( a ) b ;", "(If (n0@7(Simple n1@9)))"),
        (
            "if ( a ) b ; else c ;",
            "(If (n0@7(Simple n1@9)) (Simple n2@12))",
        ),
        (
            "if ( a ) ; else if ( b ) ; else if ( c ) ; else ;",
            "(If (n0@7(Empty)) (n1@13(Empty)) (n2@19(Empty)) (Empty))",
        ),
        (
            "if ( a ) if ( b ) c ; else d ;",
            "(If (n0@7(If (n1@11(Simple n2@13)) (Simple n3@16))))",
        ),
        (
            "if ( a ) while ( b ) if ( c ) ; else ;",
            "(If (n0@7(While n1@11(If (n2@15(Empty)) (Empty)))))",
        ),
        (
            "if ( a ) { if ( b ) ; } else ;",
            "(If (n0@7(Block (If (n1@12(Empty))))) (Empty))",
        ),
        (
            "if ( a ) do if ( b ) ; while ( c ) ; else ;",
            "(If (n0@7(DoWhile (If (n1@12(Empty)))n2@17)) (Empty))",
        ),
    ];
    for (text, want) in table {
        let found = body(&rt, text)?;
        assert_eq!(rt; found.as_str(), want, "{text}");
    }
    Ok(())
}

#[test]
fn each_item_once(rt: HostRuntime) -> Result<(), Fail> {
    let table = [
        ("int a ;", "(Object n0@2 [])"),
        (
            "int a [ 4 ] [ 2 ] , * b [ 2 ] :: [ PROCS + 1 ] , c [ 1 ] :: ;",
            "(Object n0@2 [] [Number(4)] [Number(2)])(Object n1@11 [Local] [Number(2)] :: [Procs, Number(1), Op(Add)])(Object n2@22 [] [Number(1)] ::)",
        ),
        (
            "int a [ 2 * ( 3 + 4 ) / 5 - 6 % 7 ] ;",
            "(Object n0@2 [] [Number(2), Number(3), Number(4), Op(Add), Op(Mul), Number(5), Op(Div), Number(6), Number(7), Op(Rem), Op(Sub)])",
        ),
        (
            "int a ; b ( ) ; int c ;",
            "(Object n0@2 [])(Object n2@9 [])(Function n1@4 [])",
        ),
        ("void a ( void ) ;", "(Function n0@2 void [])"),
        (
            "int * a ( int , int * b , int * ) { return b ; }",
            "(Function n0@3 [Local] (Param [])@5 (Param n1 [Local])@7 (Param [Local])@11 (Body (Return@15 n1@16)))",
        ),
    ];
    for (text, want) in table {
        let tokens = spell(rt.alloc(), text)?;
        let tree = read(&rt, tokens.as_slice())?;
        let found = show_items(rt.alloc(), &tree)?;
        assert_eq!(rt; found.as_str(), want, "{text}");
    }
    Ok(())
}

#[test]
fn lines_are_those_of_the_tokens(rt: HostRuntime) -> Result<(), Fail> {
    let table = [
        (
            "a ( ) { ( b\n+ c ) [\n1 ] = 2 ; }",
            "(Function n0@1 [] (Body (Simple (Assign None (Postfix (Chain n1@6 Add@7:2 n2@8:2)@5 Index@10:2 1@11:3)@5 2@14:3)@5.13:3))) lines [1, 1, 1, 1, 1, 1, 2, 2, 2, 2, 3, 3, 3, 3, 3, 3] last 3",
        ),
        (
            "int a\n[\n1 ]\n\n;",
            "(Object n0@2 [] [Number(1)]:3) lines [1, 1, 2, 3, 3, 5] last 5",
        ),
    ];
    for (text, want) in table {
        let tokens = spell(rt.alloc(), text)?;
        let tree = read(&rt, tokens.as_slice())?;
        let found = show_tree(rt.alloc(), &tree)?;
        assert_eq!(rt; found.as_str(), want, "{text}");
    }
    Ok(())
}

#[test]
fn refusals_name_the_first_bad_token(rt: HostRuntime) -> Result<(), Fail> {
    let table = [
        ("", 1),
        ("struct a ;", 1),
        ("int", 2),
        ("int a", 3),
        ("a ( ) { return", 6),
        ("a ( ) { 1 + ; }", 7),
        ("int a :: ;", 3),
        ("int a [ ] ;", 4),
        ("int a [ b ] ;", 4),
        ("void a ;", 3),
        ("void * a ( ) ;", 2),
        ("a ( b ) ;", 3),
        ("a ( int b c ) ;", 5),
        ("a ( ) { int b [ 2 ] ; }", 7),
        ("a ( ) { \"f\" ; }", 5),
        ("a ( ) { else ; }", 5),
        ("a ( ) { 1 }", 6),
        ("a ( ) { ( int ; ) b ; }", 7),
        ("a ( ) { b := ; }", 7),
        ("a ( ) { b = ; }", 7),
        ("a ( ) { b ( , ) ; }", 7),
        ("a ( ) { sizeof ( b ) ; }", 7),
        ("a ( ) { for_my_1d ( 1 , 2 ) ; }", 7),
        ("a ( ) { } }", 6),
        ("a ( ) ; ;", 5),
    ];
    for (text, seen) in table {
        let want = Some(ParseError::Syntax { seen });
        assert_eq!(rt; refusal(&rt, text)?, want, "{text}");
    }
    Ok(())
}

/// Why the text is refused in which the piece stands so often.
fn repeated(
    rt: &HostRuntime,
    head: &str,
    piece: &str,
    count: usize,
    tail: &str,
) -> Result<Option<ParseError>, Fail> {
    let mut text = String::from_str(rt.alloc(), head)?;
    for _ in 0..count {
        text.push_str(piece)?;
    }
    text.push_str(tail)?;
    refusal(rt, text.as_str())
}

#[test]
fn no_token_is_deeper_than_the_limit(rt: HostRuntime) -> Result<(), Fail> {
    let deep = |seen| Some(ParseError::TooDeep { seen });
    let syntax = |seen| Some(ParseError::Syntax { seen });
    let table = [
        ("a ( ) { return ", "( ", 62, "1", syntax(69)),
        ("a ( ) { return ", "( ", 63, "1", deep(69)),
        ("a ( ) { return ", "( ", 63, ")", syntax(69)),
        ("a ( ) { return ", "( ", 70, "", deep(69)),
        ("a ( ) { return ", "- ", 62, "1 ; }", None),
        ("a ( ) { return ", "- ", 63, "1 ; }", deep(68)),
        ("a ( ) { return ", "( int ) ", 62, "1 ; }", None),
        ("a ( ) { return ", "( int ) ", 63, "1 ; }", deep(193)),
        ("a ( ) { ", "if ( a ) ", 63, "; }", None),
        ("a ( ) { ", "if ( a ) ", 64, "; }", deep(259)),
        ("a ( ) { ", "if ( a ) ; else ", 200, "; }", None),
        ("a ( ) { ", "{ ", 64, "", syntax(69)),
        ("a ( ) { ", "{ ", 65, "", deep(69)),
        ("int a [ ", "( ", 63, "1", syntax(68)),
        ("int a [ ", "( ", 64, "1", deep(68)),
        ("a ( ) { return b ", "+ b ", 200, "; }", None),
        ("a ( ) { return ", "b = ", 62, "1 ; }", None),
        ("a ( ) { return ", "b = ", 63, "1 ; }", deep(132)),
        ("a ( ) { return ", "b ? c : ", 62, "1 ; }", None),
        ("a ( ) { return ", "b ? c : ", 63, "1 ; }", deep(256)),
    ];
    for (head, piece, count, tail, want) in table {
        let found = repeated(&rt, head, piece, count, tail)?;
        assert_eq!(rt; found, want, "{count} times {piece}");
    }
    Ok(())
}

#[test]
fn parentheses_close_at_the_limit(rt: HostRuntime) -> Result<(), Fail> {
    let mut text = String::from_str(rt.alloc(), "a ( ) { return ")?;
    for _ in 0..62 {
        text.push_str("( ")?;
    }
    text.push_str("1 ")?;
    for _ in 0..62 {
        text.push_str(") ")?;
    }
    text.push_str("; }")?;
    assert_eq!(rt; refusal(&rt, text.as_str())?, None);
    Ok(())
}
