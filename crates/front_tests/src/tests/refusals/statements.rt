//! Statements: rules 17, 18, 20, 21, and 24 of `for_my_1d`.

use super::{refused_bodies, refused_sources, wrong_bodies, wrong_sources};
use std::test::Fail;

#[test]
fn split_assignments_have_a_global_side(rt: HostRuntime) -> Result<(), Fail> {
    let bodies = [
        ("x\n:= x;", 17, 3),
        ("x\n:= B[0];", 17, 3),
        ("A[0]\n:= p;", 17, 3),
        ("p\n:= A[0];", 17, 3),
        ("int a; a\n:= x;", 17, 3),
        ("x\n:= (x + 1);", 17, 3),
        ("1\n:= A[0];", 17, 3),
        ("x\n:= (z + 1);", 17, 3),
        ("g\n:= *pp;", 17, 3),
    ];
    assert_eq!(rt; wrong_bodies(&rt, &bodies)?.as_str(), "");
    let accepted = [
        "A[0] := x; *g := 1; *s := x + 1; C[1][0] := *p;",
        "x := A[1]; int a; a := *g; a := s[1]; *p := C[0][0]; B[1] := *s;",
    ];
    assert_eq!(rt; refused_bodies(&rt, &accepted)?.as_str(), "");
    Ok(())
}

#[test]
fn stores_go_to_a_global_place(rt: HostRuntime) -> Result<(), Fail> {
    let bodies = [
        ("x\n:- 1;", 18, 3),
        ("B[0]\n:- A[0];", 18, 3),
        ("int a; a\n:- 1;", 18, 3),
        ("A[0]\n:- p;", 18, 3),
        ("*p\n:- 1;", 18, 3),
    ];
    assert_eq!(rt; wrong_bodies(&rt, &bodies)?.as_str(), "");
    assert_eq!(rt;
        refused_bodies(&rt, &["A[1] :- x; *g :- 1; *s :- A[2]; C[0][1] :- *p;"])?.as_str(),
        ""
    );
    Ok(())
}

#[test]
fn results_fit(rt: HostRuntime) -> Result<(), Fail> {
    let sources = [
        ("int *h() {\nreturn; } splitc_main() { }", 20, 2),
        ("void h() {\nreturn 1; } splitc_main() { }", 20, 2),
        (
            "void h() { } void k() {\nreturn h(); } splitc_main() { }",
            20,
            2,
        ),
        ("int h() {\nreturn NULL; } splitc_main() { }", 20, 2),
        ("int *h() {\nreturn 1; } splitc_main() { }", 20, 2),
        (
            "int *global g; int *h() {\nreturn g; } splitc_main() { }",
            20,
            2,
        ),
        ("void splitc_main() {\nreturn 0; }", 20, 2),
    ];
    assert_eq!(rt; wrong_sources(&rt, &sources)?.as_str(), "");
    let whole = [
        "int h() { return; } int k() { return 1; } int m() { } void n() { return; } splitc_main() { return 1; }",
        "int *p; int *global h() { return p; } int *k() { return NULL; } int *m() { return 0; } splitc_main() { }",
    ];
    assert_eq!(rt; refused_sources(&rt, &whole)?.as_str(), "");
    Ok(())
}

#[test]
fn breaks_stand_in_loops(rt: HostRuntime) -> Result<(), Fail> {
    let bodies = [
        ("\nbreak;", 21, 3),
        ("\ncontinue;", 21, 3),
        ("while (x) { }\nbreak;", 21, 3),
        ("if (x) { {\ncontinue; } }", 21, 3),
    ];
    assert_eq!(rt; wrong_bodies(&rt, &bodies)?.as_str(), "");
    let accepted = [
        "while (x) { break; continue; } do break; while (x); for (;;) { if (x) { break; } else continue; }",
        "int i; for_my_1d(i, 4) { break; }",
    ];
    assert_eq!(rt; refused_bodies(&rt, &accepted)?.as_str(), "");
    Ok(())
}

#[test]
fn own_turns_have_an_int_local(rt: HostRuntime) -> Result<(), Fail> {
    let bodies = [
        ("for_my_1d(\nx, 3) { }", 24, 3),
        ("int *i; for_my_1d(\ni, 3) { }", 24, 3),
        ("int i; for_my_1d(i,\np) { }", 24, 3),
        ("int i; for_my_1d(i,\nNULL) { }", 24, 3),
        ("for_my_1d(\nf, 3) { }", 6, 3),
    ];
    assert_eq!(rt; wrong_bodies(&rt, &bodies)?.as_str(), "");
    assert_eq!(rt;
        refused_bodies(
            &rt,
            &["int i; for_my_1d(i, 4) { x = i; } for_my_1d(i, x + B[0]) x = 1;"]
        )?
        .as_str(),
        ""
    );
    Ok(())
}
