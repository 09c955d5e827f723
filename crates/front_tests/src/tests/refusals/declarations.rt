//! Declarations and scopes: rules 1 to 5.

use super::{refused_bodies, refused_sources, wrong_bodies, wrong_sources};
use std::test::Fail;

#[test]
fn a_name_is_declared_once_in_a_scope(rt: HostRuntime) -> Result<(), Fail> {
    let bodies = [
        ("int a;\nint a;", 1, 3),
        ("int a, *b,\na;", 1, 3),
        ("{ int a;\nint a; }", 1, 3),
    ];
    assert_eq!(rt; wrong_bodies(&rt, &bodies)?.as_str(), "");
    let sources = [
        ("int y;\nint y; splitc_main() { }", 1, 2),
        ("int y,\ny; splitc_main() { }", 1, 2),
        ("int y;\nint y() { return 1; } splitc_main() { }", 1, 2),
        ("int y() { return 1; }\nint y; splitc_main() { }", 1, 2),
        ("void h() { }\nvoid h() { } splitc_main() { }", 1, 2),
        ("int h(int a,\nint a) { return a; } splitc_main() { }", 1, 2),
        ("int h(int a) {\nint a; return a; } splitc_main() { }", 1, 2),
        (
            "int h(int a,\nint a); int h(int a, int b) { return a; } splitc_main() { }",
            1,
            2,
        ),
    ];
    assert_eq!(rt; wrong_sources(&rt, &sources)?.as_str(), "");
    let accepted = [
        "int a; { int a; { int a; } }",
        "{ int a; } { int a; } int a;",
        "int x; int p; int f; f = x + p;",
    ];
    assert_eq!(rt; refused_bodies(&rt, &accepted)?.as_str(), "");
    let whole = [
        "int h(int a) { { int a; } return a; } splitc_main() { }",
        "int h(int a, int); int h(int a, int b) { return a; } int k(int a) { return a; } splitc_main() { }",
    ];
    assert_eq!(rt; refused_sources(&rt, &whole)?.as_str(), "");
    Ok(())
}

#[test]
fn a_name_that_is_declared_twice_means_the_first(rt: HostRuntime) -> Result<(), Fail> {
    let sources = [
        ("splitc_main() { y[0] = 1; } int y[2];\nint y;", 1, 2),
        ("splitc_main() { y\n= 1; } int y[2];\nint y;", 15, 2),
        (
            "splitc_main() { y(1); } int y(int a) { return a; }\nvoid y() { }",
            1,
            2,
        ),
        (
            "splitc_main() {\ny(); } int y(int a) { return a; }\nvoid y() { }",
            19,
            2,
        ),
        (
            "int y(int *a); int y(int *a) { return 1; }\nint y(int a) { return 1; } splitc_main() { }",
            1,
            2,
        ),
    ];
    assert_eq!(rt; wrong_sources(&rt, &sources)?.as_str(), "");
    Ok(())
}

#[test]
fn a_used_name_is_declared_before_it_in_its_block(rt: HostRuntime) -> Result<(), Fail> {
    let bodies = [
        ("x = 1;\nz = 1;", 2, 3),
        ("x =\nz;", 2, 3),
        ("z\n();", 2, 2),
        ("a = 1;\nint a;", 2, 2),
        ("{ int a; }\na = 1;", 2, 3),
        ("{ int a; { int b; } a = 1;\nb = 1; }", 2, 3),
        ("int a\n= a;", 2, 3),
        ("while (x) { int a; }\nx = a;", 2, 3),
        ("int i; for_my_1d(\nz, 4) { }", 2, 3),
    ];
    assert_eq!(rt; wrong_bodies(&rt, &bodies)?.as_str(), "");
    let sources = [
        ("splitc_main() {\nz = 1; }", 2, 2),
        (
            "int k() { int a; return a; } splitc_main() {\na = 1; }",
            2,
            2,
        ),
    ];
    assert_eq!(rt; wrong_sources(&rt, &sources)?.as_str(), "");
    let accepted = ["int a = 1; a = a + x;", "int a; { a = 1; int a = a; }"];
    assert_eq!(rt; refused_bodies(&rt, &accepted)?.as_str(), "");
    let whole = [
        "splitc_main() { y = h(); } int y; int h() { return y; }",
        "int y; splitc_main() { int y = y; }",
    ];
    assert_eq!(rt; refused_sources(&rt, &whole)?.as_str(), "");
    Ok(())
}

#[test]
fn names_of_the_library_are_not_declared(rt: HostRuntime) -> Result<(), Fail> {
    let bodies = [("int\nbarrier;", 3, 3), ("{ int x,\nprintf; }", 3, 3)];
    assert_eq!(rt; wrong_bodies(&rt, &bodies)?.as_str(), "");
    let sources = [
        ("int\nprintf; splitc_main() { }", 3, 2),
        ("int\nbulk_get() { return 1; } splitc_main() { }", 3, 2),
        ("void\nsync(); splitc_main() { }", 3, 2),
        ("int h(int\ntoproc) { return 1; } splitc_main() { }", 3, 2),
        (
            "int h(int *global\n*spread\ntolocal) { return 1; } splitc_main() { }",
            3,
            3,
        ),
    ];
    assert_eq!(rt; wrong_sources(&rt, &sources)?.as_str(), "");
    assert_eq!(rt;
        refused_bodies(&rt, &["int print_f, Sync, barriers;"])?.as_str(),
        ""
    );
    Ok(())
}

#[test]
fn splitc_main_is_defined_without_parameters(rt: HostRuntime) -> Result<(), Fail> {
    let sources = [
        ("void h() {\n}", 4, 2),
        ("int x\n;", 4, 2),
        ("int\nsplitc_main(int a) { return a; }", 4, 2),
        ("int *\nsplitc_main() { return NULL; }", 4, 2),
    ];
    assert_eq!(rt; wrong_sources(&rt, &sources)?.as_str(), "");
    let whole = [
        "splitc_main() { }",
        "void splitc_main() { }",
        "int splitc_main(void) { return 0; }",
        "splitc_main(); splitc_main() { }",
    ];
    assert_eq!(rt; refused_sources(&rt, &whole)?.as_str(), "");
    Ok(())
}

#[test]
fn prototypes_have_the_types_of_their_definition(rt: HostRuntime) -> Result<(), Fail> {
    let sources = [
        ("int\nh(int a); splitc_main() { }", 5, 2),
        (
            "int\nh(int a); int h(int *a) { return 0; } splitc_main() { }",
            5,
            2,
        ),
        (
            "int\nh(int a); int h() { return 0; } splitc_main() { }",
            5,
            2,
        ),
        ("int\nh(); void h() { } splitc_main() { }", 5, 2),
        (
            "int *global\nh(int); int *spread h(int a) { return NULL; } splitc_main() { }",
            5,
            2,
        ),
        ("int h(\nint) { return 0; } splitc_main() { }", 5, 2),
        ("int h(int a,\nint *) { return 0; } splitc_main() { }", 5, 2),
    ];
    assert_eq!(rt; wrong_sources(&rt, &sources)?.as_str(), "");
    let whole = [
        "int h(int a); int h(int b) { return b; } splitc_main() { }",
        "int h(int *global, int a); h(int *global b, int); int h(int *global c, int d) { return d; } splitc_main() { }",
        "void h(void) { } void h(); splitc_main() { }",
    ];
    assert_eq!(rt; refused_sources(&rt, &whole)?.as_str(), "");
    Ok(())
}
