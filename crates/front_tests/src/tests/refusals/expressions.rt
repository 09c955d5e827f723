//! Names, operators and places: rules 6 to 16, and 24 of expressions.

use super::{refused_bodies, wrong_bodies};
use std::test::Fail;

#[test]
fn functions_are_called_and_nothing_else_is(rt: HostRuntime) -> Result<(), Fail> {
    let bodies = [
        ("x =\nf;", 6, 3),
        ("\nbarrier;", 6, 3),
        ("x =\nx();", 6, 3),
        ("int a;\na();", 6, 3),
        ("int f;\nf(1, NULL);", 6, 3),
        ("int barrier_;\nsync = 1;", 6, 3),
        ("p = &\nf;", 6, 3),
    ];
    assert_eq!(rt; wrong_bodies(&rt, &bodies)?.as_str(), "");
    assert_eq!(rt;
        refused_bodies(&rt, &["v(); f(1, p);", "x = f(f(1, p), p);"])?.as_str(),
        ""
    );
    Ok(())
}

#[test]
fn objects_have_their_indices(rt: HostRuntime) -> Result<(), Fail> {
    let bodies = [
        ("p =\nM;", 7, 3),
        ("x = *\nM;", 7, 3),
        ("x =\nD[0];", 7, 3),
        ("s =\nD;", 7, 3),
        ("g =\nC;", 7, 3),
        ("p = &\nM;", 7, 3),
    ];
    assert_eq!(rt; wrong_bodies(&rt, &bodies)?.as_str(), "");
    let accepted = [
        "x = x + B[0] + M[1][2] + A[3] + C[3][1] + D[1][1];",
        "p = B; p = M[1]; s = A; g = A; g = C[1];",
        "x = (B)[1] + (M)[1][2] + (M[1])[2] + *B + *M[1];",
        "p = &B[1]; p = &M[1][2]; s = &A[1]; s = &D[1][1]; g = &C[1][0]; g = &A[1];",
    ];
    assert_eq!(rt; refused_bodies(&rt, &accepted)?.as_str(), "");
    Ok(())
}

#[test]
fn indices_are_ints(rt: HostRuntime) -> Result<(), Fail> {
    let bodies = [
        ("x = B\n[p];", 8, 3),
        ("x = M[0]\n[NULL];", 8, 3),
        ("x = p\n[g];", 8, 3),
        ("x = C\n[p]\n[p];", 8, 3),
    ];
    assert_eq!(rt; wrong_bodies(&rt, &bodies)?.as_str(), "");
    assert_eq!(rt;
        refused_bodies(&rt, &["x = B[x] + p[A[0]] + C[x][B[0]];"])?.as_str(),
        ""
    );
    Ok(())
}

#[test]
fn operands_of_arithmetic_are_ints(rt: HostRuntime) -> Result<(), Fail> {
    let bodies = [
        ("x = p\n* 1;", 9, 3),
        ("x = 1\n/ p;", 9, 3),
        ("x = 1\n% NULL;", 9, 3),
        ("x = p\n& 1;", 9, 3),
        ("x = p\n| 1;", 9, 3),
        ("x = p\n^ 1;", 9, 3),
        ("x = 1\n<< p;", 9, 3),
        ("x = p\n>> 1;", 9, 3),
        ("x = p\n< p;", 9, 3),
        ("x = p\n<= p;", 9, 3),
        ("x = p\n> p;", 9, 3),
        ("x = 1 < 2\n>= p;", 9, 3),
        ("x =\n-p;", 9, 3),
        ("x =\n+p;", 9, 3),
        ("x =\n~p;", 9, 3),
    ];
    assert_eq!(rt; wrong_bodies(&rt, &bodies)?.as_str(), "");
    let accepted = [
        "x = x * 2 / 3 % 4 & 5 | 6 ^ 7 << 1 >> 2;",
        "x = (x < 1) + (x <= 1) + (x > 1) + (x >= 1) + -x + +x + ~x;",
        "x = MYPROC * PROCS * sizeof(int);",
    ];
    assert_eq!(rt; refused_bodies(&rt, &accepted)?.as_str(), "");
    Ok(())
}

#[test]
fn what_is_compared_fits(rt: HostRuntime) -> Result<(), Fail> {
    let bodies = [
        ("x = p\n== x;", 10, 3),
        ("x = 1\n!= p;", 10, 3),
        ("x = p\n== pp;", 10, 3),
        ("x = s\n== p;", 10, 3),
        ("x = 1 == 1\n== p;", 10, 3),
    ];
    assert_eq!(rt; wrong_bodies(&rt, &bodies)?.as_str(), "");
    let accepted = [
        "x = (x == 1) + (p == 0) + (0 == p) + (p != NULL) + (NULL == g);",
        "x = (p == g) + (g != s) + (s == s) + (pp == NULL) + (NULL == NULL);",
        "x = 1 == 2 == 3; x = p == p == 1;",
    ];
    assert_eq!(rt; refused_bodies(&rt, &accepted)?.as_str(), "");
    Ok(())
}

#[test]
fn sums_are_of_ints_or_of_a_pointer_and_an_int(rt: HostRuntime) -> Result<(), Fail> {
    let bodies = [
        ("x = x\n+ p;", 11, 3),
        ("x = 1\n- p;", 11, 3),
        ("p = p\n+ p;", 11, 3),
        ("p = p\n- p;", 11, 3),
        ("x = 1 +\nv();", 11, 2),
        ("p = p + 1\n+ NULL;", 11, 3),
    ];
    assert_eq!(rt; wrong_bodies(&rt, &bodies)?.as_str(), "");
    let accepted = [
        "x = x + 1 - 2; p = p + 1 - x; g = g - 1; s = s + 2; pp = pp + 1;",
        "p = B + 1; g = C[0] + 1; s = A - 1;",
    ];
    assert_eq!(rt; refused_bodies(&rt, &accepted)?.as_str(), "");
    Ok(())
}

#[test]
fn tests_are_ints_or_pointers(rt: HostRuntime) -> Result<(), Fail> {
    let bodies = [
        ("while (\nv()) { }", 12, 3),
        ("if (x) { } else if (\nv()) { }", 12, 3),
        ("do { } while (\nv());", 12, 3),
        ("for (;\nv();) { }", 12, 3),
        ("x = !\nv();", 12, 3),
        ("x = 1 &&\nv();", 12, 3),
        ("x =\nv() || 1;", 12, 3),
        ("x =\nv() ? 1 : 2;", 12, 3),
        ("x = 1 ||\n(v());", 12, 3),
    ];
    assert_eq!(rt; wrong_bodies(&rt, &bodies)?.as_str(), "");
    let accepted = [
        "while (p) { } if (g) { } else if (NULL) { } do { } while (s); for (; pp;) { }",
        "x = !p + !x; x = p && 1 && g; x = x || s; x = p ? 1 : 2;",
    ];
    assert_eq!(rt; refused_bodies(&rt, &accepted)?.as_str(), "");
    Ok(())
}

#[test]
fn what_is_reached_is_a_pointer(rt: HostRuntime) -> Result<(), Fail> {
    let bodies = [
        ("x =\n*x;", 13, 3),
        ("x = x\n[0];", 13, 3),
        ("x = B[0]\n[0];", 13, 3),
        ("x = p[0]\n[0];", 13, 3),
        ("x =\n**p;", 13, 3),
        ("x = *\n*p;", 13, 2),
    ];
    assert_eq!(rt; wrong_bodies(&rt, &bodies)?.as_str(), "");
    let accepted = ["x = *p + p[1] + *B + *g + g[2] + *s + s[1] + **pp + pp[0][1] + (*pp)[1];"];
    assert_eq!(rt; refused_bodies(&rt, &accepted)?.as_str(), "");
    Ok(())
}

#[test]
fn addresses_are_of_memory(rt: HostRuntime) -> Result<(), Fail> {
    let bodies = [
        ("p =\n&1;", 14, 3),
        ("int a; p =\n&a;", 14, 3),
        ("p =\n&(x + 1);", 14, 3),
        ("p =\n&p++;", 14, 3),
        ("p =\n&B;", 14, 3),
        ("p =\n&(z + 1);", 14, 3),
    ];
    assert_eq!(rt; wrong_bodies(&rt, &bodies)?.as_str(), "");
    let accepted = ["p = &x; p = &*p; p = &p[1]; g = &*g; s = &s[1]; pp = &p; p = &(x);"];
    assert_eq!(rt; refused_bodies(&rt, &accepted)?.as_str(), "");
    Ok(())
}

#[test]
fn what_is_assigned_fits(rt: HostRuntime) -> Result<(), Fail> {
    let bodies = [
        ("x\n= p;", 15, 3),
        ("1\n= x;", 15, 3),
        ("B\n= p;", 15, 3),
        ("p\n= g;", 15, 3),
        ("p\n= s;", 15, 3),
        ("s\n= g;", 15, 3),
        ("s\n= p;", 15, 3),
        ("p\n= pp;", 15, 3),
        ("p\n= 1;", 15, 3),
        ("x\n= NULL;", 15, 3),
        ("x\n= v();", 15, 3),
        ("f(1, p)\n= 1;", 15, 3),
        ("p + 1\n= p;", 15, 3),
        ("int a\n= p;", 15, 3),
        ("int a, *b\n= 2;", 15, 3),
        ("x = p\n= 1;", 15, 3),
    ];
    assert_eq!(rt; wrong_bodies(&rt, &bodies)?.as_str(), "");
    let accepted = [
        "g = p; g = s; g = NULL; p = 0; s = NULL; pp = 0; x = x = 1; g = p = NULL;",
        "*p = 1; p[1] = 2; *g = 3; A[1] = 4; C[1][0] = 5; *pp = p; B[0] = 0;",
        "int a = 1, *b = NULL, *global d = p; int *spread e = A; a = 2; b = p;",
        "p = (NULL); p = x ? p : 0;",
    ];
    assert_eq!(rt; refused_bodies(&rt, &accepted)?.as_str(), "");
    Ok(())
}

#[test]
fn what_is_stepped_is_a_place(rt: HostRuntime) -> Result<(), Fail> {
    let bodies = [
        ("p\n*= 2;", 16, 3),
        ("p\n<<= 1;", 16, 3),
        ("x\n+= p;", 16, 3),
        ("p\n-= p;", 16, 3),
        ("1\n+= 1;", 16, 3),
        ("B\n+= 1;", 16, 3),
        ("x = 1;\n++1;", 16, 3),
        ("x = 1;\n--B;", 16, 3),
        ("x++\n++;", 16, 3),
        ("(x + 1)\n--;", 16, 3),
        ("\n++(z + 1);", 16, 3),
    ];
    assert_eq!(rt; wrong_bodies(&rt, &bodies)?.as_str(), "");
    let accepted = [
        "p += 1; g -= x; s += 1; x += 1; x -= 1; x *= 2; x /= 2; x %= 2; x &= 1; x |= 1; x ^= 1; x <<= 1; x >>= 1;",
        "p++; --p; x++; ++x; B[0]--; g++; s--; (*p)++; *p++ = 1; int a; a++; a += 1;",
    ];
    assert_eq!(rt; refused_bodies(&rt, &accepted)?.as_str(), "");
    Ok(())
}

#[test]
fn void_values_arms_and_casts(rt: HostRuntime) -> Result<(), Fail> {
    let bodies = [
        ("x = 1;\nv() + 1;", 24, 3),
        ("x = x ?\nv() : v();", 24, 3),
        ("for (\nv();;) { }", 24, 3),
        ("for (;;\nv()) { }", 24, 3),
        ("x = *p++;\n(sync())[0];", 24, 3),
        ("x = x\n? x : p;", 24, 3),
        ("p = x\n? p : pp;", 24, 3),
        ("x =\n(int) p;", 24, 3),
        ("g =\n(int *global) 0;", 24, 3),
        ("p =\n(int *) p;", 24, 3),
        ("g =\n(int **global) p;", 24, 3),
        ("g =\n(int *global) x;", 24, 3),
    ];
    assert_eq!(rt; wrong_bodies(&rt, &bodies)?.as_str(), "");
    let accepted = [
        "v(); sync(); (v());",
        "g = x ? p : g; g = x ? s : g; p = x ? p : NULL; p = x ? 0 : p; x = x ? 0 : 1; pp = x ? pp : NULL;",
        "g = (int *global) p; g = (int *global) s; s = (int *spread) g; s = (int *spread) p; x = (int) x;",
        "g = (int *global) NULL; int **global h; h = (int **global) pp;",
    ];
    assert_eq!(rt; refused_bodies(&rt, &accepted)?.as_str(), "");
    Ok(())
}
