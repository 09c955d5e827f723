//! Expressions and their values, and faults on their lines, by hand after the rules of evaluation.

use super::{run_program, text_is};
use std::test::Fail;

/// Each text is printed as the value of an expression with `a` 7 and `b` 2, by the one node.
#[test]
fn operators_have_their_values(rt: HostRuntime) -> Result<(), Fail> {
    let table = [
        ("a + b", "9"),
        ("a - b", "5"),
        ("a - b - 1", "4"),
        ("a * b", "14"),
        ("2 + 3 * 4", "14"),
        ("a / b", "3"),
        ("-a / b", "-3"),
        ("a % b", "1"),
        ("-a % b", "-1"),
        ("a & b", "2"),
        ("a | 8", "15"),
        ("a ^ b", "5"),
        ("a << b", "28"),
        ("a >> 1", "3"),
        ("a < b", "0"),
        ("a <= 7", "1"),
        ("a > b", "1"),
        ("a >= 8", "0"),
        ("a == 7", "1"),
        ("a != 7", "0"),
        ("!a", "0"),
        ("!0", "1"),
        ("~a", "-8"),
        ("-a", "-7"),
        ("+a", "7"),
        ("a && b", "1"),
        ("a && 0", "0"),
        ("0 || b", "1"),
        ("0 || 0", "0"),
        ("a ? 3 : 4", "3"),
        ("0 ? 3 : 4", "4"),
        ("a = 5", "5"),
        ("a += 3", "10"),
        ("a -= 3", "4"),
        ("a *= 3", "21"),
        ("a /= 2", "3"),
        ("a %= 4", "3"),
        ("a &= 3", "3"),
        ("a |= 8", "15"),
        ("a ^= 1", "6"),
        ("a <<= 1", "14"),
        ("a >>= 1", "3"),
        ("a++", "7"),
        ("++a", "8"),
        ("a--", "7"),
        ("--a", "6"),
        ("sizeof(int)", "8"),
        ("MYPROC", "0"),
        ("PROCS", "1"),
        ("(int) a", "7"),
        ("&x == NULL", "0"),
        ("p == NULL", "1"),
        ("!p", "1"),
        ("p == 0 && g == p", "1"),
        ("(p = &x) == &x", "1"),
        ("*(p = &x)", "0"),
        ("B[1] = B[1] + 4", "4"),
        ("*(B + 2) = 6", "6"),
        ("(&B[3] - 1)[1]", "0"),
        ("toproc(g = &x)", "0"),
        ("*tolocal(toglobal(0, &x))", "0"),
    ];
    for (expression, value) in table {
        let source = format!(in rt.alloc();
            "int x; int B[4]; int *p; int *global g; splitc_main() {{ int a = 7, b = 2; printf(\"%d\", {expression}); }}"
        )?;
        let told = run_program(rt.alloc(), "run -n 1", source.as_str())?;
        let wanted = format!(in rt.alloc(); "== node 0 ==\n{value}\n-- ended --\n")?;
        text_is(&rt, told.out.as_slice(), wanted.as_str(), expression);
    }
    Ok(())
}

/// Each text is the body of `splitc_main` and begins on line 2, and the one node ends with the fault.
#[test]
fn faults_name_their_line(rt: HostRuntime) -> Result<(), Fail> {
    let table = [
        ("a = 9223372036854775807\n+ 1;", "Overflow line 3"),
        ("a = -9223372036854775807 - 1; a =\n-a;", "Overflow line 3"),
        ("a = 9223372036854775807; a\n+= 1;", "Overflow line 3"),
        ("a = 9223372036854775807; a\n++;", "Overflow line 3"),
        ("a = 1\n/ 0;", "Divide line 3"),
        ("a = 1\n% 0;", "Divide line 3"),
        ("a\n/= 0;", "Divide line 3"),
        ("a = 1\n<< 64;", "Shift line 3"),
        ("a = 1\n>> -1;", "Shift line 3"),
        ("B\n[4] = 1;", "Index line 3"),
        ("B\n[-1] = 1;", "Index line 3"),
        ("M[2]\n[0] = 1;", "Index line 3"),
        ("A\n[4] = 1;", "Index line 3"),
        ("p = B + 5; a = 1 +\n*p;", "Index line 3"),
        ("*p\n= 1;", "NullUse line 3"),
        ("a = 1 +\n*p;", "NullUse line 3"),
        ("a\n= *p;", "NullUse line 3"),
        ("a = 1 + p\n[1];", "NullUse line 3"),
        ("int c = 1, d\n= *p;", "NullUse line 2"),
        ("(*p)\n++;", "NullUse line 3"),
        ("p = p\n+ 1;", "NullUse line 3"),
        ("a =\ntoproc(g);", "NullUse line 3"),
        ("g =\ntoglobal(1, &x);", "BadNode line 3"),
        ("g =\ntoglobal(-1, &x);", "BadNode line 3"),
    ];
    for (body, fault) in table {
        let source = format!(in rt.alloc();
            "int x; int B[4]; int M[2][3]; int A[4]::; int *p; int *global g; splitc_main() {{ int a;\n{body} }}"
        )?;
        let told = run_program(rt.alloc(), "run -n 1", source.as_str())?;
        let wanted = format!(in rt.alloc(); "== node 0 ==\n-- fault {fault} --\n")?;
        text_is(&rt, told.out.as_slice(), wanted.as_str(), body);
    }
    Ok(())
}

/// Each source on one node, and what it leaves in its objects.
#[test]
fn parts_are_evaluated_in_order_and_as_needed(rt: HostRuntime) -> Result<(), Fail> {
    let table = [
        // all indices before the first is tested
        (
            "int x; int M[2][3]; splitc_main() { M[x = 5][x = 6] = 1; }",
            "-- fault Index line 1 --\n== memory ==\nx@0 = 6\nM@0 = 0 0 0 0 0 0\n",
        ),
        // the right side before the place's own tests
        (
            "int x; int *p; splitc_main() { *p = (x = 1); }",
            "-- fault NullUse line 1 --\n== memory ==\nx@0 = 1\np@0 = null\n",
        ),
        // a compound assignment reads before its right side
        (
            "int x; splitc_main() { x = 1; x += (x = 5); }",
            "-- ended --\n== memory ==\nx@0 = 6\n",
        ),
        // what is not needed is not evaluated
        (
            "int x; splitc_main() { 0 && (x = 1); 1 || (x = 2); 1 ? 0 : (x = 3); }",
            "-- ended --\n== memory ==\nx@0 = 0\n",
        ),
        // from left to right
        (
            "int x; int y; splitc_main() { y = x++ * 10 + x++ + x * 100; }",
            "-- ended --\n== memory ==\nx@0 = 2\ny@0 = 201\n",
        ),
        // a declaration begins anew in each turn
        (
            "int x; splitc_main() { int i = 0; while (i < 3) { int n; n++; x += n; i++; } }",
            "-- ended --\n== memory ==\nx@0 = 3\n",
        ),
        // the first arm whose test is true
        (
            "int x; splitc_main() { if (0) x = 1; else if (2) x = 2; else x = 3; if (0) ; else { x += 10; } }",
            "-- ended --\n== memory ==\nx@0 = 12\n",
        ),
    ];
    for (source, left) in table {
        let told = run_program(rt.alloc(), "run -n 1 -m", source)?;
        let wanted = format!(in rt.alloc(); "== node 0 ==\n{left}")?;
        text_is(&rt, told.out.as_slice(), wanted.as_str(), source);
    }
    Ok(())
}
