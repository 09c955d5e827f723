//! Places whose form tells which they are, whatever types are missing: rules 14, 16, 17 and 18.

use super::{rule, wrong_sources};
use std::test::Fail;

/// The texts that are not refused for their rule and line as the body of `splitc_main`, which begins on line 2 and sees
/// these objects.
fn wrong_places(rt: &HostRuntime, table: &[(&str, u32, u32)]) -> Result<String, Fail> {
    let mut wrong = format!(in rt.alloc(); "")?;
    for (body, number, line) in table {
        let source = format!(in rt.alloc();
            "int m[2][3]; int o[3]; int *p; int **pp; int T[4]::[2]; int A[4]::; int D[2][2]::; int *global g; splitc_main() {{ int x;\n{body}\n}}"
        )?;
        if super::refusal(rt, source.as_str())? != rule(*number, *line) {
            wrong = format!(in rt.alloc(); "{wrong}{body}\n")?;
        }
    }
    Ok(wrong)
}

#[test]
fn a_missing_type_hides_no_place(rt: HostRuntime) -> Result<(), Fail> {
    let bodies = [
        // an object without its last index is a pointer and no place
        ("&\nm[q];", 14, 2),
        ("&\nm[m[0]];", 14, 2),
        ("&\nT[q];", 14, 2),
        ("++\nm[q];", 16, 2),
        ("++\nT[q];", 16, 2),
        ("--\nm[m[0]];", 16, 2),
        ("x\n:=\nm[q];", 17, 3),
        ("x\n:=\nT[q];", 17, 3),
        // an element of an ordinary array, and what a local pointer reaches, is not global
        ("x\n:=\no[q];", 17, 3),
        ("x\n:=\no[o];", 17, 3),
        ("x\n:=\nm[0][q];", 17, 3),
        ("x\n:=\np[q];", 17, 3),
        ("x\n:=\npp[q];", 17, 3),
    ];
    assert_eq!(rt; wrong_places(&rt, &bodies)?.as_str(), "");
    Ok(())
}

#[test]
fn what_the_form_leaves_open_breaks_no_rule(rt: HostRuntime) -> Result<(), Fail> {
    let bodies = [
        ("&\nq;", 2, 3),
        ("&\no[q];", 2, 3),
        ("&\nT[q][0];", 2, 3),
        ("&\np[q];", 2, 3),
        ("&\n*q;", 2, 3),
        ("&\nD[q];", 7, 3),
        ("++\nm;", 7, 3),
        ("++\no[q];", 2, 3),
        ("x\n:=\nq;", 2, 4),
        ("x\n:=\n*q;", 2, 4),
        ("x\n:=\n*(p + q);", 2, 4),
        ("x\n:=\nA[q];", 2, 4),
        ("x\n:=\nT[0][q];", 2, 4),
        ("x\n:=\ng[q];", 2, 4),
        ("x\n:=\nD[0];", 7, 4),
        ("g[0]\n:=\nq;", 2, 4),
        ("A[0]\n:-\nq;", 2, 4),
        ("for_my_1d(\nm, 3) { }", 7, 3),
    ];
    assert_eq!(rt; wrong_places(&rt, &bodies)?.as_str(), "");
    Ok(())
}

#[test]
fn a_place_that_is_not_global_takes_no_value(rt: HostRuntime) -> Result<(), Fail> {
    let sources = [
        ("int o[3]; int i; splitc_main() { o[i]\n:= 1; }", 17, 2),
        ("int o[3]; int i; splitc_main() { o[i]\n:- 1; }", 18, 2),
    ];
    assert_eq!(rt; wrong_sources(&rt, &sources)?.as_str(), "");
    Ok(())
}
