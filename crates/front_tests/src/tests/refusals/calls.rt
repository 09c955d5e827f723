//! Calls: rules 19, 22 and 23.

use super::{refused_bodies, wrong_bodies, wrong_sources};
use std::test::Fail;

#[test]
fn arguments_fit_their_parameters(rt: HostRuntime) -> Result<(), Fail> {
    let bodies = [
        ("x =\nf(1);", 19, 3),
        ("x =\nf(1, p, 2);", 19, 3),
        ("x =\nf();", 19, 3),
        ("x =\nf(p, p);", 19, 3),
        ("x =\nf(1, g);", 19, 3),
        ("x =\nf(1, 2);", 19, 3),
        ("x =\nf(NULL, p);", 19, 3),
        ("x =\nv() + 1;", 24, 3),
        ("\nv(1);", 19, 3),
        ("x = 1;\nf(z);", 19, 3),
    ];
    assert_eq!(rt; wrong_bodies(&rt, &bodies)?.as_str(), "");
    let accepted = ["x = f(1, p) + f(x, NULL) + f(2, 0) + f(3, B) + f(4, &x);"];
    assert_eq!(rt; refused_bodies(&rt, &accepted)?.as_str(), "");
    Ok(())
}

#[test]
fn formats_are_first_in_printf(rt: HostRuntime) -> Result<(), Fail> {
    let bodies = [
        ("printf(\n\"%d\");", 22, 3),
        ("printf(\n\"%d\", 1, 2);", 22, 3),
        ("printf(\n\"a\", 1);", 22, 3),
        ("printf(\n\"%d\", p);", 22, 3),
        ("printf(\n\"%x\", 1);", 22, 3),
        ("printf(\n\"%\");", 22, 3),
        ("printf(\n\"%%%\");", 22, 3),
        ("x = 0;\nprintf(x);", 22, 3),
        ("x = 0;\nprintf();", 22, 3),
        ("printf(\"%d\",\n\"a\");", 22, 3),
        ("f(\n\"a\", p);", 22, 3),
        ("sync(\n\"a\");", 23, 2),
    ];
    assert_eq!(rt; wrong_bodies(&rt, &bodies)?.as_str(), "");
    let accepted = [
        "printf(\"\"); printf(\"a\"); printf(\"%d\", 1); printf(\"%d %% %d%%\", x, B[0]); printf(\"%%x\");",
    ];
    assert_eq!(rt; refused_bodies(&rt, &accepted)?.as_str(), "");
    Ok(())
}

#[test]
fn library_calls_have_their_arguments(rt: HostRuntime) -> Result<(), Fail> {
    let bodies = [
        ("\nsync(1);", 23, 3),
        ("\nbarrier(x);", 23, 3),
        ("\nall_store_sync(NULL);", 23, 3),
        ("g =\ntoglobal(p, p);", 23, 3),
        ("g =\ntoglobal(1);", 23, 3),
        ("g =\ntoglobal(1, g);", 23, 3),
        ("g =\ntoglobal(1, x);", 23, 3),
        ("x =\ntoproc(p);", 23, 3),
        ("x =\ntoproc(0);", 23, 3),
        ("x =\ntoproc(NULL);", 23, 3),
        ("x =\ntoproc(x);", 23, 3),
        ("p =\ntolocal(p);", 23, 3),
        ("p =\ntolocal(g, 1);", 23, 3),
        ("\nbulk_read(g, g, 8);", 23, 3),
        ("\nbulk_read(p, g);", 23, 3),
        ("\nbulk_read(p, g, p);", 23, 3),
        ("\nbulk_read(p, pp, 8);", 23, 3),
        ("\nbulk_get(s, g, 8);", 23, 3),
        ("\nbulk_write(g, g, 8);", 23, 3),
        ("\nbulk_put(x, p, 8);", 23, 3),
        ("\nbulk_store(g, s, 8);", 23, 3),
    ];
    assert_eq!(rt; wrong_bodies(&rt, &bodies)?.as_str(), "");
    let accepted = [
        "sync(); barrier(); all_store_sync();",
        "g = toglobal(0, p); g = toglobal(x, B); g = toglobal(1, NULL); g = toglobal(1, 0);",
        "x = toproc(g) + toproc(s) + toproc(A) + toproc(&C[0][0]); p = tolocal(g); p = tolocal(s);",
        "bulk_read(p, g, 8); bulk_read(B, A, 16); bulk_get(p, s, 8); bulk_read(p, p, 8); bulk_read(NULL, g, 0);",
        "bulk_write(g, p, 8); bulk_put(s, p, 16); bulk_store(g, B, 8); bulk_store(p, p, 8); bulk_store(NULL, NULL, 0);",
    ];
    assert_eq!(rt; refused_bodies(&rt, &accepted)?.as_str(), "");
    let sources = [(
        "int **pp; int **global h; splitc_main() {\nh = toglobal(1, pp); bulk_read(pp, h, 8); h = toglobal(1, NULL); }",
        15,
        2,
    )];
    assert_eq!(rt; wrong_sources(&rt, &sources)?.as_str(), "");
    Ok(())
}
