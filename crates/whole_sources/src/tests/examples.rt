//! The sources of `examples/`, word for word, each with what the program makes of it. A test reads no file, so
//! `examples/agree` compares them. What is wanted was found by hand.

use super::{run_program, text_is};
use std::test::Fail;

/// A source of `examples/`, and what the program answers and writes.
#[derive(Drop)]
struct Example {
    name: &'static str,
    words: &'static str,
    source: &'static str,
    status: u8,
    out: &'static str,
    err: &'static str,
}

#[test]
fn examples_are_run(rt: HostRuntime) -> Result<(), Fail> {
    let examples = [
        Example {
            name: "hello",
            words: "run -n 2",
            source: r#"splitc_main() { printf("hello from node %d of %d\n", MYPROC, PROCS); }
"#,
            status: 0,
            out: r#"== node 0 ==
hello from node 0 of 2
-- ended --
== node 1 ==
hello from node 1 of 2
-- ended --
"#,
            err: "",
        },
        Example {
            name: "text",
            words: "run -n 1",
            source: r#"#include <stdio.h>
#define SIZE 0x10
// a comment to the end of its line
/* and one
   that ends where it says */
splitc_main() { printf("100%% \"of\" %d\n", SIZE); }
"#,
            status: 0,
            out: r#"== node 0 ==
100% "of" 16
-- ended --
"#,
            err: "",
        },
        Example {
            name: "objects",
            words: "run -n 2 -m",
            source: r#"int x;
int M[2][3];
int A[PROCS + 1]::;
int B[2]::[2];
splitc_main() {
  x = MYPROC + 1;
  M[1][2] = 10 * x;
  A[MYPROC] = x;
  if (MYPROC == 0) B[1][1] = 9;
}
"#,
            status: 0,
            out: r#"== node 0 ==
-- ended --
== node 1 ==
-- ended --
== memory ==
x@0 = 1
x@1 = 2
M@0 = 0 0 0 0 0 10
M@1 = 0 0 0 0 0 20
A = 1 2 0
B = 0 0 0 9
"#,
            err: "",
        },
        Example {
            name: "blocks",
            words: "run -n 2 -m",
            source: r#"/* two cells in each block, and the blocks in turn on the nodes */
int A[4]::[2];
splitc_main() {
  int i = 0;
  if (MYPROC == 0)
    while (i < 4) { A[i][0] = i; A[i][1] = 10 * i; i += 1; }
}
"#,
            status: 0,
            out: r#"== node 0 ==
-- ended --
== node 1 ==
-- ended --
== memory ==
A = 0 0 1 10 2 20 3 30
"#,
            err: "",
        },
        Example {
            name: "locals",
            words: "run -n 1",
            source: r#"splitc_main() {
  int a = 2, b, *p;
  { int a = 5; b = a; }
  printf("%d %d %d\n", a, b, p == NULL);
}
"#,
            status: 0,
            out: r#"== node 0 ==
2 5 1
-- ended --
"#,
            err: "",
        },
        Example {
            name: "places",
            words: "run -n 2 -m",
            source: r#"int x;
int *p;
int *global g;
splitc_main() {
  p = &x;
  *p = 4;
  g = (int *global) p;
  g[0] += 1;
  printf("%d %d\n", x, p == tolocal(g));
}
"#,
            status: 0,
            out: r#"== node 0 ==
5 1
-- ended --
== node 1 ==
5 1
-- ended --
== memory ==
x@0 = 5
x@1 = 5
p@0 = x@0+0
p@1 = x@0+0
g@0 = x@0+0
g@1 = x@1+0
"#,
            err: "",
        },
        Example {
            name: "local_pointer",
            words: "run -n 2",
            source: r#"int x;
int *p;
splitc_main() {
  int *q = &x;
  *q = MYPROC + 10;
  p = q;
  printf("node %d has %d\n", MYPROC, *p);
}
"#,
            status: 0,
            out: r#"== node 0 ==
node 0 has 10
-- ended --
== node 1 ==
node 1 has 11
-- ended --
"#,
            err: "",
        },
        Example {
            name: "global_pointer",
            words: "run -n 2 -m",
            source: r#"/* each node writes into the memory of the next one */
int x;
splitc_main() {
  int *global g = toglobal((MYPROC + 1) % PROCS, &x);
  *g = MYPROC;
  printf("node %d wrote to node %d\n", MYPROC, toproc(g));
}
"#,
            status: 0,
            out: r#"== node 0 ==
node 0 wrote to node 1
-- ended --
== node 1 ==
node 1 wrote to node 0
-- ended --
== memory ==
x@0 = 1
x@1 = 0
"#,
            err: "",
        },
        Example {
            name: "spread_pointer",
            words: "run -n 2",
            source: r#"#define CELLS 8
int A[CELLS]::;
splitc_main() {
  int *spread s = A;
  int i = 0;
  if (MYPROC == 0) while (i < CELLS) { *s++ = i * i; i++; }
  s = A + 3;
  printf("element 3 is on node %d\n", toproc(s));
}
"#,
            status: 0,
            out: r#"== node 0 ==
element 3 is on node 1
-- ended --
== node 1 ==
element 3 is on node 1
-- ended --
"#,
            err: "",
        },
        Example {
            name: "operators",
            words: "run -n 1",
            source: r#"splitc_main() {
  int a = 7, b = -2;
  printf("%d %d %d\n", a / b, a % b, a << 3);
  printf("%d %d %d\n", a >> 1, ~a, a ^ 5);
  printf("%d %d\n", a < b || !b, a ? b : 0);
  a += b;
  printf("%d %d %d\n", a++, a, ++a);
}
"#,
            status: 0,
            out: r#"== node 0 ==
-3 1 56
3 -8 2
0 -2
5 6 7
-- ended --
"#,
            err: "",
        },
        Example {
            name: "order",
            words: "run -n 1",
            source: r#"int x, y;
splitc_main() {
  y = x++ * 10 + x++ + x * 100;
  0 && (x = 7);
  printf("%d %d\n", x, y);
}
"#,
            status: 0,
            out: r#"== node 0 ==
2 201
-- ended --
"#,
            err: "",
        },
        Example {
            name: "neighbour",
            words: "run -n 1",
            source: r#"int A[8]::;
splitc_main() {
  int next;
  int x;
  next = MYPROC + 1;
  next = next % PROCS;
  A[next] = MYPROC;
  x = A[MYPROC];
  printf("node %d sees %d\n", MYPROC, x);
}
"#,
            status: 0,
            out: r#"== node 0 ==
node 0 sees 0
-- ended --
"#,
            err: "",
        },
        Example {
            name: "statements",
            words: "run -n 1",
            source: r#"splitc_main() {
  int n = 27, steps = 0;
  while (n != 1) {
    if (n % 2 == 0) n /= 2;
    else if (n > 1) n = 3 * n + 1;
    else ;
    steps++;
  }
  printf("%d steps\n", steps);
}
"#,
            status: 0,
            out: r#"== node 0 ==
111 steps
-- ended --
"#,
            err: "",
        },
        Example {
            name: "sum",
            words: "run -n 2",
            source: r#"int A[10]::;
splitc_main() {
  int i;
  int x;
  int sum;
  while (i < 10) { A[i] = i * i; i = i + 1; }
  i = 0;
  while (i < 10) { x = A[i]; sum = sum + x; i = i + 1; }
  printf("%d\n", sum);
}
"#,
            status: 0,
            out: r#"== node 0 ==
285
-- ended --
== node 1 ==
285
-- ended --
"#,
            err: "",
        },
        Example {
            name: "loops",
            words: "run -n 2 -m",
            source: r#"int A[8]::;
splitc_main() {
  int i;
  for_my_1d(i, 8) A[i] = i;
  for (i = 0; i < 8; i++) { if (i == 2) continue; if (i == 5) break; }
  do i--; while (i > 0);
}
"#,
            status: 0,
            out: r#"== node 0 ==
-- ended --
== node 1 ==
-- ended --
== memory ==
A = 0 1 2 3 4 5 6 7
"#,
            err: "",
        },
        Example {
            name: "functions",
            words: "run -n 2",
            source: r#"int square(int n);
int square(int n) { return n * n; }
void show(int n) { printf("%d\n", n); }
splitc_main() { show(square(9)); }
"#,
            status: 0,
            out: r#"== node 0 ==
81
-- ended --
== node 1 ==
81
-- ended --
"#,
            err: "",
        },
        Example {
            name: "printing",
            words: "run -n 2",
            source: r#"splitc_main() {
  printf("%d%% of ", 50);
  printf("%d", MYPROC + 1);
}
"#,
            status: 0,
            out: r#"== node 0 ==
50% of 1
-- ended --
== node 1 ==
50% of 2
-- ended --
"#,
            err: "",
        },
        Example {
            name: "split_phase",
            words: "run -n 2",
            source: r#"int A[PROCS]::;
splitc_main() {
  int x;
  A[MYPROC] := 10 + MYPROC;
  sync();
  barrier();
  x := A[(MYPROC + 1) % PROCS];
  sync();
  barrier();
  A[0] :- x;
  all_store_sync();
  printf("%d\n", x);
}
"#,
            status: 0,
            out: r#"== node 0 ==
11
-- ended --
== node 1 ==
10
-- ended --
"#,
            err: "",
        },
        Example {
            name: "bulk",
            words: "run -n 2 -m",
            source: r#"int X[PROCS]::[4];
int mine[4];
splitc_main() {
  mine[1] = MYPROC + 5;
  bulk_write(X[MYPROC], mine, 4 * sizeof(int));
  barrier();
  bulk_get(mine, X[(MYPROC + 1) % PROCS], 4 * sizeof(int));
  sync();
}
"#,
            status: 0,
            out: r#"== node 0 ==
-- ended --
== node 1 ==
-- ended --
== memory ==
X = 0 5 0 0 0 6 0 0
mine@0 = 0 6 0 0
mine@1 = 0 5 0 0
"#,
            err: "",
        },
        Example {
            name: "fault",
            words: "run -n 2 -m",
            source: r#"int A[2]::;
splitc_main() {
  A[0] = 10
    / MYPROC;
}
"#,
            status: 10,
            out: r#"== node 0 ==
-- fault Divide line 4 --
== node 1 ==
-- ended --
== memory ==
A = 10 0
"#,
            err: "",
        },
        Example {
            name: "budget",
            words: "run -n 1 -b 3",
            source: r#"splitc_main() {
  int i;
  while (i < 4) { printf("%d", i); i++; }
}
"#,
            status: 12,
            out: r#"== node 0 ==
012
-- cut --
"#,
            err: "",
        },
        Example {
            name: "refused",
            words: "run -n 2",
            source: r#"int x;
splitc_main() {
  x = y;
}
"#,
            status: 3,
            out: "",
            err: "splitc: rule 2 on line 3\n",
        },
    ];
    for example in &examples {
        let told = run_program(rt.alloc(), example.words, example.source)?;
        assert_eq!(rt; told.status, example.status, "of {}", example.name);
        text_is(&rt, told.out.as_slice(), example.out, example.name);
        text_is(&rt, told.err.as_slice(), example.err, example.name);
    }
    Ok(())
}
