//! The core trees of sources, printed.

use core_lower::lower;
use front_end::{CompileError, accept};
use sc_core::{
    CoreArms, CoreExpr, CoreExprs, CoreFirst, CoreProgram, CoreStmt, CoreTests, Operation,
};
use std::alloc::{AllocError, Global};
use std::test::Fail;

/// Objects of every kind and two functions, on the first line.
const DECLARED: &str =
    "int x; int B[4]; int M[2][3]; int A[4]::; int C[4]::[2]; int D[2][2]::; int *p; int *global g; int *spread s; int **pp; int f(int a, int *q) { return a; } void v() { } splitc_main() {";

/// The arguments, each behind a comma but the first.
#[cycle(shown)]
fn arguments(alloc: Global, all: &CoreExprs) -> Result<String, AllocError> {
    let mut text = format!(in alloc; "")?;
    for e in all.as_slice() {
        let one = expression(alloc, e)?;
        text = joined(alloc, text, one)?;
    }
    Ok(text)
}

fn joined(alloc: Global, text: String, one: String) -> Result<String, AllocError> {
    if text.is_empty() {
        return Ok(one);
    }
    format!(in alloc; "{text}, {one}")
}

fn word(of_pointer: bool) -> &'static str {
    if of_pointer { "pointer " } else { "" }
}

#[cycle(shown)]
fn tests(alloc: Global, all: &CoreTests) -> Result<String, AllocError> {
    let mut text = format!(in alloc; "")?;
    for t in all.as_slice() {
        let word = word(t.of_pointer);
        let test = expression(alloc, &t.e)?;
        let one = format!(in alloc; "{word}{test}")?;
        text = joined(alloc, text, one)?;
    }
    Ok(text)
}

#[cycle(shown)]
fn first(alloc: Global, first: &CoreFirst) -> Result<String, AllocError> {
    match first {
        CoreFirst::Constant(c) => format!(in alloc; "{c:?}"),
        CoreFirst::Step {
            operation,
            arguments: all,
            line,
        } => {
            let all = arguments(alloc, all)?;
            step(alloc, *operation, *line, all)
        }
        CoreFirst::Every(all) => {
            let all = tests(alloc, all)?;
            format!(in alloc; "every({all})")
        }
        CoreFirst::Any(all) => {
            let all = tests(alloc, all)?;
            format!(in alloc; "any({all})")
        }
        CoreFirst::Choice {
            of_pointer,
            test,
            yes,
            no,
        } => {
            let word = word(*of_pointer);
            let test = expression(alloc, test.get())?;
            let yes = expression(alloc, yes.get())?;
            let no = expression(alloc, no.get())?;
            format!(in alloc; "choice({word}{test}, {yes}, {no})")
        }
        CoreFirst::Update {
            pointer,
            operation,
            right,
            taken_back,
            line,
        } => {
            let pointer = expression(alloc, pointer.get())?;
            let right = expression(alloc, right.get())?;
            let back = back(alloc, *taken_back)?;
            format!(in alloc; "update {operation:?}{back} {line}({pointer}, {right})")
        }
    }
}

fn back(alloc: Global, taken_back: Option<Operation>) -> Result<String, AllocError> {
    match taken_back {
        None => format!(in alloc; ""),
        Some(operation) => format!(in alloc; " back {operation:?}"),
    }
}

/// A step: what it does, its line, and what it takes.
fn step(alloc: Global, operation: Operation, line: u32, all: String) -> Result<String, AllocError> {
    match operation {
        Operation::Use(local) => format!(in alloc; "local {local} {line}"),
        Operation::Element { object, plain, .. } => {
            let plain = if plain { "" } else { " any" };
            format!(in alloc; "element{plain} {object} {line}({all})")
        }
        Operation::Address { object, .. } => { format!(in alloc; "address {object} {line}({all})") }
        Operation::Call { function, .. } => { format!(in alloc; "call {function} {line}({all})") }
        _ => format!(in alloc; "{operation:?} {line}({all})"),
    }
}

#[cycle(shown)]
fn expression(alloc: Global, e: &CoreExpr) -> Result<String, AllocError> {
    let mut text = first(alloc, &e.first)?;
    for link in e.links.as_slice() {
        let more = arguments(alloc, &link.more)?;
        let all = with_more(alloc, text, more)?;
        text = step(alloc, link.operation, link.line, all)?;
    }
    Ok(text)
}

fn with_more(alloc: Global, text: String, more: String) -> Result<String, AllocError> {
    if more.is_empty() {
        return Ok(text);
    }
    format!(in alloc; "{text}, {more}")
}

#[cycle(done)]
fn arms(alloc: Global, all: &CoreArms) -> Result<String, AllocError> {
    let mut text = format!(in alloc; "")?;
    for arm in all.as_slice() {
        let word = word(arm.of_pointer);
        let test = expression(alloc, &arm.test)?;
        let body = statement(alloc, &arm.body)?;
        text = format!(in alloc; "{text}if {word}{test}: {body} ")?;
    }
    Ok(text)
}

#[cycle(done)]
fn statements(alloc: Global, all: &[CoreStmt]) -> Result<String, AllocError> {
    let mut text = format!(in alloc; "")?;
    for s in all {
        let one = statement(alloc, s)?;
        text = if text.is_empty() {
            one
        } else {
            format!(in alloc; "{text}; {one}")?
        };
    }
    Ok(text)
}

#[cycle(done)]
fn statement(alloc: Global, s: &CoreStmt) -> Result<String, AllocError> {
    match s {
        CoreStmt::Nothing => format!(in alloc; "-"),
        CoreStmt::Break => format!(in alloc; "break"),
        CoreStmt::Continue => format!(in alloc; "continue"),
        CoreStmt::Block(all) => {
            let all = statements(alloc, all.as_slice())?;
            format!(in alloc; "{{{all}}}")
        }
        CoreStmt::Act {
            action,
            arguments: all,
            line,
        } => {
            let all = arguments(alloc, all)?;
            format!(in alloc; "{action:?} {line}({all})")
        }
        CoreStmt::Choose { arms: all, rest } => {
            let all = arms(alloc, all)?;
            let rest = statement(alloc, rest.get())?;
            format!(in alloc; "{all}else: {rest}")
        }
        CoreStmt::Loop {
            mine,
            before,
            body,
            after,
        } => {
            let mine = mine_word(*mine);
            let before = statement(alloc, before.get())?;
            let body = statement(alloc, body.get())?;
            let after = statement(alloc, after.get())?;
            format!(in alloc; "loop{mine} ({before}) ({body}) ({after})")
        }
        CoreStmt::Return { value, line } => {
            let value = expression(alloc, value)?;
            format!(in alloc; "return {line} {value}")
        }
    }
}

fn mine_word(mine: Option<u32>) -> &'static str {
    match mine {
        None => "",
        Some(_) => " mine",
    }
}

/// The core tree of the source, or None where it is refused.
pub fn core_of(rt: &HostRuntime, source: &str) -> Result<Option<CoreProgram>, Fail> {
    let bytes = source.as_bytes();
    if bytes.len() > 262144 {
        return Ok(None);
    }
    match accept(rt.alloc(), bytes, 2) {
        Ok(accepted) => match lower(rt.alloc(), &accepted.typed) {
            Ok(program) => Ok(Some(program)),
            Err(_) => Err(Fail::from(AllocError)),
        },
        Err(CompileError::Refused(_)) => Ok(None),
        Err(CompileError::OutOfMemory) => Err(Fail::from(AllocError)),
    }
}

/// What `splitc_main` does, which begins on line 2.
fn shown(rt: &HostRuntime, body: &str) -> Result<String, Fail> {
    let source = format!(in rt.alloc(); "{DECLARED}\n{body}\n}}")?;
    let found = core_of(rt, source.as_str())?;
    let Some(program) = found else {
        return Ok(format!(in rt.alloc(); "refused")?);
    };
    match program.functions.as_slice().get(program.main as usize) {
        Some(function) => Ok(statement(rt.alloc(), &function.body)?),
        None => Ok(format!(in rt.alloc(); "no main")?),
    }
}

/// The bodies whose core is another than told, with the core that they have.
fn wrong(rt: &HostRuntime, table: &[(&str, &str)]) -> Result<String, Fail> {
    let mut text = format!(in rt.alloc(); "")?;
    for (body, want) in table {
        let found = shown(rt, body)?;
        if found.as_str() != *want {
            text = format!(in rt.alloc(); "{text}\n{body}\n  {found}\n  {want}")?;
        }
    }
    Ok(text)
}

// Objects are numbered by DECLARED: x is 0, B 1, M 2, A 3, C 4, D 5, p 6, g 7, s 8 and pp 9.

#[test]
fn values(rt: HostRuntime) -> Result<(), Fail> {
    let table = [
        (
            "x = 5;",
            "{Drop 2(Write 2(Own 2(element 0 2()), Number(5)))}",
        ),
        ("p = NULL;", "{Drop 2(Write 2(Own 2(element 6 2()), Null))}"),
        ("MYPROC + PROCS;", "{Drop 2(Binary(Add) 2(Mine, Procs))}"),
        ("sizeof(int);", "{Drop 2(Number(8))}"),
        ("x;", "{Drop 2(Read 2(Own 2(element 0 2())))}"),
        (
            "1 - 2 * 3 - 4;",
            "{Drop 2(Binary(Sub) 2(Binary(Sub) 2(Number(1), Binary(Mul) 2(Number(2), Number(3))), Number(4)))}",
        ),
        (
            "1 && s;",
            "{Drop 2(every(Number(1), pointer Read 2(Own 2(element 8 2()))))}",
        ),
        (
            "1 || s;",
            "{Drop 2(any(Number(1), pointer Read 2(Own 2(element 8 2()))))}",
        ),
        (
            "s ? 1 : 2;",
            "{Drop 2(choice(pointer Read 2(Own 2(element 8 2())), Number(1), Number(2)))}",
        ),
        ("+1;", "{Drop 2(Number(1))}"),
        ("-1;", "{Drop 2(Unary(Minus) 2(Number(1)))}"),
        ("!1;", "{Drop 2(Unary(Not) 2(Number(1)))}"),
        ("~1;", "{Drop 2(Unary(Invert) 2(Number(1)))}"),
        ("!p;", "{Drop 2(IsNull 2(Read 2(Own 2(element 6 2()))))}"),
        ("(int) 1;", "{Drop 2(Number(1))}"),
        (
            "(int *global) p;",
            "{Drop 2(Convert 2(Read 2(Own 2(element 6 2()))))}",
        ),
        (
            "g = s;",
            "{Drop 2(Write 2(Own 2(element 7 2()), Read 2(Own 2(element 8 2()))))}",
        ),
        (
            "g = p;",
            "{Drop 2(Write 2(Own 2(element 7 2()), Convert 2(Read 2(Own 2(element 6 2())))))}",
        ),
        (
            "f(1, p);",
            "{Drop 2(call 0 2(Number(1), Read 2(Own 2(element 6 2()))))}",
        ),
        ("v();", "{Drop 2(call 1 2())}"),
        (
            "toglobal(1, p);",
            "{Drop 2(ToGlobal 2(Number(1), Read 2(Own 2(element 6 2()))))}",
        ),
        (
            "toproc(g);",
            "{Drop 2(ToProc 2(Read 2(Own 2(element 7 2()))))}",
        ),
        (
            "tolocal(g);",
            "{Drop 2(ToLocal 2(Read 2(Own 2(element 7 2()))))}",
        ),
    ];
    assert_eq!(rt; wrong(&rt, &table)?.as_str(), "");
    Ok(())
}

#[test]
fn places(rt: HostRuntime) -> Result<(), Fail> {
    let table = [
        (
            "M[1][2];",
            "{Drop 2(Read 2(Own 2(element 2 2(Number(1), Number(2)))))}",
        ),
        ("A[1];", "{Drop 2(Read 2(element 3 2(Number(1))))}"),
        ("M[1];", "{Drop 2(address 2 2(Number(1)))}"),
        ("A;", "{Drop 2(address 3 2())}"),
        (
            "(M[1])[2];",
            "{Drop 2(Read 2(Own 2(Forward(Local) 2(address 2 2(Number(1)), Number(2)))))}",
        ),
        (
            "*p;",
            "{Drop 2(Read 2(Own 2(Read 2(Own 2(element 6 2())))))}",
        ),
        ("*g;", "{Drop 2(Read 2(Read 2(Own 2(element 7 2()))))}"),
        (
            "pp[1][2];",
            "{Drop 2(Read 2(Own 2(Forward(Local) 2(Read 2(Own 2(Forward(Local) 2(Read 2(Own 2(element 9 2())), Number(1)))), Number(2)))))}",
        ),
        ("&x;", "{Drop 2(address 0 2())}"),
        ("&B[1];", "{Drop 2(address 1 2(Number(1)))}"),
        ("&*p;", "{Drop 2(Read 2(Own 2(element 6 2())))}"),
        (
            "&p[1];",
            "{Drop 2(Forward(Local) 2(Read 2(Own 2(element 6 2())), Number(1)))}",
        ),
        (
            "A[MYPROC % PROCS + 1];",
            "{Drop 2(Read 2(element 3 2(Binary(Add) 2(Binary(Rem) 2(Mine, Procs), Number(1)))))}",
        ),
        ("A[+1];", "{Drop 2(Read 2(element any 3 2(Number(1))))}"),
        (
            "A[(int) 1];",
            "{Drop 2(Read 2(element any 3 2(Number(1))))}",
        ),
        (
            "A[sizeof(int)];",
            "{Drop 2(Read 2(element any 3 2(Number(8))))}",
        ),
    ];
    assert_eq!(rt; wrong(&rt, &table)?.as_str(), "");
    Ok(())
}

#[test]
fn operators(rt: HostRuntime) -> Result<(), Fail> {
    let table = [
        (
            "p + 1;",
            "{Drop 2(Forward(Local) 2(Read 2(Own 2(element 6 2())), Number(1)))}",
        ),
        (
            "g - 1;",
            "{Drop 2(Back(Global) 2(Read 2(Own 2(element 7 2())), Number(1)))}",
        ),
        (
            "p == NULL;",
            "{Drop 2(Same 2(Read 2(Own 2(element 6 2())), Null))}",
        ),
        (
            "p != g;",
            "{Drop 2(Differ 2(Convert 2(Read 2(Own 2(element 6 2()))), Read 2(Own 2(element 7 2()))))}",
        ),
        (
            "B[1] += 2;",
            "{Drop 2(update Binary(Add) 2(Own 2(element 1 2(Number(1))), Number(2)))}",
        ),
        (
            "p -= 1;",
            "{Drop 2(update Back(Local) 2(Own 2(element 6 2()), Number(1)))}",
        ),
        (
            "++p;",
            "{Drop 2(update Forward(Local) 2(Own 2(element 6 2()), Number(1)))}",
        ),
        (
            "p--;",
            "{Drop 2(update Back(Local) back Forward(Local) 2(Own 2(element 6 2()), Number(1)))}",
        ),
        (
            "int i; i += 2;",
            "{{Clear { local: 0, pointer: false } 2()}; Drop 2(Set(0) 2(Binary(Add) 2(local 0 2, Number(2))))}",
        ),
        (
            "int i; i++;",
            "{{Clear { local: 0, pointer: false } 2()}; Drop 2(Binary(Sub) 2(Set(0) 2(Binary(Add) 2(local 0 2, Number(1))), Number(1)))}",
        ),
        (
            "int *q; --q;",
            "{{Clear { local: 0, pointer: true } 2()}; Drop 2(Set(0) 2(Back(Local) 2(local 0 2, Number(1))))}",
        ),
    ];
    assert_eq!(rt; wrong(&rt, &table)?.as_str(), "");
    Ok(())
}

#[test]
fn fills(rt: HostRuntime) -> Result<(), Fail> {
    let table = [
        ("int i = x;", "{{Fill(0) 2(Own 2(element 0 2()))}}"),
        ("int i = A[0];", "{{Fill(0) 2(element 3 2(Number(0)))}}"),
        ("int i = 1;", "{{Begin(0) 2(Number(1))}}"),
        (
            "int i = x + 1;",
            "{{Begin(0) 2(Binary(Add) 2(Read 2(Own 2(element 0 2())), Number(1)))}}",
        ),
        (
            "int *global h = p;",
            "{{Begin(0) 2(Convert 2(Read 2(Own 2(element 6 2()))))}}",
        ),
        (
            "int i = 1, j = i;",
            "{{Begin(0) 2(Number(1)); Begin(1) 2(local 0 2)}}",
        ),
        (
            "int i = 1; i = A[0];",
            "{{Begin(0) 2(Number(1))}; Fill(0) 2(element 3 2(Number(0)))}",
        ),
        (
            "int i = 1; i = (int) A[0];",
            "{{Begin(0) 2(Number(1))}; Drop 2(Set(0) 2(Read 2(element 3 2(Number(0)))))}",
        ),
        (
            "int i = 1; i = 2;",
            "{{Begin(0) 2(Number(1))}; Drop 2(Set(0) 2(Number(2)))}",
        ),
        (
            "int i = 1; for (i = A[0]; ; ) break;",
            "{{Begin(0) 2(Number(1))}; {Drop 2(Set(0) 2(Read 2(element 3 2(Number(0))))); loop (-) (break) (-)}}",
        ),
        (
            "int i = 1; x = i = A[0];",
            "{{Begin(0) 2(Number(1))}; Drop 2(Write 2(Own 2(element 0 2()), Set(0) 2(Read 2(element 3 2(Number(0))))))}",
        ),
    ];
    assert_eq!(rt; wrong(&rt, &table)?.as_str(), "");
    Ok(())
}

#[test]
fn transfers(rt: HostRuntime) -> Result<(), Fail> {
    let table = [
        (
            "int i = 1; i := g[1];",
            "{{Begin(0) 2(Number(1))}; Get(0) 2(Forward(Global) 2(Read 2(Own 2(element 7 2())), Number(1)))}",
        ),
        (
            "int i = 1; i := *s;",
            "{{Begin(0) 2(Number(1))}; Get(0) 2(Read 2(Own 2(element 8 2())))}",
        ),
        (
            "A[0] := x;",
            "{Put 2(element 3 2(Number(0)), Read 2(Own 2(element 0 2())))}",
        ),
        (
            "*g :- 1;",
            "{Send 2(Read 2(Own 2(element 7 2())), Number(1))}",
        ),
        (
            "x := A[0];",
            "{Copy(Split) 2(Own 2(element 0 2()), element 3 2(Number(0)), Number(8))}",
        ),
        (
            "bulk_read(p, g, 8);",
            "{Copy(Blocking) 2(Own 2(Read 2(Own 2(element 6 2()))), Read 2(Own 2(element 7 2())), Number(8))}",
        ),
        (
            "bulk_read(p, p, 8);",
            "{Copy(Blocking) 2(Own 2(Read 2(Own 2(element 6 2()))), Convert 2(Read 2(Own 2(element 6 2()))), Number(8))}",
        ),
        (
            "bulk_write(g, B, 8);",
            "{Copy(Blocking) 2(Read 2(Own 2(element 7 2())), Own 2(address 1 2()), Number(8))}",
        ),
        (
            "bulk_get(p, g, 8);",
            "{Copy(Split) 2(Own 2(Read 2(Own 2(element 6 2()))), Read 2(Own 2(element 7 2())), Number(8))}",
        ),
        (
            "bulk_put(g, p, 8);",
            "{Copy(Split) 2(Read 2(Own 2(element 7 2())), Own 2(Read 2(Own 2(element 6 2()))), Number(8))}",
        ),
        (
            "bulk_store(g, p, 8);",
            "{Copy(OneWay) 2(Read 2(Own 2(element 7 2())), Own 2(Read 2(Own 2(element 6 2()))), Number(8))}",
        ),
        (
            "printf(\"%d\", x);",
            "{Print { text: 0, count: 1 } 2(Read 2(Own 2(element 0 2())))}",
        ),
        (
            "sync(); barrier(); all_store_sync();",
            "{Sync 2(); Barrier 2(); AllStoreSync 2()}",
        ),
    ];
    assert_eq!(rt; wrong(&rt, &table)?.as_str(), "");
    Ok(())
}

#[test]
fn statements_one_by_one(rt: HostRuntime) -> Result<(), Fail> {
    let table = [
        (";", "{-}"),
        ("{ ; }", "{{-}}"),
        (
            "if (1) ; else if (s) x; else ;",
            "{if Number(1): - if pointer Read 2(Own 2(element 8 2())): Drop 2(Read 2(Own 2(element 0 2()))) else: -}",
        ),
        ("if (1) ;", "{if Number(1): - else: -}"),
        (
            "while (p) continue;",
            "{loop (if pointer Read 2(Own 2(element 6 2())): - else: break) (continue) (-)}",
        ),
        (
            "do break; while (1);",
            "{loop (-) (break) (if Number(1): - else: break)}",
        ),
        (
            "for (x; 1; 2) ;",
            "{{Drop 2(Read 2(Own 2(element 0 2()))); loop (if Number(1): - else: break) (-) (Drop 2(Number(2)))}}",
        ),
        (
            "int i; for_my_1d (i,\n4)\n;",
            "{{Clear { local: 0, pointer: false } 2()}; {Drop 2(Set(0) 2(Mine)); loop mine (if Binary(Lt) 2(local 0 2, Number(4)): - else: break) (-) (Drop 2(Set(0) 2(Binary(Add) 2(local 0 2, Procs))))}}",
        ),
        ("return 1;", "{return 2 Number(1)}"),
        ("return;", "{return 2 Number(0)}"),
        (
            "{ int i; { int j; } } int k; k = 1;",
            "{{{Clear { local: 0, pointer: false } 2()}; {{Clear { local: 1, pointer: false } 2()}}}; {Clear { local: 2, pointer: false } 2()}; Drop 2(Set(2) 2(Number(1)))}",
        ),
    ];
    assert_eq!(rt; wrong(&rt, &table)?.as_str(), "");
    Ok(())
}

#[test]
fn lines(rt: HostRuntime) -> Result<(), Fail> {
    let table = [
        // an object's indices, and its plain read
        (
            "M[1]\n[2];",
            "{Drop 2(Read 3(Own 3(element 2 3(Number(1), Number(2)))))}",
        ),
        (
            "x =\nx;",
            "{Drop 2(Write 2(Own 2(element 0 2()), Read 3(Own 3(element 0 3()))))}",
        ),
        // a place that is written
        (
            "x\n= 1;",
            "{Drop 3(Write 3(Own 2(element 0 2()), Number(1)))}",
        ),
        // a local that is assigned
        (
            "int i; i\n= 1;",
            "{{Clear { local: 0, pointer: false } 2()}; Drop 3(Set(0) 3(Number(1)))}",
        ),
        // the read of a compound assignment
        (
            "x\n+= 1;",
            "{Drop 3(update Binary(Add) 3(Own 2(element 0 2()), Number(1)))}",
        ),
        (
            "x\n++;",
            "{Drop 2(update Binary(Add) back Binary(Sub) 3(Own 2(element 0 2()), Number(1)))}",
        ),
        // a split assignment
        (
            "int i; i\n:=\nA[0];",
            "{{Clear { local: 0, pointer: false } 2()}; Get(0) 3(element 3 4(Number(0)))}",
        ),
        (
            "A[0]\n:-\n1;",
            "{Send 3(element 3 2(Number(0)), Number(1))}",
        ),
        // a fill
        (
            "int i; i\n=\nx;",
            "{{Clear { local: 0, pointer: false } 2()}; Fill(0) 3(Own 4(element 0 4()))}",
        ),
        ("int i\n=\nx;", "{{Fill(0) 2(Own 4(element 0 4()))}}"),
        // pointers
        (
            "p\n[1];",
            "{Drop 2(Read 3(Own 3(Forward(Local) 3(Read 2(Own 2(element 6 2())), Number(1)))))}",
        ),
        (
            "*\np;",
            "{Drop 2(Read 2(Own 2(Read 3(Own 3(element 6 3())))))}",
        ),
    ];
    assert_eq!(rt; wrong(&rt, &table)?.as_str(), "");
    Ok(())
}

#[test]
fn functions(rt: HostRuntime) -> Result<(), Fail> {
    let source = "int f(int a);\nint f(int a) { int *q; int i; }\nsplitc_main() { f(1); }";
    let Some(program) = core_of(&rt, source)? else {
        assert!(rt; false, "refused");
        return Ok(());
    };
    assert_eq!(rt; program.main, 1);
    assert_eq!(rt; program.functions.len(), 2);
    assert_eq!(rt; program.texts.as_slice().len(), 2);
    let Some(f) = program.functions.as_slice().first() else {
        return Ok(());
    };
    assert_eq!(rt; f.params.len(), 1);
    assert_eq!(rt; f.others.len(), 2);
    assert_eq!(rt; f.line, 2);
    Ok(())
}
