//! Forms of places on four nodes, with expected forms by hand.

use index_form::{form_of_chain, form_of_place};
use sc_base::Binary;
use sc_core::{Constant, CoreExpr, CoreExprs, CoreFirst, CoreLink, Operation};
use site_graph::{Form, IndexForm};
use sqlite_items::Items;
use std::alloc::{AllocError, Global};
use std::test::Fail;

/// What a row does with the value so far.
#[derive(Clone, Copy)]
enum Then {
    /// An operator with a constant on its right.
    By(Binary, Constant),
    /// An operator with a local on its right.
    ByLocal(Binary, u32),
    /// A step with no argument more.
    Alone(Operation),
}

fn constant(alloc: Global, constant: Constant) -> CoreExpr {
    CoreExpr {
        first: CoreFirst::Constant(constant),
        links: Items::new(alloc),
    }
}

fn local(alloc: Global, local: u32) -> CoreExpr {
    CoreExpr {
        first: CoreFirst::Step {
            operation: Operation::Use(local),
            arguments: Items::new(alloc),
            line: 1,
        },
        links: Items::new(alloc),
    }
}

fn one(alloc: Global, e: CoreExpr) -> Result<CoreExprs, AllocError> {
    let mut all: CoreExprs = Items::new(alloc);
    all.push(e)?;
    Ok(all)
}

fn link(alloc: Global, then: Then) -> Result<CoreLink, AllocError> {
    let (operation, more) = match then {
        Then::By(operator, right) => (
            Operation::Binary(operator),
            one(alloc, constant(alloc, right))?,
        ),
        Then::ByLocal(operator, right) => {
            (
                Operation::Binary(operator),
                one(alloc, local(alloc, right))?,
            )
        }
        Then::Alone(operation) => (operation, Items::new(alloc)),
    };
    Ok(CoreLink {
        operation,
        more,
        line: 1,
    })
}

fn chain(alloc: Global, first: CoreExpr, steps: &[Then]) -> Result<CoreExpr, AllocError> {
    let mut whole = first;
    for step in steps {
        whole.links.push(link(alloc, *step)?)?;
    }
    Ok(whole)
}

const BIG: Constant = Constant::Number(i64::MAX);

const ELEMENT: Then = Then::Alone(Operation::Element {
    object: 7,
    count: 1,
    plain: true,
});

const NOT_PLAIN: Then = Then::Alone(Operation::Element {
    object: 7,
    count: 1,
    plain: false,
});

fn by(operator: Binary, number: i64) -> Then {
    Then::By(operator, Constant::Number(number))
}

#[test]
fn indices_of_my_proc(rt: HostRuntime) -> Result<(), Fail> {
    let alloc = rt.alloc();
    let linear = |k, c| IndexForm::Linear { k, c };
    let rows: [(&[Then], IndexForm); 12] = [
        (&[], linear(1, 0)),
        (&[by(Binary::Mul, 3), by(Binary::Add, 5)], linear(3, 5)),
        (&[by(Binary::Sub, 2)], linear(1, -2)),
        (&[Then::By(Binary::Mul, Constant::Procs)], linear(4, 0)),
        (&[Then::By(Binary::Add, Constant::Mine)], linear(2, 0)),
        (&[Then::By(Binary::Mul, Constant::Mine)], IndexForm::Any),
        (&[by(Binary::Div, 2)], IndexForm::Any),
        (
            &[Then::By(Binary::Mul, BIG), Then::By(Binary::Mul, BIG)],
            IndexForm::Any,
        ),
        (
            &[Then::By(Binary::Mul, BIG), by(Binary::Mul, 2)],
            IndexForm::Any,
        ),
        (
            &[
                Then::By(Binary::Mul, BIG),
                by(Binary::Mul, 2),
                by(Binary::Mul, 0),
                by(Binary::Sub, 9),
            ],
            linear(0, -9),
        ),
        (
            &[by(Binary::Add, 1), Then::By(Binary::Rem, Constant::Procs)],
            IndexForm::Wrapped { k: 1, c: 1 },
        ),
        (&[by(Binary::Rem, 4)], IndexForm::Any),
    ];
    for (steps, index) in rows {
        let e = chain(alloc, constant(alloc, Constant::Mine), steps)?;
        let place = chain(alloc, e, &[ELEMENT])?;
        let form = form_of_place(alloc, 4, &[], &place)?;
        assert_eq!(rt; form, Form::Element { object: 7, index });
    }
    Ok(())
}

#[test]
fn an_index_comes_back_from_beyond_64_bits(rt: HostRuntime) -> Result<(), Fail> {
    let alloc = rt.alloc();
    let far = [Then::By(Binary::Mul, BIG), Then::By(Binary::Mul, BIG)];
    let rows = [
        (Binary::Sub, IndexForm::Linear { k: 0, c: 6 }),
        (Binary::Add, IndexForm::Any),
    ];
    for (operator, index) in rows {
        let other = chain(alloc, constant(alloc, Constant::Mine), &far)?;
        let mut e = chain(alloc, constant(alloc, Constant::Mine), &far)?;
        e.links.push(CoreLink {
            operation: Operation::Binary(operator),
            more: one(alloc, other)?,
            line: 1,
        })?;
        let place = chain(alloc, e, &[by(Binary::Add, 6), ELEMENT])?;
        let form = form_of_place(alloc, 4, &[], &place)?;
        assert_eq!(rt; form, Form::Element { object: 7, index });
    }
    Ok(())
}

#[test]
fn indices_of_the_local_of_a_loop(rt: HostRuntime) -> Result<(), Fail> {
    let alloc = rt.alloc();
    let mine = |c| IndexForm::Mine { c };
    let rows: [(u32, &[Then], IndexForm); 7] = [
        (3, &[], mine(0)),
        (3, &[by(Binary::Add, 2)], mine(2)),
        (3, &[by(Binary::Sub, 2)], mine(-2)),
        (3, &[by(Binary::Sub, i64::MAX)], mine(-i64::MAX)),
        (3, &[by(Binary::Mul, 1)], IndexForm::Any),
        (3, &[Then::ByLocal(Binary::Add, 3)], IndexForm::Any),
        (4, &[by(Binary::Add, 2)], IndexForm::Any),
    ];
    for (number, steps, index) in rows {
        let e = chain(alloc, local(alloc, number), steps)?;
        let place = chain(alloc, e, &[ELEMENT])?;
        let form = form_of_place(alloc, 4, &[1, 3], &place)?;
        assert_eq!(rt; form, Form::Element { object: 7, index });
    }
    Ok(())
}

#[test]
fn a_number_stands_before_the_local_of_a_loop(rt: HostRuntime) -> Result<(), Fail> {
    let alloc = rt.alloc();
    let rows = [
        (Binary::Add, IndexForm::Mine { c: 5 }),
        (Binary::Sub, IndexForm::Any),
    ];
    for (operator, index) in rows {
        let steps = [Then::ByLocal(operator, 3), ELEMENT];
        let place = chain(alloc, constant(alloc, Constant::Number(5)), &steps)?;
        let form = form_of_place(alloc, 4, &[3], &place)?;
        assert_eq!(rt; form, Form::Element { object: 7, index });
    }
    Ok(())
}

#[test]
fn the_least_number_is_not_taken_from_a_local(rt: HostRuntime) -> Result<(), Fail> {
    let alloc = rt.alloc();
    let steps = [by(Binary::Sub, i64::MIN), ELEMENT];
    let place = chain(alloc, local(alloc, 3), &steps)?;
    assert_eq!(rt; form_of_place(alloc, 4, &[3], &place), Err(AllocError));
    Ok(())
}

#[test]
fn places_by_their_last_steps(rt: HostRuntime) -> Result<(), Fail> {
    let alloc = rt.alloc();
    let own = Then::Alone(Operation::Own);
    let read = Then::Alone(Operation::Read);
    let any = Form::Element {
        object: 7,
        index: IndexForm::Any,
    };
    let rows: [(&[Then], Form); 6] = [
        (&[], Form::Exposed),
        (&[own], Form::OwnExposed),
        (&[ELEMENT, own], Form::Own { object: 7 }),
        (&[ELEMENT, read], Form::Exposed),
        (&[ELEMENT, read, own], Form::OwnExposed),
        (&[NOT_PLAIN], any),
    ];
    for (steps, form) in rows {
        let place = chain(alloc, constant(alloc, Constant::Mine), steps)?;
        assert_eq!(rt; form_of_place(alloc, 4, &[], &place)?, form);
    }
    let mut place = chain(alloc, constant(alloc, Constant::Mine), &[])?;
    place.links.push(CoreLink {
        operation: Operation::Element {
            object: 7,
            count: 2,
            plain: true,
        },
        more: one(alloc, constant(alloc, Constant::Mine))?,
        line: 1,
    })?;
    assert_eq!(rt; form_of_place(alloc, 4, &[], &place)?, any);
    Ok(())
}

#[test]
fn a_place_is_the_part_of_a_chain_before_its_access(rt: HostRuntime) -> Result<(), Fail> {
    let alloc = rt.alloc();
    let steps = [by(Binary::Add, 1), ELEMENT, Then::Alone(Operation::Read)];
    let read = chain(alloc, constant(alloc, Constant::Mine), &steps)?;
    let before = read.links.as_slice().split_last();
    if let Some((_, links)) = before {
        let form = form_of_chain(alloc, 4, &[], &read.first, links)?;
        let index = IndexForm::Linear { k: 1, c: 1 };
        assert_eq!(rt; form, Form::Element { object: 7, index });
    }
    assert!(rt; before.is_some());
    Ok(())
}
