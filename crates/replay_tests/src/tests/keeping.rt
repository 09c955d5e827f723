//! Tables by hand.

ghost use Rattle.std.specs.Prelude.{◌≡◌};

use replay_tables::Tables;
use sc_base::{CopyMode, Place, Value};
use sc_meaning::Request;
use std::test::Fail;

fn at(offset: u32) -> Place {
    Place {
        object: 0,
        node: 0,
        offset,
    }
}

fn copy(mode: CopyMode) -> Request {
    Request::Copy {
        from: at(0),
        to: at(4),
        cells: 2,
        mode,
        line: 1,
    }
}

#[test]
fn a_copy_is_over_after_its_parts(rt: HostRuntime) -> Result<(), Fail> {
    let alloc = rt.alloc();
    let mut tables = Tables::new(alloc, 1).map_err(|_| "memory")?;
    tables
        .make(alloc, 0, copy(CopyMode::Blocking))
        .map_err(|_| "memory")?;
    assert!(rt; !tables.goes_on(0));
    let seven = Value::Int(7);
    assert!(rt; !tables.may_occur(0, 0, 0, true, at(4), seven, seven));
    let rows = [
        (0, false, at(0)),
        (0, true, at(4)),
        (1, false, at(1)),
        (1, true, at(5)),
    ];
    for (cell, wrote, place) in rows {
        assert!(rt; !tables.goes_on(0));
        assert!(rt; tables.may_occur(0, 0, cell, wrote, place, seven, seven));
        tables.occur(0, 0, cell, wrote, seven);
        assert!(rt; !tables.may_occur(0, 0, cell, wrote, place, seven, seven));
    }
    assert!(rt; tables.goes_on(0));
    Ok(())
}
