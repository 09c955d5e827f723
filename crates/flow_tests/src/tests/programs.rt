//! Sources of functions without parameters.

use sc_base::{Stars, Ty};
use sc_core::{CoreFunction, CoreProgram, CoreStmt};
use sc_tree::Texts;
use sqlite_items::Items;
use std::alloc::{AllocError, Global};

/// A function of `int` that does this.
fn function_of(alloc: Global, body: CoreStmt) -> CoreFunction {
    CoreFunction {
        params: Items::new(alloc),
        others: Items::new(alloc),
        result: Ty {
            void: false,
            stars: Stars::from_vec(Vec::new(alloc)),
        },
        body,
        line: 1,
    }
}

/// A source whose first function is `splitc_main`.
pub fn program_of(alloc: Global, bodies: Vec<CoreStmt>) -> Result<CoreProgram, AllocError> {
    let mut functions = Items::new(alloc);
    for body in bodies {
        functions.push(function_of(alloc, body))?;
    }
    Ok(CoreProgram {
        functions,
        main: 0,
        texts: Texts::from_vec(Vec::new(alloc)),
    })
}
