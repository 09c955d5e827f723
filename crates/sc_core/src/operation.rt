//! What the steps of a core tree do. A step evaluates its arguments from left to right and then does one thing.

use sc_base::{Binary, CopyMode, Star, Unary};

/// What a core tree names without a step: a whole number, null, the executing node, or the number of nodes.
#[derive(Clone, Copy, Debug, PartialEq, Eq)]
pub enum Constant {
    Number(i64),
    Null,
    Mine,
    Procs,
}

/// What a step with a value does. Its arguments are named in the order in which they are evaluated. A local, an
/// object and a function have their numbers, counted from 0.
#[derive(Clone, Copy, Debug, PartialEq, Eq)]
pub enum Operation {
    /// The value of the local; no argument.
    Use(u32),
    /// The cell of the object with these indices, where it is accessed under its name. `plain` tells that the
    /// indices are written with numbers, `MYPROC`, `PROCS`, locals and operators of two alone.
    Element {
        object: u32,
        count: u32,
        plain: bool,
    },
    /// The pointer to the cell of the object with these indices, as `&` gives it or an array that lacks its last
    /// index. The object is exposed.
    Address {
        object: u32,
        count: u32,
    },
    /// A pointer of the executing node's own memory, as the place of an access or an argument of a bulk transfer.
    Own,
    /// A local pointer that becomes a global or spread one.
    Convert,
    /// The pointer so many cells on; its star tells which way the cells are counted. Pointer and number.
    Forward(Star),
    /// The pointer so many cells back: the number is negated first.
    Back(Star),
    /// An operator of two whole numbers.
    Binary(Binary),
    /// An operator of one whole number.
    Unary(Unary),
    /// Whether two pointers are equal.
    Same,
    /// Whether two pointers differ.
    Differ,
    /// Whether a pointer is null, as `!` asks.
    IsNull,
    /// The pointer on the node: number and pointer.
    ToGlobal,
    /// The node of a pointer.
    ToProc,
    /// The pointer's cell in each node's own memory.
    ToLocal,
    /// The local becomes the value, which is the step's value.
    Set(u32),
    /// The result of the function.
    Call {
        function: u32,
        count: u32,
    },
    /// The value of the cell behind the pointer.
    Read,
    /// The cell behind the pointer becomes the value, which is the step's value. Pointer and value.
    Write,
}

/// What a step without a value does.
#[derive(Clone, Copy, Debug, PartialEq, Eq)]
pub enum Action {
    /// Lets a value go.
    Drop,
    /// The local begins with the value.
    Begin(u32),
    /// The local begins as 0, or as null.
    Clear { local: u32, pointer: bool },
    /// The local becomes the value of the cell behind the pointer.
    Fill(u32),
    /// The local gets the value of the cell behind the pointer, which lands at the next `sync`.
    Get(u32),
    /// Puts the value into the cell behind the pointer by the next `sync`. Pointer and value.
    Put,
    /// Stores the value into the cell behind the pointer by the next release that awaits stores. Pointer and value.
    Send,
    /// Copies so many bytes of cells. Destination, source and number of bytes.
    Copy(CopyMode),
    /// Prints the text with the numbers in it.
    Print { text: u32, count: u32 },
    /// `sync()`
    Sync,
    /// `barrier()`
    Barrier,
    /// `all_store_sync()`
    AllStoreSync,
}
