//! What the parts of a source are drawn with.

use flow_form::Entry;
use std::alloc::Global;

/// What a part's flow depends on beside the part, and the allocator. `nodes` is how many nodes there are; `entries`
/// says where the functions of the source begin and return; `function` is the number of the function around the part,
/// and `params` says how many parameters it has. `mines` are the locals that here leave the remainder `MYPROC` when
/// they are divided by `PROCS`.
#[derive(Clone, Copy)]
pub struct Around<'a> {
    pub alloc: Global,
    pub nodes: u32,
    pub entries: &'a [Entry],
    pub function: u32,
    pub params: u32,
    pub mines: &'a [u32],
}
