//! The machine code of the nodes: its instructions and their listing, what a node asks of the memory and the
//! network that join the nodes, and what the code does.
#![tactic(auto)]

pub mod access;
pub mod code;
pub mod journal;
pub mod landed;
pub mod laws;
pub mod op;
pub mod operand;
pub mod results;
mod text;

pub use access::{Access, Track};
pub use code::{Code, FnRow, FnRows, Instrs};
pub use journal::{Entry, Journal};
pub use landed::Landed;
pub use op::{Instr, Op};
pub use operand::{Operand, Slot};
pub use results::{NodeResult, NodeResults};
pub use text::listing;

#[cfg(test)]
mod tests;
