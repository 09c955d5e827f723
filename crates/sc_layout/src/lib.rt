//! Where the cells of the declared objects lie on the nodes, and the arithmetic of pointers to them.
#![tactic(auto)]

mod bounds;
pub mod error;
pub mod laws;
pub mod layouts;
mod making;
mod objects;
mod pointers;

pub use error::LayoutError;
pub use layouts::Layout;
pub use making::layout;

#[cfg(test)]
mod tests;
