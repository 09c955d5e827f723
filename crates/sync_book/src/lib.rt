//! The books of a run: how many cells of each kind are still to take effect, and where the nodes stand between
//! barriers. The books are counts over what was issued and what has occurred, and know no message.
#![tactic(auto)]

mod book;
mod gap;
mod row;
mod standing;
#[cfg(test)]
mod tests;

pub use book::SyncBook;
pub use gap::Gap;
pub use standing::Standing;
