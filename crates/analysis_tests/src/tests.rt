//! One module for each crate, and what they share.

mod delaying;
mod flows;
mod phasing;
mod placing;
