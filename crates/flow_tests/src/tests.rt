//! One module for each crate, and what they share.

mod bits;
mod drawing;
mod indices;
mod programs;
mod scanning;
mod walking;
