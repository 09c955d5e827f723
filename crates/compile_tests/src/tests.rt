//! Core trees and code of sources.

mod emitted;
mod lowered;
mod placed;
