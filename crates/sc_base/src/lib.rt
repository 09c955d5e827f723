//! What every part of the compiler speaks of: values, places, faults and ends, operators and their
//! checked arithmetic, types and shapes of declared objects, and the limits.
#![tactic(auto)]

pub mod arithmetic;
pub mod bytes;
pub mod copies;
pub mod limits;
pub mod operator;
pub mod shape;
pub mod value;

pub use arithmetic::{binary, unary};
pub use bytes::Bytes;
pub use copies::{copy_of_shape, copy_of_shapes, copy_of_type};
pub use limits::{LIMITS, Limits};
pub use operator::{Binary, Unary};
pub use shape::{Bound, BoundStep, BoundSteps, Bounds, Shape, Star, Stars, Ty};
pub use value::{CopyMode, End, FaultKind, OutOfMemory, Place, Value};
