//! Trees that are made on the host: what a place of the host holds, and the steps of a dump that are carried out there.
//! Start at `Builder` and `build`.
//!
//! The steps come in the order of paths. What has to wait is made behind them: links, so that nothing is made or
//! written by a path that could lead through one, and then the times of folders, which the making of what stands below
//! changes. What the host is not to have is left out, and told; after a fault all goes again that was made. This crate
//! must not know how the host is asked.
#![tactic(auto)]

mod attribute;
mod builder;
mod making;
mod memory;
mod plan;
mod taker;
mod undoing;
mod viewed;

pub use attribute::{HostAttribute, LeftOut, Links, Wanted, attribute_in};
pub use builder::Builder;
pub use making::{BuildFault, Built, build};
pub use memory::{BuiltStep, MemBuilder};
pub use viewed::HostViewStream;
