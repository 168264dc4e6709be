//! The thin edge to the files of the host: a folder that is packed, files and folders that are packed as one, and a
//! folder that is made of a dump. Start at `StdFolder`, `Sources` and `HostBuilder`.
//!
//! This crate assumes that the system's calls do what is asked of them, so nothing here tells what it holds. It is
//! proved that each call is safe and ends, and, by `host_names`, that each path that is made lies in the folder. The
//! system knows only paths: a program that meanwhile puts a link in the place of a folder may lead a call elsewhere.
#![tactic(auto)]

mod builder;
mod folder;
mod left_out;
mod opened;
mod own;
mod places;
mod reading;
mod report;
mod site;
mod sources;
mod target;
mod writing;

pub use builder::HostBuilder;
pub use folder::StdFolder;
pub use host_builder::{Links, Wanted};
pub use left_out::LeftOut;
pub use own::FileId;
pub use report::{Remark, Reporter, Thing};
pub use site::NoFolder;
pub use sources::Sources;
