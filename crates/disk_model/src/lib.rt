//! The disk that the store stands on: the trait `Disk`, whose contract says what each call does and what a crash at
//! any moment may leave, and three disks: in memory, one that fails on purpose, and a file. Start at `Disk`.
#![tactic(auto)]

mod disk;
mod durable;
mod failing;
mod file;
mod memory;
mod record;

pub use disk::Disk;
pub use durable::write_durably;
pub use failing::FailingDisk;
pub use file::FileDisk;
pub use memory::MemDisk;
pub use record::StopChoice;
