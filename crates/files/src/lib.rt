//! Files by their path, those of the system among them, and whole contents read and written, with
//! contracts on the bytes.
#![tactic(auto)]

mod contents;
mod extent;
mod fault;
mod file_set;
mod host_files;
mod host_writer;

pub use contents::{Unloaded, load, store};
pub use extent::Extent;
pub use fault::{LoadFault, OpenFault, StoreFault};
pub use file_set::FileSet;
pub use host_files::HostFiles;
pub use host_writer::HostWriter;
