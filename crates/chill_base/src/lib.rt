//! The ground that all crates stand on: lists, names, places, and the outside over files and sinks that may fail.
#![tactic(auto)]

mod faults;
mod host;
mod list;
mod mem_files;
mod memory;
mod name;
mod outside;
mod padding;
mod place;
mod whole;

pub use faults::{Failed, NoMemory, Stop};
pub use host::{HostFiles, HostSink};
pub use list::{Boxed, List, Text};
pub use mem_files::MemFiles;
pub use memory::MemSink;
pub use name::Name;
pub use outside::{Files, Sink, write_all};
pub use padding::Padding;
pub use place::Place;
pub use whole::{FILE_LIMIT, Unread, read_whole};
