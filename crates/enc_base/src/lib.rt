//! Names, lists, boxes, tuples, the library of input files, and the sink of output with what waits
//! for it.
#![tactic(auto)]

mod boxed;
mod error;
mod host;
mod library;
mod list;
mod memory_library;
mod memory_sink;
mod name;
mod pending;
mod sink;
mod tuples;

pub use boxed::Boxed;
pub use error::{Failed, NoMemory, ReadFault};
pub use host::{HostLibrary, HostSink};
pub use library::Library;
pub use list::List;
pub use memory_library::{MemoryLibrary, StoredFile};
pub use memory_sink::MemorySink;
pub use name::Name;
pub use pending::Pending;
pub use sink::Sink;
pub use tuples::{next_tuple, next_tuple_below};
