//! Files by their names: whoever opens and reads them, and the reading of many, one after another.
//!
//! The layer above uses that `read_files` gives exactly the bytes of each name, in order and all
//! within one limit, or the first reason why not; and that a fault is answered only where a count
//! of the opener rose. Of an opener over std's files nothing is promised of what a name holds.
#![tactic(auto)]

mod calls;
mod ends;
mod file_opener;
mod mem_opener;
mod named_bytes;
mod opener;
mod place;
mod reading;
mod taking;

pub use ends::FilesEnd;
pub use file_opener::FileOpener;
pub use mem_opener::MemOpener;
pub use named_bytes::NamedBytes;
pub use opener::Opener;
pub use reading::read_files;
