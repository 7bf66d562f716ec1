// Plan files: the reader and the writer.
#![tactic(auto)]

mod coding;
mod reader;
mod trailer;
mod writer;

pub use reader::{Reader, open};
pub use writer::write;
