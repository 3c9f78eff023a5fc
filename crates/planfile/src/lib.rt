// The plan file: 512-byte blocks, read into a plan in memory and written from one.
#![tactic(auto)]

mod block;
mod build;
mod device;
mod header;
mod reader;
mod writer;

pub use block::BLOCK;
pub use build::peer_at;
pub use device::put_device;
pub use reader::{front, load, read, refusal_at};
pub use writer::write;
