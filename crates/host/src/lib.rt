//! What a host in another language hands in and gets back: texts to read, buffers to fill, and memory on loan.
#![tactic(auto)]

mod buffer;
mod bytes;
mod lent_memory;
mod memory;
mod put;
mod region;

pub use buffer::Buffer;
pub use bytes::Bytes;
pub use lent_memory::LentMemory;
pub use memory::Memory;
pub use put::put_text;
pub use region::Region;
