//! The texts of a certificate with hop limits and of a certificate of a total, written and read exactly.
#![tactic(auto)]

mod head_writer;
mod heads;
mod hops_reader;
mod hops_writer;
mod layer_rows;
mod part_reader;
mod part_writer;
mod rows;

pub use heads::{hops_head, part_head};
pub use hops_reader::read_hops_text;
pub use hops_writer::write_hops;
pub use part_reader::read_part_text;
pub use part_writer::write_part;
