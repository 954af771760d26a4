//! The text of a certificate, written through a buffer of fixed size.
#![tactic(auto)]

mod certificate;
mod writing;

pub use certificate::{put_counts, put_end, put_figures, put_modes, verdict_word, write_cert};
pub use writing::{put_front, put_lengths, put_lines, put_numbers, put_paths, put_potentials};
