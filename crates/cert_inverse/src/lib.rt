//! Texts of certificates and routings both ways: what is written is read and judged as the same,
//! and what is read was written so.
#![tactic(auto)]

mod judging;
mod laws;
mod networks;

pub use judging::{
    judged_texts_are_written, valid_texts_are_judged_valid, written_texts_are_judged,
};
pub use laws::{
    fronts_are_refused, heads_read_back, longer_texts_are_refused, read_texts_are_written,
    readings_are_exact, texts_are_of_one, texts_are_of_one_form, texts_read_exactly,
    written_texts_read_back,
};
pub use networks::{networks_are_citable, read_network_is_citable};
