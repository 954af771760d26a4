//! Networks that are drawn from a seed, as canonical texts.
//! Laws of the networks that are drawn from a seed, in units.
#![tactic(auto)]

mod draw_laws;
mod draws;
mod laws;
mod text;

pub use draw_laws::{
    drawn_networks_are_networks, drawn_networks_are_scaled, drawn_networks_have_counts,
};
pub use laws::{
    drawn_ends_differ, generated_text_is_canonical, generated_text_is_short,
    generated_text_reads_back,
};
pub use text::generate;
