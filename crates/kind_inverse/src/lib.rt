//! Laws of both texts of `kind_texts`: what is written is read back as the same, what is read was written so, and what
//! fits the text of a network is of that network.
#![tactic(auto)]

mod laws;

pub use laws::{
    hop_texts_are_unique, hops_are_of_the_network, hops_are_read, part_texts_are_unique,
    parts_are_of_the_network, parts_are_read,
};
