//! Tests alone: networks as tables and loads that look random; lengths, arcs and walks over them; networks from tables, solved; the
//! shared words step by step, by one worker, by two, and by two threads.
#![tactic(auto)]

mod cases;
mod drawn;
mod networks;
mod ring;
mod search;

pub use cases::{entry_of, solved, solved_in};
pub use drawn::{Words, loads};
pub use networks::{cell, demand, network};
pub use ring::ring_network;
pub use search::{is_least_path, least_path};

#[cfg(test)]
mod bounds;
#[cfg(test)]
mod steps;
#[cfg(test)]
mod tests;
#[cfg(test)]
mod walks;
