//! A gate beside the cells for each commodity, which holds back what it is given of its amount; the lengths of cells and gates
//! together; the least price of a commodity.
#![tactic(auto)]

mod gate_cells;
mod lengths;
mod prices;

pub use gate_cells::gates;
pub use lengths::{
    Gated, Under, exponent, follow_lengths, gated_lengths, greatest_of, least_of, length_of,
    put_lengths,
};
pub use prices::least_price;
