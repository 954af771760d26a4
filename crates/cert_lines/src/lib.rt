//! The lines of a certificate and of a routing, each read and spelled exactly.
//! What a certificate's text cites of a network in either form: the words of nodes, cells and
//! commodities, and counts.
#![tactic(auto)]

mod form;
mod forms;
mod head_lines;
mod laws;
mod names;
mod net_line;
mod numbers;
mod paths;
mod potentials;
mod refusal;
mod rows;
mod signed;

pub use form::Form;
pub use forms::{begins, list_behind, one_behind, row_behind, two_behind};
pub use head_lines::{gap_line, is_fixed, phases_line, scale_line, value_line, verdict_line};
pub use laws::limits_of_written_numbers;
pub use names::Names;
pub use net_line::counts_line;
pub use numbers::{decimal_within, number_within};
pub use paths::path_row;
pub use potentials::{count_of, of_that_many, potential_row, potentials_of};
pub use refusal::{CertEnd, CertKind, CertRefusal};
pub use rows::length_row;
