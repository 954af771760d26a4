//! Lists of demand matrices: their grammar, the rows of each matrix that is read, and the batch of a list's text on one network: each
//! matrix with the rows of its network and that network in units, with decimals of its own; or the first refusal.
#![tactic(auto)]

mod batch;
mod faults;
mod grammar_laws;
mod judge;
mod kept;
mod list_refusal;
mod matrix;
mod mode;
mod names;
mod numbers;
mod read_end;
mod reading_laws;
mod refusal;
mod row;
mod scaling;
mod scan;
mod sofar;

pub use batch::read_batch;
pub use grammar_laws::{
    matrices_are_scaled, symbols_are_one_list, texts_are_one_batch, texts_have_an_answer,
};
pub use judge::read_list;
pub use list_refusal::{ListKind, ListRefusal};
pub use matrix::Matrix;
pub use read_end::ReadListEnd;
pub use reading_laws::{
    rows_that_are_read_are_sound, texts_are_read_in_one_way, what_is_read_is_scaled,
};
pub use refusal::BatchEnd;
pub use row::MatrixRows;
