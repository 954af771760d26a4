//! Decimals of words, and the network in whole units that the rows of a text stand for.
//! How the rows of a network are read as links, and the words for it.
//! The cells of links, by the number of the link and by which way the cell goes over it.
#![tactic(auto)]

mod cell_laws;
mod cells;
mod commodities;
mod compare;
mod decimal;
mod demands;
mod largest;
mod laws;
mod links;
mod modes;
mod names;
mod number;
mod options;
mod refusal;
mod scaled;
mod short;
mod sizes;

pub use cell_laws::{cells_and_names_are_inverse, cells_are_named, link_is_set};
pub use decimal::{Decimal, UnitFault, read_decimal, units};
pub use laws::{decimals_are_least, decimals_are_unique, millionths_are_the_finest};
pub use modes::{
    LinkMode, ModuleMode, Sign, link_mode_of, link_word, module_mode_of, module_word,
    old_link_mode_of, old_link_word,
};
pub use names::{CellName, cell_of, cells_of, name_of};
pub use options::NetOptions;
pub use refusal::{RowEnd, RowRefusal, RowSort, ScaleEnd};
pub use scaled::{Scaled, scale, scale_at};
