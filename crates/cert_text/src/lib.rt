//! The text of a certificate and of a routing, read and written exactly.
#![tactic(auto)]

mod head;
mod laws;
mod opening;
mod papers;
mod place;
mod rows;

pub use cert_lines::{CertEnd, CertKind, CertRefusal, Form};
pub use head::{next_counted, next_figures, next_modes, next_opening, next_value, next_values};
pub use laws::old_form_has_no_bidirected_links;
pub use opening::{CertHead, Kind, Known, Opened, Opening, modes_behind, next_verdict, open};
pub use papers::{Paper, dual_of, paths_of, read_rest};
pub use place::{Place, closing, fixed, refused, split};
pub use rows::{next_lengths, next_paths, next_potentials};
