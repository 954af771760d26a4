//! The commands that judge certificates, write them anew or better ones, and edit their networks: `check`, `upgrade`,
//! `tighten`, `whatif`.
#![tactic(auto)]

mod checking;
mod tightening;
mod upgrading;
mod what_if;

pub use checking::check;
pub use tightening::tighten;
pub use upgrading::upgrade;
pub use what_if::whatif_files;
