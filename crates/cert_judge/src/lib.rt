//! What is said of the text of a certificate or a routing on the rows of a network: the chain of judging,
//! from the head of the text to the verdict; and laws of these texts over their definitions.
#![tactic(auto)]

mod certifying;
mod judged;
mod judging;
mod laws;
mod reading;
mod refusal;
mod second;

pub use cert_check::Fault;
pub use cert_text::{CertKind, CertRefusal};
pub use certifying::{Certified, read_certificate};
pub use judged::Judged;
pub use judging::{judge, judge_paper, refused};
pub use laws::{papers_fit, read_by_stages, seconds_are_of_one_network};
pub use reading::read_paper;
pub use refusal::{ReadEnd, Refusal};
pub use second::{Second, read_second};
