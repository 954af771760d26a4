//! Runs over files and output in memory, what is expected of them, and the networks and certificates of many tables.
#![tactic(auto)]

mod edits;
mod expected;
mod networks;
mod running;

pub use edits::{Edit, expect_certs, expect_nets, expect_on_nets};
pub use expected::{
    CHECK, PRINT, SWEEP, TIGHTEN, TIGHTEN_BOTH, UPGRADE, WHAT_IF, expect, expect_cert, expect_net,
    expect_script,
};
pub use networks::{
    BOTH_ROUTED, BOTH_WAYS, BOTH_WAYS_SOLVED, CUT, CUT_SIGNED, EACH_WAY_ROUTED, FREE_LAYOUT,
    FREE_LAYOUT_PRINTED, INVALID, NO_CAPACITY, OPEN, OPEN_SWEPT, THERE_AND_BACK, TWO_LINKS,
};
pub use running::{
    AMPLE, Answer, File, Outside, ample_answer, answer_through, answer_to, judged, owned_words,
};
