//! Laws of whole runs, over the contract of the top call: a run of accepted words and files answers in full. And what it means that a
//! certificate, one with hop limits or of a total, a routing or a script is refused at a line: laws over their texts. Where a text
//! stops is said by the texts that are written, and not by how one is read. What a kind says is said of the words of a line or of a
//! token; into which words a line falls, and whether it has its form, is taken from the definitions that the readers are proved against.
#![tactic(auto)]

mod kinds;
mod laws;
mod papers;
mod scripts;

pub use kinds::{
    hop_and_total_heads_say_why, hop_and_total_heads_stop_there, hop_and_total_refusals_are_one,
    hops_and_totals_say_why, hops_and_totals_stop_there, judged_hops_and_totals_say_why,
    judged_hops_and_totals_stop_there, layers_and_thresholds_say_why,
};
pub use laws::{
    accepted_runs_are_whole, batch_runs_check, hops_runs_check, only_accepted_runs_are,
    runs_start_their_files, solved_runs_check, swept_runs_are_bounds, throughput_runs_check,
    tightened_runs_are_best, tightened_runs_check, tightened_runs_stay, upgraded_runs_check,
    upgraded_runs_keep_their_certificate,
};
pub use papers::{
    certified_refusals, head_kinds_say_why, heads_stop_there, judged_kinds_say_why,
    judged_texts_stop_there, line_kinds_say_why, paper_kinds_say_why, paper_refusals_are_one,
    papers_stop_there, second_refusals,
};
pub use scripts::{
    script_faults_are_one, script_kinds_say_why, script_reasons_refuse, script_texts_stop_there,
    scripts_stop_there,
};
