//! Laws, each proved for all words, files, outputs and ends of a run.

ghost use Rattle.cli_laws.specs.Batched.{BatchRunsCheck};
ghost use Rattle.cli_laws.specs.Checked.{SolvedRunsCheck, UpgradedRunsCheck, UpgradedRunsKeep};
ghost use Rattle.cli_laws.specs.KindsChecked.{HopsRunsCheck, ThroughputRunsCheck};
ghost use Rattle.cli_laws.specs.Swept.{SweptRunsAreBounds};
ghost use Rattle.cli_laws.specs.Tightened.{TightenedRunsAreBest, TightenedRunsCheck, TightenedRunsStay};
ghost use Rattle.cli_laws.specs.Laws.{AcceptedRunsAreWhole, OnlyAcceptedRunsAre, RunsStartTheirFiles};

use cert_inverse::{networks_are_citable, texts_read_exactly, valid_texts_are_judged_valid};
use hops_cmd::solved_hops_check;
use net_solve::{solved_is_judged_valid, solves_check};
use throughput_cmd::solved_parts_check;

/// Where the words are in the grammar, each file that the command reads is accepted, the work is within its limit, and no
/// count of faults rose in the run, the run has written the whole text of an answer of its command, with status 0 or 1; or
/// `memory`, with status 6.
pub fn accepted_runs_are_whole()
    ensures { AcceptedRunsAreWhole }
{}

/// A run ends with status 0 or 1 nowhere else.
pub fn only_accepted_runs_are()
    ensures { OnlyAcceptedRunsAre }
{}

/// A run starts the files of its words alone, in their order, each at most once. It ends with 4 or 5 where one of these files has
/// failed, and with 4 nowhere else; with 5 exactly where the output has, which then failed once, with nothing written behind.
pub fn runs_start_their_files()
    ensures { RunsStartTheirFiles }
{}

/// What a run of `solve` wrote is called `valid` by a run of `check` on the same network, with the same verdict and fractions
/// and status 0, unless something fails, memory is wanting, or the text is over the limit of certificate texts.
pub fn solved_runs_check()
    ensures { SolvedRunsCheck }
{
    solves_check();
}

/// What a run of `hops` wrote is called `valid` by a run of `checkhops` on the same network, with the same verdict and fractions
/// and status 0, unless something fails, memory is wanting, or the text is over the limit of certificate texts.
pub fn hops_runs_check()
    ensures { HopsRunsCheck }
{
    solved_hops_check();
}

/// What a run of `throughput` wrote is called `valid` by a run of `checkthroughput` on the same network, with the same verdict and
/// fractions and status 0, unless something fails, memory is wanting, or the text is over the limit of certificate texts.
pub fn throughput_runs_check()
    ensures { ThroughputRunsCheck }
{
    solved_parts_check();
}

/// What a run of `batch` wrote is, for each matrix of its list in order, its line and the text of the certificate of a solve of the
/// network with that matrix's demands. Each of these texts is called `valid` by a run of `check` on any network text whose rows are
/// those of the network with the matrix's demands in place of its own, whatever lines they stand in, with as many skipped sections;
/// with the same verdict and fractions and status 0, unless something fails, memory is wanting, or the text is over the limit of
/// certificate texts. Where the network skips no section, the canonical text of the matrix's rows is such a network text.
pub fn batch_runs_check()
    ensures { BatchRunsCheck }
{
    solved_is_judged_valid();
}

/// What a run of `upgrade` wrote is the text, in form 2, of the valid certificate that it read in either form: its phases, rows
/// and dual are those of the file, and a file of form 2 is written again byte for byte.
pub fn upgraded_runs_keep_their_certificate()
    ensures { UpgradedRunsKeep }
{
    networks_are_citable();
    texts_read_exactly();
}

/// It is called `valid` by a run of `check` on the same network, with that certificate's verdict and fractions and status 0,
/// unless something fails, memory is wanting, or the text is over the limit of certificate texts.
pub fn upgraded_runs_check()
    ensures { UpgradedRunsCheck }
{
    networks_are_citable();
    texts_read_exactly();
    valid_texts_are_judged_valid();
}

/// What a run of `sweep` wrote has a line for each link of the network, in link order. On the network with that link closed its
/// lower fraction is that of a feasible routing, and its upper one bounds every feasible routing.
pub fn swept_runs_are_bounds()
    ensures { SweptRunsAreBounds }
{}

/// What a run of `tighten` wrote is the best certificate that those it read give, in form 2, with status 0 where it is closed and
/// 1 where it is open: it is valid, its lower fraction is not below and its upper one not above that of any of them. Else it is
/// the first condition that one of them fails.
pub fn tightened_runs_are_best()
    ensures { TightenedRunsAreBest }
{}

/// Such a certificate is called `valid` by a run of `check` on the same network, with its verdict and fractions and status 0,
/// unless something fails, memory is wanting, or the text is over the limit of certificate texts.
pub fn tightened_runs_check()
    ensures { TightenedRunsCheck }
{}

/// A run of `tighten` on that network and such a certificate alone writes it again byte for byte, with the same status.
pub fn tightened_runs_stay()
    ensures { TightenedRunsStay }
{}
