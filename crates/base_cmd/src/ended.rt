//! How a run ends.

ghost use Rattle.std.specs.Prelude.{ℕ, List};
ghost use Rattle.mcf_base.specs.Sink.{SinkView, Wrote};
ghost use Rattle.base_cmd.specs.Answer.{Writes};

use flow_solver::Solved;
use hop_check::HopProof;
use mcf_base::WriteFault;
use throughput::PartProof;

/// What a run hands out beside its text.
#[derive(Drop)]
pub struct Found {
    /// What was solved, where a solve was written.
    pub solved: Option<Solved>,
    /// The certificate with hop limits, where one was made and written.
    pub hops: Option<HopProof>,
    /// The certificate of a total, where one was made and written.
    pub part: Option<PartProof>,
}

impl Found {
    ghost use Rattle.std.specs.Prelude.{◌≡◌};
    ghost use Rattle.base_cmd.specs.Found.{nothing, found_hops, found_part, found_solve};

    /// Nothing.
    pub fn nothing() -> Self
        ensures { result ≡ nothing }
    {
        Found {
            solved: None,
            hops: None,
            part: None,
        }
    }

    /// A solve.
    pub fn solve(solved: Solved) -> Self
        ensures { result ≡ found_solve solved }
    {
        Found {
            solved: Some(solved),
            hops: None,
            part: None,
        }
    }

    /// A certificate with hop limits.
    pub fn hop_proof(proof: HopProof) -> Self
        ensures { result ≡ found_hops proof }
    {
        Found {
            solved: None,
            hops: Some(proof),
            part: None,
        }
    }

    /// A certificate of a total.
    pub fn part_proof(proof: PartProof) -> Self
        ensures { result ≡ found_part proof }
    {
        Found {
            solved: None,
            hops: None,
            part: Some(proof),
        }
    }
}

/// How a run ended.
#[derive(Drop)]
pub struct Ended {
    /// The status of the process, 0 to 6.
    pub status: u8,
    /// What it hands out; nothing where the output failed.
    pub found: Found,
}

impl Ended {
    ghost use Rattle.std.specs.Prelude.{◌≡◌};
    ghost use Rattle.base_cmd.specs.Found.{nothing};

    /// The end with that status, with nothing found.
    pub fn told(status: u8) -> Self
        ensures { result ≡ record { status = status; found = nothing } }
    {
        Ended {
            status,
            found: Found::nothing(),
        }
    }
}

/// How a run ends that has written its text, with that status and that to hand out; where the output failed, with status 5.
pub fn end_of(written: Result<(), WriteFault>, status: u8, found: Found) -> Ended
    ensures { (old new : SinkView) (text : List ℕ) → Wrote old new written text
        → Writes old new result (record { status = status; text = text; found = found }) }
{
    match written {
        Ok(()) => Ended { status, found },
        Err(_) => Ended::told(5),
    }
}
