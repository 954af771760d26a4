//! What the words ask of a run.

ghost use Rattle.std.specs.Prelude.{◌≡◌};
ghost use Rattle.throughput_cmd.specs.Parts.{asked_of};

use mcf_words::Request;
use net_solve::Asked;

/// What the words ask of a run. Workers have no bearing on one.
pub fn asked_by(request: &Request) -> Asked
    ensures { result ≡ asked_of request.now }
{
    Asked {
        gap: request.gap,
        phases: request.phases,
        workers: None,
        step: request.step,
    }
}
