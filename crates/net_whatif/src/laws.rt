//! Laws, each proved for all networks, certificates and scripts.

ghost use Rattle.std.specs.Prelude.{ℕ, List, length};
ghost use Rattle.unit_scale.specs.declared.modes.LinkMode.{LinkMode};
ghost use Rattle.flow_paths.specs.declared.certificate.Proof.{Proof};
ghost use Rattle.script.specs.declared.step.Step.{Step};
ghost use Rattle.script.specs.Steps.{AreSteps};
ghost use Rattle.sndlib_grammar.specs.Rows.{NetRows};
ghost use Rattle.unit_scale.specs.Scaling.{ScaledNet};
ghost use Rattle.cert_judge.specs.Certified.{IsCertificate};
ghost use Rattle.whatif.specs.Planned.{Planned, IsPlanned};
ghost use Rattle.net_whatif.specs.Scripted.{start_of};
ghost use Rattle.net_whatif.specs.Sound.{AreSoundLines};

/// Each line that steps write on a plan has the lower fraction of a feasible routing of the network with the capacities as
/// they are then, and the upper one bounds all feasible routings of it. So it is in each mode, of how many links the steps are.
pub fn lines_are_bounds()
    ensures { (mode : LinkMode) (p : Planned) (links : ℕ) (steps : List Step)
        → IsPlanned p → AreSteps links steps → AreSoundLines mode p steps }
{}

/// The same of the plan of a valid certificate.
pub fn certificate_lines_are_bounds()
    ensures { (rows : NetRows) (net : ScaledNet) (proof : Proof) (steps : List Step)
        → IsCertificate rows net proof → AreSteps (length rows.links) steps
        → AreSoundLines net.options.links (start_of net proof) steps }
{}
