//! What follows from the definitions, for all networks.

ghost use Rattle.std.specs.Prelude.{◌≡◌, ℕ, ◌<◌, ◌≤◌, List, All, length};
ghost use Rattle.flow_model.specs.declared.setting.Setting.{Setting};
ghost use Rattle.flow_model.specs.Network.{Network, IsNetwork};
ghost use Rattle.flow_model.specs.Lengths.{AreLengths};
ghost use Rattle.flow_model.specs.Least.{IsLeastWalk, HasCut};
ghost use Rattle.fixed_exp.specs.Far.{EmptyAreFar};
ghost use Rattle.flow_paths.specs.DualRows.{DualRows};
ghost use Rattle.flow_paths.specs.Certificate.{FractionsArePrinted, IsCertified, upper_of};
ghost use Rattle.flow_paths.specs.Evaluation.{loads_of};
ghost use Rattle.flow_paths.specs.Least.{IsFirstLeast};
ghost use Rattle.flow_core.specs.Phase.{Routed, IsPhase};
ghost use Rattle.dual_bound.specs.Bounds.{IsBoundOf, IsCutDual, ShowsBound, cut_lengths};
ghost use Rattle.solver_run.specs.declared.options.SolveOptions.{SolveOptions};
ghost use Rattle.solver_run.specs.Options.{AreOptions};
ghost use Rattle.solver_run.specs.Paths.{HavePaths};
ghost use Rattle.solver_run.specs.History.{SolvedView, phases_of, loads_after};
ghost use Rattle.solver_run.specs.Run.{IsPhasedRun, IsSolverRun, least_dual};
ghost use Rattle.solver_run.specs.Headline.{IsSolved};

/// A least walk over positive cells comes to no node twice, so it has fewer cells than there are nodes.
pub fn least_walks_are_short()
    ensures { (net : Network) (lengths : List ℕ) (u v : ℕ) (walk : List ℕ) → IsNetwork net
        → AreLengths net.cells lengths → u < net.nodes → IsLeastWalk net.cells lengths u v walk
        → length walk < net.nodes }
{}

/// Each entry of a phase has a path of its commodity.
pub fn phases_have_paths()
    ensures { (net : Network) (setting : Setting) (base loads : List ℕ) (entries : List Routed)
        → IsNetwork net → IsPhase net setting base loads entries → HavePaths net entries }
{}

/// The rows of a run load each cell as its phases do.
pub fn rows_load_what_phases_load()
    ensures { (net : Network) (o : SolveOptions) (s : SolvedView) → IsNetwork net
        → IsPhasedRun net o s → loads_of net s.proof.routing.paths
        ≡ loads_after net (phases_of s) (length (phases_of s)) }
{}

/// A dual of least lengths, or of a cut, meets the conditions of a certificate.
pub fn duals_show_their_bounds()
    ensures bound { (net : Network) (lengths : List ℕ) (dual : DualRows) → IsNetwork net
        → AreLengths net.cells lengths → EmptyAreFar net.cells lengths → IsBoundOf net lengths dual
        → ShowsBound net lengths dual }
    ensures cut { (net : Network) (dual : DualRows) → IsNetwork net → HasCut net
        → IsCutDual net dual → ShowsBound net (cut_lengths net.cells) dual }
{}

/// Of duals with a value each, as all of a run are, the kept one is the first of the least bound: none is below it, and
/// all before it are above it.
pub fn kept_bound_is_first_of_the_least()
    ensures least { (net : Network) (duals : List DualRows) → 1 ≤ length duals
        → All (λ dual. 1 ≤ (upper_of net dual).den) duals
        → IsFirstLeast (upper_of net) duals (least_dual net duals) }
    ensures run { (net : Network) (o : SolveOptions) (s : SolvedView) → IsNetwork net → (run : IsPhasedRun net o s)
        → IsFirstLeast (upper_of net) run.duals s.proof.dual }
{}

/// A run keeps the asked gap.
pub fn run_keeps_the_gap()
    ensures { (net : Network) (o : SolveOptions) (s : SolvedView) → IsSolverRun net o s → s.proof.gap ≡ o.gap }
{}

/// A run is solved where its fractions are printed as they are: feasible, bounded, tight, with open only after the
/// whole budget, and its certificate is valid and can be written.
pub fn runs_are_solved()
    ensures { (net : Network) (o : SolveOptions) (s : SolvedView) → IsNetwork net → AreOptions net o
        → IsSolverRun net o s → FractionsArePrinted net s.proof → s.proof.lower.micro < 1000000
        → s.proof.upper.micro < 1000000 → IsSolved net o s }
{}

/// What is solved is certified, at the asked gap.
pub fn solved_is_certified()
    ensures { (net : Network) (o : SolveOptions) (s : SolvedView) → IsSolved net o s
        → s.proof.gap ≡ o.gap → IsCertified net s.proof }
{}
