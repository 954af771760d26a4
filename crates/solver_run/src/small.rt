//! What the definitions say of small networks, and that small runs meet them.

ghost use Rattle.std.specs.Prelude.{◌≡◌, [], ◌∷◌, true, false};
ghost use Rattle.flow_model.specs.Network.{IsNetwork};
ghost use Rattle.flow_model.specs.Groups.{group_sources, members_of};
ghost use Rattle.flow_paths.specs.Evaluation.{fill};
ghost use Rattle.solver_run.specs.Options.{AreOptions};
ghost use Rattle.solver_run.specs.History.{loads_after};
ghost use Rattle.solver_run.specs.Run.{IsSolverRun};
ghost use Rattle.solver_run.specs.Headline.{IsSolved};
ghost use Rattle.solver_run.specs.Small.{small, small_phases, small_options, cut_link, cut_solved, one_link, link_solved};

/// The sources ascend, and so do the members of a group.
#[tactic(auto, unfolding(flow_model::specs::Groups::group_in))]
pub fn small_has_groups()
    ensures sources { group_sources small ≡ 0 ∷ 1 ∷ [] }
    ensures first { members_of small 0 ≡ 1 ∷ [] }
    ensures second { members_of small 1 ≡ 0 ∷ 2 ∷ [] }
{}

/// Of two cells that are as full the first is the fullest, and a cell without load is none.
pub fn small_has_a_fullest_cell()
    ensures { fill small.cells (4 ∷ 2 ∷ 0 ∷ []) ≡ record { num = 10; den = 4 } }
{}

/// Each phase loads a cell by the amounts of the paths over it.
pub fn small_phases_load()
    ensures none { loads_after small small_phases 0 ≡ 0 ∷ 0 ∷ 0 ∷ [] }
    ensures one { loads_after small small_phases 1 ≡ 4 ∷ 3 ∷ 1 ∷ [] }
    ensures two { loads_after small small_phases 2 ≡ 8 ∷ 6 ∷ 2 ∷ [] }
{}

/// What is solved of a network with a cut is a run, and is solved.
pub fn a_cut_is_solved()
    ensures network { IsNetwork cut_link }
    ensures options { AreOptions cut_link small_options }
    ensures run { IsSolverRun cut_link small_options cut_solved }
    ensures solved { IsSolved cut_link small_options cut_solved }
{}

/// What is solved of one link by one phase is a run, and is solved.
pub fn a_phase_is_solved()
    ensures network { IsNetwork one_link }
    ensures options { AreOptions one_link small_options }
    ensures run { IsSolverRun one_link small_options link_solved }
    ensures solved { IsSolved one_link small_options link_solved }
{}
