//! A law of walks over positive cells, proved for all lists of cells.

ghost use Rattle.std.specs.Prelude.{◌↔◌, ℕ, List};
ghost use Rattle.flow_model.specs.declared.net.Cell.{Cell};
ghost use Rattle.flow_model.specs.Walk.{IsWalk, PositiveWalk};
ghost use Rattle.dijkstra_paths.specs.Reach.{ArePositive};

/// A walk over positive cells is a walk whose cells are all positive.
pub fn positive_walks_have_positive_cells()
    ensures { (cells : List Cell) (u v : ℕ) (walk : List ℕ) → PositiveWalk cells u v walk
        ↔ (IsWalk cells u v walk × ArePositive cells walk) }
{}
