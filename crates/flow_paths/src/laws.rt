//! What follows from the definitions.

ghost use Rattle.std.specs.Prelude.{◌≡◌, ℕ, ◌<◌, ◌≤◌, List, [], ◌∷◌, true, false, All, length, slice_index};
ghost use Rattle.flow_model.specs.declared.net.Cell.{Cell};
ghost use Rattle.flow_paths.specs.Evaluation.{fill};
ghost use Rattle.flow_paths.specs.Fullest.{IsFirstFullest};
ghost use Rattle.flow_paths.specs.RowOrder.{list_lt};

/// Where some cell has a load, the fullest is the first of those with a load at which capacity over load is least: at
/// none is it below that, and at all before it is above. Where no cell has a load, it is 1/0.
pub fn fullest_is_first_of_the_least()
    ensures some { (cells : List Cell) (loads : List ℕ) (c : ℕ) → length loads ≡ length cells → c < length cells
        → 1 ≤ slice_index loads c → IsFirstFullest cells loads (fill cells loads) }
    ensures none { (cells : List Cell) (loads : List ℕ) → All (λ n. n ≡ 0) loads
        → fill cells loads ≡ record { num = 1; den = 0 } }
{}

/// A path comes before those that go on from it, and the first cell that differs decides.
pub fn paths_are_in_order()
    ensures part { list_lt (1 ∷ []) (1 ∷ 2 ∷ []) ≡ true }
    ensures first { list_lt (1 ∷ 9 ∷ []) (2 ∷ []) ≡ true }
    ensures same { list_lt (1 ∷ 2 ∷ []) (1 ∷ 2 ∷ []) ≡ false }
{}
