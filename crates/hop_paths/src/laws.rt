//! A law of layers, proved for all networks.

ghost use Rattle.hop_paths.specs.Laws.{LayersBoundWalks};

/// Layers bound the length of every walk of no more cells than there are layers above the
/// first, be its cells empty or not.
pub fn layers_bound_walks()
    ensures { LayersBoundWalks }
{}
