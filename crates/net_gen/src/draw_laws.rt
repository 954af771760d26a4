//! Laws, each proved for all seeds, counts and options.

ghost use Rattle.std.specs.Prelude.{◌≡◌, ◌≢◌, ◌+◌, ◌%◌, ℕ, Ok, Err, length};
ghost use Rattle.std.specs.List.{range_with_len, sum_by};
ghost use Rattle.unit_scale.specs.declared.options.NetOptions.{NetOptions};
ghost use Rattle.unit_scale.specs.declared.modes.LinkMode.{LinkMode};
ghost use Rattle.flow_model.specs.Network.{IsNetwork};
ghost use Rattle.sndlib_grammar.specs.declared.refusal.NetRefusal.{NetRefusal};
ghost use Rattle.sndlib_grammar.specs.Net.{rows_of};
ghost use Rattle.sndlib_grammar.specs.Rows.{NetRows};
ghost use Rattle.unit_scale.specs.Scaling.{scaled_of};
ghost use Rattle.net_gen.specs.Generated.{AreCounts, generated_text};
ghost use Rattle.unit_scale.specs.Names.{cells_of};
ghost use Rattle.net_gen.specs.Drawn.{drawn_network, drawn_net};

/// The rows of a generated text stand for the network that was drawn, whatever the options are, and are never
/// refused.
pub fn drawn_networks_are_scaled()
    ensures network { (seed nodes links demands : ℕ) (rows : NetRows) (o : NetOptions)
        → AreCounts nodes links demands
        → rows_of (generated_text seed nodes links demands) ≡ Ok rows
        → scaled_of rows o ≡ Ok (drawn_net o seed nodes links demands) }
    ensures accepted { (seed nodes links demands : ℕ) (rows : NetRows) (o : NetOptions) (r : NetRefusal)
        → AreCounts nodes links demands → rows_of (generated_text seed nodes links demands) ≡ Ok rows
        → scaled_of rows o ≢ Err r }
{}

/// What is drawn is a network: its ends are nodes, those of a demand are two, and all numbers are within the limits.
pub fn drawn_networks_are_networks()
    ensures { (mode : LinkMode) (seed nodes links demands : ℕ) → AreCounts nodes links demands
        → IsNetwork (drawn_network mode seed nodes links demands) }
{}

/// It has the cells of as many links and as many commodities as were asked for, and its amounts repeat 1 to 10.
pub fn drawn_networks_have_counts()
    ensures cells { (mode : LinkMode) (seed nodes links demands : ℕ)
        → length (drawn_network mode seed nodes links demands).cells ≡ cells_of mode links }
    ensures commodities { (mode : LinkMode) (seed nodes links demands : ℕ)
        → length (drawn_network mode seed nodes links demands).commodities ≡ demands }
    ensures amounts { (mode : LinkMode) (seed nodes links demands : ℕ)
        → sum_by (λ k. k.amount) (drawn_network mode seed nodes links demands).commodities
        ≡ sum_by (λ i. 1 + i % 10) (range_with_len 0 demands) }
{}
