//! Laws of generated texts, each as a function that does nothing.

ghost use Rattle.std.specs.Prelude.{◌≡◌, ◌≢◌, ◌≤◌, ℕ, Ok, All, length};
ghost use Rattle.mcf_limits.specs.declared.TheConstants.{MAX_NET_BYTES};
ghost use Rattle.sndlib_grammar.specs.Net.{rows_of};
ghost use Rattle.sndlib_grammar.specs.Rows.{NetRows};
ghost use Rattle.sndlib_grammar.specs.Canonical.{ReadsBack, canonical_text};
ghost use Rattle.net_gen.specs.Generated.{AreCounts, generated_rows, generated_text};

/// A generated text is read as the rows that were drawn, their lines apart.
pub fn generated_text_reads_back()
    ensures { (seed nodes links demands : ℕ) → AreCounts nodes links demands
        → ReadsBack (generated_rows seed nodes links demands) }
{}

/// The rows that are read of a generated text have that text as their canonical text: printing repeats it.
pub fn generated_text_is_canonical()
    ensures { (seed nodes links demands : ℕ) (rows : NetRows) → AreCounts nodes links demands
        → rows_of (generated_text seed nodes links demands) ≡ Ok rows
        → canonical_text rows ≡ generated_text seed nodes links demands }
{}

/// Each link and each demand that is drawn joins two different nodes.
pub fn drawn_ends_differ()
    ensures links { (seed nodes links demands : ℕ) → AreCounts nodes links demands
        → All (λ l. l.source ≢ l.target) (generated_rows seed nodes links demands).links }
    ensures demands { (seed nodes links demands : ℕ) → AreCounts nodes links demands
        → All (λ d. d.source ≢ d.target) (generated_rows seed nodes links demands).demands }
{}

/// A generated text is within the limit of texts that are read.
pub fn generated_text_is_short()
    ensures { (seed nodes links demands : ℕ) → AreCounts nodes links demands
        → length (generated_text seed nodes links demands) ≤ MAX_NET_BYTES }
{}
