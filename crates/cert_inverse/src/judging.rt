//! Laws of what is said of texts.

ghost use Rattle.std.specs.Prelude.{◌≡◌, ◌≢◌, ◌≤◌, ℕ, Bool, List};
ghost use Rattle.gap_fraction.specs.Fraction.{Fraction};
ghost use Rattle.unit_scale.specs.declared.modes.LinkMode.TheVariants.{Bidirected};
ghost use Rattle.unit_scale.specs.declared.options.NetOptions.{NetOptions};
ghost use Rattle.flow_paths.specs.declared.certificate.Proof.{Proof};
ghost use Rattle.flow_paths.specs.declared.certificate.Routing.{Routing};
ghost use Rattle.flow_paths.specs.Certificate.{IsValid, IsValidRouting};
ghost use Rattle.sndlib_grammar.specs.Rows.{NetRows};
ghost use Rattle.unit_scale.specs.Scaling.{ScaledNet};
ghost use Rattle.cert_lines.specs.Sheet.{IsOf, old_sheet_of, sheet_of};
ghost use Rattle.cert_lines.specs.declared.net_line.TheConstants.{MAX_COUNT};
ghost use Rattle.cert_text.specs.declared.papers.Paper.{Paper};
ghost use Rattle.cert_writer.specs.Text.{FitsProof, FitsRouting, certificate_text, routing_text};
ghost use Rattle.cert_judge.specs.Fits.{FitsPaper};
ghost use Rattle.cert_judge.specs.declared.judged.Judged.{Judged};
ghost use Rattle.cert_judge.specs.declared.judged.Judged.TheVariants.{Feasible, Valid};
ghost use Rattle.cert_judge.specs.Judgement.{IsJudgement, IsSaidOf};
ghost use Rattle.cert_inverse.specs.Inverse.{paper_text};
ghost use Rattle.cert_inverse.specs.Judging.{valid_of, feasible_of, IsValidText, IsFeasibleText};

/// What is said of a text that was written for a network is what is said of the certificate or
/// routing that was written: in form 2 always, and in form 1 where links are not bidirected.
pub fn written_texts_are_judged()
    ensures new { (rows : NetRows) (net : ScaledNet) (paper : Paper) (judged : Judged)
        → IsOf rows net → rows.skipped ≤ MAX_COUNT → FitsPaper (sheet_of rows net) paper
        → IsJudgement rows (paper_text (sheet_of rows net) paper) judged
        → IsSaidOf net.options net.net paper judged }
    ensures old { (rows : NetRows) (net : ScaledNet) (paper : Paper) (judged : Judged)
        → IsOf rows net → rows.skipped ≤ MAX_COUNT → net.options.links ≢ Bidirected
        → FitsPaper (old_sheet_of rows net) paper
        → IsJudgement rows (paper_text (old_sheet_of rows net) paper) judged
        → IsSaidOf net.options net.net paper judged }
{}

/// A valid certificate that is written for a network is judged valid, with its verdict and its
/// fractions; and a valid routing is judged feasible, with its fraction. So are they where they
/// were written in form 1.
pub fn valid_texts_are_judged_valid()
    ensures certificates { (rows : NetRows) (net : ScaledNet) (proof : Proof) (judged : Judged)
        → IsOf rows net → rows.skipped ≤ MAX_COUNT → FitsProof (sheet_of rows net) proof
        → IsValid net.net proof
        → IsJudgement rows (certificate_text (sheet_of rows net) proof) judged
        → judged ≡ valid_of net proof }
    ensures routings { (rows : NetRows) (net : ScaledNet) (routing : Routing) (judged : Judged)
        → IsOf rows net → rows.skipped ≤ MAX_COUNT → FitsRouting (sheet_of rows net) routing
        → IsValidRouting net.net routing
        → IsJudgement rows (routing_text (sheet_of rows net) routing) judged
        → judged ≡ feasible_of net routing }
    ensures old_certificates { (rows : NetRows) (net : ScaledNet) (proof : Proof) (judged : Judged)
        → IsOf rows net → rows.skipped ≤ MAX_COUNT → net.options.links ≢ Bidirected
        → FitsProof (old_sheet_of rows net) proof → IsValid net.net proof
        → IsJudgement rows (certificate_text (old_sheet_of rows net) proof) judged
        → judged ≡ valid_of net proof }
    ensures old_routings { (rows : NetRows) (net : ScaledNet) (routing : Routing) (judged : Judged)
        → IsOf rows net → rows.skipped ≤ MAX_COUNT → net.options.links ≢ Bidirected
        → FitsRouting (old_sheet_of rows net) routing → IsValidRouting net.net routing
        → IsJudgement rows (routing_text (old_sheet_of rows net) routing) judged
        → judged ≡ feasible_of net routing }
{}

/// A text that is judged valid is that of a valid certificate of the rows' network, in one of the
/// forms; one that is judged feasible is that of a feasible routing. Both can be written in form 2.
pub fn judged_texts_are_written()
    ensures certificates { (rows : NetRows) (text : List ℕ) (options : NetOptions) (closed : Bool)
        (lower upper : Fraction)
        → IsJudgement rows text (Valid options closed lower upper)
        → IsValidText rows text (Valid options closed lower upper) }
    ensures routings { (rows : NetRows) (text : List ℕ) (options : NetOptions) (value : Fraction)
        → IsJudgement rows text (Feasible options value)
        → IsFeasibleText rows text (Feasible options value) }
{}
