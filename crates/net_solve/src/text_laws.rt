//! Laws, each proved for all networks and everything that is solved of them.

ghost use Rattle.std.specs.Prelude.{◌≡◌, ◌≤◌};
ghost use Rattle.text_lines.specs.Lines.{lines_of};
ghost use Rattle.flow_model.specs.Network.{IsNetwork};
ghost use Rattle.sndlib_grammar.specs.Rows.{NetRows};
ghost use Rattle.unit_scale.specs.Scaling.{ScaledNet};
ghost use Rattle.unit_scale.specs.ScaledFacts.{IsScaledNet};
ghost use Rattle.solver_run.specs.declared.options.SolveOptions.{SolveOptions};
ghost use Rattle.solver_run.specs.History.{SolvedView};
ghost use Rattle.solver_run.specs.Headline.{IsSolved};
ghost use Rattle.cert_lines.specs.Sheet.{IsOf, sheet_of, sheets_of};
ghost use Rattle.cert_lines.specs.declared.net_line.TheConstants.{MAX_COUNT};
ghost use Rattle.cert_text.specs.declared.papers.Paper.TheVariants.{Full};
ghost use Rattle.cert_text.specs.Whole.{paper_in};
ghost use Rattle.cert_writer.specs.Text.{FitsProof, certificate_text};
ghost use Rattle.cert_judge.specs.Fits.{read};
ghost use Rattle.cert_judge.specs.declared.judged.Judged.{Judged};
ghost use Rattle.cert_judge.specs.Judgement.{IsJudgement};
ghost use Rattle.cert_inverse.specs.Judging.{valid_of};

/// What is solved of a network can be written in form 2 with the names of its rows, however links
/// are read: each number is within the limits of a certificate's text, and each row names a
/// commodity, cells or a node.
pub fn solved_can_be_written()
    ensures { (rows : NetRows) (net : ScaledNet) (o : SolveOptions) (s : SolvedView) → IsOf rows net
        → IsScaledNet net → IsNetwork net.net
        → IsSolved net.net o s → FitsProof (sheet_of rows net) s.proof }
{}

/// The text of what is solved is read as the certificate that was written, where the skipped
/// sections can be counted.
pub fn solved_reads_back()
    ensures { (rows : NetRows) (net : ScaledNet) (o : SolveOptions) (s : SolvedView) → IsOf rows net
        → rows.skipped ≤ MAX_COUNT → IsScaledNet net → IsNetwork net.net → IsSolved net.net o s
        → paper_in (sheets_of rows net) (lines_of (certificate_text (sheet_of rows net) s.proof))
        ≡ read (Full s.proof) }
{}

/// That text is judged valid on the same rows, with its verdict and its fractions, and nothing else
/// is said of it.
pub fn solved_is_judged_valid()
    ensures valid { (rows : NetRows) (net : ScaledNet) (o : SolveOptions) (s : SolvedView)
        → IsOf rows net → rows.skipped ≤ MAX_COUNT → IsScaledNet net → IsNetwork net.net
        → IsSolved net.net o s
        → IsJudgement rows (certificate_text (sheet_of rows net) s.proof) (valid_of net s.proof) }
    ensures alone { (rows : NetRows) (net : ScaledNet) (o : SolveOptions) (s : SolvedView)
        (judged : Judged)
        → IsOf rows net → rows.skipped ≤ MAX_COUNT → IsScaledNet net → IsNetwork net.net
        → IsSolved net.net o s
        → IsJudgement rows (certificate_text (sheet_of rows net) s.proof) judged
        → judged ≡ valid_of net s.proof }
{}
