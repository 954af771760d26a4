//! Refusals of certificates with hop limits and of totals.

ghost use Rattle.std.specs.Prelude.{◌≡◌, ◌≤◌, ℕ, List, Err};
ghost use Rattle.text_lines.specs.Lines.{Line, lines_of};
ghost use Rattle.sndlib_grammar.specs.Rows.{NetRows, AreNetRows};
ghost use Rattle.cert_lines.specs.Sheet.{Sheet};
ghost use Rattle.cert_lines.specs.declared.net_line.TheConstants.{MAX_COUNT};
ghost use Rattle.cert_lines.specs.declared.refusal.CertKind.{CertKind};
ghost use Rattle.cert_lines.specs.declared.refusal.CertRefusal.{CertRefusal};
ghost use Rattle.cert_judge.specs.declared.judged.Judged.TheVariants.{CertRefused};
ghost use Rattle.cert_inverse.specs.Inverse.{IsCitable};
ghost use Rattle.kind_texts.specs.Heads.{run_head};
ghost use Rattle.kind_texts.specs.HopsRead.{layer_row, hops_in};
ghost use Rattle.kind_texts.specs.PartRead.{threshold_line, part_in};
ghost use Rattle.hops_cmd.specs.Check.{IsHopsJudgement};
ghost use Rattle.throughput_cmd.specs.Check.{IsPartJudgement};
ghost use Rattle.cli_laws.specs.Lines.{StopsAt};
ghost use Rattle.cli_laws.specs.CertKinds.{IsLineFault, layer_form, threshold_form};
ghost use Rattle.cli_laws.specs.KindTexts.{hops_header, total_header, IsHopsText, IsTotalText, hops_refused, total_refused, IsHopsRefusedFor, IsTotalRefusedFor};
ghost use Rattle.cli_laws.specs.KindHeads.{IsHopsHeaded, IsTotalHeaded, options_refused, IsHopsHeadRefusedFor, IsTotalHeadRefusedFor};
ghost use Rattle.cli_laws.specs.KindJudged.{HopsStopsFor, TotalStopsFor, IsHopsJudgedFor, IsTotalJudgedFor};

/// Where a text is refused, the lines before begin the text of some certificate with hop limits, or
/// of a total, of these names, and with the line that is refused they begin none; or the text ends in
/// that line, and is none.
pub fn hops_and_totals_stop_there()
    ensures hops { (sheet : Sheet) (text : List ℕ) (r : CertRefusal) → IsCitable sheet
        → hops_in sheet (lines_of text) ≡ hops_refused r → StopsAt (IsHopsText sheet) text r.line }
    ensures totals { (sheet : Sheet) (text : List ℕ) (r : CertRefusal) → IsCitable sheet
        → part_in sheet (lines_of text) ≡ total_refused r → StopsAt (IsTotalText sheet) text r.line }
{}

/// The same of the first lines of a text, which say its kind, a verdict, and how links and modules
/// are read.
pub fn hop_and_total_heads_stop_there()
    ensures hops { (text : List ℕ) (r : CertRefusal)
        → run_head hops_header (lines_of text) ≡ options_refused r → StopsAt IsHopsHeaded text r.line }
    ensures totals { (text : List ℕ) (r : CertRefusal)
        → run_head total_header (lines_of text) ≡ options_refused r → StopsAt IsTotalHeaded text r.line }
{}

/// The same of a text that is judged on the rows of a network: with that line its first lines begin
/// none of any network any more, or it is none of this network any more, under the options that its
/// first lines say.
pub fn judged_hops_and_totals_stop_there()
    ensures hops { (rows : NetRows) (text : List ℕ) (r : CertRefusal) → AreNetRows rows
        → rows.skipped ≤ MAX_COUNT → IsHopsJudgement rows text (CertRefused r)
        → HopsStopsFor rows text r.line }
    ensures totals { (rows : NetRows) (text : List ℕ) (r : CertRefusal) → AreNetRows rows
        → rows.skipped ≤ MAX_COUNT → IsPartJudgement rows text (CertRefused r)
        → TotalStopsFor rows text r.line }
{}

/// What the kind says of the two lines that other certificates have not: the line has not its form, or
/// it has it, and the kind is that of the first of its words that is wrong.
pub fn layers_and_thresholds_say_why()
    ensures layers { (sheet : Sheet) (line : Line) (kind : CertKind) → layer_row sheet line ≡ Err kind
        → IsLineFault (layer_form sheet line) kind }
    ensures thresholds { (line : Line) (kind : CertKind) → threshold_line line ≡ Err kind
        → IsLineFault (threshold_form line) kind }
{}

/// What the kind says of the line at which a text is refused: the first line is not the header; or
/// the text ends in it, before its line feed; or it is not what a line of that number has to be.
pub fn hops_and_totals_say_why()
    ensures hops { (sheet : Sheet) (text : List ℕ) (r : CertRefusal)
        → hops_in sheet (lines_of text) ≡ hops_refused r → IsHopsRefusedFor sheet (lines_of text) r }
    ensures totals { (sheet : Sheet) (text : List ℕ) (r : CertRefusal)
        → part_in sheet (lines_of text) ≡ total_refused r → IsTotalRefusedFor sheet (lines_of text) r }
{}

/// The same of the first lines of a text.
pub fn hop_and_total_heads_say_why()
    ensures hops { (text : List ℕ) (r : CertRefusal)
        → run_head hops_header (lines_of text) ≡ options_refused r
        → IsHopsHeadRefusedFor (lines_of text) r }
    ensures totals { (text : List ℕ) (r : CertRefusal)
        → run_head total_header (lines_of text) ≡ options_refused r
        → IsTotalHeadRefusedFor (lines_of text) r }
{}

/// The same of a text that is judged on the rows of a network: of its first lines, or of the whole with
/// the names of the rows and of their network.
pub fn judged_hops_and_totals_say_why()
    ensures hops { (rows : NetRows) (text : List ℕ) (r : CertRefusal)
        → IsHopsJudgement rows text (CertRefused r) → IsHopsJudgedFor rows text r }
    ensures totals { (rows : NetRows) (text : List ℕ) (r : CertRefusal)
        → IsPartJudgement rows text (CertRefused r) → IsTotalJudgedFor rows text r }
{}

/// Two reasons for which one line of a text is refused have one kind, under the same names: what is
/// said of a refusal of that kind is said of no other. The same of the first lines.
pub fn hop_and_total_refusals_are_one()
    ensures hops { (sheet : Sheet) (lines : List Line) (r e : CertRefusal) → IsHopsRefusedFor sheet lines r
        → IsHopsRefusedFor sheet lines e → r.line ≡ e.line → r.kind ≡ e.kind }
    ensures totals { (sheet : Sheet) (lines : List Line) (r e : CertRefusal) → IsTotalRefusedFor sheet lines r
        → IsTotalRefusedFor sheet lines e → r.line ≡ e.line → r.kind ≡ e.kind }
    ensures hop_heads { (lines : List Line) (r e : CertRefusal) → IsHopsHeadRefusedFor lines r
        → IsHopsHeadRefusedFor lines e → r.line ≡ e.line → r.kind ≡ e.kind }
    ensures total_heads { (lines : List Line) (r e : CertRefusal) → IsTotalHeadRefusedFor lines r
        → IsTotalHeadRefusedFor lines e → r.line ≡ e.line → r.kind ≡ e.kind }
{}
