//! Refusals of certificates and routings.

ghost use Rattle.std.specs.Prelude.{◌≡◌, ◌≤◌, ℕ, List, Err};
ghost use Rattle.text_lines.specs.Lines.{Line, lines_of};
ghost use Rattle.sndlib_grammar.specs.Rows.{NetRows, AreNetRows};
ghost use Rattle.cert_lines.specs.Sheet.{Sheet, Sheets};
ghost use Rattle.cert_lines.specs.declared.net_line.TheConstants.{MAX_COUNT};
ghost use Rattle.cert_lines.specs.declared.refusal.CertKind.{CertKind};
ghost use Rattle.cert_lines.specs.declared.refusal.CertKind.TheVariants.{NoHeader};
ghost use Rattle.cert_lines.specs.declared.refusal.CertRefusal.{CertRefusal};
ghost use Rattle.cert_lines.specs.HeadLines.{gap_line, phases_line, scale_line, value_line};
ghost use Rattle.cert_lines.specs.Rows.{path_row, length_row, potential_row};
ghost use Rattle.cert_text.specs.declared.opening.Known.TheVariants.{Both, Certificates};
ghost use Rattle.cert_text.specs.Whole.{head_in, paper_in};
ghost use Rattle.cert_judge.specs.declared.judged.Judged.TheVariants.{CertRefused};
ghost use Rattle.cert_judge.specs.declared.refusal.Refusal.{Refusal};
ghost use Rattle.cert_judge.specs.declared.refusal.Refusal.TheVariants.{Cert};
ghost use Rattle.cert_judge.specs.Papers.{paper_on};
ghost use Rattle.cert_judge.specs.Judgement.{IsJudgement, refused as said};
ghost use Rattle.cert_judge.specs.Certified.{IsCertifiedText, told};
ghost use Rattle.cert_inverse.specs.Inverse.{AreCitable};
ghost use Rattle.cli_laws.specs.Lines.{StopsAt};
ghost use Rattle.cli_laws.specs.Papers.{IsPaper, IsWorded, refused};
ghost use Rattle.cli_laws.specs.Heads.{IsHeaded, refused_head};
ghost use Rattle.cli_laws.specs.Judged.{StopsFor};
ghost use Rattle.cli_laws.specs.PaperKinds.{IsRefusedFor};
ghost use Rattle.cli_laws.specs.HeadKinds.{IsHeadRefusedFor};
ghost use Rattle.cli_laws.specs.JudgedKinds.{IsJudgedFor};
ghost use Rattle.cli_laws.specs.Routings.{SaysRouting};
ghost use Rattle.cli_laws.specs.Seconds.{SecondsAreRefused};
ghost use Rattle.cli_laws.specs.CertKinds.{IsLineFault, gap_form, phases_form, scale_form, value_form, path_form, length_form, potential_form};

/// Where a text is refused, the lines before begin the text of some certificate or routing of these
/// names, in one of the forms, and with the line that is refused they begin none; or the text ends
/// in that line, and is none. Behind the first line, the form that it says must have a word for how
/// links are read: else no text of that form exists.
pub fn papers_stop_there()
    ensures { (sheets : Sheets) (text : List ℕ) (r : CertRefusal) → AreCitable sheets
        → IsWorded sheets text r.line → paper_in sheets (lines_of text) ≡ refused r
        → StopsAt (IsPaper sheets) text r.line }
{}

/// The same of the first lines of a text, which say its kind, its form, and how links and modules
/// are read.
pub fn heads_stop_there()
    ensures { (text : List ℕ) (r : CertRefusal) → head_in (lines_of text) ≡ refused_head r
        → StopsAt IsHeaded text r.line }
{}

/// The same of a text that is judged on the rows of a network: with that line its first lines begin
/// none of any network any more, or it is none of this network any more, under the options that its
/// first lines say.
pub fn judged_texts_stop_there()
    ensures { (rows : NetRows) (text : List ℕ) (r : CertRefusal) → AreNetRows rows
        → rows.skipped ≤ MAX_COUNT → IsJudgement rows text (CertRefused r)
        → StopsFor rows text r.line }
{}

/// What the kind says of a line that is refused: it has not its form, or it has it, and the kind is
/// that of the first of its words that is wrong.
pub fn line_kinds_say_why()
    ensures gap { (line : Line) (kind : CertKind) → gap_line line ≡ Err kind
        → IsLineFault (gap_form line) kind }
    ensures phases { (line : Line) (kind : CertKind) → phases_line line ≡ Err kind
        → IsLineFault (phases_form line) kind }
    ensures scale { (line : Line) (kind : CertKind) → scale_line line ≡ Err kind
        → IsLineFault (scale_form line) kind }
    ensures values { (key : List ℕ) (most : ℕ) (line : Line) (kind : CertKind)
        → value_line key most line ≡ Err kind → IsLineFault (value_form key most line) kind }
    ensures paths { (sheet : Sheet) (line : Line) (kind : CertKind) → path_row sheet line ≡ Err kind
        → IsLineFault (path_form sheet line) kind }
    ensures lengths { (sheet : Sheet) (line : Line) (kind : CertKind) → length_row sheet line ≡ Err kind
        → IsLineFault (length_form sheet line) kind }
    ensures potentials { (sheet : Sheet) (line : Line) (kind : CertKind)
        → potential_row sheet line ≡ Err kind → IsLineFault (potential_form sheet line) kind }
{}

/// What the kind says of the line at which a text is refused: the first line is no header; or the
/// text ends in it, before its line feed; or it is not what a line of that number has to be.
pub fn paper_kinds_say_why()
    ensures { (sheets : Sheets) (text : List ℕ) (r : CertRefusal)
        → paper_in sheets (lines_of text) ≡ refused r → IsRefusedFor sheets (lines_of text) r }
{}

/// The same of the first lines of a text, which say no kind and form, or behind them no verdict or no
/// mode.
pub fn head_kinds_say_why()
    ensures { (text : List ℕ) (r : CertRefusal) → head_in (lines_of text) ≡ refused_head r
        → IsHeadRefusedFor (lines_of text) r }
{}

/// The same of a text that is judged on the rows of a network: of its first lines, or of the whole with
/// the names of the rows and of their network.
pub fn judged_kinds_say_why()
    ensures { (rows : NetRows) (text : List ℕ) (r : CertRefusal)
        → IsJudgement rows text (CertRefused r) → IsJudgedFor rows text r }
{}

/// Two reasons for which one line of a text is refused have one kind, under the same names: what is said
/// of a refusal of that kind is said of no other. The same of the first lines.
pub fn paper_refusals_are_one()
    ensures papers { (sheets : Sheets) (lines : List Line) (r e : CertRefusal) → IsRefusedFor sheets lines r
        → IsRefusedFor sheets lines e → r.line ≡ e.line → r.kind ≡ e.kind }
    ensures heads { (lines : List Line) (r e : CertRefusal) → IsHeadRefusedFor lines r
        → IsHeadRefusedFor lines e → r.line ≡ e.line → r.kind ≡ e.kind }
{}

/// Where the headers of certificates alone are known, a text with that of a routing is refused at its
/// first line, as one without a header. Any other is read the same as where both are known, and what
/// is refused of it or of the network is refused the same where it is judged.
pub fn certified_refusals()
    ensures routings { (rows : NetRows) (text : List ℕ) → SaysRouting (lines_of text)
        → paper_on Certificates rows text ≡ Err (Cert (record { line = 1; kind = NoHeader })) }
    ensures others { (rows : NetRows) (text : List ℕ) → ¬ (SaysRouting (lines_of text))
        → paper_on Certificates rows text ≡ paper_on Both rows text }
    ensures judged { (rows : NetRows) (text : List ℕ) (r : Refusal) → ¬ (SaysRouting (lines_of text))
        → IsCertifiedText rows text (told r) → IsJudgement rows text (said r) }
{}

/// A second certificate's text is refused at line 3 or 4, as one for another network, where its first lines say
/// another mode of links or of modules than the first one's. Where they say the same, it is read or refused as
/// a first text would be; and where they are refused, so is it.
pub fn second_refusals()
    ensures { SecondsAreRefused }
{}
