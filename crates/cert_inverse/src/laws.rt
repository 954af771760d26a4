//! Laws, each proved for all names, all texts and all certificates.

ghost use Rattle.std.specs.Prelude.{◌≡◌, ◌≢◌, ◌<◌, ◌↔◌, ◌++◌, ℕ, List, Result, Some, length};
ghost use Rattle.text_lines.specs.Lines.{Line, lines_of};
ghost use Rattle.unit_scale.specs.Modes.{module_word};
ghost use Rattle.unit_scale.specs.declared.options.NetOptions.{NetOptions};
ghost use Rattle.cert_lines.specs.declared.refusal.CertEnd.{CertEnd};
ghost use Rattle.cert_lines.specs.Sheet.{Sheet, Sheets, sheet_for};
ghost use Rattle.cert_lines.specs.declared.form.Form.{Form};
ghost use Rattle.cert_lines.specs.declared.form.Form.TheVariants.{Second};
ghost use Rattle.cert_text.specs.declared.papers.Paper.{Paper};
ghost use Rattle.cert_text.specs.Reading.{bytes_of, Gives};
ghost use Rattle.cert_text.specs.Whole.{head_in, paper_in};
ghost use Rattle.cert_judge.specs.Fits.{FitsPaper, read};
ghost use Rattle.cert_inverse.specs.Inverse.{AreInForms, AreCitable, IsCitable, IsReading, IsTextOf, form_said, form_word, head_of, link_word_in, paper_text, read_head, refused_behind};

/// What is written is read as the same, in each form: the text of a certificate or a routing that
/// is within its limits.
pub fn written_texts_read_back()
    ensures { (sheets : Sheets) (form : Form) (paper : Paper) → AreInForms sheets
        → IsCitable (sheet_for sheets form) → FitsPaper (sheet_for sheets form) paper
        → paper_in sheets (lines_of (paper_text (sheet_for sheets form) paper)) ≡ read paper }
{}

/// What is read was written so: lines and texts that are read as a certificate or a routing are its
/// text in the form that the first line says, and no other. A text of form 2 is written again byte
/// for byte.
pub fn read_texts_are_written()
    ensures lines { (sheets : Sheets) (lines : List Line) (paper : Paper) → AreInForms sheets
        → paper_in sheets lines ≡ read paper
        → (form : Form) × (form_said lines ≡ Some form)
        × (bytes_of lines ≡ paper_text (sheet_for sheets form) paper) }
    ensures texts { (sheets : Sheets) (text : List ℕ) (paper : Paper) → AreInForms sheets
        → paper_in sheets (lines_of text) ≡ read paper
        → (form : Form) × (form_said (lines_of text) ≡ Some form)
        × (text ≡ paper_text (sheet_for sheets form) paper) }
    ensures kept { (sheets : Sheets) (text : List ℕ) (paper : Paper) → AreInForms sheets
        → form_said (lines_of text) ≡ Some Second → paper_in sheets (lines_of text) ≡ read paper
        → paper_text sheets.new paper ≡ text }
{}

/// A text is read as a certificate or a routing exactly where it is its text in one of the forms.
pub fn texts_read_exactly()
    ensures { (sheets : Sheets) (text : List ℕ) (paper : Paper) → AreCitable sheets
        → (paper_in sheets (lines_of text) ≡ read paper) ↔ IsTextOf sheets text paper }
{}

/// A text is that of one certificate or routing alone, in each form and in both.
pub fn texts_are_of_one()
    ensures in_form { (sheets : Sheets) (form : Form) (one other : Paper) → AreInForms sheets
        → IsCitable (sheet_for sheets form) → FitsPaper (sheet_for sheets form) one
        → FitsPaper (sheet_for sheets form) other
        → paper_text (sheet_for sheets form) one ≡ paper_text (sheet_for sheets form) other
        → one ≡ other }
    ensures in_any { (sheets : Sheets) (text : List ℕ) (one other : Paper) → AreCitable sheets
        → IsTextOf sheets text one → IsTextOf sheets text other → one ≡ other }
{}

/// No text is of both forms.
pub fn texts_are_of_one_form()
    ensures { (sheets : Sheets) (one other : Paper) → AreInForms sheets
        → paper_text sheets.old one ≢ paper_text sheets.new other }
{}

/// The first lines of what is written say its kind, its form and the options that the names are of.
pub fn heads_read_back()
    ensures { (sheet : Sheet) (form : Form) (options : NetOptions) (paper : Paper)
        → sheet.form ≡ form_word form → IsCitable sheet → FitsPaper sheet paper
        → sheet.link_mode ≡ link_word_in form options.links
        → sheet.module_mode ≡ module_word options.modules
        → head_in (lines_of (paper_text sheet paper)) ≡ read_head (head_of form options paper) }
{}

/// What is answered by reading as this says is the certificate or routing of which the text is the
/// text, and a refusal where it is the text of none.
pub fn readings_are_exact()
    ensures { (sheets : Sheets) (text : List ℕ) (answer : Result Paper CertEnd) → AreCitable sheets
        → Gives (λ x. x) answer (paper_in sheets (lines_of text)) → IsReading sheets text answer }
{}

/// Nothing may stand behind such a text: the line behind its last one is refused.
pub fn longer_texts_are_refused()
    ensures { (sheets : Sheets) (form : Form) (paper : Paper) (back : List ℕ) → AreInForms sheets
        → IsCitable (sheet_for sheets form) → FitsPaper (sheet_for sheets form) paper
        → 0 < length back
        → paper_in sheets (lines_of (paper_text (sheet_for sheets form) paper ++ back))
        ≡ refused_behind (sheet_for sheets form) paper }
{}

/// A front of such a text, without its last bytes, is read as none.
pub fn fronts_are_refused()
    ensures { (sheets : Sheets) (form : Form) (paper other : Paper) (front back : List ℕ)
        → AreInForms sheets → IsCitable (sheet_for sheets form)
        → FitsPaper (sheet_for sheets form) paper → 0 < length back
        → paper_text (sheet_for sheets form) paper ≡ front ++ back
        → ¬ (paper_in sheets (lines_of front) ≡ read other) }
{}
