//! Laws, each proved for all names and all lines.

ghost use Rattle.std.specs.Prelude.{◌≡◌, ◌↔◌, ℕ, List, Ok};
ghost use Rattle.flow_paths.specs.declared.certificate.Routing.{Routing};
ghost use Rattle.flow_paths.specs.declared.certificate.Proof.{Proof};
ghost use Rattle.text_lines.specs.Lines.{Line};
ghost use Rattle.sndlib_grammar.specs.Rows.{NetRows};
ghost use Rattle.unit_scale.specs.Scaling.{ScaledNet};
ghost use Rattle.cert_lines.specs.Sheet.{Sheets, sheet_of, sheets_of};
ghost use Rattle.cert_text.specs.declared.opening.Known.{Known};
ghost use Rattle.cert_text.specs.declared.opening.Known.TheVariants.{Both, Certificates};
ghost use Rattle.cert_text.specs.declared.papers.Paper.{Paper};
ghost use Rattle.cert_text.specs.declared.papers.Paper.TheVariants as PaperIs;
ghost use Rattle.cert_text.specs.Whole.{paper_in};
ghost use Rattle.cert_judge.specs.Fits.{FitsForm, FitsPaper, read};
ghost use Rattle.cert_judge.specs.Papers.{IsReadOf, paper_on};
ghost use Rattle.cert_judge.specs.Second.{SecondsAreOfOneNetwork};

/// What is read is within the limits of a text, and names commodities, cells and nodes that there
/// are, in its form; and what is read with the names of a network, in whichever form, is so in form
/// 2 and can be written in it.
pub fn papers_fit()
    ensures read { (sheets : Sheets) (lines : List Line) (paper : Paper)
        → paper_in sheets lines ≡ read paper → FitsForm sheets paper }
    ensures new { (rows : NetRows) (net : ScaledNet) (lines : List Line) (paper : Paper)
        → paper_in (sheets_of rows net) lines ≡ read paper → FitsPaper (sheet_of rows net) paper }
{}

/// A text stands for a network and for a certificate or a routing exactly where each stage accepts. Where
/// the headers of certificates alone are known it is so for the same certificates, and for no routing.
pub fn read_by_stages()
    ensures stages { (known : Known) (rows : NetRows) (text : List ℕ) (net : ScaledNet) (paper : Paper)
        → (paper_on known rows text ≡ Ok (net, paper)) ↔ IsReadOf known rows text net paper }
    ensures certificates { (rows : NetRows) (text : List ℕ) (net : ScaledNet) (proof : Proof)
        → IsReadOf Certificates rows text net (PaperIs.Full proof)
        ↔ IsReadOf Both rows text net (PaperIs.Full proof) }
    ensures routings { (rows : NetRows) (text : List ℕ) (net : ScaledNet) (routing : Routing)
        → ¬ (paper_on Certificates rows text ≡ Ok (net, PaperIs.Routing routing)) }
{}

/// A second certificate is read on the network of a first one exactly where it is read as one of that same network in units,
/// which has its options.
pub fn seconds_are_of_one_network()
    ensures { SecondsAreOfOneNetwork }
{}
