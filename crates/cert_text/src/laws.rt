//! What holds of both forms, proved for all lines.

ghost use Rattle.std.specs.Prelude.{◌≡◌, Ok, Err, codes};
ghost use Rattle.text_lines.specs.Lines.{Line};
ghost use Rattle.unit_scale.specs.Modes.{old_link_word};
ghost use Rattle.unit_scale.specs.declared.modes.LinkMode.TheVariants.{Bidirected};
ghost use Rattle.cert_lines.specs.declared.form.Form.TheVariants.{First};
ghost use Rattle.cert_lines.specs.declared.refusal.CertKind.TheVariants.{Syntax};
ghost use Rattle.cert_text.specs.Reading.{mode_line};
ghost use Rattle.cert_text.specs.Whole.{link_mode_line};

/// In form 1 no line says that links are bidirected, and none is taken where they are.
pub fn old_form_has_no_bidirected_links()
    ensures said { (words : Line) → ¬ (link_mode_line First words ≡ Ok Bidirected) }
    ensures taken { (words : Line)
        → mode_line (codes "links") (old_link_word Bidirected) words ≡ Err Syntax }
{}
