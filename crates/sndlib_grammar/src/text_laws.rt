//! Laws of the canonical text, each as a function that does nothing.

ghost use Rattle.std.specs.Prelude.{◌≡◌, List, ℕ, Ok};
ghost use Rattle.sndlib_grammar.specs.Rows.{NetRows};
ghost use Rattle.sndlib_grammar.specs.Net.{rows_of};
ghost use Rattle.sndlib_grammar.specs.Canonical.{ArePrintable, ReadsBack};

/// The canonical text of rows is read as the same rows, their lines and the number of skipped sections apart.
pub fn canonical_text_reads_back()
    ensures { (rows : NetRows) → ArePrintable rows → ReadsBack rows }
{}

/// The rows of every text have a canonical text that reads back.
pub fn rows_of_texts_are_printable()
    ensures { (text : List ℕ) (rows : NetRows) → rows_of text ≡ Ok rows → ArePrintable rows }
{}
