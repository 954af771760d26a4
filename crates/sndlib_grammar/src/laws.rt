//! Laws of the grammar, each as a function that does nothing.

ghost use Rattle.std.specs.Prelude.{◌≡◌, List, ℕ, Result, Ok};
ghost use Rattle.sndlib_grammar.specs.declared.refusal.NetRefusal.{NetRefusal};
ghost use Rattle.sndlib_grammar.specs.Grammar.{Symbol, Entries, IsNetwork};
ghost use Rattle.sndlib_grammar.specs.Net.{rows_of, IsNetOf};
ghost use Rattle.sndlib_grammar.specs.Rows.{NetRows, AreNetRows};
ghost use Rattle.sndlib_grammar.specs.Slices.{AreSlicesOf};

/// The answer to a text is what the grammar and the order of refusals say of it.
pub fn answer_is_of_the_grammar()
    ensures { (text : List ℕ) → IsNetOf text (rows_of text) }
{}

/// No other answer is: a text has one answer, be it rows or a refusal.
pub fn answer_is_unique()
    ensures { (text : List ℕ) (answer : Result NetRows NetRefusal) → IsNetOf text answer → answer ≡ rows_of text }
{}

/// Symbols are the spelling of at most one list of entries.
pub fn entries_are_unique()
    ensures { (symbols : List Symbol) (a b : Entries) → IsNetwork symbols a → IsNetwork symbols b → a ≡ b }
{}

/// The rows of a text are within the limits, with no id twice in a section, ends that are nodes, and words and numbers where these are wanted.
pub fn rows_are_sound()
    ensures { (text : List ℕ) (rows : NetRows) → rows_of text ≡ Ok rows → AreNetRows rows }
{}

/// Each word of the rows of a text is a slice of the text's own bytes.
pub fn words_are_slices()
    ensures { (text : List ℕ) (rows : NetRows) → rows_of text ≡ Ok rows → AreSlicesOf text rows }
{}
