//! Laws of lists, each as a function that does nothing.

ghost use Rattle.matrix_batch.specs.Laws.{ListIsUnique, MatricesAreScaled, BatchIsUnique, BatchExists};

/// Symbols are the spelling of at most one list of matrices.
pub fn symbols_are_one_list()
    ensures { ListIsUnique }
{}

/// On sound rows, each matrix of a list that is not refused has sound rows, and the network that
/// these stand for, with decimals of its own.
pub fn matrices_are_scaled()
    ensures { MatricesAreScaled }
{}

/// A text has at most one answer, be it matrices or a refusal.
pub fn texts_are_one_batch()
    ensures { BatchIsUnique }
{}

/// Each text has an answer: its matrices, the fault of form, or the first of the other faults.
pub fn texts_have_an_answer()
    ensures { BatchExists }
{}
