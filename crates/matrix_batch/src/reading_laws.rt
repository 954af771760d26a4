//! Laws of what is read, each as a function that does nothing.

ghost use Rattle.matrix_batch.specs.Scaled.{ReadIsScaled, ReadRowsAreSound, ReadIsUnique};

/// What is read of a text and then scaled is the text's batch, or its first refusal.
pub fn what_is_read_is_scaled()
    ensures { ReadIsScaled }
{}

/// On sound rows, the network's rows with the demands of a matrix that is read are sound.
pub fn rows_that_are_read_are_sound()
    ensures { ReadRowsAreSound }
{}

/// A text is read in one way, be it as matrices or as a refusal.
pub fn texts_are_read_in_one_way()
    ensures { ReadIsUnique }
{}
