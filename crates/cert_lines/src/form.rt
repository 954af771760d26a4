//! The two forms of a certificate's text.

/// How a text spells cells: by the id of their link in the first form, by a sign and that id in the
/// second.
#[derive(Clone, Copy, Debug, PartialEq, Eq)]
pub enum Form {
    /// By the id of its link, so a link has one cell.
    First,
    /// By a sign for the way that it goes, and the id of its link.
    Second,
}
