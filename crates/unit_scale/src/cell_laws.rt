//! Laws, each proved for all modes and networks.

ghost use Rattle.unit_scale.specs.Laws.{NamesAreInverse, CellsAreNamed, LinkIsSet};

/// A cell has a name exactly where the name has that cell.
pub fn cells_and_names_are_inverse()
    ensures { NamesAreInverse }
{}

/// The network of rows has the cells of its links, and each is that of the link and the sign that its name gives.
pub fn cells_are_named()
    ensures { CellsAreNamed }
{}

/// A link's new capacity stands at each of its cells, and every other cell keeps its own.
pub fn link_is_set()
    ensures { LinkIsSet }
{}
