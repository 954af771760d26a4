//! Where reading stands in the grammar, and where it stands after one more token.

ghost use Rattle.std.specs.Prelude.{◌≡◌, ◌+◌, ◌<◌, ◌^◌};
ghost use Rattle.sndlib_grammar.specs.Modes.{keyword_of, depth_of, opened as opened_lem, closed as closed_lem, named as named_lem, between as between_lem};

/// What comes next between two sections: one of them, or nothing more.
#[derive(Clone, Copy, Debug)]
pub enum Part {
    /// The section `NODES`.
    Nodes,
    /// The section `LINKS`.
    Links,
    /// The section `DEMANDS`.
    Demands,
    /// Sections that are skipped, or the end.
    Rest,
}

/// Where reading stands.
#[derive(Clone, Copy, Debug)]
pub enum Mode {
    /// Between two sections.
    Between(Part),
    /// Behind `NODES`, where its parenthesis opens.
    OpeningNodes,
    /// Behind `LINKS`, where its parenthesis opens.
    OpeningLinks,
    /// Behind `DEMANDS`, where its parenthesis opens.
    OpeningDemands,
    /// Behind the name of a skipped section.
    Naming(Part),
    /// In a skipped section, with that many groups open in it.
    Skipping(Part, u32),
    /// Where a node may begin, or the section end.
    Nodes,
    /// Behind the id of a node.
    Node,
    /// In the place of a node.
    Place,
    /// Where a link may begin, or the section end.
    Links,
    /// Behind its id, where the parenthesis of its ends opens.
    LinkEnds,
    /// Where its source stands.
    LinkSource,
    /// Where its target stands.
    LinkTarget,
    /// Where the parenthesis of its ends closes.
    LinkEndsClose,
    /// Where its pre-installed capacity stands.
    Installed,
    /// Where the cost of that stands.
    InstalledCost,
    /// Where its routing cost stands.
    RoutingCost,
    /// Where its setup cost stands.
    SetupCost,
    /// Where the parenthesis of its modules opens.
    Modules,
    /// Where the capacity of a module may stand.
    Capacity,
    /// Where the cost of a module stands.
    CapacityCost,
    /// Where a demand may begin, or the section end.
    Demands,
    /// Behind its id, where the parenthesis of its ends opens.
    DemandEnds,
    /// Where its source stands.
    DemandSource,
    /// Where its target stands.
    DemandTarget,
    /// Where the parenthesis of its ends closes.
    DemandEndsClose,
    /// Where its routing unit stands.
    Unit,
    /// Where its demand value stands.
    Value,
    /// Where its longest path stands.
    Longest,
}

const NODES: &[u8] = b"NODES";

const LINKS: &[u8] = b"LINKS";

const DEMANDS: &[u8] = b"DEMANDS";

// The section of that name, or `Rest` where it is another name.
fn keyword(word: &[u8]) -> Part
    ensures { result ≡ keyword_of word.now }
{
    if word == NODES {
        return Part::Nodes;
    }
    if word == LINKS {
        return Part::Links;
    }
    if word == DEMANDS {
        return Part::Demands;
    }
    Part::Rest
}

fn between(part: Part, name: Part) -> Option<Mode>
    ensures { result ≡ between_lem part name }
{
    match (part, name) {
        (_, Part::Rest) => Some(Mode::Naming(part)),
        (Part::Nodes, Part::Nodes) => Some(Mode::OpeningNodes),
        (Part::Links, Part::Links) => Some(Mode::OpeningLinks),
        (Part::Demands, Part::Demands) => Some(Mode::OpeningDemands),
        _ => None,
    }
}

/// Behind a left parenthesis; `None` where none may stand.
pub fn opened(mode: Mode) -> Option<Mode>
    requires { depth_of mode + 1 < 2 ^ 32 }
    ensures { result ≡ opened_lem mode }
{
    match mode {
        Mode::OpeningNodes => Some(Mode::Nodes),
        Mode::OpeningLinks => Some(Mode::Links),
        Mode::OpeningDemands => Some(Mode::Demands),
        Mode::Naming(part) => Some(Mode::Skipping(part, 0)),
        Mode::Skipping(part, depth) => Some(Mode::Skipping(part, depth + 1)),
        Mode::Node => Some(Mode::Place),
        Mode::LinkEnds => Some(Mode::LinkSource),
        Mode::Modules => Some(Mode::Capacity),
        Mode::DemandEnds => Some(Mode::DemandSource),
        _ => None,
    }
}

/// Behind a right parenthesis; `None` where none may stand.
pub fn closed(mode: Mode) -> Option<Mode>
    ensures { result ≡ closed_lem mode }
{
    match mode {
        Mode::Skipping(part, 0) => Some(Mode::Between(part)),
        Mode::Skipping(part, depth) => Some(Mode::Skipping(part, depth - 1)),
        Mode::Nodes => Some(Mode::Between(Part::Links)),
        Mode::Node => Some(Mode::Between(Part::Links)),
        Mode::Place => Some(Mode::Nodes),
        Mode::Links => Some(Mode::Between(Part::Demands)),
        Mode::LinkEndsClose => Some(Mode::Installed),
        Mode::Capacity => Some(Mode::Links),
        Mode::Demands => Some(Mode::Between(Part::Rest)),
        Mode::DemandEndsClose => Some(Mode::Unit),
        _ => None,
    }
}

/// Behind a word; `None` where it may not stand.
pub fn named(mode: Mode, word: &[u8]) -> Option<Mode>
    ensures { result ≡ named_lem mode word.now }
{
    match mode {
        Mode::Between(part) => between(part, keyword(word)),
        Mode::Skipping(part, depth) => Some(Mode::Skipping(part, depth)),
        Mode::Nodes => Some(Mode::Node),
        Mode::Node => Some(Mode::Node),
        Mode::Place => Some(Mode::Place),
        Mode::Links => Some(Mode::LinkEnds),
        Mode::LinkSource => Some(Mode::LinkTarget),
        Mode::LinkTarget => Some(Mode::LinkEndsClose),
        Mode::Installed => Some(Mode::InstalledCost),
        Mode::InstalledCost => Some(Mode::RoutingCost),
        Mode::RoutingCost => Some(Mode::SetupCost),
        Mode::SetupCost => Some(Mode::Modules),
        Mode::Capacity => Some(Mode::CapacityCost),
        Mode::CapacityCost => Some(Mode::Capacity),
        Mode::Demands => Some(Mode::DemandEnds),
        Mode::DemandSource => Some(Mode::DemandTarget),
        Mode::DemandTarget => Some(Mode::DemandEndsClose),
        Mode::Unit => Some(Mode::Value),
        Mode::Value => Some(Mode::Longest),
        Mode::Longest => Some(Mode::Demands),
        _ => None,
    }
}
