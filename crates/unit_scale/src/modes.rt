//! How links and modules are read, and the words for it.

ghost use Rattle.std.specs.Prelude.{◌≡◌};
ghost use Rattle.unit_scale.specs.Modes.{link_word, old_link_word, module_word, link_mode_of, old_link_mode_of, module_mode_of};

/// What a link is: one cell from its source to its target; one cell that goes both ways, which share its capacity; or
/// two cells, one for each way, each with the whole capacity.
#[derive(Clone, Copy, Debug, PartialEq, Eq)]
pub enum LinkMode {
    /// One cell, from the source to the target.
    Directed,
    /// One cell, which goes both ways.
    Undirected,
    /// Two cells, one for each way.
    Bidirected,
}

/// Which way a cell goes over its link: from the source to the target, back, or both ways.
#[derive(Clone, Copy, Debug, PartialEq, Eq)]
pub enum Sign {
    /// From the source to the target.
    Along,
    /// From the target to the source.
    Against,
    /// Both ways.
    Both,
}

/// What modules add to a link's capacity: nothing, the greatest once, or each once.
#[derive(Clone, Copy, Debug, PartialEq, Eq)]
pub enum ModuleMode {
    /// Nothing.
    Ignore,
    /// The greatest of them, once.
    Largest,
    /// Each of them, once.
    Sum,
}

const DIRECTED: &[u8] = b"directed";

const UNDIRECTED: &[u8] = b"undirected";

const BIDIRECTED: &[u8] = b"bidirected";

const IGNORE: &[u8] = b"none";

const LARGEST: &[u8] = b"largest";

const SUM: &[u8] = b"sum";

/// The word for how links are read, on the command line and in certificates of the second form.
pub fn link_word(mode: LinkMode) -> &'static [u8]
    ensures { result.now ≡ link_word mode }
{
    match mode {
        LinkMode::Directed => DIRECTED,
        LinkMode::Undirected => UNDIRECTED,
        LinkMode::Bidirected => BIDIRECTED,
    }
}

/// The word in certificates of the first form, which have none for bidirected links.
pub fn old_link_word(mode: LinkMode) -> &'static [u8]
    ensures { result.now ≡ old_link_word mode }
{
    match mode {
        LinkMode::Directed => DIRECTED,
        LinkMode::Undirected => UNDIRECTED,
        LinkMode::Bidirected => b"",
    }
}

/// The word for how modules are read.
pub fn module_word(mode: ModuleMode) -> &'static [u8]
    ensures { result.now ≡ module_word mode }
{
    match mode {
        ModuleMode::Ignore => IGNORE,
        ModuleMode::Largest => LARGEST,
        ModuleMode::Sum => SUM,
    }
}

/// How links are read by that word.
pub fn link_mode_of(word: &[u8]) -> Option<LinkMode>
    ensures { result ≡ link_mode_of word.now }
{
    if word == DIRECTED {
        return Some(LinkMode::Directed);
    }
    if word == UNDIRECTED {
        return Some(LinkMode::Undirected);
    }
    if word == BIDIRECTED {
        return Some(LinkMode::Bidirected);
    }
    None
}

/// How links are read by that word in a certificate of the first form.
pub fn old_link_mode_of(word: &[u8]) -> Option<LinkMode>
    ensures { result ≡ old_link_mode_of word.now }
{
    if word == DIRECTED {
        return Some(LinkMode::Directed);
    }
    if word == UNDIRECTED {
        return Some(LinkMode::Undirected);
    }
    None
}

/// How modules are read by that word.
pub fn module_mode_of(word: &[u8]) -> Option<ModuleMode>
    ensures { result ≡ module_mode_of word.now }
{
    if word == IGNORE {
        return Some(ModuleMode::Ignore);
    }
    if word == LARGEST {
        return Some(ModuleMode::Largest);
    }
    if word == SUM {
        return Some(ModuleMode::Sum);
    }
    None
}
