//! Numbers, ends and capacities, drawn from a generator's words.

ghost use Rattle.std.specs.Prelude.{◌≡◌, ◌+◌, ◌<◌, ◌≤◌, ◌==◌, if◌then◌else◌};
ghost use Rattle.mcf_limits.specs.declared.TheConstants.{MAX_NODES};
ghost use Rattle.net_gen.specs.Draws.{past, drawn_below};
ghost use Rattle.net_gen.specs.Generated.{drawn_ends, link_ends, link_capacity, words_of_ends, words_of_capacity, words_of_link};

use rand_core::utils::NextWord;
use rand_pcg::Lcg128Xsl64;

// The capacity of the first link.
const WIDE: u32 = 1_000_000_000;

// The most that is drawn as a capacity.
const MAX_DRAWN: u16 = 1000;

// The next word as a number below `count`.
#[tactic(auto, unfolding(crate::specs::Draws::drawn, crate::specs::Draws::past))]
fn below(draws: &mut Lcg128Xsl64, count: u16) -> u16
    requires { 1 ≤ count }
    ensures value { result ≡ drawn_below draws.old 0 count }
    ensures rest { draws.new ≡ past 1 draws.old }
    ensures less { result < count }
{
    (draws.next_word() % u64::from(count)) as u16
}

/// Two different nodes.
pub(crate) fn draw_ends(draws: &mut Lcg128Xsl64, nodes: u16) -> (u16, u16)
    requires some { 2 ≤ nodes }
    requires most { nodes ≤ MAX_NODES }
    ensures ends { result ≡ drawn_ends draws.old nodes }
    ensures rest { draws.new ≡ past 2 draws.old }
{
    let source = below(draws, nodes);
    let ahead = below(draws, nodes - 1);
    (source, (source + 1 + ahead) % nodes)
}

// The ends of a link: in the ring, or drawn.
fn ends_of_link(draws: &mut Lcg128Xsl64, nodes: u16, i: u16) -> (u16, u16)
    requires some { 2 ≤ nodes }
    requires most { nodes ≤ MAX_NODES }
    ensures ends { result ≡ link_ends draws.old nodes i }
    ensures rest { draws.new ≡ past (words_of_ends nodes i) draws.old }
{
    if i < nodes {
        return (i, (i + 1) % nodes);
    }
    draw_ends(draws, nodes)
}

// The capacity of a link.
fn capacity_of_link(draws: &mut Lcg128Xsl64, i: u16) -> u32
    ensures capacity { result ≡ (if i == 0 then 1000000000 else 1 + drawn_below draws.old 0 1000) }
    ensures rest { draws.new ≡ past (words_of_capacity i) draws.old }
{
    if i == 0 {
        return WIDE;
    }
    1 + u32::from(below(draws, MAX_DRAWN))
}

/// The ends and the capacity of a link.
#[derive(Drop)]
pub(crate) struct LinkDraw {
    pub(crate) source: u16,
    pub(crate) target: u16,
    pub(crate) capacity: u32,
}

/// The link of that number, whose words are next.
pub(crate) fn draw_link(draws: &mut Lcg128Xsl64, nodes: u16, i: u16) -> LinkDraw
    requires some { 2 ≤ nodes }
    requires most { nodes ≤ MAX_NODES }
    ensures source { result.source ≡ (link_ends draws.old nodes i).0 }
    ensures target { result.target ≡ (link_ends draws.old nodes i).1 }
    ensures capacity { result.capacity ≡ link_capacity draws.old nodes i }
    ensures rest { draws.new ≡ past (words_of_link nodes i) draws.old }
{
    let (source, target) = ends_of_link(draws, nodes, i);
    let capacity = capacity_of_link(draws, i);
    LinkDraw {
        source,
        target,
        capacity,
    }
}
