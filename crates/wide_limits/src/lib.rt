//! The limits of `mcf-wide`, under the names of `mcf_limits`, in whose place this crate is copied: those of the networks of traffic
//! engineering, with up to a thousand nodes and demands between all of them.
#![tactic(auto)]

mod laws;

pub use laws::{
    defaults_of_options, limits_fit_together, limits_of_amounts, limits_of_certificates,
    limits_of_lists, limits_of_networks, limits_of_runs, limits_of_texts,
};

/// The most bytes of a network text: 256 MiB.
pub const MAX_NET_BYTES: usize = 256 << 20;

/// The most bytes of a certificate or routing text: 2 GiB.
pub const MAX_CERT_BYTES: usize = 1 << 31;

/// The most bytes of a script: 1 MiB.
pub const MAX_SCRIPT_BYTES: usize = 1 << 20;

/// The most bytes of a word.
pub const MAX_WORD_BYTES: usize = 255;

/// The most nodes of a network.
pub const MAX_NODES: u16 = 1000;

/// The most links of a network.
pub const MAX_LINKS: u16 = 4096;

/// The most cells of a network: two for each link, where its capacity counts in each direction.
pub const MAX_CELLS: u16 = 8192;

/// The most demands of a network, and so the most commodities.
pub const MAX_DEMANDS: u32 = 1_048_576;

/// The greatest number that is read, and the greatest capacity and amount in units: 2^44.
pub const MAX_UNITS: u64 = 1 << 44;

/// The greatest sum of all amounts in units: 2^46.
pub const MAX_TOTAL: u64 = 1 << 46;

/// The most decimals of a network's unit.
pub const MAX_DECIMALS: u8 = 6;

/// The most phases of a run.
pub const MAX_PHASES: u32 = 65_536;

/// The most commodities times phases of a run.
pub const MAX_WORK: u64 = 1 << 30;

/// The most workers of a run.
pub const MAX_WORKERS: u16 = 16;

/// The greatest gap, in millionths.
pub const MAX_GAP: u64 = 1_000_000_000;

/// The greatest step.
pub const MAX_STEP: u32 = 1 << 20;

/// The greatest length, potential, path weight and load: 2^62. As a length or potential it stands for infinity.
pub const MAX_LENGTH: u64 = 1 << 62;

/// The most cells of a path.
pub const MAX_PATH_CELLS: usize = 999;

/// The most links that a limit on a demand's paths may allow. (A limit of as many links as nodes less one, or more, is none.)
pub const MAX_HOPS: u8 = 64;

/// The most bytes of a list of demand matrices: 64 MiB.
pub const MAX_LIST_BYTES: usize = 64 << 20;

/// The most matrices of a list.
pub const MAX_MATRICES: u32 = 64;

/// The gap where none is asked, in millionths: 5 %.
pub const DEFAULT_GAP: u64 = 50_000;

/// The most phases where no budget is asked; fewer where these would be more than the most work.
pub const DEFAULT_PHASES: u64 = 1000;

/// The workers where no number is asked.
pub const DEFAULT_WORKERS: u16 = 4;

/// The commodities from which on a run takes the default workers where no number is asked; with fewer it takes one.
pub const FEW_COMMODITIES: u64 = 4000;

/// The step of the lengths where none is asked. Drawn networks of 754 nodes and 567,762 demands close at a gap of 5 % with it in 3 to 14
/// phases, so that their certificates keep to their limit; those whose capacities are near to the loads want a smaller step.
pub const DEFAULT_STEP: u32 = 524_288;
