//! The limits and defaults as plain numbers, and the sums and products of limits that fit a word. Contracts name the constants, and
//! these laws say which numbers they are.

ghost use Rattle.std.specs.Prelude.{◌≡◌, ◌≤◌, ◌<◌, ◌+◌, ◌*◌, ◌^◌};
ghost use Rattle.wide_limits.specs.declared.TheConstants.{
  DEFAULT_GAP,
  DEFAULT_PHASES,
  DEFAULT_STEP,
  DEFAULT_WORKERS,
  FEW_COMMODITIES,
  MAX_CELLS,
  MAX_CERT_BYTES,
  MAX_DECIMALS,
  MAX_DEMANDS,
  MAX_GAP,
  MAX_HOPS,
  MAX_LENGTH,
  MAX_LINKS,
  MAX_LIST_BYTES,
  MAX_MATRICES,
  MAX_NET_BYTES,
  MAX_NODES,
  MAX_PATH_CELLS,
  MAX_PHASES,
  MAX_SCRIPT_BYTES,
  MAX_STEP,
  MAX_TOTAL,
  MAX_UNITS,
  MAX_WORD_BYTES,
  MAX_WORK,
  MAX_WORKERS,
};

/// The limits of texts, in bytes.
pub fn limits_of_texts()
    ensures network { MAX_NET_BYTES ≡ 268435456 }
    ensures certificate { MAX_CERT_BYTES ≡ 2147483648 }
    ensures script { MAX_SCRIPT_BYTES ≡ 1048576 }
    ensures word { MAX_WORD_BYTES ≡ 255 }
{}

/// The limits of networks.
pub fn limits_of_networks()
    ensures nodes { MAX_NODES ≡ 1000 }
    ensures links { MAX_LINKS ≡ 4096 }
    ensures cells { MAX_CELLS ≡ 8192 }
    ensures demands { MAX_DEMANDS ≡ 1048576 }
    ensures hops { MAX_HOPS ≡ 64 }
{}

/// The limits of numbers in networks: units of capacity and amount, their sum, and decimals.
pub fn limits_of_amounts()
    ensures units { MAX_UNITS ≡ 17592186044416 }
    ensures total { MAX_TOTAL ≡ 70368744177664 }
    ensures decimals { MAX_DECIMALS ≡ 6 }
{}

/// The limits of runs and of their options; the gap is in millionths.
pub fn limits_of_runs()
    ensures phases { MAX_PHASES ≡ 65536 }
    ensures work { MAX_WORK ≡ 1073741824 }
    ensures workers { MAX_WORKERS ≡ 16 }
    ensures gap { MAX_GAP ≡ 1000000000 }
    ensures step { MAX_STEP ≡ 1048576 }
{}

/// The limits of certificates.
pub fn limits_of_certificates()
    ensures length { MAX_LENGTH ≡ 4611686018427387904 }
    ensures path { MAX_PATH_CELLS ≡ 999 }
{}

/// The limits of lists of demand matrices.
pub fn limits_of_lists()
    ensures bytes { MAX_LIST_BYTES ≡ 67108864 }
    ensures matrices { MAX_MATRICES ≡ 64 }
{}

/// What stands for options that are not given; the gap is in millionths.
pub fn defaults_of_options()
    ensures gap { DEFAULT_GAP ≡ 50000 }
    ensures phases { DEFAULT_PHASES ≡ 1000 }
    ensures step { DEFAULT_STEP ≡ 524288 }
    ensures workers { DEFAULT_WORKERS ≡ 4 }
    ensures commodities { FEW_COMMODITIES ≡ 4000 }
{}

/// How the limits hang together: what proofs take from them, whatever the numbers are. A length below 2^52 a cell keeps a path, and one
/// cell more, below the length that stands for infinity.
pub fn limits_fit_together()
    ensures cells { MAX_CELLS ≡ 2 * MAX_LINKS }
    ensures path { MAX_NODES ≤ MAX_PATH_CELLS + 1 }
    ensures walk { (MAX_PATH_CELLS + 1) * 2 ^ 52 < MAX_LENGTH }
    ensures volume { MAX_CELLS * MAX_UNITS * MAX_LENGTH ≤ 2 ^ 119 }
    ensures distance { MAX_TOTAL * MAX_LENGTH ≤ 2 ^ 108 }
    ensures rows { MAX_WORK + MAX_DEMANDS < 2 ^ 32 }
    ensures budget { MAX_DEMANDS ≤ MAX_WORK }
    ensures network { MAX_NET_BYTES < 2 ^ 32 }
    ensures list { MAX_LIST_BYTES < 2 ^ 32 }
    ensures certificate { MAX_CERT_BYTES < 2 ^ 32 }
    ensures drawn { (MAX_NODES + MAX_LINKS + MAX_DEMANDS + 4) * 100 ≤ MAX_NET_BYTES }
{}
