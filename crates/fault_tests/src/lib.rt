//! Whole runs in which a read or a write fails, room ends, a worker is held, or one line of a certificate is another; and tables of the
//! commands that make something of a certificate: `upgrade`, `tighten`, `sweep`, and `sweepsolve` beside it. Calls that are
//! shared out among threads, as such runs make them.
#![tactic(auto)]

#[cfg(test)]
mod certificates;
#[cfg(test)]
mod crews;
#[cfg(test)]
mod faults;
#[cfg(test)]
mod held_workers;
#[cfg(test)]
mod shared_calls;
#[cfg(test)]
mod sweep_solves;
#[cfg(test)]
mod sweeps;
#[cfg(test)]
mod tightens;
#[cfg(test)]
mod upgrades;
