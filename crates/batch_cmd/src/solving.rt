//! The solves of a batch.

ghost use Rattle.std.specs.Prelude.{◌≡◌, ℕ, ◌<◌, IfOk, map, length, slice_index_or};
ghost use Rattle.std.specs.Thread.{IsSync};
ghost use Rattle.matrix_batch.specs.Views.{batch_view};
ghost use Rattle.batch_cmd.specs.Asked.{AreSolvable};
ghost use Rattle.batch_cmd.specs.Numbered.{IsSolvable, IsSolvedAt};
ghost use Rattle.batch_cmd.specs.Solves.{AreSolved};

use claimed_calls::call_each;
use flow_model::Net;
use flow_solver::{Solved, solve_in};
use matrix_batch::Matrix;
use mcf_base::Gate;
use solver_run::SolveOptions;
use std::alloc::{AllocError, Global};
use std::thread::Threads;

// The networks of the matrices.
fn nets_of<'b>(alloc: Global, batch: &'b [Matrix<'_>]) -> Result<Vec<&'b Net>, AllocError>
    ensures { IfOk result (λ v. map (λ n. n.now) v.items ≡ map (λ m. m.net.net) (batch_view batch.now)) }
{
    let mut nets = Vec::with_capacity(alloc, batch.len())?;
    for matrix in batch {
        nets.push(matrix.net.net())?;
    }
    Ok(nets)
}

// The solve of the network of that number, which starts no thread of its own.
fn solve_one<G: Gate, R: Threads + Sync>(
    rt: &R,
    alloc: Global,
    nets: &[&Net],
    options: &SolveOptions,
    gate: &G,
    at: usize,
) -> Result<Solved, AllocError>
    requires { IsSolvable nets.now options.now at }
    ensures { IfOk result (IsSolvedAt nets.now options.now at) }
{
    let solved = solve_in(rt, alloc, nets[at], options, gate, 1)?;
    Ok(solved)
}

// For each network, in their order, its solve.
fn solve_each<G: Gate, R: Threads + Sync>(
    rt: &R,
    alloc: Global,
    nets: &[&Net],
    options: &SolveOptions,
    gate: &G,
) -> Result<Vec<Solved>, AllocError>
    requires { (i : ℕ) → i < length nets.now → IsSolvable nets.now options.now i }
    ensures count { IfOk result (λ v. length v.items ≡ length nets.now) }
    ensures each { IfOk result (λ v. (i : ℕ) (d : _) → i < length nets.now
        → IsSolvedAt nets.now options.now i (slice_index_or v.items i d)) }
{
    call_each(
        rt,
        alloc,
        nets.len(),
        &|at: usize| -> Result<Solved, AllocError>
            requires { IsSync R.row × IsSync G.row × IsSolvable nets.now options.now at }
            ensures { IfOk result (IsSolvedAt nets.entry.now options.entry.now at) }
        { solve_one(rt, alloc, nets, options, gate, at) },
    )
}

/// For each matrix, in the batch's order, a solve of its network with one worker, which starts no thread of its own. Matrices
/// are handed out one at a time to as many threads as there are processors, at least two and at most 16, its caller's among them,
/// and the call waits for them. A matrix for which memory ran out is tried once more when all others are done; `Err`: memory ran
/// out there too. The gate is passed after each claim of each solve.
pub fn solve_batch<G: Gate, R: Threads + Sync>(
    rt: &R,
    alloc: Global,
    batch: &[Matrix<'_>],
    options: &SolveOptions,
    gate: &G,
) -> Result<Vec<Solved>, AllocError>
    requires { AreSolvable (batch_view batch.now) options.now }
    ensures { IfOk result (λ v. AreSolved options.now (batch_view batch.now) v.items) }
{
    let nets = nets_of(alloc, batch)?;
    let many = solve_each(rt, alloc, &nets, options, gate)?;
    Ok(many)
}
