//! Calls that are shared out among threads: each place of a list is written once, each number has its answer, and one that lacked
//! memory is called again.

use claimed_calls::call_each;
use mcf_base::for_each_chunk_mut;
use std::alloc::AllocError;
use std::sync::atomic::{AtomicUsize, Ordering};

fn place(start: usize, part: &mut [usize]) {
    for (k, x) in part.iter_mut().enumerate() {
        *x = start.saturating_add(k);
    }
}

#[test]
fn each_place_is_written_once(rt: HostRuntime) {
    let mut places = [9usize; 10];
    for_each_chunk_mut(
        &rt,
        &mut places,
        3,
        &|start: usize, part: &mut [usize]| { place(start, part) },
    );
    assert_eq!(rt;
        places.as_slice(),
        [0, 1, 2, 3, 4, 5, 6, 7, 8, 9].as_slice()
    );
    let mut none: [usize; 0] = [];
    for_each_chunk_mut(
        &rt,
        &mut none,
        3,
        &|start: usize, part: &mut [usize]| { place(start, part) },
    );
}

#[test]
fn each_number_has_its_answer(rt: HostRuntime) -> Result<(), AllocError> {
    let halves = call_each(
        &rt,
        rt.alloc(),
        7,
        &|i: usize| -> Result<usize, AllocError> { Ok(i / 2) },
    )?;
    assert_eq!(rt; halves.as_slice(), [0, 0, 1, 1, 2, 2, 3].as_slice());
    let none = call_each(
        &rt,
        rt.alloc(),
        0,
        &|i: usize| -> Result<usize, AllocError> { Ok(i) },
    )?;
    assert!(rt; none.is_empty());
    Ok(())
}

#[test]
fn a_number_without_memory_is_called_again(rt: HostRuntime) -> Result<(), AllocError> {
    let calls = AtomicUsize::new(0);
    let seen = &calls;
    let same = call_each(
        &rt,
        rt.alloc(),
        3,
        &|i: usize| -> Result<usize, AllocError> {
            if seen.fetch_add(1, Ordering::SeqCst) == 0 {
                return Err(AllocError);
            }
            Ok(i)
        },
    )?;
    assert_eq!(rt; same.as_slice(), [0, 1, 2].as_slice());
    assert_eq!(rt; calls.load(Ordering::SeqCst), 4);
    Ok(())
}
