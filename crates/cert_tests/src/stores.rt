ghost use Rattle.std.specs.Prelude.{ℕ, ◌+◌, ◌<◌, ◌≤◌, length, IsTrue};
ghost use Rattle.flow_paths.specs.PathRows.{row_at};

use flow_paths::PathStore;
use mcf_limits::MAX_LENGTH;
use std::test::Fail;

// Whether every row may grow by the amount.
fn has_room(store: &PathStore, amount: u64) -> bool
    ensures { IsTrue result → (n : ℕ) → n < length store.now → (row_at store.now n).weight + amount ≤ MAX_LENGTH }
{
    for row in 0..store.rows() {
        if MAX_LENGTH - store.weight(row) < amount {
            return false;
        }
    }
    true
}

#[test]
fn equal_rows_grow(rt: HostRuntime) -> Result<(), Fail> {
    let mut store = PathStore::new(rt.alloc());
    let rows: [(u32, &[u16], u64, u32); 4] = [
        (0, &[1, 2], 4, 0),
        (0, &[1], 4, 1),
        (1, &[1, 2], 3, 2),
        (0, &[1, 2], 4, 0),
    ];
    for (k, path, amount, want) in rows {
        assert!(rt; store.rows() < 4 && amount <= MAX_LENGTH && has_room(&store, amount));
        assert_eq!(rt; store.add(k, path, amount)?, want);
    }
    assert_eq!(rt; store.rows(), 3);
    for (row, want) in [(0u32, 8u64), (1, 4), (2, 3)] {
        assert_eq!(rt; store.weight(row), want);
    }
    assert_eq!(rt; store.path(2), [1, 2].as_slice());
    assert_eq!(rt; store.total(0), 12);
    Ok(())
}
