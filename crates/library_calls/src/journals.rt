//! A group of records that is appended to a journal by one call.
use answer_journal::Journal;
use audit_types::{Answered, RowSet};
use bench_core::{MemoryBench, Room};
use std::alloc::Global;

// Of six rows, with a column of sums and one of maxima.
const MADE: [u8; 21] = [
    1, 83, 81, 65, 74, 82, 78, 76, 1, 0, 6, 2, 1, 2, 0, 0, 0, 0, 0, 0, 0,
];

// With the sum 300 over rows 0 and 1.
const WITH_ONE: [u8; 33] = [
    1, 83, 81, 65, 74, 82, 78, 76, 1, 0, 6, 2, 1, 2, 0, 0, 0, 0, 0, 0, 1, 1, 0, 0, 0, 0, 0, 0, 0,
    1, 44, 3, 0,
];

const ROOM: Room = Room {
    file: 100,
    sent: 0,
    calls: 20,
    written: 100,
};

// Reads an empty journal back, and appends the sum 300 over rows 0 and 1: whether that was done.
fn appends_a_sum(alloc: Global, bench: &mut MemoryBench) -> bool {
    let Ok((mut journal, list)) = Journal::read_back(alloc, bench) else {
        return false;
    };
    let mut rows = RowSet::new(6);
    rows.add(0);
    rows.add(1);
    let is_six_by_two = journal.shape().rows == 6 && journal.shape().columns() == 2;
    let fits = list.is_empty() && is_six_by_two && journal.count() < 9;
    if !fits || rows.is_empty() || rows.n() != 6 {
        return false;
    }
    let sum = Answered {
        column: 0,
        rows,
        answer: 300,
    };
    journal.append(bench, &[sum]).is_ok()
}

#[test]
fn a_sum_is_appended(rt: HostRuntime) {
    let failing = Vec::new(rt.alloc());
    let mut bench = MemoryBench::new(rt.alloc(), &MADE, ROOM, failing, None).expect(&rt, "memory");
    assert!(rt; appends_a_sum(rt.alloc(), &mut bench));
    assert!(rt; bench.file() == WITH_ONE.as_slice());
}
