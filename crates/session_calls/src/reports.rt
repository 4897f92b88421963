//! The lists of a report, read from its printed lines, and checked as anyone might check them.
ghost use Rattle.std.specs.Prelude.{◌≡◌};
ghost use Rattle.schema_json.specs.SecretShape.{shape_of};

use crate::people::people;
use crate::staff::{TABLE, staff};
use audit_store::{Guarded, Store};
use audit_types::{Answered, Askers, CountedRows, Guard, MOST_REACH, MOST_WIDTH};
use bench_core::{MemoryBench, Room};
use journal_audit::audit;
use schema_json::Schema;
use std::alloc::Global;
use std::str;
use table_load::{Secret, load};
use witness_check::{check_direction, check_pair};

// The sums 300 over rows 0 and 1, 2100 over all, 1200 over rows 1, 3 and 5, and 700 over rows 2 and 3.
const FOUR_SUMS: &[u8] = b"\x01SQAJRNL\x01\0\x06\x02\x01\x02\0\0\0\0\0\0\
\x01\x01\0\0\0\0\0\0\0\x01\x2c\x03\
\x01\x01\0\0\0\0\0\0\0\x08\x34\x3f\
\x01\x01\0\0\0\0\0\0\0\x04\xb0\x2a\
\x01\x01\0\0\0\0\0\0\0\x02\xbc\x0c\0";

// The maximum 9 over all, over rows 0 and 1, and over the others.
const THREE_MAXIMA: &[u8] = b"\x01SQAJRNL\x01\0\x06\x02\x01\x02\0\0\0\0\0\0\
\x01\x01\x01\0\0\0\0\0\0\0\x09\x3f\
\x01\x01\x01\0\0\0\0\0\0\0\x09\x03\
\x01\x01\x01\0\0\0\0\0\0\0\x09\x3c\0";

const ROOM: Room = Room {
    file: 100,
    sent: 10_000,
    calls: 100,
    written: 0,
};

// Sends the report of the journal on the bench.
fn send_report(
    alloc: Global,
    schema: &Schema,
    secret: Secret,
    bench: &mut MemoryBench,
) -> Option<()>
    requires { secret.shape ≡ shape_of schema.now.columns secret.shape.rows }
{
    let rows = CountedRows::new(secret.shape().rows, Vec::new(alloc), 2, Askers::Outside);
    let protected = Guard::new(Vec::new(alloc), rows, MOST_WIDTH, MOST_REACH);
    match Store::start(alloc, Guarded::new(secret, protected), bench) {
        Ok(store) => audit(alloc, schema, &store, None, bench).ok(),
        Err(_) => None,
    }
}

// The report of a journal of the table, as bytes on the bench.
fn report(alloc: Global, journal: &[u8]) -> Option<MemoryBench> {
    if journal.len() > 100 {
        return None;
    }
    let schema = staff(alloc)?;
    let Ok(table) = load(alloc, &schema, TABLE) else {
        return None;
    };
    let mut bench = MemoryBench::new(alloc, journal, ROOM, Vec::new(alloc), None).ok()?;
    send_report(alloc, &schema, table.secret, &mut bench)?;
    Some(bench)
}

// The row of a line of the salaries, whose direction is written to a list of zeros: a number for each of the six rows.
fn read_direction(line: &str, direction: &mut [i128; 6]) -> Option<u16> {
    let rest = line.strip_prefix("{\"column\":\"salary\",\"row\":")?;
    let (row, rest) = rest.split_once(",\"direction\":[[")?;
    for pair in rest.strip_suffix("]]}")?.split("],[") {
        let (place, number) = pair.split_once(",")?;
        let spot = direction.get_mut(place.parse::<usize>().ok()?)?;
        *spot = number.parse::<i128>().ok()?;
    }
    row.parse::<u16>().ok()
}

// Whether the direction that a line has for its row moves that row, and no sum of the four.
fn moves_its_row(line: &str) -> bool {
    let mut direction = [0; 6];
    let Some(row) = read_direction(line, &mut direction) else {
        return false;
    };
    let (first, all) = (people(0b000011), people(0b111111));
    let (odd, middle) = (people(0b101010), people(0b001100));
    let sets = [first, all, odd, middle];
    row < 6 && check_direction(6, &sets, &direction, row)
}

// Whether each of the first six lines has a direction for its row.
fn have_directions(sent: &[u8]) -> bool {
    match str::from_utf8(sent) {
        Ok(text) => {
            text.lines()
                .take(6)
                .filter(|line| moves_its_row(line))
                .count()
                == 6
        }
        Err(_) => false,
    }
}

// Writes the list of a line of the bonuses: a number for each of the six rows.
fn read_high(line: &str, high: &mut [i128; 6]) -> Option<()> {
    let rest = line.strip_prefix("{\"column\":\"bonus\",\"high\":[")?;
    for (row, number) in rest.strip_suffix("]}")?.split(",").enumerate() {
        let spot = high.get_mut(row)?;
        *spot = number.parse::<i128>().ok()?;
    }
    Some(())
}

fn nine(bits: u8) -> Answered
    ensures { result.rows.n ≡ 6 }
{
    Answered {
        column: 1,
        rows: people(bits),
        answer: 9,
    }
}

// Whether the list, and the list with this row less by 1, give each of the three answers.
fn frees(high: &[i128; 6], row: u16) -> bool {
    let (all, first, others) = (nine(0b111111), nine(0b000011), nine(0b111100));
    let answers = [all, first, others];
    let mut low = *high;
    let Some(number) = low.get_mut(row as usize) else {
        return false;
    };
    *number = number.saturating_sub(1);
    row < 6 && check_pair(6, 1, &answers, &low, high, row)
}

// Whether the line after those of the six salaries has a list that frees each row.
fn has_a_list(sent: &[u8]) -> bool {
    let Ok(text) = str::from_utf8(sent) else {
        return false;
    };
    let mut high = [0; 6];
    match text
        .lines()
        .nth(6)
        .and_then(|line| read_high(line, &mut high))
    {
        Some(()) => [0, 1, 2, 3, 4, 5].iter().all(|row| frees(&high, *row)),
        None => false,
    }
}

#[test]
fn report_passes(rt: HostRuntime) {
    let sums = report(rt.alloc(), FOUR_SUMS).expect(&rt, "a report");
    assert!(rt; have_directions(sums.sent()));
    let maxima = report(rt.alloc(), THREE_MAXIMA).expect(&rt, "a report");
    assert!(rt; has_a_list(maxima.sent()));
}
