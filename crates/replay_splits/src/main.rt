// Replays a stored sample of splitting, from standard input to its end: asks each case again and
// prints a line with what was answered and what the lent places hold then. What it prints is its
// file `stdout`, which the oracle wrote with the answers of the Rust and of the judge
// (vectors/README.md). Leans on boundary_split, records, part_lines and lines.
#![tactic(auto)]

use mesh::Row;
use records::HEAD;

// As many triangles, lent starts and lent numbers as a record may have: one triangle more than a
// mesh, for fault 1.
const TRIANGLES: usize = mesh::MAX_TRIANGLES + 1;

const STARTS: usize = 64;

const NUMBERS: usize = 320;

// The bytes of the longest record.
const RECORD: usize = HEAD + mesh::ROW_BYTES * TRIANGLES + 4 * STARTS + 4 * NUMBERS;

// Splits the rows' parts into the lent places, and writes the case's line.
fn print_split(
    k: u64,
    rows: &[Row],
    limit: u32,
    split: u32,
    starts: &mut [u32],
    corners: &mut [i32],
) {
    let counts = boundary_split::bezinkwolu_to_convex_polygons_with_max_vertices(
        rows, limit, split, starts, corners,
    );
    lines::print(b"case ", k, b"");
    lines::print(b", limit ", limit as u64, b"");
    lines::print(b", split ", split as u64, b": ");
    part_lines::print_lent(counts, starts, corners);
}

// Takes the case out of its record and asks it.
fn print_case(k: u64, record: &[u8]) {
    let mut rows = [[0i32; mesh::ROW]; TRIANGLES];
    let mut starts = [0u32; STARTS];
    let mut corners = [0i32; NUMBERS];
    let n = records::rows(record, records::word(record, 1), &mut rows);
    let at = HEAD / 4 + mesh::ROW * n;
    let s = records::words(record, at, records::word(record, 2), &mut starts);
    let m = records::numbers(record, at + s, records::word(record, 3), &mut corners);
    print_split(
        k,
        &rows[..n],
        records::word(record, 4),
        records::word(record, 5),
        &mut starts[..s],
        &mut corners[..m],
    );
}

fn main() {
    for k in 0..records::MOST {
        let mut buf = [0u8; RECORD];
        let n = records::read_record(&mut buf);
        if n == 0 {
            break;
        }
        print_case(k, &buf[..n]);
    }
}
