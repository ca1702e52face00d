// Replays a stored sample of plane's functions, from standard input to its end: asks each case
// again and prints a line with what was answered. What it prints is its file `stdout`, which the
// oracle wrote with the answers of the Rust and of the judge (vectors/README.md). Leans on
// boundary_plane, records and lines.
#![tactic(auto)]

use boundary_plane::Told;

// The bytes of a record: its size, the kind and eight coordinates, a word each.
const RECORD: usize = 40;

// What a record's second word asks for; any other number asks for the order of directions.
const CROSS_PRODUCT: u32 = 0;

const AREA_TWO: u32 = 1;

// Writes a value.
fn print_value(n: i64) {
    if n < 0 {
        lines::print(b"-", n.unsigned_abs(), b"");
    } else {
        lines::print(b"", n.unsigned_abs(), b"");
    }
}

// Writes a case's line.
fn print_told(k: u64, name: &[u8], told: Told) {
    lines::print(b"case ", k, b", ");
    io::write_all(1, name);
    lines::print(b": fault ", told.fault as u64, b", value ");
    print_value(told.value);
    io::write_all(1, b"\n");
}

// Asks about a, b, c and d, whose coordinates these are, and writes the line.
fn print_asked(k: u64, kind: u32, p: [i32; 8]) {
    let [ax, ay, bx, by, cx, cy, dx, dy] = p;
    match kind {
        CROSS_PRODUCT => print_told(
            k,
            b"cross_product",
            boundary_plane::bezinkwolu_cross_product(ax, ay, bx, by, cx, cy, dx, dy),
        ),
        AREA_TWO => print_told(
            k,
            b"area_two",
            boundary_plane::bezinkwolu_area_two(ax, ay, bx, by, cx, cy),
        ),
        _ => print_told(
            k,
            b"angle_cmp",
            boundary_plane::bezinkwolu_angle_cmp(ax, ay, bx, by, cx, cy, dx, dy),
        ),
    }
}

// Takes the case out of its record and asks it.
fn print_case(k: u64, record: &[u8]) {
    let mut p = [0i32; 8];
    records::numbers(record, 2, 8, &mut p);
    print_asked(k, records::word(record, 1), p);
}

fn main() {
    for k in 0..records::MOST {
        let mut buf = [0u8; RECORD];
        let n = records::read_record(&mut buf);
        if n == 0 {
            break;
        }
        print_case(k, &buf[..n]);
    }
}
