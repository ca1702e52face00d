// Replays a stored sample of paths, from standard input to its end: imports each path again and
// prints a line with what was told and what the lent numbers hold then. What it prints is its file
// `stdout`, which the oracle wrote with the judge's answers (vectors/README.md). Leans on
// boundary_path, path, records and lines.
#![tactic(auto)]

ghost use Rattle.std.specs.Prelude.{◌<◌, ◌≤◌, length};
ghost use Rattle.records.specs.Record.{Counted};

use boundary_path::Row;
use path::Frame;
use records::HEAD;
use table_words::WORD;

// As many items and numbers as a record may have: more items than a path, for fault 7.
const ITEMS: usize = 1100;

const NUMBERS: usize = 2052;

// The words of 64 bits, and of three such, as a frame and an item have them.
const WIDE: usize = 2;

const THREE: usize = 3 * WIDE;

// The words at which the frame and the first item stand.
const FRAME: usize = HEAD / WORD;

const FIRST: usize = FRAME + THREE;

// The sign's bit, and the bits of infinity, above which without their sign are those of a NaN.
const SIGN: u64 = 0x8000_0000_0000_0000;

const INFINITY: u64 = 0x7ff0_0000_0000_0000;

// The bytes of the longest record.
const RECORD: usize = WORD * (FIRST + THREE * ITEMS + NUMBERS);

// The 64 bits of two words, the lower first.
fn joined(low: u32, high: u32) -> u64 {
    (high as u64) << 32 | low as u64
}

// The 64 bits at word k.
fn bits(record: &[u8], k: usize) -> u64
    requires { k < 4294967296 }
{
    joined(records::word(record, k), records::word(record, k + 1))
}

// Three times 64 bits, from word k on.
fn three(record: &[u8], k: usize) -> Row
    requires { k < 4294967292 }
{
    [
        bits(record, k),
        bits(record, k + WIDE),
        bits(record, k + WIDE + WIDE),
    ]
}

// Reads the record's items, as many as there are places, and answers how many.
fn read_items(record: &[u8], items: &mut [Row]) -> usize
    requires { length items.old ≤ 1100 }
    ensures { Counted result items.new }
{
    let count = items.len().min(records::word(record, 1) as usize);
    for (i, item) in items[..count].iter_mut().enumerate() {
        *item = three(record, FIRST + THREE * i);
    }
    count
}

// The number of some bits.
fn number_of(bits: u64) -> f64 {
    if bits % SIGN > INFINITY {
        f64::NAN
    } else {
        f64::from_bits(bits)
    }
}

// The record's frame.
fn frame(record: &[u8]) -> Frame {
    let [x, y, steps] = three(record, FRAME);
    Frame {
        x: number_of(x),
        y: number_of(y),
        steps: number_of(steps),
    }
}

// Imports the path into the lent numbers, and writes the case's line.
fn print_path(k: u64, path: &[Row], frame: Frame, corners: &mut [i32]) {
    let told = boundary_path::bezinkwolu_import_path(path, frame, corners);
    lines::print(b"case ", k, b"");
    lines::print(b": fault ", told.fault as u64, b"");
    lines::print(b", corners ", told.corners as u64, b"");
    lines::print_coordinates(b"; corners", corners);
    io::write_all(1, b"\n");
}

// Takes the case out of its record and asks it.
fn print_case(k: u64, record: &[u8]) {
    let mut items = [[0u64; 3]; ITEMS];
    let mut corners = [0i32; NUMBERS];
    let n = read_items(record, &mut items);
    let at = FIRST + THREE * n;
    let m = records::numbers(record, at, records::word(record, 2), &mut corners);
    print_path(k, &items[..n], frame(record), &mut corners[..m]);
}

fn main() {
    for k in 0..records::MOST {
        let mut buf = [0u8; RECORD];
        let n = records::read_record(&mut buf);
        if n == 0 {
            break;
        }
        print_case(k, &buf[..n]);
    }
}
