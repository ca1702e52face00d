// Replays a stored sample of the calls on part tables, from standard input to its end: asks each
// case again and prints a line with what was answered and what the lent places hold then. What it
// prints is its file `stdout`, which the oracle wrote with the judge's answers (vectors/README.md).
// Leans on table_read, table_write, table_shown, records, part_lines and lines.
#![tactic(auto)]

use records::HEAD;

// As many starts, numbers and bytes as a record may have.
const STARTS: usize = 32;

const NUMBERS: usize = 64;

const BYTES: usize = 256;

// The bytes of the longest record.
const RECORD: usize = HEAD + 4 * STARTS + 4 * NUMBERS + BYTES;

// What a record's second word asks for; any other number asks for a part to be shown.
const READ_TABLE: u32 = 0;

const WRITE_TABLE: u32 = 1;

fn print_byte(b: u8) {
    io::print_hex(1, b as u64, 2);
}

// Writes the bytes in hexadecimal.
fn print_bytes(bytes: &[u8]) {
    for b in bytes {
        print_byte(*b);
    }
}

// Reads the table into the lent places, and writes the rest of the line.
fn print_read(bytes: &[u8], starts: &mut [u32], corners: &mut [i32]) {
    let counts = table_read::read_table(bytes, starts, corners);
    io::write_all(1, b"read_table: ");
    part_lines::print_lent(counts, starts, corners);
}

// Writes the table into the lent bytes, and the rest of the line.
fn print_written(starts: &[u32], corners: &[i32], bytes: &mut [u8]) {
    let stored = table_write::write_table(starts, corners, bytes);
    lines::print(b"write_table: fault ", stored.fault as u64, b"");
    lines::print(b", length ", stored.length as u64, b"; bytes ");
    print_bytes(bytes);
    io::write_all(1, b"\n");
}

// Asks for a part, and writes the rest of the line.
fn print_shown<'a>(
    left_starts: &[u32],
    left_corners: &'a [i32],
    right_starts: &[u32],
    right_corners: &'a [i32],
    right: bool,
    k: u32,
) {
    let mut fault: u32 = 0;
    let part = table_shown::show_part(
        left_starts,
        left_corners,
        right_starts,
        right_corners,
        right,
        k,
        &mut fault,
    );
    lines::print(b"show_part: fault ", fault as u64, b"");
    lines::print_coordinates(b"; corners", part);
    io::write_all(1, b"\n");
}

// A record of one table: its starts and numbers, or the places lent for them, and then the bytes,
// the ones to read or the ones lent.
fn print_one(record: &mut [u8]) {
    let mut starts = [0u32; STARTS];
    let mut corners = [0i32; NUMBERS];
    let s = records::words(record, HEAD / 4, records::word(record, 2), &mut starts);
    let m = records::numbers(record, HEAD / 4 + s, records::word(record, 3), &mut corners);
    let at = HEAD + 4 * s + 4 * m;
    if record.len() < at {
        return;
    }
    if records::word(record, 1) == READ_TABLE {
        print_read(&record[at..], &mut starts[..s], &mut corners[..m]);
    } else {
        print_written(&starts[..s], &corners[..m], &mut record[at..]);
    }
}

// A record of two tables: the left one's starts and numbers, and the right one's.
fn print_two(record: &[u8]) {
    let mut left_starts = [0u32; STARTS];
    let mut left_corners = [0i32; NUMBERS];
    let mut right_starts = [0u32; STARTS];
    let mut right_corners = [0i32; NUMBERS];
    let ls = records::words(record, HEAD / 4, records::word(record, 2), &mut left_starts);
    let lc = records::numbers(
        record,
        HEAD / 4 + ls,
        records::word(record, 3),
        &mut left_corners,
    );
    let at = HEAD / 4 + ls + lc;
    let rs = records::words(record, at, records::word(record, 4), &mut right_starts);
    let rc = records::numbers(
        record,
        at + rs,
        records::word(record, 5),
        &mut right_corners,
    );
    print_shown(
        &left_starts[..ls],
        &left_corners[..lc],
        &right_starts[..rs],
        &right_corners[..rc],
        records::word(record, 6) != 0,
        records::word(record, 7),
    );
}

// Asks the case that the record has, and writes its line.
fn print_case(k: u64, record: &mut [u8]) {
    lines::print(b"case ", k, b", ");
    if records::word(record, 1) <= WRITE_TABLE {
        print_one(record);
    } else {
        print_two(record);
    }
}

fn main() {
    for k in 0..records::MOST {
        let mut buf = [0u8; RECORD];
        let n = records::read_record(&mut buf);
        if n == 0 {
            break;
        }
        print_case(k, &mut buf[..n]);
    }
}
