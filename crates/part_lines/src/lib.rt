// What a call that writes parts answered, as the programs here print it on one line: the fault and
// the counts, and then the parts, a colon before the first, a semicolon before each other one, and
// the corners of a part as (x,y), each after a space (`print_answer`); or all that the lent places
// hold, so that a refusal which changed something shows (`print_lent`). The lists are read as far
// as they reach, so any lists are taken; what is written is in io's hands, and each program's is
// held to its file `stdout`. Leans on table, corners and lines.
#![tactic(auto)]

use table::Counts;

// Writes corner j, where there is one.
fn print_corner(corners: &[i32], j: u32) {
    let k = j as usize;
    if corners::corner_count(corners) <= k {
        return;
    }
    let p = corners::corner_at(corners, k);
    io::write_all(1, b" (");
    lines::print_number(p.x);
    io::write_all(1, b",");
    lines::print_number(p.y);
    io::write_all(1, b")");
}

// Writes the corners from one number to before another.
fn print_corners(corners: &[i32], from: u32, to: u32) {
    for j in from..to {
        print_corner(corners, j);
    }
}

// Writes part k, where it has a start and an end.
fn print_part(starts: &[u32], corners: &[i32], k: u32) {
    let at = k as usize;
    if starts.len() <= at + 1 {
        return;
    }
    io::write_all(1, if k == 0 { b":" } else { b";" });
    print_corners(corners, starts[at], starts[at + 1]);
}

// Writes the first parts of a table.
fn print_parts(starts: &[u32], corners: &[i32], parts: u32) {
    for k in 0..parts {
        print_part(starts, corners, k);
    }
}

// Writes the fault and the counts.
pub fn print_counts(counts: Counts) {
    lines::print(b"fault ", counts.fault as u64, b"");
    lines::print(b", parts ", counts.parts as u64, b"");
    lines::print(b", corners ", counts.corners as u64, b"");
}

// Writes the counts, the parts that lent starts and corners hold, and the line's end.
pub fn print_answer(counts: Counts, starts: &[u32], corners: &[i32]) {
    print_counts(counts);
    print_parts(starts, corners, counts.parts);
    io::write_all(1, b"\n");
}

// Writes the counts, all that the lent starts and corners hold, written or not, and the line's end.
pub fn print_lent(counts: Counts, starts: &[u32], corners: &[i32]) {
    print_counts(counts);
    lines::print_words(b"; starts", starts);
    lines::print_coordinates(b"; corners", corners);
    io::write_all(1, b"\n");
}
