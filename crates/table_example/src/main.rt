// The example of part tables in docs/USE.md: stores a table of two parts, prints its bytes, reads
// it back, and has it refused once a start falls. What it prints is its file `stdout`. Leans on
// table_read, table_write and lines.
#![tactic(auto)]

// Writes a byte in hexadecimal.
fn print_byte(b: u8) {
    io::print_hex(1, b as u64, 2);
}

// Writes the bytes, 16 on a line.
fn print_bytes(bytes: &[u8]) {
    for (i, b) in bytes.iter().enumerate() {
        print_byte(*b);
        if i % 16 == 15 {
            io::write_all(1, b"\n");
        }
    }
    io::write_all(1, b"\n");
}

// Reads a stored table into lent places and writes what the call told.
fn print_table(bytes: &[u8]) {
    let mut starts = [0u32; 8];
    let mut corners = [0i32; 16];
    let counts = table_read::read_table(bytes, &mut starts, &mut corners);
    lines::print(b"read: fault ", counts.fault as u64, b"");
    lines::print(b", parts ", counts.parts as u64, b"");
    lines::print(b", corners ", counts.corners as u64, b"\n");
}

// The two parts of document 01's dart. Byte 12 is the lowest of start 1: at 7 the start after it,
// 6, falls.
fn main() {
    let starts = [0u32, 3, 6];
    let corners = [0i32, 4, 0, 0, 4, 0, 0, 4, 4, 0, 10, -2];
    let mut bytes = [0u8; 68];
    let stored = table_write::write_table(&starts, &corners, &mut bytes);
    lines::print(b"stored: fault ", stored.fault as u64, b"");
    lines::print(b", bytes ", stored.length as u64, b"\n");
    print_bytes(&bytes);
    print_table(&bytes);
    bytes[12] = 7;
    print_table(&bytes);
}
