// A name, a number in decimal and an end, as the programs here print them. `put_text` puts the text
// on the front of lent bytes and takes any input: what it answers and the bytes as it returns are
// equations with specs/Text.antt, and where there is no room it answers 0 and changes nothing.
// `print` writes that text, the other functions numbers and lists of them; what is written is in
// io's hands, and each program's is held to its file `stdout`. Leans on text, io and integers.
#![tactic(auto)]

ghost use Rattle.lines.specs.Text.{Text};

// Puts the name, the number and the end on the front of the lent bytes and answers how many there
// are, or 0 where they do not fit.
pub fn put_text(name: &[u8], n: u64, end: &[u8], out: &mut [u8]) -> usize
    ensures { Text name.now n end.now out.old result out.new }
{
    let mut digits = [0u8; 20];
    let places = io::decimal(n, &mut digits);
    if out.len() < name.len() {
        return 0;
    }
    if out.len() - name.len() < places {
        return 0;
    }
    let after = name.len() + places;
    if out.len() - after < end.len() {
        return 0;
    }
    let named = text::put_bytes(name, out, 0);
    let numbered = text::put_bytes(&digits[..places], out, named);
    text::put_bytes(end, out, numbered)
}

// Writes the text on standard output, where it has at most 64 bytes.
pub fn print(name: &[u8], n: u64, end: &[u8]) {
    let mut text = [0u8; 64];
    let size = put_text(name, n, end, &mut text);
    io::write_all(1, &text[..size]);
}

// Writes a signed number.
pub fn print_number(n: i32) {
    let size = n.unsigned_abs() as u64;
    if n < 0 {
        print(b"-", size, b"");
    } else {
        print(b"", size, b"");
    }
}

// Writes a coordinate after a space.
pub fn print_coordinate(n: i32) {
    io::write_all(1, b" ");
    print_number(n);
}

// Writes a word after a space.
fn print_word(n: u32) {
    print(b" ", n as u64, b"");
}

// Writes a name, and each of the words.
pub fn print_words(name: &[u8], list: &[u32]) {
    io::write_all(1, name);
    for n in list {
        print_word(*n);
    }
}

// Writes a name, and each of the coordinates.
pub fn print_coordinates(name: &[u8], list: &[i32]) {
    io::write_all(1, name);
    for n in list {
        print_coordinate(*n);
    }
}
