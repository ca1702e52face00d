// Lines and fields of a text: where a run of bytes of one kind ends, and field k of a line. Each
// equals its definition in specs/Fields.antt, of any bytes. An inner layer of field_numbers,
// mesh_lines and mesh_text. Leans on nothing but the kit.
#![tactic(auto)]

ghost use Rattle.std.specs.Prelude.{◌≡◌, ◌+◌, ◌≤◌, length, drop, take_while};
ghost use Rattle.fields.specs.Fields.{is_blank, in_run, run_length, fields_from, field_of};

// What a run is of: blanks, the bytes of a field, digits, the bytes of a line, the bytes before a
// comma. A name and no closure, as definitions of the crates above say by it which run they mean.
#[derive(Clone, Copy)]
pub enum Run {
    Blanks,
    Field,
    Digits,
    Line,
    Comma,
}

// A space, a tab or a carriage return.
fn is_blank(b: u8) -> bool
    ensures { result ≡ is_blank b }
{
    matches!(b, b' ' | b'\t' | b'\r')
}

// Whether a byte is one of a run's.
fn belongs(kind: Run, b: u8) -> bool
    ensures { result ≡ in_run kind b }
{
    match kind {
        Run::Blanks => is_blank(b),
        Run::Field => !is_blank(b),
        Run::Digits => b.is_ascii_digit(),
        Run::Line => b != b'\n',
        Run::Comma => b != b',',
    }
}

// How many bytes at the front are of a kind.
fn front(kind: Run, text: &[u8]) -> usize
    ensures { result ≡ length (take_while (in_run kind) text.now) }
{
    text.iter().take_while(|b| belongs(kind, **b)).count()
}

// The place where the run that begins at `from` ends.
pub fn run_end(kind: Run, text: &[u8], from: usize) -> usize
    requires { from ≤ length text.now }
    ensures { (result ≡ from + run_length (in_run kind) (drop from text.now)) × (from ≤ result) × (result ≤ length text.now) }
{
    from + front(kind, &text[from..])
}

// The place where field k of the line begins, or its length where it has none.
pub fn field_start(line: &[u8], k: usize) -> usize
    ensures { (drop result line.now ≡ fields_from k line.now) × (result ≤ length line.now) }
{
    let mut i = run_end(Run::Blanks, line, 0);
    for _ in 0..k {
        let end = run_end(Run::Field, line, i);
        i = run_end(Run::Blanks, line, end);
    }
    i
}

// Field k of the line, empty where it has none.
pub fn field(line: &[u8], k: usize) -> &[u8]
    ensures { result.now ≡ field_of k line.now }
{
    let start = field_start(line, k);
    let end = run_end(Run::Field, line, start);
    &line[start..end]
}
