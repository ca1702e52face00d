// Which field of a wrong line of a mesh as text is wrong: what each field of a line should be, and
// the first that is not. Each function equals its definition in specs/Wanted.antt, of any bytes. An
// inner layer of mesh_told. Leans on mesh_fields and fields.
#![tactic(auto)]

ghost use Rattle.std.specs.Prelude.{◌≡◌};
ghost use Rattle.mesh_fields.specs.Entries.{is_point};
ghost use Rattle.mesh_wrong.specs.Wanted.{wanted_at, is_wanted, wrong_field};

// What stands in a line: the word `limit`, the corner limit, the split, a point, a neighbour,
// nothing more.
#[derive(Clone, Copy)]
pub enum Wanted {
    Name,
    Limit,
    Split,
    Point,
    Neighbour,
    End,
}

// One more than a triangle's fields: behind them the line ends.
const FIELDS: usize = 7;

// What field j should be of a line behind `count` that say something.
pub fn wanted_at(count: usize, j: usize) -> Wanted
    ensures { result ≡ wanted_at count j }
{
    match (count, j) {
        (0, 0) => Wanted::Name,
        (0, 1) => Wanted::Limit,
        (0, 2) => Wanted::Split,
        (0, _) => Wanted::End,
        (_, 0..=2) => Wanted::Point,
        (_, 3..=5) => Wanted::Neighbour,
        _ => Wanted::End,
    }
}

// Whether the field is a point.
fn is_point(entry: &[u8]) -> bool
    ensures { result ≡ is_point entry.now }
{
    let mut words = [0u32; 2];
    mesh_fields::put_point(entry, 0, &mut words)
}

// Whether the field is what it should be.
fn is_wanted(wanted: Wanted, entry: &[u8]) -> bool
    ensures { result ≡ is_wanted wanted entry.now }
{
    match wanted {
        Wanted::Name => mesh_fields::is_word(entry, b"limit"),
        Wanted::Limit | Wanted::Neighbour => mesh_fields::number_or_none(entry).is_some(),
        Wanted::Split => mesh_fields::split(entry).is_some(),
        Wanted::Point => is_point(entry),
        Wanted::End => entry.is_empty(),
    }
}

// The first field that is not what it should be, of a line behind `count` that say something.
pub fn wrong_field(line: &[u8], count: usize) -> usize
    ensures { result ≡ wrong_field count line.now }
{
    for j in 0..FIELDS {
        let wanted = wanted_at(count, j);
        let entry = fields::field(line, j);
        if !is_wanted(wanted, entry) {
            return j;
        }
    }
    FIELDS
}
