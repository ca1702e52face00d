// The lines of a mesh that is written by hand: whether a line is passed over, and the first line's
// and a triangle's words put at a place of lent words, as the mesh file has them. Each equals its
// definition in specs/Lines.antt, of any bytes; a line that is not as it should be is told by
// false. An inner layer of mesh_text: callers show that there is room. Leans on mesh_fields and
// fields.
#![tactic(auto)]

ghost use Rattle.std.specs.Prelude.{◌≡◌, [], ◌∷◌, ◌+◌, ◌≤◌, length};
ghost use Rattle.mesh.specs.Rows.{row_width};
ghost use Rattle.fields.specs.Fields.{field_of};
ghost use Rattle.mesh_fields.specs.Entries.{is_point, point_read, point_words, is_number_or_none, number_or_none, is_split, split_of};
ghost use Rattle.mesh_fields.specs.Put.{Put};
ghost use Rattle.mesh_lines.specs.Lines.{ends_at, is_passed_over, are_points, are_neighbours, is_triangle, triangle_of, triangle_words, sides_of, corners_of, is_limit, is_head, head_words};

// Whether the line has no field k.
fn ends(line: &[u8], k: usize) -> bool
    ensures { result ≡ ends_at k line.now }
{
    let start = fields::field_start(line, k);
    start == line.len()
}

// Whether the line says nothing: it is blank, or `#` comes first.
pub fn passed_over(line: &[u8]) -> bool
    ensures { result ≡ is_passed_over line.now }
{
    let start = fields::field_start(line, 0);
    start == line.len() || line[start] == b'#'
}

// Puts the point that is field k.
fn put_point_at(line: &[u8], k: usize, at: usize, words: &mut [u32]) -> bool
    requires { at + 2 ≤ length words.old }
    ensures { Put (is_point (field_of k line.now)) (point_words (point_read (field_of k line.now))) at words.old
        words.new result }
{
    let entry = fields::field(line, k);
    mesh_fields::put_point(entry, at, words)
}

// Puts the neighbour that is field k.
fn put_neighbour_at(line: &[u8], k: usize, at: usize, words: &mut [u32]) -> bool
    requires { at + 1 ≤ length words.old }
    ensures { Put (is_number_or_none (field_of k line.now)) (number_or_none (field_of k line.now) ∷ []) at words.old
        words.new result }
{
    let entry = fields::field(line, k);
    mesh_fields::put_reading(mesh_fields::number_or_none(entry), at, words)
}

// Puts the points that are the first three fields.
fn put_points(line: &[u8], at: usize, words: &mut [u32]) -> bool
    requires { at + 6 ≤ length words.old }
    ensures { Put (are_points line.now) (corners_of (triangle_of line.now)) at words.old words.new result }
{
    put_point_at(line, 0, at, words)
        && (put_point_at(line, 1, at + 2, words) && put_point_at(line, 2, at + 4, words))
}

// Puts the neighbours that are the next three.
fn put_neighbours(line: &[u8], at: usize, words: &mut [u32]) -> bool
    requires { at + 3 ≤ length words.old }
    ensures { Put (are_neighbours line.now) (sides_of (triangle_of line.now)) at words.old words.new result }
{
    put_neighbour_at(line, 3, at, words)
        && (put_neighbour_at(line, 4, at + 1, words) && put_neighbour_at(line, 5, at + 2, words))
}

// Puts a triangle's nine words.
pub fn put_triangle(line: &[u8], at: usize, words: &mut [u32]) -> bool
    requires { at + row_width ≤ length words.old }
    ensures { Put (is_triangle line.now) (triangle_words (triangle_of line.now)) at words.old words.new result }
{
    put_points(line, at, words) && (put_neighbours(line, at + 6, words) && ends(line, 6))
}

// Puts the corner limit, where the line begins `limit N` or `limit none`.
fn put_limit(line: &[u8], words: &mut [u32]) -> bool
    requires { 1 ≤ length words.old }
    ensures { Put (is_limit line.now) (number_or_none (field_of 1 line.now) ∷ []) 0 words.old words.new result }
{
    let name = fields::field(line, 0);
    mesh_fields::is_word(name, b"limit")
        && mesh_fields::put_reading(
            mesh_fields::number_or_none(fields::field(line, 1)),
            0,
            words,
        )
}

// Puts the split that is field 2.
fn put_split(line: &[u8], words: &mut [u32]) -> bool
    requires { 2 ≤ length words.old }
    ensures { Put (is_split (field_of 2 line.now)) (split_of (field_of 2 line.now) ∷ []) 1 words.old words.new
        result }
{
    let entry = fields::field(line, 2);
    mesh_fields::put_reading(mesh_fields::split(entry), 1, words)
}

// Puts the corner limit and the split of the first line, on the front.
pub fn put_head(line: &[u8], words: &mut [u32]) -> bool
    requires { 2 ≤ length words.old }
    ensures { Put (is_head line.now) (head_words line.now) 0 words.old words.new result }
{
    put_limit(line, words) && (put_split(line, words) && ends(line, 3))
}
