// The example of joining in docs/USE.md: the parts of document 01's dart, two triangles that do not
// join, then the same mesh refused, once for want of a place for the last start and once for a
// neighbour that is not there; and a square, whose two triangles do join. What it prints is its
// file `stdout`. Leans on convex_join, part_lines and lines.
#![tactic(auto)]

use mesh::Row;

// Joins the mesh into the lent places and writes what the call told and what it left there.
fn print_parts(mesh: &[Row], starts: &mut [u32], corners: &mut [i32]) {
    let counts = convex_join::to_convex_polygons(mesh, starts, corners);
    io::write_all(1, b"joined: ");
    part_lines::print_counts(counts);
    lines::print_words(b"\nstarts", starts);
    lines::print_coordinates(b"\ncorners", corners);
    io::write_all(1, b"\n");
}

// A row has the three points and then the neighbours across from them, -1 for none.
fn main() {
    let dart = [
        [0i32, 0, 4, 0, 0, 4, 1, -1, -1],
        [4, 0, 10, -2, 0, 4, -1, 0, -1],
    ];
    let stray = [
        [0i32, 0, 4, 0, 0, 4, 2, -1, -1],
        [4, 0, 10, -2, 0, 4, -1, 0, -1],
    ];
    let mut starts = [0u32; 3];
    let mut corners = [0i32; 12];
    print_parts(&dart, &mut starts, &mut corners);
    let mut few = [0u32; 2];
    print_parts(&dart, &mut few, &mut corners);
    print_parts(&stray, &mut starts, &mut corners);
    let square = [
        [0i32, 0, 4, 0, 4, 4, -1, 1, -1],
        [0, 0, 4, 4, 0, 4, -1, -1, 0],
    ];
    print_parts(&square, &mut starts, &mut corners);
}
