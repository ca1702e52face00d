// The example of splitting in docs/USE.md: document 01's square past a limit of three corners by
// each split; the unit square by centroid, whose rounded centre is a corner, so that the fan is
// used; and a refusal, for want of a place for the last start. What it prints is its file `stdout`.
// Leans on split_parts and part_lines.
#![tactic(auto)]

use mesh::Row;
use split::ConvexSplitStrategy;

// Splits the mesh into places for four triangles and writes what the call answered.
fn print_split(mesh: &[Row], strategy: ConvexSplitStrategy) {
    let mut starts = [0u32; 5];
    let mut corners = [0i32; 24];
    let counts = split_parts::to_convex_polygons_with_max_vertices(
        mesh,
        3,
        strategy,
        &mut starts,
        &mut corners,
    );
    part_lines::print_answer(counts, &starts, &corners);
}

// A row has the three points and then the neighbours across from them, -1 for none.
fn main() {
    let square = [
        [0i32, 0, 4, 0, 4, 4, -1, 1, -1],
        [0, 0, 4, 4, 0, 4, -1, -1, 0],
    ];
    let unit = [
        [0i32, 0, 1, 0, 1, 1, -1, 1, -1],
        [0, 0, 1, 1, 0, 1, -1, -1, 0],
    ];
    io::write_all(1, b"square by ear: ");
    print_split(&square, ConvexSplitStrategy::EarClipping);
    io::write_all(1, b"square by fan: ");
    print_split(&square, ConvexSplitStrategy::Fan);
    io::write_all(1, b"square by centroid: ");
    print_split(&square, ConvexSplitStrategy::Centroid);
    io::write_all(1, b"unit square by centroid: ");
    print_split(&unit, ConvexSplitStrategy::Centroid);
    let mut few = [0u32; 2];
    let mut corners = [0i32; 24];
    let counts = split_parts::to_convex_polygons_with_max_vertices(
        &square,
        3,
        ConvexSplitStrategy::Fan,
        &mut few,
        &mut corners,
    );
    io::write_all(1, b"square by fan, too few starts: ");
    part_lines::print_answer(counts, &few, &corners);
}
