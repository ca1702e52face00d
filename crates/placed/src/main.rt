// Prints whether the right of two meshes, moved by a place, lies apart from the left one, touches
// it or overlaps it, or the refusal. It reads a place, a left mesh file and a right mesh file from
// standard input: `placed_text` of meshes_place/specs/Placed.antt of the bytes that it reads. Leans
// on input and meshes_place.
#![tactic(auto)]

use meshes_place::LINE;
use table_words::WORD;

// As many bytes as the longest good file has.
const FILE: usize = mesh_file::HEADER + mesh::ROW_BYTES * mesh::MAX_TRIANGLES;

// A place, two of the longest good files and one byte more, so that a longer input is seen to be
// too long.
const INPUT: usize = 2 * WORD + 2 * FILE + 1;

fn main(rt: HostRuntime) {
    let mut bytes = [0u8; INPUT];
    let n = input::read_input(&rt, &mut bytes);
    let mut line = [0u8; LINE];
    let length = meshes_place::put_placed(&bytes[..n], &mut line);
    input::write_output(&rt, &line[..length]);
}
