// Turns a mesh written by hand, on standard input, into a mesh file on standard output.
// A text that is not as a mesh is written is refused by its first wrong line, on standard error,
// with what stands there and what should, and nothing is written. What is told is `told_of` of
// mesh_told/specs/Told.antt. Leans on mesh_text, mesh_told, input and io.
#![tactic(auto)]

use mesh_text::FILE_ROOM;
use mesh_told::TOLD_ROOM;

// One byte more than the longest text, so that a longer one is told from it.
const INPUT: usize = mesh_text::MAX_TEXT + 1;

fn main(rt: HostRuntime) {
    let mut text = [0u8; INPUT];
    let size = input::read_input(&rt, &mut text);
    let mut file = [0u8; FILE_ROOM];
    let told = mesh_text::to_mesh_file(&text[..size], &mut file);
    let mut said = [0u8; TOLD_ROOM];
    let length = mesh_told::put_told(told, &text[..size], &mut said);
    io::write_all(2, &said[..length]);
    if let Ok(written) = told {
        input::write_output(&rt, &file[..written]);
    }
}
