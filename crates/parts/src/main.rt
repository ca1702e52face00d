// Writes the split parts of a mesh file as a stored table, or prints its refusal. It reads at most
// one byte more than the longest good file from standard input; more input would change nothing
// (parts_file/specs/MoreInput.antt). Leans on input, parts_file and refusal_print.
#![tactic(auto)]

use parts_file::PARTS;

// The longest good file and one byte more, so that a longer one is seen to be too long.
const INPUT: usize = mesh_file::HEADER + mesh::ROW_BYTES * mesh::MAX_TRIANGLES + 1;

fn main(rt: HostRuntime) {
    let mut bytes = [0u8; INPUT];
    let n = input::read_input(&rt, &mut bytes);
    let mut out = [0u8; PARTS];
    let told = parts_file::stored_parts(&bytes[..n], &mut out);
    if told.fault != 0 {
        refusal_print::print_refusal(&rt, told.fault);
        return;
    }
    input::write_output(&rt, &out[..told.length]);
}
