// Prints the contours of all pair sums or differences of two meshes' split parts, one line a pair
// after a head line, or the refusal. It reads an operation (0 sum, 1 difference), a left mesh file
// and a right mesh file from standard input, makes their pair job and prints it as `pairs` does:
// together `contours_text` of meshes_job/specs/Job.antt of the bytes that it reads. Leans on input,
// meshes_job, pairs_print and refusal_print.
#![tactic(auto)]

use meshes_job::JOB;
use table_words::WORD;

// As many bytes as the longest good file has.
const FILE: usize = mesh_file::HEADER + mesh::ROW_BYTES * mesh::MAX_TRIANGLES;

// An operation, two of the longest good files and one byte more, so that a longer input is seen to
// be too long.
const INPUT: usize = WORD + 2 * FILE + 1;

fn main(rt: HostRuntime) {
    let mut bytes = [0u8; INPUT];
    let n = input::read_input(&rt, &mut bytes);
    let mut job = [0u8; JOB];
    let told = meshes_job::make_job(&bytes[..n], &mut job);
    if told.fault != 0 {
        refusal_print::print_refusal(&rt, told.fault);
        return;
    }
    pairs_print::print_job(&rt, &job[..told.length]);
}
