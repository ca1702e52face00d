// Makes a pair job of two stored tables: standard input is one u32 (0 sum, 1 difference), a left
// stored table and a right one; standard output is the job, with the least and greatest x and y of
// each table's corners as bounds. What is no operation with two good tables is refused by its
// number on standard error, and nothing is written. It reads more bytes than the longest good input
// has. Leans on input, commands and tables_job.
#![tactic(auto)]

use pairs_job::LONGEST;

fn main(rt: HostRuntime) {
    let mut bytes = [0u8; LONGEST];
    let n = input::read_input(&rt, &mut bytes);
    let mut out = [0u8; LONGEST];
    let made = tables_job::make_job(&bytes[..n], &mut out);
    if made.fault != 0 {
        commands::tell_refused(made.fault);
    }
    input::write_output(&rt, &out[..made.size]);
}
