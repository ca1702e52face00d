// Replays a stored sample of pair jobs, from standard input to its end: prints each case's number
// and what the pairs program prints of its job. What it prints is its file `stdout`, which the
// oracle wrote with the contours of the Rust and the refusals of the judge (vectors/README.md).
// Leans on records, lines and pairs_print.
#![tactic(auto)]

use records::HEAD;

// A head, and one byte more than the longest good job has.
const RECORD: usize = HEAD + pairs_job::LONGEST + 1;

fn main(rt: HostRuntime) {
    for k in 0..records::MOST {
        let mut buf = [0u8; RECORD];
        let n = records::read_record(&mut buf);
        if n < HEAD {
            break;
        }
        lines::print(b"case ", k, b":\n");
        pairs_print::print_job(&rt, &buf[HEAD..n]);
    }
}
