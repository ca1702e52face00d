// Prints the contours of all pair sums or differences of a pair job, one line a pair after a head
// line, or its refusal. It reads the job from standard input, and writes what each step of
// pairs_text hands over: together `pairs_text` of pairs_job/specs/Job.antt. By the law `MoreInput`
// there no byte past those that it reads changes that. Leans on input and pairs_print.
#![tactic(auto)]

// One byte more than the longest good job has.
const JOB: usize = pairs_job::LONGEST + 1;

fn main(rt: HostRuntime) {
    let mut bytes = [0u8; JOB];
    let n = input::read_input(&rt, &mut bytes);
    pairs_print::print_job(&rt, &bytes[..n]);
}
