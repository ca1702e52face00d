// Cuts a shard out of a pair job: `pairshard FROM TO <JOB >SHARD` writes the job of the left parts
// from number FROM up to, and without, number TO. The right operand, the operation and all bounds
// stay what they are. What is no job by its shape, or has a left table against its rules, is
// refused by its number on standard error, and nothing is written. It reads one byte more than the
// longest good job has: a longer one is refused whatever comes after them. Leans on input, commands
// and pairs_shard.
#![tactic(auto)]

use pairs_job::LONGEST;

const JOB: usize = LONGEST + 1;

fn main(rt: HostRuntime) {
    let from = commands::number_argument(&rt, 1);
    let to = commands::number_argument(&rt, 2);
    let (Some(from), Some(to)) = (from, to) else {
        io::write_all(2, b"pairshard FROM TO <JOB >SHARD\n");
        return;
    };
    let mut bytes = [0u8; JOB];
    let n = input::read_input(&rt, &mut bytes);
    let mut out = [0u8; LONGEST];
    let shard = pairs_shard::cut(&bytes[..n], from as usize, to as usize, &mut out);
    if shard.fault != 0 {
        commands::tell_refused(shard.fault);
    }
    input::write_output(&rt, &out[..shard.size]);
}
