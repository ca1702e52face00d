// A pair job printed: `print_job` steps through its text (pairs_text) and writes what each step
// hands over, until the text is at its end or standard output takes no more. It has no contract, as
// nothing can be said of what is written: proved is that it is safe and ends. That the steps from 0
// on are the whole text is pairs_text's `AllHandedOver`; that they are written, each once and in
// turn, rests on reading this loop. Leans on pairs_text and input.
#![tactic(auto)]

use pairs_text::ROOM;

// Writes what the pairs program prints of a job.
pub fn print_job(rt: &(impl Print + Eprint), bytes: &[u8]) {
    let mut out = [0u8; ROOM];
    let mut from: usize = 0;
    let mut more = true;
    while more {
        let chunk = pairs_text::next_chunk(bytes, from, &mut out);
        if input::write_output(rt, &out[..chunk.size]) {
            from = chunk.next;
            more = chunk.more;
        } else {
            return;
        }
    }
}
