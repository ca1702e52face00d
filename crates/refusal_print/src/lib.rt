// A refusal printed (document 01: "A refusal prints `refused` and the number"), for programs whose
// answer is not all text. It has no contract, as nothing can be said of what is written. Leans on
// text and input.
#![tactic(auto)]

// As many bytes as the longest refusal has: a word of eight, at most twenty digits, and the line's
// end.
const REFUSAL: usize = 29;

// Writes a refusal on standard output.
pub fn print_refusal(rt: &(impl Print + Eprint), fault: u32) {
    let mut line = [0u8; REFUSAL];
    let length = text::put_refusal(fault, &mut line, 0);
    input::write_output(rt, &line[..length]);
}
