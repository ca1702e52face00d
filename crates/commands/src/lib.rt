// What the programs that write bytes share: an argument read as a number, and what is told on
// standard error in place of an answer. It has no contracts, as nothing can be said of arguments or
// of what is written: proved is that it is safe and ends. What a number is, is field_numbers'; a
// refusal's text is text's. Leans on std's `Env`, io, field_numbers and text.
#![tactic(auto)]

use std::rt::Env;

// The bytes of an argument that is read, and of a refusal: more than those of the greatest number
// of 32 bits.
const ARGUMENT: usize = 16;

const REFUSAL: usize = 32;

const STANDARD_ERROR: i32 = 2;

// Argument i as a number of 32 bits; one that is missing or longer than the place for it is none.
pub fn number_argument(rt: &impl Env, i: usize) -> Option<u32> {
    let mut digits = [0u8; ARGUMENT];
    match rt.arg(i, &mut digits) {
        Ok(n) => field_numbers::number(&digits[..n], u32::MAX),
        Err(_) => None,
    }
}

// Tells a refusal by its number.
pub fn tell_refused(fault: u32) {
    let mut said = [0u8; REFUSAL];
    let n = text::put_refusal(fault, &mut said, 0);
    io::write_all(STANDARD_ERROR, &said[..n]);
}
