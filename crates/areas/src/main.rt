// Prints the convex parts of a mesh file with their areas and shares, or its refusal: document 01's
// area program ("The file and its listing"). It reads at most one byte more than the longest good
// file from standard input; more input would change nothing (area_listing/specs/MoreInput.antt).
// Leans on input and area_listing.
#![tactic(auto)]

use area_listing::{INPUT, LISTING};

fn main(rt: HostRuntime) {
    let mut bytes = [0u8; INPUT];
    let n = input::read_input(&rt, &mut bytes);
    let mut text = [0u8; LISTING];
    let length = area_listing::listing(&bytes[..n], &mut text);
    input::write_output(&rt, &text[..length]);
}
