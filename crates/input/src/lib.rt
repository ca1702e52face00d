// Standard input read whole and standard output written whole, as the programs do: over short reads
// and writes, and again after one that a signal cut off or that had nothing to move yet. What a
// read or a write fails by is told on standard error. What the bytes are is the input's: the
// contract says how many there are. Leans on std (`Input`, `Print`, `Eprint`) and on io's `Counts`.
#![tactic(auto)]

ghost use Rattle.io.specs.Counts.{IsPrefixLen};

use std::io;
use std::io::{ErrorKind, Read, Write};

// A proved loop has to end, and nothing says that an input does: so many turns, of a read or a
// write each, that no run uses them up.
const TURNS: u64 = 1099511627776;

// Whether the call that failed so is made again: a signal came first, or a descriptor that does not
// wait has nothing yet.
fn is_passing(kind: ErrorKind) -> bool {
    matches!(kind, ErrorKind::Interrupted | ErrorKind::WouldBlock)
}

// Whether the call that failed so was the last: it failed for good, which is then told.
fn is_last(rt: &impl Eprint, error: &io::Error, what: &str) -> bool {
    if is_passing(error.kind()) {
        return false;
    }
    let _ = eprintln!(rt; "{what}: {error}");
    true
}

// Reads standard input onto the front of buf until buf is full, the input ends or a read fails for
// good, and answers how many bytes there are.
pub fn read_input(rt: &(impl Input + Eprint), buf: &mut [u8]) -> usize
    ensures { IsPrefixLen result buf.new }
{
    let mut reader = rt.reader();
    let mut done: usize = 0;
    for _ in 0..TURNS {
        if done == buf.len() {
            break;
        }
        match reader.read(&mut buf[done..]) {
            Ok(0) => break,
            Ok(n) => done += n,
            Err(error) => {
                if is_last(rt, &error, "standard input") {
                    break;
                }
            }
        }
    }
    done
}

// Writes the text on standard output and answers whether all of it was taken.
pub fn write_output(rt: &(impl Print + Eprint), text: &[u8]) -> bool {
    let mut writer = io::writer(rt);
    let mut written: usize = 0;
    for _ in 0..TURNS {
        if written == text.len() {
            return true;
        }
        match writer.write(&text[written..]) {
            Ok(0) => break,
            Ok(n) => written += n,
            Err(error) => {
                if is_last(rt, &error, "standard output") {
                    break;
                }
            }
        }
    }
    false
}
