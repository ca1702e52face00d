// The example of a pair in docs/USE.md: document 01's K minus K, (0,0) (2,0) (0,2) less itself,
// stepped to its end, and then a step refused, for a place that is no corner (23). What it prints
// is its file `stdout`. Leans on walk_pair, walk_next and lines.
#![tactic(auto)]

ghost use Rattle.std.specs.Prelude.{◌<◌, IfSome};
ghost use Rattle.pair.specs.Pair.{steps_left};

use pair::{ConvexSum, Place};
use plane::IntPoint;
use walk::{Next, Paired};

fn print_corner(p: IntPoint) {
    io::write_all(1, b"corner");
    lines::print_coordinate(p.x);
    lines::print_coordinate(p.y);
    io::write_all(1, b"\n");
}

// Steps the pair once and writes what the call told; answers where both walks stand after a corner,
// which takes a step, so that a pair comes to its end.
fn print_next(left: &[i32], right: &[i32], at: ConvexSum) -> Option<ConvexSum>
    ensures { IfSome result (λ t. steps_left t < steps_left at) }
{
    match walk_next::next(left, right, at) {
        Next::Corner(p, t) => {
            print_corner(p);
            Some(t)
        }
        Next::End(_) => {
            io::write_all(1, b"end\n");
            None
        }
        Next::Refused(f, _) => {
            lines::print(b"refused ", f as u64, b"\n");
            None
        }
    }
}

// Steps the pair from s until no corner is handed out.
fn print_pair(left: &[i32], right: &[i32], s: ConvexSum) {
    let mut at = s;
    while let Some(next) = print_next(left, right, at) {
        at = next;
    }
}

// A walk of three corners that stands at corner 3, which is none.
fn stray() -> Place {
    Place {
        index: 3,
        remaining: 1,
        reverse: false,
        reflected: false,
        segment: false,
        start: 0,
        end: 0,
    }
}

fn main() {
    let k = [0i32, 0, 2, 0, 0, 2];
    match walk_pair::difference(&k, &k) {
        Paired::At(s) => {
            print_pair(&k, &k, s);
            print_pair(&k, &k, ConvexSum { a: stray(), ..s });
        }
        Paired::Refused(f) => lines::print(b"refused ", f as u64, b"\n"),
    }
}
