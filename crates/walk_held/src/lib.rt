// A walk that holds its contour (document 01: "Walk holds a contour slice, index, direction and
// remaining steps; thin point, edge and advance over covered functions"). Each call takes the
// struct apart and hands its contour and its place to the covered function that answers: it takes
// any walk, also one that a caller made up, and refuses as walk_step does. `begin` and `advance`
// return the walk and tell the fault number, 0 for none, in a lent number; a refused step returns
// it as it came. `begun` and `advanced`, which compute the places, are exported to C for the runs
// beside the Rust alone. Leans on walk_step and walk_begin.
#![tactic(auto)]

ghost use Rattle.std.specs.Prelude.{◌≡◌};
ghost use Rattle.walk.specs.Calls.{step_fault};
ghost use Rattle.walk.specs.Clauses.{PointedBy, EdgedBy, MovedBy};
ghost use Rattle.walk_held.specs.Held.{BegunPlace, BegunWalk, AdvancedWalk};

use pair::Place;
use walk::{Advanced, Begun, Edged, Pointed};

// A walk: the contour that it goes along, and where it stands in it.
#[repr(C)]
#[derive(Clone, Copy)]
pub struct Walk<'a> {
    pub contour: &'a [i32],
    pub place: Place,
}

// Where a walk begins, nowhere where it is refused, and the fault number in `fault`.
#[unsafe(no_mangle)]
pub extern "C" fn begun(contour: &[i32], reflected: bool, fault: &mut u32) -> Place
    ensures { BegunPlace contour.now reflected fault.new result }
{
    match walk_begin::begin(contour, reflected) {
        Begun::At(first) => {
            *fault = 0;
            first
        }
        Begun::Refused(kind) => {
            *fault = kind;
            Place {
                index: 0,
                remaining: 0,
                reverse: false,
                reflected: false,
                segment: false,
                start: 0,
                end: 0,
            }
        }
    }
}

// A walk begun on a contour, and the fault number in `fault`. Refuses with 7, 2, 8, 20, in this
// order; a refused walk has no step.
pub fn begin<'a>(contour: &'a [i32], reflected: bool, fault: &mut u32) -> Walk<'a>
    ensures { BegunWalk contour.entry reflected fault.new result }
{
    let place = begun(contour, reflected, fault);
    Walk { contour, place }
}

// Where a walk stands. Needs no step left.
pub fn point<'a>(w: Walk<'a>) -> Pointed
    ensures { PointedBy w.entry.contour.now w.entry.place result }
{
    walk_step::point(w.contour, w.place)
}

// The edge that a walk would step along.
pub fn edge<'a>(w: Walk<'a>) -> Edged
    ensures { EdgedBy w.entry.contour.now w.entry.place result }
{
    walk_step::edge(w.contour, w.place)
}

// Where a walk stands one step on, or as it came where it is refused, and the fault number in
// `fault`.
#[unsafe(no_mangle)]
pub extern "C" fn advanced(contour: &[i32], place: Place, fault: &mut u32) -> Place
    ensures { (fault.new ≡ step_fault contour.now place) × MovedBy contour.now place result }
{
    match walk_step::advance(contour, place) {
        Advanced::At(t) => {
            *fault = 0;
            t
        }
        Advanced::Refused(number, same) => {
            *fault = number;
            same
        }
    }
}

// The walk one step on, over the same contour, and the fault number in `fault`. Refuses with 7, 23,
// 2, in this order; a refused walk comes back as it came.
pub fn advance<'a>(w: Walk<'a>, fault: &mut u32) -> Walk<'a>
    ensures { AdvancedWalk w.entry fault.new result }
{
    let place = advanced(w.contour, w.place, fault);
    Walk { place, ..w }
}
