// The calls on walks, exported to C for the package (./package) and the runs beside the Rust
// (oracle/beside): one thin function over each, with no `requires`. A contour passes as a pointer
// and a length, places by value; the answer is the call's, laid out for C (specs/Told.antt). Leans
// on walk_begin, walk_step, walk_pair and walk_next.
#![tactic(auto)]

ghost use Rattle.std.specs.Prelude.{◌≡◌, true, false};
ghost use Rattle.walk.specs.Calls.{begun_of, pointed_of, edged_of, advanced_of, stepped_of, paired_of, pair_stepped_of};
ghost use Rattle.boundary_walk.specs.Told.{nowhere, told_begun, told_pointed, told_edged, told_advanced, told_stepped, told_paired, told_next};

use pair::{ConvexSum, Place};
use walk::{Advanced, Begun, Edged, Next, Paired, Pointed, Stepped};

// Each has the fault number, 0 for none, and the values, 0 where there are none.
#[repr(C)]
#[derive(Clone, Copy)]
pub struct ToldPlace {
    pub fault: u32,
    pub place: Place,
}

#[repr(C)]
#[derive(Clone, Copy)]
pub struct ToldPoint {
    pub fault: u32,
    pub x: i32,
    pub y: i32,
}

#[repr(C)]
#[derive(Clone, Copy)]
pub struct ToldEdge {
    pub fault: u32,
    pub x: i64,
    pub y: i64,
}

#[repr(C)]
#[derive(Clone, Copy)]
pub struct ToldStep {
    pub fault: u32,
    pub x: i64,
    pub y: i64,
    pub place: Place,
}

#[repr(C)]
#[derive(Clone, Copy)]
pub struct ToldPair {
    pub fault: u32,
    pub places: ConvexSum,
}

// `corners` is 1 where a corner is handed out, 0 at the end.
#[repr(C)]
#[derive(Clone, Copy)]
pub struct ToldNext {
    pub fault: u32,
    pub corners: u32,
    pub x: i32,
    pub y: i32,
    pub places: ConvexSum,
}

// Stands for a place where there is none.
fn nowhere() -> Place
    ensures { result ≡ nowhere }
{
    Place {
        index: 0,
        remaining: 0,
        reverse: false,
        reflected: false,
        segment: false,
        start: 0,
        end: 0,
    }
}

// walk_begin::begin.
#[unsafe(no_mangle)]
pub extern "C" fn bezinkwolu_walk_begin(contour: &[i32], reflected: bool) -> ToldPlace
    ensures { result ≡ told_begun (begun_of contour.now reflected) }
{
    let answer = walk_begin::begin(contour, reflected);
    match answer {
        Begun::At(w) => ToldPlace { fault: 0, place: w },
        Begun::Refused(f) => ToldPlace {
            fault: f,
            place: nowhere(),
        },
    }
}

// walk_step::point.
#[unsafe(no_mangle)]
pub extern "C" fn bezinkwolu_walk_point(contour: &[i32], w: Place) -> ToldPoint
    ensures { result ≡ told_pointed (pointed_of contour.now w) }
{
    let answer = walk_step::point(contour, w);
    match answer {
        Pointed::Point(p) => ToldPoint {
            fault: 0,
            x: p.x,
            y: p.y,
        },
        Pointed::Refused(f) => ToldPoint {
            fault: f,
            x: 0,
            y: 0,
        },
    }
}

// walk_step::edge.
#[unsafe(no_mangle)]
pub extern "C" fn bezinkwolu_walk_edge(contour: &[i32], w: Place) -> ToldEdge
    ensures { result ≡ told_edged (edged_of contour.now w) }
{
    let answer = walk_step::edge(contour, w);
    match answer {
        Edged::Edge(e) => ToldEdge {
            fault: 0,
            x: e.x,
            y: e.y,
        },
        Edged::Refused(f) => ToldEdge {
            fault: f,
            x: 0,
            y: 0,
        },
    }
}

// walk_step::advance.
#[unsafe(no_mangle)]
pub extern "C" fn bezinkwolu_walk_advance(contour: &[i32], w: Place) -> ToldPlace
    ensures { result ≡ told_advanced (advanced_of contour.now w) }
{
    let answer = walk_step::advance(contour, w);
    match answer {
        Advanced::At(t) => ToldPlace { fault: 0, place: t },
        Advanced::Refused(f, t) => ToldPlace { fault: f, place: t },
    }
}

// walk_step::next.
#[unsafe(no_mangle)]
pub extern "C" fn bezinkwolu_walk_next(contour: &[i32], w: Place) -> ToldStep
    ensures { result ≡ told_stepped (stepped_of contour.now w) }
{
    let answer = walk_step::next(contour, w);
    match answer {
        Stepped::Edge(e, t) => ToldStep {
            fault: 0,
            x: e.x,
            y: e.y,
            place: t,
        },
        Stepped::Refused(f, t) => ToldStep {
            fault: f,
            x: 0,
            y: 0,
            place: t,
        },
    }
}

// A pair begun, as it is told.
fn told_pair(answer: Paired) -> ToldPair
    ensures { result ≡ told_paired answer }
{
    match answer {
        Paired::At(s) => ToldPair {
            fault: 0,
            places: s,
        },
        Paired::Refused(f) => ToldPair {
            fault: f,
            places: ConvexSum {
                a: nowhere(),
                b: nowhere(),
            },
        },
    }
}

// walk_pair::new.
#[unsafe(no_mangle)]
pub extern "C" fn bezinkwolu_pair_new(left: &[i32], right: &[i32]) -> ToldPair
    ensures { result ≡ told_paired (paired_of false left.now right.now) }
{
    told_pair(walk_pair::new(left, right))
}

// walk_pair::difference.
#[unsafe(no_mangle)]
pub extern "C" fn bezinkwolu_pair_difference(left: &[i32], right: &[i32]) -> ToldPair
    ensures { result ≡ told_paired (paired_of true left.now right.now) }
{
    told_pair(walk_pair::difference(left, right))
}

// walk_next::next.
#[unsafe(no_mangle)]
pub extern "C" fn bezinkwolu_pair_next(left: &[i32], right: &[i32], s: ConvexSum) -> ToldNext
    ensures { result ≡ told_next (pair_stepped_of left.now right.now s) }
{
    let answer = walk_next::next(left, right, s);
    match answer {
        Next::Corner(p, t) => ToldNext {
            fault: 0,
            corners: 1,
            x: p.x,
            y: p.y,
            places: t,
        },
        Next::End(t) => ToldNext {
            fault: 0,
            corners: 0,
            x: 0,
            y: 0,
            places: t,
        },
        Next::Refused(f, t) => ToldNext {
            fault: f,
            corners: 0,
            x: 0,
            y: 0,
            places: t,
        },
    }
}
