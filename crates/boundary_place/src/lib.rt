// Where a place lies by the contours of a pair result, exported to C for the package (./package)
// and the runs beside the judge (oracle/beside): one thin function, with no `requires`, whose
// answer is the call's, laid out for C (specs/Told.antt). Leans on placement.
#![tactic(auto)]

ghost use Rattle.std.specs.Prelude.{◌≡◌};
ghost use Rattle.placement.specs.Placement.{contact_number, placed_of};
ghost use Rattle.boundary_place.specs.Told.{told_placed};

use placement::{Contact, Placed};

// The fault number, 0 for none, and 0 apart, 1 touching, 2 overlapping; 0 where there is a fault.
#[repr(C)]
#[derive(Clone, Copy)]
pub struct ToldPlacement {
    pub fault: u32,
    pub placement: u32,
}

// A placement's number.
fn contact_number(p: Contact) -> u32
    ensures { result ≡ contact_number p }
{
    match p {
        Contact::Apart => 0,
        Contact::Touching => 1,
        Contact::Overlapping => 2,
    }
}

// placement::placement.
#[unsafe(no_mangle)]
pub extern "C" fn bezinkwolu_placement(
    starts: &[u32],
    corners: &[i32],
    x: i32,
    y: i32,
) -> ToldPlacement
    ensures { result ≡ told_placed (placed_of starts.now corners.now (record { x = x; y = y })) }
{
    let answer = placement::placement(starts, corners, x, y);
    match answer {
        Placed::At(p) => ToldPlacement {
            fault: 0,
            placement: contact_number(p),
        },
        Placed::Refused(f) => ToldPlacement {
            fault: f,
            placement: 0,
        },
    }
}
