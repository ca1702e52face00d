// What walk_held promises, to C.
ghost use Rattle.std.specs.Prelude.{◌≡◌};
ghost use Rattle.walk.specs.Calls.{step_fault};
ghost use Rattle.walk.specs.Clauses.{MovedBy};
ghost use Rattle.walk_held.specs.Held.{BegunPlace};

use pair::Place;

// Where a walk begins, nowhere where it is refused, and the fault number in `fault`.
#[unsafe(no_mangle)]
pub extern "C" fn begun(contour: &[i32], reflected: bool, fault: &mut u32) -> Place
    ensures { BegunPlace contour.now reflected fault.new result }
{
    walk_held::begun(contour, reflected, fault)
}

// Where a walk stands one step on, or as it came where it is refused, and the fault number in
// `fault`.
#[unsafe(no_mangle)]
pub extern "C" fn advanced(contour: &[i32], place: Place, fault: &mut u32) -> Place
    ensures { (fault.new ≡ step_fault contour.now place) × MovedBy contour.now place result }
{
    walk_held::advanced(contour, place, fault)
}
