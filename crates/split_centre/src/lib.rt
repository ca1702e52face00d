// The area centroid of a contour, rounded to the grid, and whether it serves as the centre of a
// split: geom/centroid.rs and its use in advanced/convex.rs. `centre_of` answers what
// `centre_found` says of a contour whose sums fit (`Summable`, specs/Centre.antt); that the
// divisions are in range and the centre is on the grid is proved, where the Rust tests it. Leans on
// wide_divide, wide, points (a corner of a buffer) and plane.
#![tactic(auto)]

ghost use Rattle.std.specs.Prelude.{◌≡◌, map, true, ◌*◌, ◌^◌, ◌≤◌, ◌<◌, length, pos, nat_abs, ◌+ℤ◌, ◌*ℤ◌};
ghost use Rattle.std.specs.Int.Signed.{le_z};
ghost use Rattle.integers.specs.Lists.{neighbours};
ghost use Rattle.plane.specs.Plane.{cross};
ghost use Rattle.plane.specs.Machine.{Extent, CrossSize, OnGrid, Short, point, vector};
ghost use Rattle.wide.specs.Words.{value};
ghost use Rattle.points.specs.Points.{corner_of, Grid};
ghost use Rattle.split.specs.Splitting.{rounded, left_of_all};
ghost use Rattle.split_centre.specs.Centre.{Summable, Roomy, Added, Summed, Placed, centroid_found, centre_found};

use plane::{IntPoint, IntVector};
use wide::{SignedProduct, Words};

// Sums over a contour's edges a b, seen from its first corner: of a × b, and of (a + b) (a × b) by
// coordinate.
#[derive(Clone, Copy)]
pub struct Sums {
    pub area: i64,
    pub x: SignedProduct,
    pub y: SignedProduct,
}

// The greatest doubled area that three times fits 63 bits (document 01: "or the doubled area
// exceeds 3,074,457,345,618,258,602").
pub const MAX_CENTROID_AREA: i64 = 3074457345618258602;

// sum + (a + b) * cross.
fn add_moment(sum: SignedProduct, a: i64, b: i64, cross: i64) -> SignedProduct
    requires { (sum.words.high < 2 ^ 62) × Extent a × Extent b × CrossSize cross }
    ensures { value result ≡ value sum +ℤ (a +ℤ b) *ℤ cross }
{
    wide::add(sum, wide::multiply(cross, a + b))
}

// The sums with the edge a b.
fn add_edge(s: Sums, a: IntVector, b: IntVector) -> Sums
    requires { Roomy s (cross (vector a) (vector b)) × Short a × Short b }
    ensures { Added s (vector a) (vector b) result }
{
    let cross = plane::cross_product(a, b);
    Sums {
        area: s.area + cross,
        x: add_moment(s.x, a.x, b.x, cross),
        y: add_moment(s.y, a.y, b.y, cross),
    }
}

// The sums of a contour. The edges at the first corner add nothing, so its wedges alone are gone
// through.
fn sums_of(contour: &[[i32; 2]]) -> Sums
    requires { Summable (map corner_of contour.now) × (3 ≤ length contour.now) }
    ensures { Summed (map corner_of contour.now) result }
{
    let origin = points::point_at(contour, 0);
    let none = SignedProduct {
        negative: false,
        words: Words { high: 0, low: 0 },
    };
    let mut s = Sums {
        area: 0,
        x: none,
        y: none,
    };
    let mut a = plane::subtract(points::point_at(contour, 1), origin);
    for i in 2..contour.len() {
        let b = plane::subtract(points::point_at(contour, i), origin);
        s = add_edge(s, a, b);
        a = b;
    }
    s
}

// A sum over d to nearest, halves away from zero.
fn rounded_quotient(sum: SignedProduct, d: u64) -> i64
    requires { (sum.words.high < d) × Extent (rounded (value sum) d) }
    ensures { result ≡ rounded (value sum) d }
{
    let Words { high, low } = sum.words;
    let size = wide_divide::divide_with_rounding(high, low, d) as i64;
    if sum.negative { -size } else { size }
}

// A coordinate of the centre: z, and a sum over d to nearest.
fn centred(z: i32, sum: SignedProduct, d: u64) -> i32
    requires { Placed z sum d }
    ensures { result ≡ z +ℤ rounded (value sum) d }
{
    z + (rounded_quotient(sum, d) as i32)
}

// Three times a doubled area.
fn tripled(area: i64) -> u64
    requires { (le_z (pos 0) area ≡ true) × (le_z area (pos 3074457345618258602) ≡ true) }
    ensures { result ≡ 3 * nat_abs area }
{
    3 * area.unsigned_abs()
}

// The area centroid, to nearest from the first corner, where three times the doubled area fits 63
// bits.
pub fn polygon_centroid(contour: &[[i32; 2]]) -> Option<IntPoint>
    requires { Summable (map corner_of contour.now) × (3 ≤ length contour.now) }
    ensures { result ≡ centroid_found (map corner_of contour.now) }
{
    let s = sums_of(contour);
    if s.area > MAX_CENTROID_AREA {
        return None;
    }
    let origin = points::point_at(contour, 0);
    let d = tripled(s.area);
    Some(IntPoint {
        x: centred(origin.x, s.x, d),
        y: centred(origin.y, s.y, d),
    })
}

// Whether g lies strictly to the left of each edge.
fn strictly_inside(contour: &[[i32; 2]], g: IntPoint) -> bool
    requires { Grid contour.now × OnGrid g × (3 ≤ length contour.now) }
    ensures { result ≡ left_of_all (point g) (neighbours (map corner_of contour.now)) }
{
    let mut a = points::point_at(contour, 0);
    for i in 1..contour.len() {
        let b = points::point_at(contour, i);
        if plane::area_two(a, b, g) <= 0 {
            return false;
        }
        a = b;
    }
    plane::area_two(a, points::point_at(contour, 0), g) > 0
}

// The centre to split a contour about, where it lies strictly inside.
pub fn centre_of(contour: &[[i32; 2]]) -> Option<IntPoint>
    requires { Summable (map corner_of contour.now) × (3 ≤ length contour.now) }
    ensures { result ≡ centre_found (map corner_of contour.now) }
{
    let Some(g) = polygon_centroid(contour) else {
        return None;
    };
    if strictly_inside(contour, g) {
        Some(g)
    } else {
        None
    }
}
