// Doubled areas of any starts and corners that neither 7 nor 2 is told of: of a contour
// (`contour_area`), of contour k (`area_at`) and of all (`total_area`), each exactly as the
// shoelace formula has it, whichever way the contours run. A sum may leave 64 bits, so it has two
// words and a sign. One pass over the corners. Leans on wide, placement (what such starts are),
// corners, table and plane.
#![tactic(auto)]

ghost use Rattle.std.specs.Prelude.{◌≡◌, false, [], ◌+◌, ◌-◌, ◌^◌, ◌<◌, length, get_or, ◌+ℤ◌};
ghost use Rattle.plane.specs.Plane.{cross};
ghost use Rattle.plane.specs.Contour.{contour_area};
ghost use Rattle.plane.specs.Machine.{CrossSize};
ghost use Rattle.wide.specs.Words.{value};
ghost use Rattle.table.specs.Table.{table_parts, part_count};
ghost use Rattle.corners.specs.Corners.{points_of, off_range};
ghost use Rattle.pair.specs.Walk.{corner_at};
ghost use Rattle.placement.specs.Placement.{EdgeAt, Placeable};
ghost use Rattle.table_areas.specs.Areas.{total_area, Terms};

use corners::{corner_at, corner_count};
use plane::IntPoint;
use wide::{SignedProduct, Words};

// A number in two words.
fn widened(z: i64) -> SignedProduct
    requires { CrossSize z }
    ensures { (value result ≡ z) × (result.words.high ≡ 0) }
{
    SignedProduct {
        negative: z < 0,
        words: Words {
            high: 0,
            low: wide::absolute(z),
        },
    }
}

// total + term.
fn add_term(total: SignedProduct, term: i64) -> SignedProduct
    requires { (total.words.high < 2 ^ 63) × CrossSize term }
    ensures { value result ≡ value total +ℤ term }
{
    wide::add(total, widened(term))
}

// The cross of corners i and k.
fn cross_at(contour: &[i32], i: usize, k: usize) -> i64
    requires { EdgeAt contour.now i k }
    ensures { (result ≡ cross (corner_at (points_of contour.now) i) (corner_at (points_of contour.now) k)) × CrossSize result }
{
    plane::area_two(
        IntPoint { x: 0, y: 0 },
        corner_at(contour, i),
        corner_at(contour, k),
    )
}

// The doubled area of a contour: the crosses of neighbouring corners, added.
pub fn contour_area(contour: &[i32]) -> SignedProduct
    requires { off_range contour.now ≡ false }
    ensures sum { value result ≡ contour_area (points_of contour.now) }
    ensures size { Terms (length (points_of contour.now)) result }
{
    let n = corner_count(contour);
    let mut total = SignedProduct {
        negative: false,
        words: Words { high: 0, low: 0 },
    };
    if n == 0 {
        return total;
    }
    let mut i = n - 1;
    for k in 0..n {
        total = add_term(total, cross_at(contour, i, k));
        i = k;
    }
    total
}

// The doubled area of contour k.
pub fn area_at(starts: &[u32], corners: &[i32], k: usize) -> SignedProduct
    requires { Placeable starts.now corners.now × (k < part_count starts.now) }
    ensures sum { value result ≡ contour_area (get_or (table_parts starts.now corners.now) k []) }
    ensures size { Terms (get_or starts.now (k + 1) 0 - get_or starts.now k 0) result }
{
    let from = starts[k] as usize;
    let to = starts[k + 1] as usize;
    contour_area(corners::part(corners, from, to))
}

// The doubled areas of all contours, added.
pub fn total_area(starts: &[u32], corners: &[i32]) -> SignedProduct
    requires { Placeable starts.now corners.now }
    ensures { value result ≡ total_area (table_parts starts.now corners.now) }
{
    let parts = starts.len() - 1;
    let mut total = SignedProduct {
        negative: false,
        words: Words { high: 0, low: 0 },
    };
    for k in 0..parts {
        total = wide::add(total, area_at(starts, corners, k));
    }
    total
}
