// The numbers of an area listing: a part's doubled area (`part_area`), the total of all parts
// (`total_area`) and a part's share of it (`share`), each equal to listing's definition, of a part
// table that can be listed (`Listable`, specs/Areas.antt). Linear in the corners. Leans on
// wide_divide, wide, walk_read and table_shown (a corner and a part of lent numbers) and plane.
#![tactic(auto)]

ghost use Rattle.std.specs.Prelude.{◌≡◌, ◌+◌, ◌<◌, ◌≤◌, false, [], length, slice_index_or};
ghost use Rattle.plane.specs.Plane.{area_two};
ghost use Rattle.plane.specs.Machine.{CrossSize};
ghost use Rattle.corners.specs.Corners.{points_of, off_range};
ghost use Rattle.table.specs.Table.{table_parts, part_count};
ghost use Rattle.pair.specs.Walk.{corner_at};
ghost use Rattle.listing.specs.Listing.{area_of, total_area, share_of};
ghost use Rattle.listing_areas.specs.Areas.{Measurable, Listable};

// A share is in ten-thousandths of the total.
pub const SHARES: u32 = 10000;

// The doubled area of the triangle of the first corner, corner i and the one after it.
fn wedge(corners: &[i32], i: usize) -> i64
    requires { (off_range corners.now ≡ false) × (i + 1 < length (points_of corners.now)) }
    ensures { let part = points_of corners.now in
        (result ≡ area_two (corner_at part 0) (corner_at part i) (corner_at part (i + 1))) × CrossSize result }
{
    let first = corners::corner_at(corners, 0);
    let a = corners::corner_at(corners, i);
    let b = corners::corner_at(corners, i + 1);
    plane::area_two(first, a, b)
}

// The doubled area of a contour that runs counter-clockwise: its wedges at the first corner, added
// so that they wrap. A sum on the way may leave 64 bits, but the last does not, so it is exact.
pub fn part_area(corners: &[i32]) -> u64
    requires { Measurable corners.now }
    ensures { result ≡ area_of (points_of corners.now) }
{
    let n = corners::corner_count(corners);
    let mut total: u64 = 0;
    for i in 1..n.saturating_sub(1) {
        total = total.wrapping_add_signed(wedge(corners, i));
    }
    total
}

// The doubled area of part k.
fn area_at(starts: &[u32], corners: &[i32], k: usize) -> u64
    requires { Listable starts.now corners.now × (k < part_count starts.now) }
    ensures { result ≡ area_of (slice_index_or (table_parts starts.now corners.now) k []) }
{
    part_area(table_shown::part_of(starts, corners, k))
}

// The doubled areas of all parts, added.
pub fn total_area(starts: &[u32], corners: &[i32]) -> u64
    requires { Listable starts.now corners.now }
    ensures { result ≡ total_area (table_parts starts.now corners.now) }
{
    let parts = starts.len() - 1;
    let mut total: u64 = 0;
    for k in 0..parts {
        total += area_at(starts, corners, k);
    }
    total
}

// An area's share of the total, rounded down: the product has two words, its quotient one.
pub fn share(area: u64, total: u64) -> u64
    requires { (area ≤ total) × (0 < total) }
    ensures { result ≡ share_of total area }
{
    let product = wide::multiply_words(area, SHARES);
    let divided = wide_divide::divide(product.high, product.low, total);
    divided.quotient
}
