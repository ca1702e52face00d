// The text of an area listing (document 01, "The file and its listing"), put into lent bytes:
// `put_listing` leaves exactly listing's `listing_of` of a part table that can be listed, and every
// byte past it as it was; the caller has shown that there is room. The total is added up once, and
// each part's area once for its line. Leans on listing_areas, text, table_shown and corners.
#![tactic(auto)]

ghost use Rattle.std.specs.Prelude.{[], ◌≤◌, length, get_or};
ghost use Rattle.corners.specs.Corners.{points_of};
ghost use Rattle.table.specs.Table.{table_parts};
ghost use Rattle.text.specs.Put.{PutText};
ghost use Rattle.listing.specs.Listing.{head_line, part_line, listing_of};
ghost use Rattle.listing_areas.specs.Areas.{Listable};
ghost use Rattle.listing_lines.specs.Lines.{HeadRoom, PartRoom, LineRoom};

// The first line, of the counts and the total.
fn put_head(starts: &[u32], corners: &[i32], total: u64, out: &mut [u8]) -> usize
    requires { HeadRoom starts.now corners.now total out.old }
    ensures { PutText (head_line (table_parts starts.now corners.now)) 0 out.old out.new result }
{
    let count = corners::corner_count(corners);
    let parts = text::put_word_decimal(b"parts ", (starts.len() - 1) as u64, out, 0);
    let counted = text::put_word_decimal(b" corners ", count as u64, out, parts);
    let area = text::put_word_decimal(b" area2 ", total, out, counted);
    text::put_bytes(b"\n", out, area)
}

// The line of part number k, whose corners are `part`.
fn put_part(k: u64, part: &[i32], total: u64, out: &mut [u8], at: usize) -> usize
    requires { PartRoom k part.now total out.old at }
    ensures { PutText (part_line total k (points_of part.now)) at out.old out.new result }
{
    let count = corners::corner_count(part);
    let area = listing_areas::part_area(part);
    let share = listing_areas::share(area, total);
    let number = text::put_decimal(k, out, at);
    let counted = text::put_word_decimal(b" ", count as u64, out, number);
    let size = text::put_word_decimal(b" ", area, out, counted);
    let shown = text::put_word_decimal(b" ", share, out, size);
    let last = text::put_corners(part, out, shown);
    text::put_bytes(b"\n", out, last)
}

// The line of part k of the table.
fn put_line(
    starts: &[u32],
    corners: &[i32],
    k: usize,
    total: u64,
    out: &mut [u8],
    at: usize,
) -> usize
    requires { LineRoom starts.now corners.now k total out.old at }
    ensures { let part = get_or (table_parts starts.now corners.now) k [] in
        PutText (part_line total k part) at out.old out.new result }
{
    let part = table_shown::part_of(starts, corners, k);
    put_part(k as u64, part, total, out, at)
}

// The whole listing; answers how many bytes it has.
pub fn put_listing(starts: &[u32], corners: &[i32], out: &mut [u8]) -> usize
    requires { Listable starts.now corners.now × (length (listing_of (table_parts starts.now corners.now)) ≤ length out.old) }
    ensures { PutText (listing_of (table_parts starts.now corners.now)) 0 out.old out.new result }
{
    let total = listing_areas::total_area(starts, corners);
    let parts = starts.len() - 1;
    let mut at = put_head(starts, corners, total, out);
    for k in 0..parts {
        at = put_line(starts, corners, k, total, out, at);
    }
    at
}
