// A drawing's path (document 02, P1): its items, and what one item does. `judge_item` judges an
// item at the point where the path stands, `told` says what all of them come to, and `write_item`
// writes the corner that an item reaches. The paper's definitions are in specs/Path.antt (points
// reached, grid coordinates, faults, the answer), those that follow the code in specs/Judging.antt
// and Writing.antt; proofs/ shows that they say the same, and what is sure of an accepted path
// (specs/Accepted.antt). The calls over whole paths are path_import's and boundary_path's. Leans on
// grid, corners and table.
#![tactic(auto)]

ghost use Rattle.std.specs.Prelude.{◌≡◌, true, cond, ◌<◌, T, length};
ghost use Rattle.plane.specs.Machine.{point};
ghost use Rattle.corners.specs.Corners.{points_of, with_corner};
ghost use Rattle.path.specs.Path.{reach as reach_of, initial_point as initial_point_of, framed as framed_of, is_within, is_on_grid, corner_of};
ghost use Rattle.path.specs.Judging.{moved as moved_of, drawn as drawn_of, ended as ended_of, is_closed, judge_item, begun as begun_of, broken as broken_of, closed as closed_of, judged_counts, standing};

use plane::IntPoint;

// An item with the millimetres that it carries, after W3C SVG 2.
#[derive(Clone, Copy)]
pub enum PathItem {
    Move(f64, f64),
    Line(f64, f64),
    Horizontal(f64),
    Vertical(f64),
    RelativeLine(f64, f64),
    Close,
}

// An origin in millimetres, and how many steps there are to a millimetre.
#[repr(C)]
#[derive(Clone, Copy)]
pub struct Frame {
    pub x: f64,
    pub y: f64,
    pub steps: f64,
}

// A current point, in millimetres.
#[derive(Clone, Copy)]
pub struct Point {
    pub x: f64,
    pub y: f64,
}

// How far a path has come: before its move, behind it, behind its close, or out of order.
#[derive(Clone, Copy)]
pub enum Stage {
    Opening,
    Inside,
    Closed,
    Broken,
}

// What is known of a path up to some item: its stage, which is `Broken` too where a point lies past
// the range, whether a grid coordinate is out of range, and the point reached.
#[derive(Clone, Copy)]
pub struct Judged {
    pub stage: Stage,
    pub off: bool,
    pub at: Point,
}

// A fault number, 0 for none, and how many corners there are, 0 where the path is refused.
#[repr(C)]
#[derive(Clone, Copy)]
pub struct PathCounts {
    pub fault: u32,
    pub corners: u32,
}

// The point that an item reaches from `at`.
pub fn reach(at: Point, item: PathItem) -> Point
    ensures { result ≡ reach_of at item }
{
    match item {
        PathItem::Move(x, y) | PathItem::Line(x, y) => Point { x, y },
        PathItem::Horizontal(x) => Point { x, y: at.y },
        PathItem::Vertical(y) => Point { x: at.x, y },
        PathItem::RelativeLine(dx, dy) => Point {
            x: at.x + dx,
            y: at.y + dy,
        },
        PathItem::Close => at,
    }
}

// The stage behind a move.
fn moved(stage: Stage) -> Stage
    ensures { result ≡ moved_of stage }
{
    match stage {
        Stage::Opening => Stage::Inside,
        Stage::Inside | Stage::Closed | Stage::Broken => Stage::Broken,
    }
}

// The stage behind a line of any kind.
fn drawn(stage: Stage) -> Stage
    ensures { result ≡ drawn_of stage }
{
    match stage {
        Stage::Inside => Stage::Inside,
        Stage::Opening | Stage::Closed | Stage::Broken => Stage::Broken,
    }
}

// The stage behind a close.
fn ended(stage: Stage) -> Stage
    ensures { result ≡ ended_of stage }
{
    match stage {
        Stage::Inside => Stage::Closed,
        Stage::Opening | Stage::Closed | Stage::Broken => Stage::Broken,
    }
}

// Whether both coordinates of a point lie within the range.
pub fn is_within(at: Point) -> bool
    ensures { result ≡ is_within at }
{
    grid::within_range(at.x) && grid::within_range(at.y)
}

// Whether both grid coordinates of a point are in range.
fn is_on_grid(frame: Frame, at: Point) -> bool
    ensures { result ≡ is_on_grid frame at }
{
    grid::on_grid(grid::scaled(at.x, frame.x, frame.steps))
        && grid::on_grid(grid::scaled(at.y, frame.y, frame.steps))
}

// The stage where a point is within the range, and else out of order.
fn stage_if(near: bool, stage: Stage) -> Stage
    ensures { result ≡ cond near stage Stage.Broken }
{
    if near { stage } else { Stage::Broken }
}

// Whether a coordinate is out of range, at this point or before.
pub fn off_so_far(frame: Frame, off: bool, at: Point) -> bool
    ensures { result ≡ cond (is_on_grid frame at) off true }
{
    off || !is_on_grid(frame, at)
}

// At a point, in a stage, with or without a coordinate out of range before.
fn stand(frame: Frame, off: bool, stage: Stage, at: Point) -> Judged
    ensures { result ≡ standing frame off stage at }
{
    Judged {
        stage: stage_if(is_within(at), stage),
        off: off_so_far(frame, off, at),
        at,
    }
}

// Where a path stands before its move, which reaches its own point from anywhere.
pub fn initial_point() -> Point
    ensures { result ≡ initial_point_of }
{
    Point { x: 0.0, y: 0.0 }
}

// In a stage, with or without a coordinate out of range, at the first point.
fn staged(stage: Stage, off: bool) -> Judged
    ensures { result ≡ record { stage = stage; off = off; at = initial_point_of } }
{
    Judged {
        stage,
        off,
        at: initial_point(),
    }
}

// Before the first item.
pub fn begun() -> Judged
    ensures { result ≡ begun_of }
{
    staged(Stage::Opening, false)
}

// Of a path out of order.
pub fn broken() -> Judged
    ensures { result ≡ broken_of }
{
    staged(Stage::Broken, false)
}

// Of a path in order, with or without a coordinate out of range.
pub fn closed(off: bool) -> Judged
    ensures { result ≡ closed_of off }
{
    staged(Stage::Closed, off)
}

// Behind one item more.
pub fn judge_item(frame: Frame, judged: Judged, item: PathItem) -> Judged
    ensures { result ≡ judge_item frame judged item }
{
    let Judged { stage, off, at } = judged;
    match item {
        PathItem::Move(..) => stand(frame, off, moved(stage), reach(at, item)),
        PathItem::Line(..)
        | PathItem::Horizontal(_)
        | PathItem::Vertical(_)
        | PathItem::RelativeLine(..) => stand(frame, off, drawn(stage), reach(at, item)),
        PathItem::Close => Judged {
            stage: ended(stage),
            off,
            at,
        },
    }
}

// Whether a frame's step count is one and its origin is of finite numbers.
fn framed(frame: Frame) -> bool
    ensures { result ≡ framed_of frame }
{
    grid::is_step_count(frame.steps) && grid::is_finite(frame.x) && grid::is_finite(frame.y)
}

// A refusal: its number and no corners.
fn refusal(fault: u32) -> PathCounts
    ensures { result ≡ record { fault = fault; corners = 0 } }
{
    PathCounts { fault, corners: 0 }
}

// Whether a path ended with its close.
fn is_closed(stage: Stage) -> bool
    ensures { result ≡ is_closed stage }
{
    matches!(stage, Stage::Closed)
}

// What is told of a path of so many items that was judged, for the corners that are lent: the first
// of 14, 7, 2 and 21, or how many corners it has, one for each item but the close.
pub fn told(frame: Frame, judged: Judged, items: usize, corners: &[i32]) -> PathCounts
    ensures { result ≡ judged_counts frame judged items (length corners.now) }
{
    if !framed(frame) {
        return refusal(integers::fault::PATH);
    }
    if !is_closed(judged.stage) {
        return refusal(integers::fault::PATH);
    }
    if items == 0 {
        return refusal(integers::fault::PATH);
    }
    let count = items - 1;
    if count > table::MAX_CONTOUR {
        return refusal(integers::fault::RULES);
    }
    if judged.off {
        return refusal(integers::fault::RANGE);
    }
    if corners::corner_count(corners) < count {
        return refusal(integers::fault::CORNER_ROOM);
    }
    PathCounts {
        fault: 0,
        corners: count as u32,
    }
}

// How many corners are told.
pub fn corners_told(counts: PathCounts) -> usize
    ensures { result ≡ counts.corners }
{
    counts.corners as usize
}

// The corner at a point.
fn corner(frame: Frame, at: Point) -> IntPoint
    requires { T (is_on_grid frame at) }
    ensures { point result ≡ corner_of frame at }
{
    IntPoint {
        x: grid::nearest(grid::scaled(at.x, frame.x, frame.steps)),
        y: grid::nearest(grid::scaled(at.y, frame.y, frame.steps)),
    }
}

// The corner at a point, put at place k.
pub fn write_corner(frame: Frame, at: Point, k: usize, corners: &mut [i32])
    requires { T (is_on_grid frame at) × (k < length (points_of corners.old)) }
    ensures { corners.new ≡ with_corner corners.old k (corner_of frame at) }
{
    corners::put_corner(corners, k, corner(frame, at));
}

// The point that an item reaches, with its corner put at place k.
pub fn write_item(frame: Frame, at: Point, item: PathItem, k: usize, corners: &mut [i32]) -> Point
    requires { T (is_on_grid frame (reach_of at item)) × (k < length (points_of corners.old)) }
    ensures { (result ≡ reach_of at item)
        × (corners.new ≡ with_corner corners.old k (corner_of frame (reach_of at item))) }
{
    let to = reach(at, item);
    write_corner(frame, to, k, corners);
    to
}
