// Where boxes are to stand: what is below a box under its middle, and beside one another as close as outlines allow.
use std::alloc::{AllocError, Global};

// Sizes in pixels: between neighbours, between trees, and at the picture's edge.
const GAP: i64 = 12;

const BETWEEN: i64 = 60;

const MARGIN: i64 = 10;

/// A box that hangs below another one.
#[derive(Clone, Copy)]
struct Hanging {
    width: usize,
    /// The box right above it.
    above: Option<usize>,
    /// How many boxes are right below it.
    below: usize,
    /// Where its middle is.
    middle: i64,
    /// How far what is below it is moved to the right.
    shift: i64,
}

/// Where the first box of a row begins, and where the last one ends.
#[derive(Clone, Copy)]
struct Ends {
    left: i64,
    right: i64,
}

/// The outline of boxes that hang together, the lowest row first. All of it is to be moved to the right by the shift.
#[derive(Drop)]
struct Outline {
    rows: Vec<Ends>,
    shift: i64,
    /// The first box of the top row.
    top: usize,
}

impl Outline {
    /// The ends of a row, counted from the top.
    fn ends(&self, row: usize) -> Option<Ends> {
        let place = self.rows.len().checked_sub(row)?.checked_sub(1)?;
        let ends = self.rows.get(place)?;
        Some(Ends {
            left: ends.left.saturating_add(self.shift),
            right: ends.right.saturating_add(self.shift),
        })
    }

    /// Sets the ends of a row, counted from the top.
    fn set_ends(&mut self, row: usize, ends: Ends) {
        let shift = self.shift;
        let Some(place) = self.rows.len().checked_sub(row) else {
            return;
        };
        let Some(place) = place.checked_sub(1) else {
            return;
        };
        if let Some(old) = self.rows.get_mut(place) {
            old.left = ends.left.saturating_sub(shift);
            old.right = ends.right.saturating_sub(shift);
        }
    }
}

/// How far the second is to be moved so that in no row it begins before the first one ends and the gap after it.
fn distance(first: &Outline, second: &Outline, gap: i64) -> i64 {
    let shared = first.rows.len().min(second.rows.len());
    let mut distance = 0i64;
    for row in 0..shared {
        if let (Some(a), Some(b)) = (first.ends(row), second.ends(row)) {
            let needed = a.right.saturating_sub(b.left).saturating_add(gap);
            distance = distance.max(needed);
        }
    }
    distance
}

/// One outline around two that stand beside each other. The longer one is kept, and changed where the other one has rows.
fn joined(first: Outline, second: Outline) -> Outline {
    let mut first = first;
    let mut second = second;
    let shared = first.rows.len().min(second.rows.len());
    let keeps_first = first.rows.len() >= second.rows.len();
    for row in 0..shared {
        if let (Some(a), Some(b)) = (first.ends(row), second.ends(row)) {
            let ends = Ends {
                left: a.left,
                right: b.right,
            };
            if keeps_first {
                first.set_ends(row, ends);
            } else {
                second.set_ends(row, ends);
            }
        }
    }
    if keeps_first {
        drop(second);
        first
    } else {
        drop(first);
        second
    }
}

/// Moves an outline to the right, and tells its top box.
fn move_right(outline: &mut Outline, by: i64, boxes: &mut [Hanging]) {
    outline.shift = outline.shift.saturating_add(by);
    if let Some(hanging) = boxes.get_mut(outline.top) {
        hanging.middle = by;
    }
}

/// The outline around the newest ones, so many, and how far the last of them was moved.
fn outline_below(
    count: usize,
    gap: i64,
    waiting: &mut Vec<Outline>,
    boxes: &mut [Hanging],
) -> Option<(Outline, i64)> {
    let mut all = waiting.pop()?;
    let mut moved = 0i64;
    for _k in 1..count {
        let Some(mut next) = waiting.pop() else {
            break;
        };
        moved = distance(&all, &next, gap);
        move_right(&mut next, moved, boxes);
        all = joined(all, next);
    }
    Some((all, moved))
}

/// The outline of a box and all that is below it, whose outline is this one. Its middle is 0.
fn outline_of(
    alloc: Global,
    i: usize,
    hanging: &mut Hanging,
    below: Option<(Outline, i64)>,
) -> Result<Outline, AllocError> {
    let (mut outline, moved) = match below {
        Some(pair) => pair,
        None => (
            Outline {
                rows: Vec::new(alloc),
                shift: 0,
                top: i,
            },
            0,
        ),
    };
    let middle = moved / 2;
    hanging.shift = middle.saturating_neg();
    outline.shift = outline.shift.saturating_sub(middle);
    outline.top = i;
    let half = i64::try_from(hanging.width / 2).unwrap_or(i64::MAX);
    let left = half.saturating_neg().saturating_sub(outline.shift);
    let right = half.saturating_sub(outline.shift);
    outline.rows.push(Ends { left, right })?;
    Ok(outline)
}

/// Tells each box how far it is from what is above it.
fn set_distances(alloc: Global, boxes: &mut [Hanging]) -> Result<(), AllocError> {
    let mut waiting: Vec<Outline> = Vec::new(alloc);
    for i in (0..boxes.len()).rev() {
        let count = match boxes.get(i) {
            Some(hanging) => hanging.below,
            None => 0,
        };
        let below = if count > 0 {
            outline_below(count, GAP, &mut waiting, boxes)
        } else {
            None
        };
        if let Some(hanging) = boxes.get_mut(i) {
            waiting.push(outline_of(alloc, i, hanging, below)?)?;
        }
    }
    let trees = waiting.len();
    let _all = outline_below(trees, BETWEEN, &mut waiting, boxes);
    Ok(())
}

/// Where a box's middle is, by that of what is above it.
fn middle_of(hanging: &Hanging, boxes: &[Hanging]) -> i64 {
    let Some(above) = hanging.above else {
        return hanging.middle;
    };
    match boxes.get(above) {
        Some(above) => above
            .middle
            .saturating_add(above.shift)
            .saturating_add(hanging.middle),
        None => hanging.middle,
    }
}

/// Where a box begins.
fn left_of(hanging: &Hanging) -> i64 {
    let half = i64::try_from(hanging.width / 2).unwrap_or(i64::MAX);
    hanging.middle.saturating_sub(half)
}

/// Counts a box below another one.
fn count_below(above: Option<usize>, boxes: &mut [Hanging]) {
    let Some(above) = above else {
        return;
    };
    if let Some(hanging) = boxes.get_mut(above) {
        hanging.below = hanging.below.saturating_add(1);
    }
}

/// Boxes of these widths, below these, where their neighbours are not yet known.
fn hung(
    alloc: Global,
    widths: &[usize],
    aboves: &[Option<usize>],
) -> Result<Vec<Hanging>, AllocError> {
    let mut boxes = Vec::new(alloc);
    for (i, width) in widths.iter().enumerate() {
        let above = aboves.get(i).copied().flatten();
        count_below(above, &mut boxes);
        boxes.push(Hanging {
            width: *width,
            above,
            below: 0,
            middle: 0,
            shift: 0,
        })?;
    }
    Ok(boxes)
}

/// Sets where each middle is, and tells where the first box begins, if that is left of 0.
fn set_middles(boxes: &mut [Hanging]) -> i64 {
    let mut least = 0i64;
    for i in 0..boxes.len() {
        let Some(hanging) = boxes.get(i) else { break };
        let middle = middle_of(hanging, boxes);
        if let Some(hanging) = boxes.get_mut(i) {
            hanging.middle = middle;
            least = least.min(left_of(hanging));
        }
    }
    least
}

/// Where boxes of these widths, below these, are to begin, from a margin on.
pub(crate) fn lefts_of(
    alloc: Global,
    widths: &[usize],
    aboves: &[Option<usize>],
) -> Result<Vec<u64>, AllocError> {
    let mut boxes = hung(alloc, widths, aboves)?;
    set_distances(alloc, &mut boxes)?;
    let least = set_middles(&mut boxes);
    let mut lefts = Vec::new(alloc);
    for hanging in &boxes {
        let left = left_of(hanging)
            .saturating_sub(least)
            .saturating_add(MARGIN);
        lefts.push(u64::try_from(left).unwrap_or(0))?;
    }
    Ok(lefts)
}
