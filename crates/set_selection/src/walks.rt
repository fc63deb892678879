// What is on an axis of some node of a set, attributes aside: one pass over the nodes for each axis.
ghost use Rattle.std.specs.Prelude.{◌≡◌, length};
ghost use Rattle.set_selection.specs.Sets.{Image, MoreImage, NoMarks};
ghost use Rattle.documents.specs.Columns.{Within, EndsWithin};
ghost use Rattle.set_selection.specs.Walks.{is_under, is_over, is_below, is_above};
ghost use Rattle.set_selection.specs.Walks.{is_after, is_before, is_later, is_earlier};

/// Marks each node whose parent is marked, and no other.
pub fn mark_children(parents: &[u32], marks: &[bool], out: &mut [bool])
    requires within { Within parents.now }
    requires marks { length marks.now ≡ length parents.now }
    requires out { length out.old ≡ length parents.now }
    ensures { Image (is_under parents.now) marks.now out.new }
{
    let mut rooted = false;
    for y in 0..out.len() {
        out[y] = rooted & marks[parents[y] as usize];
        rooted = true;
    }
}

/// Marks the parent of each marked node too.
pub fn mark_parents(parents: &[u32], marks: &[bool], out: &mut [bool])
    requires within { Within parents.now }
    requires marks { length marks.now ≡ length parents.now }
    requires out { length out.old ≡ length parents.now }
    ensures { MoreImage (is_over parents.now) marks.now out.old out.new }
{
    for x in 1..out.len() {
        if marks[x] {
            out[parents[x] as usize] = true;
        }
    }
}

/// Marks each node that is below some marked node, and no other.
pub fn mark_below(ends: &[u32], marks: &[bool], out: &mut [bool])
    requires marks { length marks.now ≡ length ends.now }
    requires out { length out.old ≡ length ends.now }
    ensures { Image (is_below ends.now) marks.now out.new }
{
    let mut reach = 0;
    for y in 0..out.len() {
        out[y] = y < reach;
        if marks[y] {
            reach = reach.max(ends[y] as usize);
        }
    }
}

/// Marks each node that is above some marked node, and no other.
pub fn mark_above(ends: &[u32], marks: &[bool], out: &mut [bool])
    requires within { EndsWithin ends.now }
    requires marks { length marks.now ≡ length ends.now }
    requires out { length out.old ≡ length ends.now }
    ensures { Image (is_above ends.now) marks.now out.new }
{
    let mut next = out.len();
    for y in (0..out.len()).rev() {
        out[y] = next < ends[y] as usize;
        if marks[y] {
            next = y;
        }
    }
}

/// Marks each node after the subtree of some marked node, and no other.
pub fn mark_after(ends: &[u32], marks: &[bool], out: &mut [bool])
    requires marks { length marks.now ≡ length ends.now }
    requires out { length out.old ≡ length ends.now }
    ensures { Image (is_after ends.now) marks.now out.new }
{
    let mut first = out.len();
    for x in 0..marks.len() {
        if marks[x] {
            first = first.min(ends[x] as usize);
        }
    }
    for y in 0..out.len() {
        out[y] = first <= y;
    }
}

/// Marks each node whose subtree ends before some marked node, and no other.
pub fn mark_before(ends: &[u32], marks: &[bool], out: &mut [bool])
    requires marks { length marks.now ≡ length ends.now }
    requires out { length out.old ≡ length ends.now }
    ensures { Image (is_before ends.now) marks.now out.new }
{
    let mut past = 0;
    for x in 0..marks.len() {
        if marks[x] {
            past = x + 1;
        }
    }
    for y in 0..out.len() {
        out[y] = (ends[y] as usize) < past;
    }
}

/// Marks each node with a marked sibling before it, row 0 apart; `seen` is for a mark of each parent.
pub fn mark_later(parents: &[u32], marks: &[bool], seen: &mut [bool], out: &mut [bool])
    requires within { Within parents.now }
    requires marks { length marks.now ≡ length parents.now }
    requires seen { NoMarks seen.old }
    requires seen_size { length seen.old ≡ length parents.now }
    requires out { NoMarks out.old }
    requires out_size { length out.old ≡ length parents.now }
    ensures { Image (is_later parents.now) marks.now out.new }
{
    for y in 1..out.len() {
        let parent = parents[y] as usize;
        out[y] = seen[parent];
        if marks[y] {
            seen[parent] = true;
        }
    }
}

/// Marks each node with a marked sibling after it, row 0 apart.
pub fn mark_earlier(parents: &[u32], marks: &[bool], seen: &mut [bool], out: &mut [bool])
    requires within { Within parents.now }
    requires marks { length marks.now ≡ length parents.now }
    requires seen { NoMarks seen.old }
    requires seen_size { length seen.old ≡ length parents.now }
    requires out { NoMarks out.old }
    requires out_size { length out.old ≡ length parents.now }
    ensures { Image (is_earlier parents.now) marks.now out.new }
{
    for y in (1..out.len()).rev() {
        let parent = parents[y] as usize;
        out[y] = seen[parent];
        if marks[y] {
            seen[parent] = true;
        }
    }
}
