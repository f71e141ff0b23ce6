// The test of well-formedness in one pass over the marks: four largest bytes, which the compiler vectorises.
ghost use Rattle.std.specs.Prelude.{◌-◌, ◌*◌, ◌<◌, ◌≤◌, ◌≡◌, length};
ghost use Rattle.collector.specs.Collector.{bytes_fit, held, least_to, part_length, parts, well_formed};
ghost use Rattle.collector.specs.Shape.{ShapeFits, complete_shape, filled, fits, free, holes, most, partly, shape_of, shape_with};
ghost use Rattle.collector.specs.Stored.{collector_of, well_stored};

use crate::Collector;
use std::cmp::max;

// The mark of a full part.
pub(crate) const FULL: u8 = Collector::PART as u8 + 1;

// Of the indexes i: the largest i + 1 whose part is not empty, the largest PARTS - i whose part is heard and not full,
// the largest mark, the largest PARTS - i that is not heard.
#[derive(Clone, Copy)]
pub(crate) struct Shape {
    top: u8,
    gap: u8,
    most: u8,
    free: u8,
}

fn filled(j: u8, m: u8) -> u8
    ensures { result ≡ filled j m }
{
    if 1 < m { j } else { 0 }
}

fn partly(j: u8, m: u8) -> u8
    ensures { result ≡ partly j m }
{
    if m == 0 {
        return 0;
    }
    if m < FULL { j } else { 0 }
}

fn free(j: u8, m: u8) -> u8
    ensures { result ≡ free j m }
{
    if 0 < m { 0 } else { j }
}

pub(crate) fn shape_of(marks: &[u8; Collector::PARTS]) -> Shape
    ensures { result ≡ shape_of marks.now }
{
    let mut shape = Shape {
        top: 0,
        gap: 0,
        most: 0,
        free: 0,
    };
    for (i, mark) in marks.iter().enumerate() {
        shape = shape_with(shape, i as u8, *mark);
    }
    shape
}

// The largest of some bytes.
fn most(bytes: &[u8]) -> u8
    ensures { result ≡ most bytes.now 0 (length bytes.now) }
{
    let mut most = 0;
    for byte in bytes {
        most = max(most, *byte);
    }
    most
}

fn hole(bytes: &[u8; Collector::CAPACITY], i: usize, mark: u8) -> u8
    requires { i < parts }
    ensures { result ≡ free (most bytes.now (part_length * i) part_length) mark }
{
    if mark == 0 {
        let at = Collector::PART * i;
        return most(&bytes[at..at + Collector::PART]);
    }
    0
}

// The largest byte of the unheard parts.
fn holes(
    bytes: &[u8; Collector::CAPACITY],
    marks: &[u8; Collector::PARTS],
    from: usize,
    to: usize,
) -> u8
    requires { to ≤ parts }
    ensures { result ≡ holes bytes.now marks.now from (to - from) }
{
    let mut most = 0;
    for i in from..to {
        most = max(most, hole(bytes, i, marks[i]));
    }
    most
}

// The end of the last part that is not empty.
pub(crate) fn length_by(marks: &[u8; Collector::PARTS], shape: Shape) -> usize
    requires { ShapeFits marks.now shape }
    ensures { result ≡ least_to marks.now parts }
{
    let top = shape.top as usize;
    if top == 0 {
        return 0;
    }
    let last = top - 1;
    Collector::PART * last + (marks[last] as usize - 1)
}

pub(crate) fn marks_fit(shape: Shape) -> bool
    ensures { result ≡ fits shape }
{
    if FULL < shape.most {
        return false;
    }
    if Collector::PARTS + 1 < shape.top as usize + shape.gap as usize {
        return false;
    }
    true
}

// The shape with one mark more; so that of the marks with one put in at an unheard index, with no second pass. Inlined: the
// loop over the marks is vector code then.
#[inline(always)]
pub(crate) fn shape_with(shape: Shape, i: u8, m: u8) -> Shape
    requires { i < parts }
    ensures { result ≡ shape_with shape i m }
{
    let up = i + 1;
    let down = Collector::PARTS as u8 - i;
    Shape {
        top: max(shape.top, filled(up, m)),
        gap: max(shape.gap, partly(down, m)),
        most: max(shape.most, m),
        free: max(shape.free, free(down, m)),
    }
}

// Behind the list's end all is zero, and in the unheard parts before it. Full parts are not read.
fn bytes_fit(
    bytes: &[u8; Collector::CAPACITY],
    marks: &[u8; Collector::PARTS],
    shape: Shape,
) -> bool
    requires { ShapeFits marks.now shape }
    ensures { result ≡ bytes_fit bytes.now marks.now }
{
    let end = length_by(marks, shape);
    if most(&bytes[end..]) != 0 {
        return false;
    }
    let low = Collector::PARTS - shape.free as usize;
    holes(bytes, marks, low, shape.top as usize) == 0
}

fn well_formed(
    bytes: &[u8; Collector::CAPACITY],
    marks: &[u8; Collector::PARTS],
    shape: Shape,
) -> bool
    requires { shape ≡ shape_of marks.now }
    ensures { result ≡ well_formed (held bytes.now marks.now) }
{
    if marks_fit(shape) {
        return bytes_fit(bytes, marks, shape);
    }
    false
}

// Every index was heard, or the first part that is not full stands below the lowest unheard index.
fn complete(shape: Shape) -> bool
    ensures { result ≡ complete_shape shape }
{
    if shape.free == 0 {
        return true;
    }
    shape.free < shape.gap
}

// The lowest unheard index.
fn lowest_by(shape: Shape) -> u8
    requires { shape.free ≤ parts }
    ensures { result ≡ parts - shape.free }
{
    Collector::LAST_INDEX + 1 - shape.free
}

// What is stored is what the four maxima say: no second pass.
pub(crate) fn well_stored(
    bytes: &[u8; Collector::CAPACITY],
    marks: &[u8; Collector::PARTS],
    known: &[u8; Collector::KNOWN],
    shape: Shape,
) -> bool
    requires { shape ≡ shape_of marks.now }
    ensures { result ≡ well_stored (collector_of bytes.now marks.now known.now) }
{
    if !well_formed(bytes, marks, shape) {
        return false;
    }
    if known[0] != lowest_by(shape) {
        return false;
    }
    known[1] == complete(shape) as u8
}
