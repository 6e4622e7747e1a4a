//! The curve of a heap: as many of its points as one as it takes.
ghost use Rattle.std.specs.Prelude.{◌≡◌, ◌+◌, ◌<◌, ◌≤◌, ◌^◌, length, IfOk};
ghost use Rattle.tlsf_picture.specs.plots.Curves as drawn;
ghost use Rattle.tlsf_picture.specs.plots.Standings.{IsLook, IsPeak, live_in, standing_in};
ghost use Rattle.tlsf_picture.specs.Steps.{HasPoint, IsMostPoints};

use crate::plots::look::Look;
use crate::plots::peak::Peak;
use crate::plots::point::Point;
use crate::plots::standing::Standing;
use std::alloc::{AllocError, Global};

/// How many points are drawn as one, so that at most `most` are drawn.
pub fn stride_for(most: usize, points: usize) -> usize
    requires most { IsMostPoints most }
    requires some { 0 < points }
    requires points { points ≤ 2 ^ 16 }
    ensures stride { result ≡ drawn.stride_for most points }
    ensures some { 0 < result }
    ensures few { result ≤ 2 ^ 17 }
{
    (points + (most - 1)) / most
}

// The worst of some points of a heap of this many words, number by number.
fn worst_of(words: u32, points: &[Point]) -> Point
    ensures { result ≡ drawn.worst_of words points.now }
{
    let mut worst = Point::untouched(words);
    for point in points {
        worst = worst.worse(*point);
    }
    worst
}

/// The points of a heap of `words` words, `stride` of them as one.
pub fn curve_of(
    alloc: Global,
    words: u32,
    stride: usize,
    points: &[Point],
) -> Result<Vec<Point>, AllocError>
    requires stride { 0 < stride }
    requires few { stride ≤ 2 ^ 17 }
    requires points { length points.now ≤ 2 ^ 16 }
    ensures { IfOk result (λ curve. curve.items ≡ drawn.curve_of words stride points.now) }
{
    let count = (points.len() + (stride - 1)) / stride;
    let mut curve = Vec::with_capacity(alloc, count)?;
    for number in 0..count {
        let (_, rest) = points.split_at(number * stride);
        let (part, _) = rest.split_at(stride.min(rest.len()));
        curve.push(worst_of(words, part))?;
    }
    Ok(curve)
}

// How a heap stands at the point of a number.
fn standing_at(len: u32, points: &[Point], number: usize) -> Standing
    requires { number < length points.now }
    ensures { result ≡ standing_in len points.now number }
{
    Standing::of(len, &points[number])
}

// The line to look at among one point more than the first of these points.
#[tactic(auto, using(crate::proofs::Standings::worse_look, crate::proofs::Standings::same_look))]
fn worse_line(len: u32, points: &[Point], number: usize, worst: Look) -> Look
    requires point { HasPoint points.now number }
    requires worst { IsLook len points.now number worst }
    ensures { IsLook len points.now (number + 1) result }
{
    let standing = standing_at(len, points, number);
    if standing.is_worse(worst.standing) {
        let line = number as u32 + 1;
        Look { line, standing }
    } else {
        worst
    }
}

/// The line to look at of a heap whose worker's longest request is of this many bytes. It is the first of those after which the
/// heap stands worst.
#[tactic(auto, using(crate::proofs::Standings::first_look))]
pub fn worst_line(len: u32, points: &[Point]) -> Look
    requires { HasPoint points.now 0 }
    ensures { IsLook len points.now (length points.now) result }
{
    let standing = standing_at(len, points, 0);
    let mut worst = Look { line: 1, standing };
    for number in 1..points.len() {
        worst = worse_line(len, points, number, worst);
    }
    worst
}

// The live words of the point of a number.
fn live_at(points: &[Point], number: usize) -> u32
    requires { number < length points.now }
    ensures { result ≡ live_in points.now number }
{
    points[number].live
}

// The peak among one point more than the first of these points.
#[tactic(auto, using(crate::proofs::Standings::higher_peak, crate::proofs::Standings::same_peak))]
fn higher_peak(points: &[Point], number: usize, peak: Peak) -> Peak
    requires point { HasPoint points.now number }
    requires peak { IsPeak points.now number peak }
    ensures { IsPeak points.now (number + 1) result }
{
    let live = live_at(points, number);
    if peak.live < live {
        Peak {
            line: number as u32 + 1,
            live,
        }
    } else {
        peak
    }
}

/// The peak of a heap: the first line after which most words are live.
#[tactic(auto, using(crate::proofs::Standings::first_peak))]
pub fn peak_of(points: &[Point]) -> Peak
    requires { HasPoint points.now 0 }
    ensures { IsPeak points.now (length points.now) result }
{
    let live = live_at(points, 0);
    let mut peak = Peak { line: 1, live };
    for number in 1..points.len() {
        peak = higher_peak(points, number, peak);
    }
    peak
}
