//! Several walks at once, whose points come in one order, each once.

ghost use Rattle.std.specs.Prelude.{◌≡◌, ◌∷◌, ◌<◌, ◌+◌, [], length, map, true, IsTrue, ◌↔◌, MatchBool};
ghost use Rattle.std.specs.List.{All};
ghost use Rattle.loop_scan.specs.Nest.Merges.{ahead, passed, merged, IsHead, IsFirst};

use crate::head::Head;
use std::cmp::Ordering;

/// The place among one more of a head whose point no other comes before.
fn better(heads: &[Head], first: Option<usize>, place: usize) -> Option<usize>
    requires inside { place < length heads.now }
    requires first { IsFirst heads.now place first }
    ensures { IsFirst heads.now (place + 1) result }
{
    let head = &heads[place];
    if !head.live {
        return first;
    }
    let Some(other) = first else {
        return Some(place);
    };
    match head.compare(heads[other].point()) {
        Ordering::Less => Some(place),
        _ => Some(other),
    }
}

/// The place of a head whose point no other comes before.
fn first(heads: &[Head]) -> Option<usize>
    ensures { IsFirst heads.now (length heads.now) result }
{
    let mut first = None;
    'heads: for place in 0..heads.len() {
        first = better(heads, first, place);
    }
    first
}

/// Goes past the point wherever it comes next.
fn pass(heads: &mut [Head], width: usize, point: &[i128])
    requires state { All (IsHead width) heads.old }
    ensures state { All (IsHead width) heads.new }
    ensures points { map ahead heads.new ≡ map (λ head. passed point.now (ahead head)) heads.old }
{
    'heads: for place in 0..heads.len() {
        heads[place].pass(width, point);
    }
}

/// Writes the next point of all the heads, if there is one.
pub(crate) fn next_point(heads: &mut [Head], width: usize, out: &mut [i128]) -> bool
    requires state { All (IsHead width) heads.old }
    requires room { length out.old ≡ width }
    ensures state { All (IsHead width) heads.new }
    ensures point { MatchBool result (merged (map ahead heads.old) ≡ out.new ∷ merged (map ahead heads.new))
        ((merged (map ahead heads.old) ≡ []) × (heads.new ≡ heads.old) × (out.new ≡ out.old)) }
{
    let Some(place) = first(heads) else {
        return false;
    };
    out.copy_from_slice(heads[place].point());
    pass(heads, width, out);
    true
}
