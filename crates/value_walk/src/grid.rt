//! Where a point would stand if the points were all those between the first and the last of them, as
//! those of a box are.

use az_lin::List;
use std::alloc::{AllocError, Global};

/// The least value of an index, and how many values it has.
#[derive(Debug, Clone, Copy)]
struct Side {
    low: i64,
    size: i64,
}

/// The sides of the box, by the indices.
#[derive(Debug, Drop)]
pub(crate) struct Grid {
    sides: Vec<Side>,
}

fn word(number: i128) -> i64 {
    i64::try_from(number).unwrap_or(0)
}

impl Grid {
    fn between(alloc: Global, first: &[i128], last: &[i128]) -> Result<Grid, AllocError> {
        let mut sides = Vec::new(alloc);
        for (low, high) in first.iter().zip(last) {
            let low = word(*low);
            let size = word(*high).wrapping_sub(low).wrapping_add(1);
            sides.push(Side { low, size })?;
        }
        Ok(Grid { sides })
    }

    /// That of points in order.
    pub(crate) fn of_points(alloc: Global, points: &[List<i128>]) -> Result<Grid, AllocError> {
        match (points.first(), points.last()) {
            (Some(first), Some(last)) => Grid::between(alloc, first.as_slice(), last.as_slice()),
            _ => Grid::between(alloc, &[], &[]),
        }
    }

    /// That of a table's rows in order of their points.
    pub(crate) fn of_rows(alloc: Global, rows: &[(List<i128>, i64)]) -> Result<Grid, AllocError> {
        match (rows.first(), rows.last()) {
            (Some(first), Some(last)) => {
                Grid::between(alloc, first.0.as_slice(), last.0.as_slice())
            }
            _ => Grid::between(alloc, &[], &[]),
        }
    }

    /// The place of the point in the box; a number that says nothing where there is none.
    pub(crate) fn guess(&self, point: &[i128]) -> usize {
        let mut place: i64 = 0;
        for (index, side) in point.iter().zip(self.sides.as_slice()) {
            let offset = word(*index).wrapping_sub(side.low);
            place = place.wrapping_mul(side.size).wrapping_add(offset);
        }
        usize::try_from(place).unwrap_or(0)
    }
}
