//! The columns of a key that come from the dimensions of time.

ghost use Rattle.std.specs.Prelude.{◌≡◌, ◌++◌, true, OnOk, option_to_list};
ghost use Rattle.std.specs.List.{list_all};
ghost use Rattle.target_map.specs.Kinds.{is_sized};
ghost use Rattle.tile_waves.specs.Inner.Columns.{entry, column};

use std::alloc::AllocError;
use target_map::Kind;

/// The coordinates of the dimensions of one kind, or the tiles or blocks in which they lie.
#[derive(Debug, Clone, Copy)]
pub(crate) enum Column {
    Outer,
    Tile,
    Block,
    Band,
    Processor,
    Inner,
}

/// Appends the number, if there is one.
fn push_entry(key: &mut Vec<i128>, entry: Option<i128>) -> Result<(), AllocError>
    ensures { OnOk result (key.new.items ≡ key.old.items ++ option_to_list entry) }
{
    if let Some(number) = entry {
        key.push(number)?;
    }
    Ok(())
}

impl Column {
    /// What a dimension gives to the column.
    fn entry(self, kind: Kind, coordinate: i128) -> Option<i128>
        requires { is_sized kind ≡ true }
        ensures { result ≡ entry self kind coordinate }
    {
        match (self, kind) {
            (Column::Outer, Kind::Outer)
            | (Column::Band, Kind::Band(_))
            | (Column::Processor, Kind::Processor(_))
            | (Column::Inner, Kind::Inner) => Some(coordinate),
            (Column::Tile, Kind::Band(size)) | (Column::Block, Kind::Processor(size)) => {
                Some(coordinate.div_euclid(i128::from(size)))
            }
            _ => None,
        }
    }

    /// Appends the column of an instance to its key.
    pub(crate) fn push(
        self,
        key: &mut Vec<i128>,
        kinds: &[Kind],
        times: &[i128],
    ) -> Result<(), AllocError>
        requires { list_all is_sized kinds.now ≡ true }
        ensures { OnOk result (key.new.items ≡ key.old.items ++ column self kinds.now times.now) }
    {
        'kinds: for place in 0..kinds.len().min(times.len()) {
            push_entry(key, self.entry(kinds[place], times[place]))?;
        }
        Ok(())
    }
}
