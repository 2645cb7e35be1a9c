//! Names of columns and indices.

ghost use Rattle.std.specs.Prelude.{◌≡◌, ◌+◌, ◌<◌, ◌^◌, ◌++◌, ◌∷◌, [], OnOk, flat_map, string_bytes};
ghost use Rattle.az_text.specs.Lumps.{bytes_of};
ghost use Rattle.alphabets_show.specs.Pieces.{word, comma, names as listed};
ghost use Rattle.alphabets_show.specs.Sides.{indices, column_name};

use az_lin::Name;
use std::alloc::AllocError;

/// The name of a column: that of a parameter, or of an index behind the parameters.
pub(crate) fn push_column(
    text: &mut String,
    params: &[Name],
    column: usize,
) -> Result<(), AllocError>
    ensures ok { OnOk result (string_bytes text.new ≡ string_bytes text.old ++ column_name params.now column) }
{
    match params.get(column) {
        Some(name) => text.push_str(name.as_str()),
        None => {
            let index = column - params.len();
            write!(text, "i{index}")
        }
    }
}

/// Further names, each behind a comma.
fn push_more_names(text: &mut String, names: &[Name]) -> Result<(), AllocError>
    ensures ok { OnOk result (string_bytes text.new ≡ string_bytes text.old ++ bytes_of (flat_map (λ name. comma (word name ∷ [])) names.now)) }
{
    for name in names {
        text.push_str(",")?;
        text.push_str(name.as_str())?;
    }
    Ok(())
}

/// Names with commas between.
#[tactic(auto, using(crate::proofs::Texts::lumps_joined))]
pub(crate) fn push_names(text: &mut String, names: &[Name]) -> Result<(), AllocError>
    ensures ok { OnOk result (string_bytes text.new ≡ string_bytes text.old ++ bytes_of (listed names.now)) }
{
    match names {
        [] => Ok(()),
        [first, rest @ ..] => {
            text.push_str(first.as_str())?;
            push_more_names(text, rest)
        }
    }
}

/// The names of so many indices, from a number on, with commas between.
pub(crate) fn push_indices(text: &mut String, from: usize, count: usize) -> Result<(), AllocError>
    requires { from + count < 2 ^ 64 }
    ensures ok { OnOk result (string_bytes text.new ≡ string_bytes text.old ++ bytes_of (listed (indices from count))) }
{
    if count == 0 {
        return Ok(());
    }
    write!(text, "i{from}")?;
    for index in from + 1..from + count {
        write!(text, ",i{index}")?;
    }
    Ok(())
}
