//! Kinds, sizes and factors, as a script has them.

ghost use Rattle.std.specs.Prelude.{◌≡◌, IfErr, IfOk, map};
ghost use Rattle.mapping_commands.specs.Numbers.{within, kind_of};

use command_script::KindText;
use std::alloc::{AllocError, Global};
use target_map::Kind;

/// The greatest size of a tile or block, and the greatest factor.
const MOST_SIZE: u32 = 1 << 20;

/// The number, or in the place of one that is no size and no factor the least that is none.
fn within(number: i128) -> u32
    ensures { result ≡ within number }
{
    if 0 <= number && number <= i128::from(MOST_SIZE) {
        number as u32
    } else {
        MOST_SIZE + 1
    }
}

fn kind_of(text: &KindText) -> Kind
    ensures { result ≡ kind_of text.now }
{
    match text {
        KindText::Outer => Kind::Outer,
        KindText::Band(size) => Kind::Band(within(*size)),
        KindText::Processor(size) => Kind::Processor(within(*size)),
        KindText::Inner => Kind::Inner,
    }
}

pub(crate) fn kinds_of(alloc: Global, texts: &[KindText]) -> Result<Vec<Kind>, AllocError>
    ensures { IfOk result (λ kinds. kinds.items ≡ map kind_of texts.now) }
{
    texts.iter().map(kind_of).collect(alloc)
}

pub(crate) fn factors_of(alloc: Global, numbers: &[i128]) -> Result<Vec<u32>, AllocError>
    ensures { IfOk result (λ factors. factors.items ≡ map within numbers.now) }
{
    numbers.iter().map(|number| within(*number)).collect(alloc)
}
