//! Why a text is not read as a program.

ghost use Rattle.std.specs.Prelude.{◌≡◌};
ghost use Rattle.alphabets_read.specs.Faults.{of_text, of_shape};

use az_ast::{ShapeFault, ShapeKind};
use az_lin::Limit;
use az_text::LexFault;
use grammar_rules::TextFault;

#[derive(Debug, Drop)]
pub enum ReadFault {
    /// The first byte at which no token begins, or a number that is too wide.
    Lex(LexFault),
    /// The first byte of the first token that can't go on, or the text's length where more would have
    /// to follow.
    Syntax(usize),
    /// Item 0 is the header, the declarations and then the equations follow.
    Shape { kind: ShapeKind, item: u32 },
    Limit(Limit),
    /// Memory ran out.
    Memory,
}

impl From<TextFault> for ReadFault {
    ghost from_gives = { λ fault e. e ≡ of_text fault };

    fn from(fault: TextFault) -> Self {
        match fault {
            TextFault::Lex(fault) => ReadFault::Lex(fault),
            TextFault::Syntax(place) => ReadFault::Syntax(place),
            TextFault::Size => ReadFault::Limit(Limit::Size),
            TextFault::Memory => ReadFault::Memory,
        }
    }
}

impl From<ShapeFault> for ReadFault {
    ghost from_gives = { λ fault e. e ≡ of_shape fault };

    fn from(fault: ShapeFault) -> Self {
        match fault {
            ShapeFault::Shape { kind, item } => ReadFault::Shape { kind, item },
            ShapeFault::Limit(limit) => ReadFault::Limit(limit),
            ShapeFault::Memory => ReadFault::Memory,
        }
    }
}
