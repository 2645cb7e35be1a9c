//! Laws of the grammar of tokens, for the crates that print text and have it read back.

ghost use Rattle.az_text.specs.Pieces.{SpelledTokenIsCut, PiecesAreRead};
ghost use Rattle.az_text.specs.Fronts.{LexedIsTheReading};
ghost use Rattle.az_text.specs.Lumps.{LumpsAreRead};

/// Spelling a token, and then something at which it ends, begins with that token.
pub fn spelled_token_is_cut()
    ensures { SpelledTokenIsCut }
{}

/// A text of spelled tokens that stand apart has those tokens.
pub fn pieces_are_read()
    ensures { PiecesAreRead }
{}

/// Tokens and blanks that stand apart are read as those tokens, and how they are joined.
pub fn lumps_are_read()
    ensures { LumpsAreRead }
{}

/// Each text has one answer by the grammar, the one that is computed.
pub fn lexed_is_the_reading()
    ensures { LexedIsTheReading }
{}
