//! The law that the canonical text has the tokens of its tree.
ghost use Rattle.dl_print.specs.Tokens.{PiecesAreTokens};

/// That the canonical text of a module whose names and numbers a text may have is cut into the tokens of its pieces.
pub fn pieces_are_tokens()
    ensures { PiecesAreTokens }
{}
