//! Laws of the definitions, as contracts of functions that do nothing.

ghost use Rattle.dc_names.specs.Laws.{NoPieceIsLonger, PartsAreNamesOrDots};

/// Each part of a text without a fault is a name, dot or dot-dot.
pub fn parts_are_names_or_dots()
    ensures { PartsAreNamesOrDots }
{}

/// No piece of a text, between its slashes, is longer than the text.
pub fn no_piece_is_longer()
    ensures { NoPieceIsLonger }
{}
