//! Laws of the canonical text: that it spells the tree that it is made of, but for the lines; and of texts of
//! version 1, that they emit nothing.
#![tactic(auto)]

ghost use Rattle.dl_rereading.specs.Silence.{FirstVersionEmitsNothing};
ghost use Rattle.dl_rereading.specs.Rereading.{CanonicalIsReread, CanonicalKeepsNoLines, PiecesAreAText, SpelledHasTokens};

use dl_grammar::one_module;
use dl_print::pieces_are_tokens;

/// That trees that are the same but for their lines have the same canonical text.
pub fn keeps_no_lines()
    ensures { CanonicalKeepsNoLines }
{}

/// That what the canonical text of a tree says is a module text of the same tree but for the lines.
pub fn pieces_are_a_text()
    ensures { PiecesAreAText }
{}

/// That a text may have each piece of the canonical text of a tree that some bytes spell.
pub fn spelled_has_tokens()
    ensures { SpelledHasTokens }
{}

/// That the canonical text of a tree that some bytes spell spells it again, but for the lines, and that its canonical
/// text is that text.
pub fn canonical_is_reread()
    ensures { CanonicalIsReread }
{
    pieces_are_tokens();
    one_module();
}

/// That no operation of a module of version 1 emits.
pub fn first_version_emits_nothing()
    ensures { FirstVersionEmitsNothing }
{}
