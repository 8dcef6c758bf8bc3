//! The law that the names of a module that some bytes spell are names by which a text can tell its objects.
#![tactic(auto)]

ghost use Rattle.dl_naming.specs.Naming.{SpelledHasNames};

use dl_rereading::spelled_has_tokens;

/// That in a module that some bytes spell, kinds and fields are named by words, and each kind has a name of its own.
pub fn spelled_has_names()
    ensures { SpelledHasNames }
{
    spelled_has_tokens();
}
