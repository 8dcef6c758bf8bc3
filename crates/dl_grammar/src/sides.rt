//! How right sides and conditions are read.
ghost use Rattle.std.specs.Prelude.{◌≡◌};
ghost use Rattle.dl_grammar.specs.Grammar.{Gives};
ghost use Rattle.dl_grammar.specs.Readers as read;

use crate::cursor::Cursor;
use crate::fault::Fault;
use crate::lexeme::Fixed;
use crate::tree::{Rhs, Side, TreeCond, TreeExpr, Word};
use std::alloc::Global;

impl Cursor<'_> {
    #[tactic(auto, unfolding(crate::specs::Readers::side_of))]
    pub(crate) fn side(&mut self, alloc: Global, room: u32) -> Result<Side, Fault>
        ensures { Gives (read.side_of room self.old.rest.now) result self.new.rest.now }
    {
        if self.at(Fixed::Null) {
            let _line = self.word(Fixed::Null)?;
            return Ok(Side::Null);
        }
        let sum = self.expression(alloc, room)?;
        Ok(Side::Sum(sum))
    }

    #[tactic(auto, unfolding(crate::specs::Readers::condition))]
    pub(crate) fn condition(&mut self, alloc: Global, room: u32) -> Result<TreeCond, Fault>
        ensures { Gives (read.condition room self.old.rest.now) result self.new.rest.now }
    {
        let left = self.side(alloc, room)?;
        let rel = self.relation()?;
        let right = self.side(alloc, room)?;
        Ok(TreeCond { rel, left, right })
    }

    #[tactic(auto, unfolding(crate::specs::Readers::followed_from))]
    fn followed_from(&mut self, alloc: Global, p: Word) -> Result<Rhs, Fault>
        ensures { Gives (read.followed_from p self.old.rest.now) result self.new.rest.now }
    {
        let _line = self.word(Fixed::Dot)?;
        let f = self.name(alloc)?;
        Ok(Rhs::Field { p, f })
    }

    /// A sum whose first factor, a name, has been read.
    #[tactic(auto, unfolding(crate::specs::Readers::sum_from))]
    fn sum_from(&mut self, alloc: Global, room: u32, word: Word) -> Result<Rhs, Fault>
        ensures { Gives (read.sum_from room word self.old.rest.now) result self.new.rest.now }
    {
        let term = self.term_behind(alloc, room, (TreeExpr::Name(word), 0))?;
        let (sum, _operators) = self.sum_behind(alloc, room, term)?;
        Ok(Rhs::Sum(sum))
    }

    #[tactic(auto, unfolding(crate::specs::Readers::named_side))]
    fn named_side(&mut self, alloc: Global, room: u32) -> Result<Rhs, Fault>
        ensures { Gives (read.named_side room self.old.rest.now) result self.new.rest.now }
    {
        let word = self.name(alloc)?;
        if self.at(Fixed::Dot) {
            self.followed_from(alloc, word)
        } else {
            self.sum_from(alloc, room, word)
        }
    }

    #[tactic(auto, unfolding(crate::specs::Readers::right_side))]
    pub(crate) fn right_side(&mut self, alloc: Global, room: u32) -> Result<Rhs, Fault>
        ensures { Gives (read.right_side room self.old.rest.now) result self.new.rest.now }
    {
        if self.at(Fixed::Null) {
            let _line = self.word(Fixed::Null)?;
            return Ok(Rhs::Null);
        }
        if self.at(Fixed::New) {
            let _line = self.word(Fixed::New)?;
            let kind = self.name(alloc)?;
            return Ok(Rhs::New(kind));
        }
        if self.at_name() {
            return self.named_side(alloc, room);
        }
        let sum = self.expression(alloc, room)?;
        Ok(Rhs::Sum(sum))
    }
}
