//! How expressions are read.
ghost use Rattle.std.specs.Prelude.{◌≡◌};
ghost use Rattle.dl_grammar.specs.Grammar.{Gives};
ghost use Rattle.dl_grammar.specs.Rules as rule;
ghost use Rattle.dl_grammar.specs.Readers as read;

use crate::cursor::Cursor;
use crate::fault::Fault;
use crate::lexeme::Fixed;
use crate::tree::TreeExpr;
use sqlite_items::Boxed;
use std::alloc::Global;

/// An expression, with the number of operators so far of the one that it stands in.
pub(crate) type Counted = (TreeExpr, u32);

impl Cursor<'_> {
    #[tactic(auto, unfolding(crate::specs::Readers::literal))]
    fn literal_factor(&mut self, operators: u32) -> Result<Counted, Fault>
        ensures { Gives (read.literal operators self.old.rest.now) result self.new.rest.now }
    {
        let number = self.literal()?;
        Ok((TreeExpr::Num(number as i64), operators))
    }

    #[tactic(auto, unfolding(crate::specs::Readers::variable))]
    fn variable(&mut self, alloc: Global, operators: u32) -> Result<Counted, Fault>
        ensures { Gives (read.variable operators self.old.rest.now) result self.new.rest.now }
    {
        let word = self.name(alloc)?;
        Ok((TreeExpr::Name(word), operators))
    }

    /// A factor, in which so many more levels may open.
    #[cycle(expression)]
    #[tactic(auto, using(crate::proofs::Steps::expression_steps), unfolding(crate::specs::Readers::factor_over))]
    pub(crate) fn factor(
        &mut self,
        alloc: Global,
        room: u32,
        operators: u32,
    ) -> Result<Counted, Fault>
        ensures { Gives (read.factor room operators self.old.rest.now) result self.new.rest.now }
    {
        if self.at(Fixed::Minus) {
            self.negation(alloc, room, operators)
        } else if self.at(Fixed::LParen) {
            self.bracket(alloc, room, operators)
        } else if self.at_number() {
            self.literal_factor(operators)
        } else {
            self.variable(alloc, operators)
        }
    }

    #[cycle(expression)]
    #[tactic(auto, using(crate::proofs::Steps::expression_steps), unfolding(crate::specs::Readers::negation))]
    fn negation(&mut self, alloc: Global, room: u32, operators: u32) -> Result<Counted, Fault>
        ensures { Gives (read.negation room (read.below room) operators self.old.rest.now) result self.new.rest.now }
    {
        let _line = self.open(Fixed::Minus, room)?;
        let (inner, operators) = self.factor(alloc, room - 1, operators)?;
        Ok((TreeExpr::Neg(Boxed::new(alloc, inner)?), operators))
    }

    #[cycle(expression)]
    #[tactic(auto, using(crate::proofs::Steps::expression_steps), unfolding(crate::specs::Readers::bracket))]
    fn bracket(&mut self, alloc: Global, room: u32, operators: u32) -> Result<Counted, Fault>
        ensures { Gives (read.bracket room (read.below room) operators self.old.rest.now) result self.new.rest.now }
    {
        let _line = self.open(Fixed::LParen, room)?;
        let inner = self.sum(alloc, room - 1, operators)?;
        let _end = self.word(Fixed::RParen)?;
        Ok(inner)
    }

    #[cycle(expression)]
    #[tactic(auto, unfolding(crate::specs::Readers::operation))]
    fn scaled(&mut self, alloc: Global, room: u32, left: Counted) -> Result<Counted, Fault>
        ensures { Gives (read.operation rule.scaling (read.factor room) left self.old.rest.now) result self.new.rest.now }
    {
        let (left, operators) = left;
        let op = self.scaling(operators)?;
        let (right, operators) = self.factor(alloc, room, operators + 1)?;
        let left = Boxed::new(alloc, left)?;
        let right = Boxed::new(alloc, right)?;
        Ok((TreeExpr::Bin { op, left, right }, operators))
    }

    /// What follows the first factor of a term.
    #[cycle(expression)]
    #[tactic(auto, using(crate::proofs::Steps::term_steps))]
    pub(crate) fn term_behind(
        &mut self,
        alloc: Global,
        room: u32,
        first: Counted,
    ) -> Result<Counted, Fault>
        ensures { Gives (read.term_behind (read.factor room) first self.old.rest.now) result self.new.rest.now }
    {
        let mut left = first;
        'scaled: while self.at_scaling() {
            left = self.scaled(alloc, room, left)?;
        }
        Ok(left)
    }

    #[cycle(expression)]
    #[tactic(auto, unfolding(crate::specs::Readers::term))]
    fn term(&mut self, alloc: Global, room: u32, operators: u32) -> Result<Counted, Fault>
        ensures { Gives (read.term (read.factor room) operators self.old.rest.now) result self.new.rest.now }
    {
        let first = self.factor(alloc, room, operators)?;
        self.term_behind(alloc, room, first)
    }

    #[cycle(expression)]
    #[tactic(auto, unfolding(crate::specs::Readers::operation))]
    fn added(&mut self, alloc: Global, room: u32, left: Counted) -> Result<Counted, Fault>
        ensures { Gives (read.operation rule.adding (read.term (read.factor room)) left self.old.rest.now) result self.new.rest.now }
    {
        let (left, operators) = left;
        let op = self.adding(operators)?;
        let (right, operators) = self.term(alloc, room, operators + 1)?;
        let left = Boxed::new(alloc, left)?;
        let right = Boxed::new(alloc, right)?;
        Ok((TreeExpr::Bin { op, left, right }, operators))
    }

    /// What follows the first term of a sum.
    #[cycle(expression)]
    #[tactic(auto, using(crate::proofs::Steps::sum_steps))]
    pub(crate) fn sum_behind(
        &mut self,
        alloc: Global,
        room: u32,
        first: Counted,
    ) -> Result<Counted, Fault>
        ensures { Gives (read.sum_behind (read.factor room) first self.old.rest.now) result self.new.rest.now }
    {
        let mut left = first;
        'added: while self.at_adding() {
            left = self.added(alloc, room, left)?;
        }
        Ok(left)
    }

    #[cycle(expression)]
    #[tactic(auto, unfolding(crate::specs::Readers::sum))]
    fn sum(&mut self, alloc: Global, room: u32, operators: u32) -> Result<Counted, Fault>
        ensures { Gives (read.sum (read.factor room) operators self.old.rest.now) result self.new.rest.now }
    {
        let first = self.term(alloc, room, operators)?;
        self.sum_behind(alloc, room, first)
    }

    /// A whole expression, in which so many more levels may open.
    #[tactic(auto, unfolding(crate::specs::Readers::expression))]
    pub(crate) fn expression(&mut self, alloc: Global, room: u32) -> Result<TreeExpr, Fault>
        ensures { Gives (read.expression room self.old.rest.now) result self.new.rest.now }
    {
        let (expression, _operators) = self.sum(alloc, room, 0)?;
        Ok(expression)
    }
}
