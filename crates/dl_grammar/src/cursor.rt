//! The lexemes that are still to be read, and how one of them is taken.
ghost use Rattle.std.specs.Prelude.{◌≡◌, ◌+◌, ◌≤◌, ◌<◌, OnOk, IfOk};
ghost use Rattle.dl_grammar.specs.Grammar.{Gives, ahead, one};
ghost use Rattle.dl_grammar.specs.Rules as rule;
ghost use Rattle.dl_grammar.specs.Readers.{comes, starts_statement, starts_kind};

use crate::fault::{Bound, Fault, Which};
use crate::lexeme::{Fixed, Lexeme, Lexis};
use crate::tree::Word;
use dl_ir::{Op, Rel};
use sqlite_items::Items;
use std::alloc::Global;

/// The lexemes of a module text that are still to be read. Where reading stops with a fault, the lexeme at fault
/// comes next.
#[derive(Drop)]
pub(crate) struct Cursor<'a> {
    pub(crate) rest: &'a [Lexeme],
}

impl Cursor<'_> {
    pub(crate) fn at(&self, fixed: Fixed) -> bool
        ensures { result ≡ comes (rule.fixed fixed) (ahead self.now.rest.now) }
    {
        match self.rest {
            [
                Lexeme {
                    lexis: Lexis::Fixed(found),
                    ..
                },
                ..
            ] => fixed == *found,
            _ => false,
        }
    }

    pub(crate) fn at_name(&self) -> bool
        ensures { result ≡ comes rule.name (ahead self.now.rest.now) }
    {
        matches!(
            self.rest,
            [
                Lexeme {
                    lexis: Lexis::Name(_),
                    ..
                },
                ..
            ]
        )
    }

    pub(crate) fn at_number(&self) -> bool
        ensures { result ≡ comes rule.number (ahead self.now.rest.now) }
    {
        matches!(
            self.rest,
            [
                Lexeme {
                    lexis: Lexis::One | Lexis::Two | Lexis::Number(_),
                    ..
                },
                ..
            ]
        )
    }

    pub(crate) fn at_statement(&self) -> bool
        ensures { result ≡ starts_statement (ahead self.now.rest.now) }
    {
        self.at(Fixed::If)
            || self.at(Fixed::While)
            || self.at(Fixed::Return)
            || self.at(Fixed::Emit)
            || self.at_name()
    }

    pub(crate) fn at_kind(&self) -> bool
        ensures { result ≡ starts_kind (ahead self.now.rest.now) }
    {
        self.at(Fixed::Root) || self.at(Fixed::Node)
    }

    pub(crate) fn word(&mut self, fixed: Fixed) -> Result<u32, Fault>
        ensures { Gives (one (rule.fixed fixed) rule.free self.old.rest.now) result self.new.rest.now }
    {
        match self.rest {
            [
                Lexeme {
                    lexis: Lexis::Fixed(found),
                    line,
                },
                rest @ ..,
            ] if fixed == *found => {
                self.rest = rest;
                Ok(*line)
            }
            _ => Err(Fault::Expected),
        }
    }

    /// A symbol that opens a level, where so many more may open.
    pub(crate) fn open(&mut self, fixed: Fixed, room: u32) -> Result<u32, Fault>
        ensures opens { Gives (one (rule.fixed fixed) (rule.level room) self.old.rest.now) result self.new.rest.now }
        ensures room { OnOk result (0 < room) }
    {
        match self.rest {
            [
                Lexeme {
                    lexis: Lexis::Fixed(found),
                    line,
                },
                rest @ ..,
            ] if fixed == *found => {
                if room == 0 {
                    return Err(Fault::Passed(Bound::Levels));
                }
                self.rest = rest;
                Ok(*line)
            }
            _ => Err(Fault::Expected),
        }
    }

    pub(crate) fn name(&mut self, alloc: Global) -> Result<Word, Fault>
        ensures { Gives (one rule.name rule.free self.old.rest.now) result self.new.rest.now }
    {
        match self.rest {
            [
                Lexeme {
                    lexis: Lexis::Name(text),
                    line,
                },
                rest @ ..,
            ] => {
                let text = Items::from_slice(alloc, text.as_slice())?;
                self.rest = rest;
                Ok(Word { text, line: *line })
            }
            _ => Err(Fault::Expected),
        }
    }

    /// A number of an expression.
    pub(crate) fn literal(&mut self) -> Result<u64, Fault>
        ensures reads { Gives (one rule.number (rule.at_most 9223372036854775807 (Bound.Limit Which.Literal)) self.old.rest.now) result self.new.rest.now }
        ensures most { IfOk result (λ n. n ≤ 9223372036854775807) }
    {
        self.number(9223372036854775807, Bound::Limit(Which::Literal))
    }

    /// A number that is at most `most`; a greater one passes the limit.
    pub(crate) fn number(&mut self, most: u64, bound: Bound) -> Result<u64, Fault>
        ensures reads { Gives (one rule.number (rule.at_most most bound) self.old.rest.now) result self.new.rest.now }
        ensures most { IfOk result (λ n. n ≤ most) }
    {
        let (number, rest) = match self.rest {
            [
                Lexeme {
                    lexis: Lexis::One,
                    ..
                },
                rest @ ..,
            ] => (1, rest),
            [
                Lexeme {
                    lexis: Lexis::Two,
                    ..
                },
                rest @ ..,
            ] => (2, rest),
            [
                Lexeme {
                    lexis: Lexis::Number(number),
                    ..
                },
                rest @ ..,
            ] => (*number, rest),
            _ => return Err(Fault::Expected),
        };
        if most < number {
            return Err(Fault::Passed(bound));
        }
        self.rest = rest;
        Ok(number)
    }

    pub(crate) fn at_adding(&self) -> bool
        ensures { result ≡ comes rule.adding (ahead self.now.rest.now) }
    {
        matches!(
            self.rest,
            [
                Lexeme {
                    lexis: Lexis::Fixed(Fixed::Plus | Fixed::Minus),
                    ..
                },
                ..
            ]
        )
    }

    pub(crate) fn at_scaling(&self) -> bool
        ensures { result ≡ comes rule.scaling (ahead self.now.rest.now) }
    {
        matches!(
            self.rest,
            [
                Lexeme {
                    lexis: Lexis::Fixed(Fixed::Star | Fixed::Slash | Fixed::Percent),
                    ..
                },
                ..
            ]
        )
    }

    /// An operator of sums, behind so many operators of the same expression.
    pub(crate) fn adding(&mut self, operators: u32) -> Result<Op, Fault>
        ensures reads { Gives (one rule.adding (rule.one_more 256 operators (Bound.Limit Which.Operators)) self.old.rest.now) result self.new.rest.now }
        ensures few { OnOk result (operators < 256) }
    {
        let (op, rest) = match self.rest {
            [
                Lexeme {
                    lexis: Lexis::Fixed(Fixed::Plus),
                    ..
                },
                rest @ ..,
            ] => (Op::Add, rest),
            [
                Lexeme {
                    lexis: Lexis::Fixed(Fixed::Minus),
                    ..
                },
                rest @ ..,
            ] => (Op::Sub, rest),
            _ => return Err(Fault::Expected),
        };
        if 256 <= operators {
            return Err(Fault::Passed(Bound::Limit(Which::Operators)));
        }
        self.rest = rest;
        Ok(op)
    }

    /// An operator of terms, behind so many operators of the same expression.
    pub(crate) fn scaling(&mut self, operators: u32) -> Result<Op, Fault>
        ensures reads { Gives (one rule.scaling (rule.one_more 256 operators (Bound.Limit Which.Operators)) self.old.rest.now) result self.new.rest.now }
        ensures few { OnOk result (operators < 256) }
    {
        let (op, rest) = match self.rest {
            [
                Lexeme {
                    lexis: Lexis::Fixed(Fixed::Star),
                    ..
                },
                rest @ ..,
            ] => (Op::Mul, rest),
            [
                Lexeme {
                    lexis: Lexis::Fixed(Fixed::Slash),
                    ..
                },
                rest @ ..,
            ] => (Op::Div, rest),
            [
                Lexeme {
                    lexis: Lexis::Fixed(Fixed::Percent),
                    ..
                },
                rest @ ..,
            ] => (Op::Rem, rest),
            _ => return Err(Fault::Expected),
        };
        if 256 <= operators {
            return Err(Fault::Passed(Bound::Limit(Which::Operators)));
        }
        self.rest = rest;
        Ok(op)
    }

    pub(crate) fn relation(&mut self) -> Result<Rel, Fault>
        ensures { Gives (one rule.relation rule.free self.old.rest.now) result self.new.rest.now }
    {
        let (rel, rest) = match self.rest {
            [
                Lexeme {
                    lexis: Lexis::Fixed(Fixed::Less),
                    ..
                },
                rest @ ..,
            ] => (Rel::Less, rest),
            [
                Lexeme {
                    lexis: Lexis::Fixed(Fixed::LessEq),
                    ..
                },
                rest @ ..,
            ] => (Rel::LessEq, rest),
            [
                Lexeme {
                    lexis: Lexis::Fixed(Fixed::Equal),
                    ..
                },
                rest @ ..,
            ] => (Rel::Equal, rest),
            [
                Lexeme {
                    lexis: Lexis::Fixed(Fixed::NotEqual),
                    ..
                },
                rest @ ..,
            ] => (Rel::NotEqual, rest),
            _ => return Err(Fault::Expected),
        };
        self.rest = rest;
        Ok(rel)
    }

    /// The version of the language.
    pub(crate) fn version(&mut self) -> Result<u32, Fault>
        ensures { Gives (one rule.version rule.free self.old.rest.now) result self.new.rest.now }
    {
        match self.rest {
            [
                Lexeme {
                    lexis: Lexis::One,
                    ..
                },
                rest @ ..,
            ] => {
                self.rest = rest;
                Ok(1)
            }
            [
                Lexeme {
                    lexis: Lexis::Two,
                    ..
                },
                rest @ ..,
            ] => {
                self.rest = rest;
                Ok(2)
            }
            _ => Err(Fault::Expected),
        }
    }

    /// A type.
    pub(crate) fn type_name(&mut self, alloc: Global) -> Result<Word, Fault>
        ensures { Gives (one rule.type_name rule.free self.old.rest.now) result self.new.rest.now }
    {
        match self.rest {
            [
                Lexeme {
                    lexis: Lexis::Name(text),
                    line,
                },
                rest @ ..,
            ] => {
                let text = Items::from_slice(alloc, text.as_slice())?;
                self.rest = rest;
                Ok(Word { text, line: *line })
            }
            [
                Lexeme {
                    lexis: Lexis::Fixed(Fixed::Int),
                    line,
                },
                rest @ ..,
            ] => {
                let text = Items::from_slice(alloc, b"int")?;
                self.rest = rest;
                Ok(Word { text, line: *line })
            }
            _ => Err(Fault::Expected),
        }
    }

    /// A name that is declared behind `stand` others, of which there may be `most`.
    pub(crate) fn declared(
        &mut self,
        alloc: Global,
        most: usize,
        stand: usize,
        bound: Bound,
    ) -> Result<Word, Fault>
        ensures reads { Gives (one rule.name (rule.one_more most stand bound) self.old.rest.now) result self.new.rest.now }
        ensures fewer { OnOk result (stand < most) }
    {
        match self.rest {
            [
                Lexeme {
                    lexis: Lexis::Name(text),
                    line,
                },
                rest @ ..,
            ] => {
                if most <= stand {
                    return Err(Fault::Passed(bound));
                }
                let text = Items::from_slice(alloc, text.as_slice())?;
                self.rest = rest;
                Ok(Word { text, line: *line })
            }
            _ => Err(Fault::Expected),
        }
    }

    /// The number of roots of a kind, beside so many others.
    pub(crate) fn roots(&mut self, roots: u32) -> Result<u32, Fault>
        requires { roots ≤ 1024 }
        ensures reads { Gives (one rule.number (rule.more_roots roots) self.old.rest.now) result self.new.rest.now }
        ensures most { IfOk result (λ n. roots + n ≤ 1024) }
    {
        let (number, rest) = match self.rest {
            [
                Lexeme {
                    lexis: Lexis::One,
                    ..
                },
                rest @ ..,
            ] => (1, rest),
            [
                Lexeme {
                    lexis: Lexis::Two,
                    ..
                },
                rest @ ..,
            ] => (2, rest),
            [
                Lexeme {
                    lexis: Lexis::Number(number),
                    ..
                },
                rest @ ..,
            ] => (*number, rest),
            _ => return Err(Fault::Expected),
        };
        if number == 0 || number > (1024 - roots) as u64 {
            return Err(Fault::Passed(Bound::Limit(Which::Roots)));
        }
        self.rest = rest;
        Ok(number as u32)
    }
}
