//! How statements are read.
ghost use Rattle.std.specs.Prelude.{◌≡◌};
ghost use Rattle.dl_grammar.specs.Grammar.{Gives};
ghost use Rattle.dl_grammar.specs.Readers as read;

use crate::cursor::Cursor;
use crate::fault::Fault;
use crate::lexeme::Fixed;
use crate::tree::{TreeBlock, TreeStmt, What, Word};
use sqlite_items::Items;
use std::alloc::Global;

impl Cursor<'_> {
    #[tactic(auto, unfolding(crate::specs::Readers::assignment))]
    fn assignment(&mut self, alloc: Global, room: u32, x: Word) -> Result<TreeStmt, Fault>
        ensures { Gives (read.assignment room x self.old.rest.now) result self.new.rest.now }
    {
        let _sign = self.word(Fixed::Assign)?;
        let rhs = self.right_side(alloc, room)?;
        let _end = self.word(Fixed::Semicolon)?;
        let line = x.line;
        Ok(TreeStmt {
            line,
            what: What::Assign { x, rhs },
        })
    }

    #[tactic(auto, unfolding(crate::specs::Readers::store))]
    fn store(&mut self, alloc: Global, room: u32, p: Word) -> Result<TreeStmt, Fault>
        ensures { Gives (read.store room p self.old.rest.now) result self.new.rest.now }
    {
        let _dot = self.word(Fixed::Dot)?;
        let f = self.name(alloc)?;
        let _sign = self.word(Fixed::Assign)?;
        let rhs = self.side(alloc, room)?;
        let _end = self.word(Fixed::Semicolon)?;
        let line = p.line;
        Ok(TreeStmt {
            line,
            what: What::Store { p, f, rhs },
        })
    }

    #[tactic(auto, unfolding(crate::specs::Readers::setting))]
    fn setting(&mut self, alloc: Global, room: u32) -> Result<TreeStmt, Fault>
        ensures { Gives (read.setting room self.old.rest.now) result self.new.rest.now }
    {
        let word = self.name(alloc)?;
        if self.at(Fixed::Assign) {
            self.assignment(alloc, room, word)
        } else {
            self.store(alloc, room, word)
        }
    }

    #[tactic(auto, unfolding(crate::specs::Readers::returning))]
    fn returning(&mut self, alloc: Global, room: u32) -> Result<TreeStmt, Fault>
        ensures { Gives (read.returning room self.old.rest.now) result self.new.rest.now }
    {
        let line = self.word(Fixed::Return)?;
        let e = self.expression(alloc, room)?;
        let _end = self.word(Fixed::Semicolon)?;
        Ok(TreeStmt {
            line,
            what: What::Return { e },
        })
    }

    #[tactic(auto, unfolding(crate::specs::Readers::emitting))]
    fn emitting(&mut self, alloc: Global, room: u32) -> Result<TreeStmt, Fault>
        ensures { Gives (read.emitting room self.old.rest.now) result self.new.rest.now }
    {
        let line = self.word(Fixed::Emit)?;
        let e = self.expression(alloc, room)?;
        let _end = self.word(Fixed::Semicolon)?;
        Ok(TreeStmt {
            line,
            what: What::Emit { e },
        })
    }

    /// A statement, in which so many more levels may open.
    #[cycle(statement)]
    #[tactic(auto, using(crate::proofs::Steps::statement_is), unfolding(crate::specs::Readers::statement_over))]
    fn statement(&mut self, alloc: Global, room: u32) -> Result<TreeStmt, Fault>
        ensures { Gives (read.statement room self.old.rest.now) result self.new.rest.now }
    {
        if self.at(Fixed::If) {
            self.branch(alloc, room)
        } else if self.at(Fixed::While) {
            self.repetition(alloc, room)
        } else if self.at(Fixed::Return) {
            self.returning(alloc, room)
        } else if self.at(Fixed::Emit) {
            self.emitting(alloc, room)
        } else {
            self.setting(alloc, room)
        }
    }

    #[cycle(statement)]
    #[tactic(auto, unfolding(crate::specs::Readers::branch))]
    fn branch(&mut self, alloc: Global, room: u32) -> Result<TreeStmt, Fault>
        ensures { Gives (read.branch room (read.statement_below room) self.old.rest.now) result self.new.rest.now }
    {
        let line = self.word(Fixed::If)?;
        let _left = self.word(Fixed::LParen)?;
        let c = self.condition(alloc, room)?;
        let _right = self.word(Fixed::RParen)?;
        let yes = self.block(alloc, room)?;
        let no = self.otherwise(alloc, room)?;
        Ok(TreeStmt {
            line,
            what: What::If { c, yes, no },
        })
    }

    #[cycle(statement)]
    #[tactic(auto, unfolding(crate::specs::Readers::otherwise))]
    fn otherwise(&mut self, alloc: Global, room: u32) -> Result<TreeBlock, Fault>
        ensures { Gives (read.otherwise room (read.statement_below room) self.old.rest.now) result self.new.rest.now }
    {
        if self.at(Fixed::Else) {
            let _line = self.word(Fixed::Else)?;
            return self.block(alloc, room);
        }
        Ok(Items::new(alloc))
    }

    #[cycle(statement)]
    #[tactic(auto, unfolding(crate::specs::Readers::repetition))]
    fn repetition(&mut self, alloc: Global, room: u32) -> Result<TreeStmt, Fault>
        ensures { Gives (read.repetition room (read.statement_below room) self.old.rest.now) result self.new.rest.now }
    {
        let line = self.word(Fixed::While)?;
        let _left = self.word(Fixed::LParen)?;
        let c = self.condition(alloc, room)?;
        let _right = self.word(Fixed::RParen)?;
        let body = self.block(alloc, room)?;
        Ok(TreeStmt {
            line,
            what: What::While { c, body },
        })
    }

    #[cycle(statement)]
    #[tactic(auto, using(crate::proofs::Steps::statements_below), unfolding(crate::specs::Readers::block))]
    fn block(&mut self, alloc: Global, room: u32) -> Result<TreeBlock, Fault>
        ensures { Gives (read.block room (read.statement_below room) self.old.rest.now) result self.new.rest.now }
    {
        let _left = self.open(Fixed::LBrace, room)?;
        let body = self.statements(alloc, room - 1)?;
        let _right = self.word(Fixed::RBrace)?;
        Ok(body)
    }

    /// Statements, one behind the other, in each of which so many more levels may open.
    #[cycle(statement)]
    #[tactic(auto, using(crate::proofs::Steps::statements_steps), unfolding(crate::specs::Readers::statements))]
    pub(crate) fn statements(&mut self, alloc: Global, room: u32) -> Result<TreeBlock, Fault>
        ensures { Gives (read.statements (read.statement room) self.old.rest.now) result self.new.rest.now }
    {
        let mut found: TreeBlock = Items::new(alloc);
        'found: while self.at_statement() {
            let statement = self.statement(alloc, room)?;
            found.push(statement)?;
        }
        Ok(found)
    }
}
