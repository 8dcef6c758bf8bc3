//! How kinds, operations and whole modules are read.
ghost use Rattle.std.specs.Prelude.{◌≡◌, ◌+◌, ◌≤◌, ◌<◌, OnOk, IfOk, length};
ghost use Rattle.dl_grammar.specs.Grammar.{Gives};
ghost use Rattle.dl_grammar.specs.Readers as read;

use crate::cursor::Cursor;
use crate::fault::{Bound, Fault, Which};
use crate::lexeme::Fixed;
use crate::tree::{TreeField, TreeKind, TreeOp, Word};
use sqlite_items::Items;
use std::alloc::Global;

/// What a module declares.
#[derive(Debug, Drop)]
pub struct Declared {
    pub version: u32,
    pub kinds: Items<TreeKind>,
    pub ops: Items<TreeOp>,
}

/// The kinds so far, and the number of their roots.
pub(crate) type Kinds = (Items<TreeKind>, u32);

impl Cursor<'_> {
    /// A field, a parameter or a var, behind `stand` others.
    #[tactic(auto, unfolding(crate::specs::Readers::field))]
    fn field(
        &mut self,
        alloc: Global,
        most: usize,
        bound: Bound,
        stand: usize,
    ) -> Result<TreeField, Fault>
        ensures reads { Gives (read.field most bound stand self.old.rest.now) result self.new.rest.now }
        ensures fewer { OnOk result (stand < most) }
    {
        let name = self.declared(alloc, most, stand, bound)?;
        let _colon = self.word(Fixed::Colon)?;
        let ty = self.type_name(alloc)?;
        Ok(TreeField { name, ty })
    }

    /// Fields with commas between, behind `stand` others.
    #[tactic(auto, using(crate::proofs::MoreSteps::fields_steps), unfolding(crate::specs::Readers::fields_behind))]
    fn fields_behind(
        &mut self,
        alloc: Global,
        most: usize,
        bound: Bound,
        stand: usize,
    ) -> Result<Items<TreeField>, Fault>
        requires { most ≤ 64 }
        ensures { Gives (read.fields_behind most bound stand self.old.rest.now) result self.new.rest.now }
    {
        let mut found = Items::new(alloc);
        let first = self.field(alloc, most, bound, stand)?;
        found.push(first)?;
        'found: while self.at(Fixed::Comma) {
            let _comma = self.word(Fixed::Comma)?;
            let next = self.field(alloc, most, bound, stand + found.len())?;
            found.push(next)?;
        }
        Ok(found)
    }

    #[tactic(auto, unfolding(crate::specs::Readers::fields))]
    fn fields(&mut self, alloc: Global) -> Result<Items<TreeField>, Fault>
        ensures { Gives (read.fields self.old.rest.now) result self.new.rest.now }
    {
        let _left = self.word(Fixed::LBrace)?;
        let found = if self.at_name() {
            self.fields_behind(alloc, 16, Bound::Limit(Which::Fields), 0)?
        } else {
            Items::new(alloc)
        };
        let _right = self.word(Fixed::RBrace)?;
        Ok(found)
    }

    #[tactic(auto, unfolding(crate::specs::Readers::root_kind))]
    fn root_kind(&mut self, alloc: Global, before: Kinds) -> Result<Kinds, Fault>
        requires { before.1 ≤ 1024 }
        ensures reads { Gives (read.root_kind before self.old.rest.now) result self.new.rest.now }
        ensures most { IfOk result (λ all. all.1 ≤ 1024) }
    {
        let (mut kinds, roots) = before;
        let _line = self.word(Fixed::Root)?;
        let name = self.declared(alloc, 16, kinds.len(), Bound::Limit(Which::Kinds))?;
        let count = self.roots(roots)?;
        let fields = self.fields(alloc)?;
        kinds.push(TreeKind {
            name,
            is_root: true,
            count,
            fields,
        })?;
        Ok((kinds, roots + count))
    }

    #[tactic(auto, unfolding(crate::specs::Readers::node_kind))]
    fn node_kind(&mut self, alloc: Global, before: Kinds) -> Result<Kinds, Fault>
        requires { before.1 ≤ 1024 }
        ensures reads { Gives (read.node_kind before self.old.rest.now) result self.new.rest.now }
        ensures most { IfOk result (λ all. all.1 ≤ 1024) }
    {
        let (mut kinds, roots) = before;
        let _line = self.word(Fixed::Node)?;
        let name = self.declared(alloc, 16, kinds.len(), Bound::Limit(Which::Kinds))?;
        let fields = self.fields(alloc)?;
        kinds.push(TreeKind {
            name,
            is_root: false,
            count: 0,
            fields,
        })?;
        Ok((kinds, roots))
    }

    #[tactic(auto, unfolding(crate::specs::Readers::kind))]
    fn kind(&mut self, alloc: Global, before: Kinds) -> Result<Kinds, Fault>
        requires { before.1 ≤ 1024 }
        ensures reads { Gives (read.kind before self.old.rest.now) result self.new.rest.now }
        ensures most { IfOk result (λ all. all.1 ≤ 1024) }
    {
        if self.at(Fixed::Root) {
            self.root_kind(alloc, before)
        } else {
            self.node_kind(alloc, before)
        }
    }

    #[tactic(auto, using(crate::proofs::MoreSteps::kinds_steps), unfolding(crate::specs::Readers::kinds))]
    fn kinds(&mut self, alloc: Global) -> Result<Kinds, Fault>
        ensures { Gives (read.kinds self.old.rest.now) result self.new.rest.now }
    {
        let mut found: Kinds = (Items::new(alloc), 0);
        'found: while self.at_kind() {
            found = self.kind(alloc, found)?;
        }
        Ok(found)
    }

    /// The vars of an operation with so many parameters.
    #[tactic(auto, unfolding(crate::specs::Readers::vars))]
    fn vars(&mut self, alloc: Global, params: usize) -> Result<Items<TreeField>, Fault>
        ensures { Gives (read.vars params self.old.rest.now) result self.new.rest.now }
    {
        if self.at(Fixed::Var) {
            let _line = self.word(Fixed::Var)?;
            let found = self.fields_behind(alloc, 32, Bound::Limit(Which::Locals), params)?;
            let _end = self.word(Fixed::Semicolon)?;
            return Ok(found);
        }
        Ok(Items::new(alloc))
    }

    #[tactic(auto, unfolding(crate::specs::Readers::quotas))]
    fn quotas(&mut self) -> Result<(u32, u32), Fault>
        ensures { Gives (read.quotas self.old.rest.now) result self.new.rest.now }
    {
        let _allocs = self.word(Fixed::Allocs)?;
        let allocs = self.number(64, Bound::Limit(Which::Allocs))?;
        let _fuel = self.word(Fixed::Fuel)?;
        let fuel = self.number(1_000_000, Bound::Limit(Which::Fuel))?;
        Ok((allocs as u32, fuel as u32))
    }

    /// The body of an operation, behind its heading.
    #[tactic(auto, unfolding(crate::specs::Readers::body))]
    fn body(
        &mut self,
        alloc: Global,
        name: Word,
        params: Items<TreeField>,
        quotas: (u32, u32),
    ) -> Result<TreeOp, Fault>
        ensures { Gives (read.body name params quotas.0 quotas.1 self.old.rest.now) result self.new.rest.now }
    {
        let (allocs, fuel) = quotas;
        let _left = self.word(Fixed::LBrace)?;
        let vars = self.vars(alloc, params.len())?;
        let body = self.statements(alloc, 32)?;
        let _right = self.word(Fixed::RBrace)?;
        Ok(TreeOp {
            name,
            params,
            vars,
            allocs,
            fuel,
            body,
        })
    }

    #[tactic(auto, unfolding(crate::specs::Readers::op_behind))]
    fn op_behind(&mut self, alloc: Global, before: Items<TreeOp>) -> Result<Items<TreeOp>, Fault>
        ensures { Gives (read.op_behind before self.old.rest.now) result self.new.rest.now }
    {
        let mut ops = before;
        let _line = self.word(Fixed::Op)?;
        let name = self.declared(alloc, 64, ops.len(), Bound::Limit(Which::Ops))?;
        let _left = self.word(Fixed::LParen)?;
        let params = self.fields_behind(alloc, 32, Bound::Limit(Which::Locals), 0)?;
        let _right = self.word(Fixed::RParen)?;
        let quotas = self.quotas()?;
        let op = self.body(alloc, name, params, quotas)?;
        ops.push(op)?;
        Ok(ops)
    }

    #[tactic(auto, using(crate::proofs::MoreSteps::ops_steps), unfolding(crate::specs::Readers::ops))]
    fn ops(&mut self, alloc: Global) -> Result<Items<TreeOp>, Fault>
        ensures { Gives (read.ops self.old.rest.now) result self.new.rest.now }
    {
        let mut found: Items<TreeOp> = Items::new(alloc);
        'found: while self.at(Fixed::Op) {
            found = self.op_behind(alloc, found)?;
        }
        Ok(found)
    }

    /// All that a module declares.
    #[tactic(auto, unfolding(crate::specs::Readers::module_text))]
    pub(crate) fn module_text(&mut self, alloc: Global) -> Result<Declared, Fault>
        ensures { Gives (read.module_text self.old.rest.now) result self.new.rest.now }
    {
        let _line = self.word(Fixed::Domlock)?;
        let version = self.version()?;
        let (kinds, _roots) = self.kinds(alloc)?;
        let ops = self.ops(alloc)?;
        Ok(Declared {
            version,
            kinds,
            ops,
        })
    }
}
