//! The law that the text of the skew heaps is that of a module that takes generated work.
#![tactic(auto)]

ghost use Rattle.dl_grammar.specs.Texts.{Spells, IsSyntaxFault};
ghost use Rattle.dl_grammar.specs.declared.fault.SyntaxFault.{SyntaxFault as SyntaxFaultOf};
ghost use Rattle.dl_grammar.specs.declared.tree.Tree.{Tree as TreeOf};
ghost use Rattle.dl_ir.specs.declared.modules.Module.{Module as ModuleOf};
ghost use Rattle.dl_skew.specs.Works.{SpellsWork};
ghost use Rattle.dl_types.specs.Rules.{Types, IsTypeFault};
ghost use Rattle.dl_types.specs.declared.fault.TypeFault.{TypeFault as TypeFaultOf};
ghost use Rattle.dl_work.specs.Works.{TakesWork};

use dl_modules::SKEW;

/// That the text of the skew heaps is that of a module that takes generated work. So it has no fault, and whoever reads
/// it finds such a module.
pub fn skew_takes_work()
    ensures spells { SpellsWork SKEW.now }
    ensures no_syntax_fault { (fault : SyntaxFaultOf) → ¬ IsSyntaxFault SKEW.now fault }
    ensures no_type_fault { (tree : TreeOf) (fault : TypeFaultOf) → Spells SKEW.now tree → ¬ IsTypeFault tree fault }
    ensures found { (tree : TreeOf) (source : ModuleOf) → Spells SKEW.now tree → Types tree source → TakesWork source }
{}
