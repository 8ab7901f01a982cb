//! What lowering makes of a tree depends on finitely many questions: every environment that answers these alike reads the tree alike. Each
//! theorem is the contract of an empty function.
#![tactic(auto)]

ghost use Rattle.thm_frame.specs.Theorems.{BodiesFramed, BodiesKeep, ExprsFramed, PathsFramed, PatsFramed, TypesFramed};

/// A written tree is read as the same resolved tree by each two environments that answer alike what is asked of one of them. What is asked
/// about nodes is about files and modules of each area that the tree stands in, which is closed under expansions and blocks.
pub fn framed()
    ensures types { TypesFramed }
    ensures paths { PathsFramed }
    ensures pats { PatsFramed }
    ensures exprs { ExprsFramed }
{}

/// So are the parameters of a body, itself, and what else the contract of lowering it says of the environment.
pub fn bodies_framed()
    ensures { BodiesFramed }
{}

/// An environment that answers alike what may be asked in such an area reads the same body: what is answered about other files and modules
/// doesn't matter.
pub fn bodies_keep()
    ensures { BodiesKeep }
{}
