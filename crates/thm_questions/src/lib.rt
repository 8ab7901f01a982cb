//! What reading a tree asks of an environment, as a list that a reader can compute, and about which nodes that is. Each theorem is the
//! contract of an empty function.
#![tactic(auto)]

ghost use Rattle.thm_questions.specs.Forms.{AssignmentAsks, BlockAsks, EnteredCallAsks, ForAsks, LimitedCallAsks, LiteralAsks};
ghost use Rattle.thm_questions.specs.Forms.{DollarCrateAsks, PathAloneAsks, PathAsks, PlainNameAsks, QuestionAsks, UnresolvedCallAsks};
ghost use Rattle.thm_questions.specs.Theorems.{BodiesByList, BodiesKeepNodes, ExprsAtNodes, ExprsByList, ExprsInFiles, ExprsKeepNodes};
ghost use Rattle.thm_questions.specs.Theorems.{ListsKeepNodes, PathsAtNodes, PathsByList, PathsInFiles, PathsKeepNodes, PatsAtNodes};
ghost use Rattle.thm_questions.specs.Theorems.{PatsByList, PatsInFiles};
ghost use Rattle.thm_questions.specs.Theorems.{PatsKeepNodes, TypesAtNodes, TypesByList, TypesInFiles, TypesKeepNodes};

/// Two environments that answer alike what one of them is asked by the list of a tree read it as the same resolved tree.
pub fn by_list()
    ensures types { TypesByList }
    ensures paths { PathsByList }
    ensures pats { PatsByList }
    ensures exprs { ExprsByList }
{}

/// So they read the parameters of a body, itself, and what else the contract of lowering it says of the environment.
pub fn bodies_by_list()
    ensures { BodiesByList }
{}

/// What the list of a tree asks about nodes is about nodes of the tree, or of what its calls stand for, and what it asks in a module is
/// asked in the module of the place, or in that of a block.
pub fn at_nodes()
    ensures types { TypesAtNodes }
    ensures paths { PathsAtNodes }
    ensures pats { PatsAtNodes }
    ensures exprs { ExprsAtNodes }
{}

/// An environment that answers alike every question about the nodes of a tree and of what its calls stand for, every one that is asked in
/// its modules, and those of a list that are about no node and in no module, answers the list alike and reads the same. The same holds of a
/// body and its parameters.
pub fn keep_nodes()
    ensures lists { ListsKeepNodes }
    ensures types { TypesKeepNodes }
    ensures paths { PathsKeepNodes }
    ensures pats { PatsKeepNodes }
    ensures exprs { ExprsKeepNodes }
    ensures bodies { BodiesKeepNodes }
{}

/// Where a tree stands in a set of files and modules that is closed under expansions and blocks, its list is asked there.
pub fn in_files()
    ensures types { TypesInFiles }
    ensures paths { PathsInFiles }
    ensures pats { PatsInFiles }
    ensures exprs { ExprsInFiles }
{}

/// A literal asks its condition alone, and a path what the path asks, and the hygiene of its node.
pub fn leaves_ask()
    ensures literal { LiteralAsks }
    ensures path { PathAsks }
{}

/// A path asks what its segments and the use trees around it ask, the root of a crate if it is one segment that stands directly in a macro
/// call, and its alias in an argument. A plain name without arguments asks nothing, and `$crate` the root of its crate.
pub fn paths_ask()
    ensures alone { PathAloneAsks }
    ensures plain_name { PlainNameAsks }
    ensures dollar_crate { DollarCrateAsks }
{}

/// A call asks nothing where none may be entered, its expansion alone where that is unresolved, and else what it stands for, too.
pub fn calls_ask()
    ensures limited { LimitedCallAsks }
    ensures unresolved { UnresolvedCallAsks }
    ensures entered { EnteredCallAsks }
{}

/// A block asks its number, and in the module of that what is in it; `for` and `?` ask their items; an assignment asks of what is on its
/// left as of the assignee expression, too.
pub fn forms_ask()
    ensures block { BlockAsks }
    ensures for_loop { ForAsks }
    ensures question_mark { QuestionAsks }
    ensures assignment { AssignmentAsks }
{}
