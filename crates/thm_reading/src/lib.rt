//! What is read of a written tree is what the rules of `Rules` allow, a rule for each kind. The theorems are the contracts of empty
//! functions.
#![tactic(auto)]

ghost use Rattle.thm_reading.specs.Conditions.{EmitsLets};
ghost use Rattle.thm_reading.specs.Decided.{BareNamesDecided, BarePatsDecided, ElementsDecided, ForItemsDecided};
ghost use Rattle.thm_reading.specs.Decided.{QuestionItemsDecided, RangesDecided, SidesDecided, TypePatsDecided};
ghost use Rattle.thm_reading.specs.Formals.{FormalsByRules};
ghost use Rattle.thm_reading.specs.Theorems.{ExprsByRules, PathsByRules, PatsByRules, TypesByRules, UseTreesByRules};
ghost use Rattle.thm_reading.specs.OneTree.{OneArg, OneBlock, OneBounds, OneExpr, OneFormals, OnePat, OnePath, OnePlainBlock, OneStmt};
ghost use Rattle.thm_reading.specs.OneTree.{OneType, OneUseTree, OneValue};
ghost use Rattle.thm_reading.specs.OneTree.{OneBarePat, OneElement, OneForItems, OneQuestionItems, OneRange, OneSide, OneTarget};
ghost use Rattle.thm_reading.specs.OneTree.{OneTypePat};
ghost use Rattle.thm_reading.specs.Targets.{TargetsDecided};

/// Types, paths, patterns and expressions, with the blocks and statements in them and what macro calls in them stand for.
pub fn read_by_rules()
    ensures types { TypesByRules }
    ensures paths { PathsByRules }
    ensures use_trees { UseTreesByRules }
    ensures pats { PatsByRules }
    ensures exprs { ExprsByRules }
{}

/// The parameters of a body.
pub fn formals_by_rules()
    ensures { FormalsByRules }
{}

/// Which conditions of a `while` hold a `let`.
pub fn holds_a_let()
    ensures { EmitsLets }
{}

/// What is decided on the resolved tree: the ends of ranges, the elements of tuples and calls, patterns in types and where only plain names
/// may stand, what a range becomes, which items `for` and `?` take, which paths are one name that begins nowhere, and what an expression is
/// that is assigned to.
pub fn decided_by_rules()
    ensures sides { SidesDecided }
    ensures elements { ElementsDecided }
    ensures type_pats { TypePatsDecided }
    ensures bare_pats { BarePatsDecided }
    ensures ranges { RangesDecided }
    ensures for_items { ForItemsDecided }
    ensures question_items { QuestionItemsDecided }
    ensures bare_names { BareNamesDecided }
    ensures targets { TargetsDecided }
{}

/// Its rules allow one thing alone.
pub fn one_decided_by_rules()
    ensures sides { OneSide }
    ensures elements { OneElement }
    ensures type_pats { OneTypePat }
    ensures bare_pats { OneBarePat }
    ensures ranges { OneRange }
    ensures for_items { OneForItems }
    ensures question_items { OneQuestionItems }
    ensures targets { OneTarget }
{}

/// The rules allow one tree alone, of each written part, wherever it stands.
pub fn one_tree_by_rules()
    ensures types { OneType }
    ensures paths { OnePath }
    ensures use_trees { OneUseTree }
    ensures args { OneArg }
    ensures bounds { OneBounds }
    ensures pats { OnePat }
    ensures exprs { OneExpr }
    ensures values { OneValue }
    ensures blocks { OneBlock }
    ensures plain_blocks { OnePlainBlock }
    ensures stmts { OneStmt }
    ensures formals { OneFormals }
{}
