//! What lowering tells, by one induction for all that is told of its steps. A theorem is a function whose contract is the theorem.

ghost use Rattle.thm_body_result.specs.EmittedTheorems.{BodiesEnter, BodiesExpand, BodiesFit, BodiesReport};
ghost use Rattle.thm_body_result.specs.EmittedTheorems.{ExprsEnter, ExprsExpand, ExprsFit, ExprsTrack, ExprsReport};
ghost use Rattle.thm_body_result.specs.EmittedTheorems.{PathsExpand, PatsTrack, TargetsTrack, TypesExpand, TypesTrack};
ghost use Rattle.thm_body_result.specs.LeadsOn.{ExprsLead, PathsLead, PatsLead, TargetsLead, TypesLead};
ghost use Rattle.thm_body_result.specs.StoredTheorems.{BodiesStore, ExprsStore, PathsStore, PatsStore, TypesStore, WholeBodiesStore};
ghost use Rattle.thm_body_result.specs.StoredTheorems.{WholeTypesStore};
ghost use Rattle.thm_body_result.specs.EmittedExample.{SmallCalls};
ghost use Rattle.thm_body_result.specs.ExampleData.{AllSmallData};
ghost use Rattle.thm_body_result.specs.ExampleOrders.{AllSmallOrders};
ghost use Rattle.thm_body_result.specs.ExampleTargets.{AllSmallTargets};

/// A `yield` is noted where one is told of an expression, and nowhere else.
pub fn exprs_track()
    ensures { ExprsTrack }
{}

/// Of a type likewise.
pub fn types_track()
    ensures { TypesTrack }
{}

/// Of a whole pattern likewise.
pub fn pats_track()
    ensures { PatsTrack }
{}

/// Of the assignee expression likewise.
pub fn targets_track()
    ensures { TargetsTrack }
{}

/// Whether or not there is room for an expression, no arena gets shorter, bindings and what owns them stay, and a node that led somewhere
/// leads there still, or to what came since. What is answered came since.
pub fn exprs_lead()
    ensures { ExprsLead }
{}

/// Of a type likewise, of the assignee expression, and, except for what is answered, of a whole pattern and of a path.
pub fn parts_lead()
    ensures types { TypesLead }
    ensures targets { TargetsLead }
    ensures pats { PatsLead }
    ensures paths { PathsLead }
{}

/// The faults of an expression come behind those that were met before, in the order in which they are told.
pub fn exprs_report()
    ensures { ExprsReport }
{}

/// So do the numbers of the blocks that it enters.
pub fn exprs_enter()
    ensures { ExprsEnter }
{}

/// The macro calls that are entered in an expression come behind those that were entered before, each behind what else was expanded for
/// it, in the order in which they are told.
pub fn exprs_expand()
    ensures { ExprsExpand }
{}

/// Of a type likewise, and of a path.
pub fn types_expand()
    ensures types { TypesExpand }
    ensures paths { PathsExpand }
{}

/// Of a body behind its parameters likewise.
pub fn bodies_expand()
    ensures { BodiesExpand }
{}

/// As much is stored as is told of an expression, or there is no room for it.
pub fn exprs_fit()
    ensures { ExprsFit }
{}

/// The faults of a body behind its parameters come behind those that were met before, in the order in which they are told, also where it
/// is a coroutine.
pub fn bodies_report()
    ensures { BodiesReport }
{}

/// So do the numbers of the blocks that it enters.
pub fn bodies_enter()
    ensures { BodiesEnter }
{}

/// As much is stored as is told of a body behind its parameters, or there is no room for it.
pub fn bodies_fit()
    ensures { BodiesFit }
{}

/// Each type and each lifetime that is stored where an expression is lowered reads back as is told of it, in each later store, in the order
/// in which they are stored: also those that nothing reaches.
pub fn exprs_store()
    ensures { ExprsStore }
{}

/// Of a type likewise, of a path, also of one that is refused, and of a whole pattern.
pub fn types_store()
    ensures types { TypesStore }
    ensures paths { PathsStore }
    ensures pats { PatsStore }
    ensures whole { WholeTypesStore }
{}

/// Of a body behind its parameters likewise.
pub fn bodies_store()
    ensures bodies { BodiesStore }
    ensures whole { WholeBodiesStore }
{}

/// Small trees with macro calls: what was expanded for one stands before it, a call before those in what it stands for, and of what is
/// gone those are told that were entered to find that out.
pub fn small_calls()
    ensures { SmallCalls }
{}

/// Small types, paths, patterns, statements and bodies with macro calls: a call is entered before those in what it stands for, a length
/// before elements, the last segment of a path before the first, a call that stands for two dots or for statements before what follows,
/// and parameters before their body.
pub fn small_orders()
    ensures { AllSmallOrders }
{}

/// Small targets with macro calls: elements and callees that aren't found are faults, in their order, and so is a call in front of the
/// two dots that it stands for; those that are entered are told in that order. An element comes from its outermost call, to which no
/// node leads, and a call that is the whole target leads to what it stands for.
pub fn small_targets()
    ensures { AllSmallTargets }
{}

/// Small types of which something is stored and not reached: the bounds of an `impl` that isn't allowed, a lifetime among them, and the
/// argument behind what refuses a path.
pub fn small_data()
    ensures { AllSmallData }
{}
