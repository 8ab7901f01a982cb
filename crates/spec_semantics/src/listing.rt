//! What each form lists of the bodies inside its parts.

ghost use Rattle.spec_semantics.specs.FormRows.{ExprsListParts, TypesListParts, PatsListParts, TargetsListParts};

/// The bodies inside a form are those inside its parts, each of them, in the order of parts; a field without a name, what stands beside a
/// path that is refused, and the bounds of an `impl` that isn't allowed or is a parameter have none. A call has those of what it stands
/// for.
pub fn each_form_lists_its_parts()
    ensures exprs { ExprsListParts }
    ensures types { TypesListParts }
    ensures pats { PatsListParts }
    ensures targets { TargetsListParts }
{}
