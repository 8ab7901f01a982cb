//! From the parts of a stored path back to the written nodes. Nothing here takes memory or fails.

ghost use Rattle.std.specs.Prelude.{◌≡◌, ◌++◌, ◌≤◌, ◌-◌, true, length, if◌then◌else◌, option_copied, option_map, slice_get};
ghost use Rattle.hir_store.specs.declared.name.Name.TheVariants.{Text};
ghost use Rattle.hir_syntax.specs.declared.types.GenericArg.{out-GenericArg};
ghost use Rattle.spec_data.specs.Arguments.{argument_corresponds, arguments_among, binding_corresponds, kept_args, kept_bindings};
ghost use Rattle.spec_data.specs.Segments.{named_among, named_segments, segment_name};

use hir_syntax::ast::{AssocTypeArg, GenericArg, GenericArgList, Path, PathSegment, SegmentKind};

/// The name that the segment bears: its own, or `Self`. A keyword, `$crate`, a qualified type and a segment without its name
/// bear none.
pub fn segment_name(segment: &PathSegment) -> Option<&str>
    ensures { option_map (λ t. Text t.now) result ≡ segment_name segment.now }
{
    match segment.seg {
        Some(SegmentKind::Name) => match &segment.name {
            Some(name) if name.t.as_str() != "$crate" => Some(name.t.as_str()),
            _ => None,
        },
        Some(SegmentKind::SelfTypeKw) => Some("Self"),
        _ => None,
    }
}

/// The segments that stand in place of a qualified type as the first one, which are those of its trait, and those behind
/// it; none and all of them where there is no trait, and none at all where the trait has no path.
pub fn named_parts(path: &Path) -> (&[Option<PathSegment>], &[Option<PathSegment>])
    ensures { named_among (result.0.now ++ result.1.now) ≡ named_segments path.now }
{
    let segments = path.segs.as_slice();
    let [Some(first), rest @ ..] = segments else {
        return (&[], segments);
    };
    let (Some(SegmentKind::Qualified), Some(of_trait)) = (first.seg, &first.trait_) else {
        return (&[], segments);
    };
    match &of_trait.path {
        None => (&[], &[]),
        Some(path) => (path.get().segs.as_slice(), rest),
    }
}

fn named_count(segments: &[Option<PathSegment>]) -> usize
    ensures { result ≡ length (named_among segments.now) }
{
    let mut count: usize = 0;
    for segment in segments {
        if let Some(segment) = segment
            && segment_name(segment).is_some()
        {
            count += 1;
        }
    }
    count
}

fn nth_named(segments: &[Option<PathSegment>], index: usize) -> Option<&PathSegment>
    ensures { option_copied result ≡ slice_get (named_among segments.now) index }
{
    let mut before = index;
    for segment in segments {
        if let Some(segment) = segment
            && segment_name(segment).is_some()
        {
            if before == 0 {
                return Some(segment);
            }
            before -= 1;
        }
    }
    None
}

/// Of the path's own segments that bear a name, those of a trait in place of the type that it qualifies, lends the one of
/// this number, or none where there are fewer (upstream's function of this name).
///
/// Where the path is lowered, no use tree stands around it or its trait, no segment of either is missing and the trait has
/// no qualified type, it bears the stored path's name of that number.
#[tactic(auto, using(crate::proofs::Named::nth_of_front, crate::proofs::Named::nth_behind))]
pub fn hir_segment_to_ast_segment(path: &Path, segment_index: u32) -> Option<&PathSegment>
    ensures { option_copied result ≡ slice_get (named_segments path.now) segment_index }
{
    let (front, behind) = named_parts(path);
    let index = segment_index as usize;
    let count = named_count(front);
    if index < count {
        nth_named(front, index)
    } else {
        nth_named(behind, index - count)
    }
}

/// Whether the argument stands in the stored list as one: a type, a constant, or a lifetime that is there.
fn argument_corresponds(arg: &GenericArg) -> bool
    ensures { result ≡ argument_corresponds (out-GenericArg arg.now) }
{
    match arg {
        GenericArg::TypeArg(_) => true,
        GenericArg::ConstArg(_) => true,
        GenericArg::LifetimeArg(arg) => arg.lifetime.is_some(),
        GenericArg::AssocTypeArg(_) => false,
    }
}

fn nth_argument(args: &[GenericArg], index: u32) -> Option<&GenericArg>
    ensures { option_copied result ≡ slice_get (arguments_among args.now) index }
{
    let mut before = index;
    for arg in args {
        if argument_corresponds(arg) {
            if before == 0 {
                return Some(arg);
            }
            before -= 1;
        }
    }
    None
}

/// Lends the written argument of this number in the stored list, or none where there are fewer (upstream's function of this
/// name); where the list has an argument for `Self` in front, which is no written one, the number is at least 1.
pub fn hir_generic_arg_to_ast(
    args: &GenericArgList,
    arg_index: u32,
    has_self_arg: bool,
) -> Option<&GenericArg>
    requires { has_self_arg ≡ true → 1 ≤ arg_index }
    ensures { option_copied result ≡ slice_get (kept_args args.now) (if has_self_arg then arg_index - 1 else arg_index) }
{
    let index = if has_self_arg {
        arg_index - 1
    } else {
        arg_index
    };
    nth_argument(args.as_slice(), index)
}

/// Whether the binding stands in the stored list: it has a name and no parameter list.
fn binding_corresponds(binding: &AssocTypeArg) -> bool
    ensures { result ≡ binding_corresponds binding.now }
{
    !binding.params && binding.name.is_some()
}

/// Lends the written binding of this number in the stored list, or none where there are fewer (upstream's function of this
/// name).
pub fn hir_assoc_type_binding_to_ast(
    args: &GenericArgList,
    binding_index: u32,
) -> Option<&AssocTypeArg>
    ensures { option_copied result ≡ slice_get (kept_bindings args.now) binding_index }
{
    let mut before = binding_index;
    for arg in args.as_slice() {
        if let GenericArg::AssocTypeArg(binding) = arg
            && binding_corresponds(binding)
        {
            if before == 0 {
                return Some(binding);
            }
            before -= 1;
        }
    }
    None
}
