//! Patterns where only a plain name or `_` may stand, also as what a call stands for.

ghost use Rattle.std.specs.Prelude.{◌≡◌};
ghost use Rattle.hir_syntax.specs.declared.pats.PatKind.{out-PatKind};
ghost use Rattle.hir_binding.specs.declared.binding.BindingAnnotation.TheVariants.{Unannotated};
ghost use Rattle.hir_store.specs.Range.{HasPat};
ghost use Rattle.hir_env.specs.ResolvedTree as tree;
ghost use Rattle.hir_env.specs.Answering.{name_written};
ghost use Rattle.hir_env.specs.Pats.{name_hygiene};
ghost use Rattle.hir_env.specs.TypePats.{bare_part, bare_pat};
ghost use Rattle.hir_env.specs.Whole.{resolved_pat, pat_part};
ghost use Rattle.hir_lower_builder.specs.Lowering.{Lowers};
ghost use Rattle.hir_lower_builder.specs.Methods.{LowersTop};
ghost use Rattle.hir_lower_builder.specs.Nests.{IfPresent};
ghost use Rattle.hir_lower_builder.specs.Pats.{barred_pat_form};
ghost use Rattle.hir_lower_pat.specs.Bare.{bare_as, bare_kind, is_bare_ident};
ghost use Rattle.hir_lower_pat.specs.Bindings.{HasNames};
ghost use Rattle.hir_lower_pat.specs.Calls.{written_call};
ghost use Rattle.hir_lower_pat.specs.Methods.{LowersPat, use_with};

use hir_base::node::{AstPtr, InFile};
use hir_binding::binding::BindingAnnotation;
use hir_env::expand::FragmentKind;
use hir_lower_builder::builder::BodyBuilder;
use hir_lower_builder::calls::enter;
use hir_lower_builder::names::name_of;
use hir_lower_builder::parts::{LowerExprs, LowerParts, Lowerer, site};
use hir_lower_builder::store_sink::StoreSink;
use hir_lower_pat::bindings::Bindings;
use hir_lower_pat::calls::pat_of;
use hir_store::diagnostics::ExpressionStoreDiagnostics;
use hir_store::error::StoreError;
use hir_store::hir::Pat;
use hir_store::ids::{HygieneId, PatId};
use hir_syntax::{Boxed, ast};

/// One that is neither a plain name nor `_` is a fault, and missing.
fn barred_form<I: StoreSink>(
    state: &mut BodyBuilder<I>,
    at: InFile<AstPtr>,
) -> Result<PatId, StoreError>
    ensures { Lowers HasPat (barred_pat_form at) state.old result state.new }
{
    state.report(ExpressionStoreDiagnostics::PatternArgInExternFn { node: at })?;
    state.missing_pat()
}

/// Whether a name stands there without `ref`, `mut` and `@`.
fn is_alone(is_ref: bool, is_mut: bool, part: &Option<Boxed<ast::Pat>>) -> bool
    ensures { result ≡ is_bare_ident is_ref is_mut part.now }
{
    match part {
        None => !is_ref && !is_mut,
        Some(_) => false,
    }
}

/// The hygiene of a name is that of its node, or the root's where it is absent.
fn hygiene_of<P: LowerParts>(lowerer: &Lowerer<P>, name: &Option<ast::Name>) -> HygieneId
    ensures { let at = P.rctx lowerer.now.parts in result ≡ name_hygiene at.answers at.place name.now }
{
    match name {
        None => HygieneId::ROOT,
        Some(name) => lowerer
            .parts
            .hygiene(site(lowerer.pointer(name.id, name.range))),
    }
}

/// A name that binds, whatever it stands for elsewhere.
#[tactic(auto, unfolding(hir_lower_builder::specs::Pats::bind_form))]
fn plain_name<I: StoreSink, P: LowerExprs<I>>(
    lowerer: &Lowerer<P>,
    state: &mut BodyBuilder<I>,
    bindings: &mut Bindings,
    at: InFile<AstPtr>,
    name: &Option<ast::Name>,
) -> Result<PatId, StoreError>
    requires { HasNames state.old.stored bindings.old }
    ensures { let use_ = use_with (P.rctx lowerer.now.parts) name.now Unannotated in
        LowersPat (tree.bind_pat at use_ (name_written name.now) tree.no_pat) bindings.old state.old result bindings.new state.new }
{
    let hygiene = hygiene_of(lowerer, name);
    let name = name_of(name)?;
    let id = bindings.use_name(state, name, hygiene, BindingAnnotation::Unannotated)?;
    let pat = state.alloc_pat(Pat::Bind { id, subpat: None }, Some(at))?;
    state.define(id, pat)?;
    Ok(pat)
}

/// A call that is written here: what it stands for, which may only be a plain name or `_` either. Its node leads there.
#[cycle(bare)]
#[tactic(auto, using(hir_lower_pat::proofs::BarePats::bare_on))]
fn bare_call<I: StoreSink, P: LowerExprs<I>>(
    lowerer: &Lowerer<P>,
    state: &mut BodyBuilder<I>,
    bindings: &mut Bindings,
    at: InFile<AstPtr>,
    call: &ast::MacroCall,
) -> Result<PatId, StoreError>
    requires part { (P.can lowerer.now.parts).pat_call (P.rctx lowerer.now.parts).place call.now }
    requires names { HasNames state.old.stored bindings.old }
    ensures { LowersPat (bare_pat (written_call (P.rctx lowerer.now.parts) at call.now))
        bindings.old state.old result bindings.new state.new }
{
    let entered = enter(lowerer, state, FragmentKind::Pat, call)?;
    let id = match pat_of(entered) {
        None => state.missing_pat()?,
        Some((place, node)) => bare_form(&lowerer.moved(place), state, bindings, node)?,
    };
    state.point_pat(at, id)?;
    Ok(id)
}

/// The pattern, by its kind.
#[cycle(bare)]
fn bare_kind_form<I: StoreSink, P: LowerExprs<I>>(
    lowerer: &Lowerer<P>,
    state: &mut BodyBuilder<I>,
    bindings: &mut Bindings,
    node: &ast::Pat,
) -> Result<PatId, StoreError>
    requires part { (P.can lowerer.now.parts).pat (P.rctx lowerer.now.parts).place node.now }
    requires names { HasNames state.old.stored bindings.old }
    ensures { LowersPat (bare_as (P.rctx lowerer.now.parts) node.now (bare_kind (out-PatKind node.now.kind)))
        bindings.old state.old result bindings.new state.new }
{
    let at = lowerer.pointer(node.id, node.range);
    match &node.kind {
        ast::PatKind::IdentPat {
            name,
            ref_,
            mut_,
            pat,
        } => {
            if is_alone(*ref_, *mut_, pat) {
                plain_name(lowerer, state, bindings, at, name)
            } else {
                barred_form(state, at)
            }
        }
        ast::PatKind::WildcardPat => state.alloc_pat(Pat::Wild, Some(at)),
        ast::PatKind::MacroPat { call: None } => state.missing_pat(),
        ast::PatKind::MacroPat { call: Some(call) } => {
            bare_call(lowerer, state, bindings, at, call)
        }
        _ => barred_form(state, at),
    }
}

/// A pattern where only a plain name, which binds whatever it stands for elsewhere, or `_` may stand. Another is a fault and missing.
#[cycle(bare)]
#[tactic(auto, using(hir_lower_pat::proofs::BarePats::bare_is))]
fn bare_form<I: StoreSink, P: LowerExprs<I>>(
    lowerer: &Lowerer<P>,
    state: &mut BodyBuilder<I>,
    bindings: &mut Bindings,
    node: &ast::Pat,
) -> Result<PatId, StoreError>
    requires part { (P.can lowerer.now.parts).pat (P.rctx lowerer.now.parts).place node.now }
    requires names { HasNames state.old.stored bindings.old }
    ensures { LowersPat (bare_pat (resolved_pat (P.rctx lowerer.now.parts) node.now))
        bindings.old state.old result bindings.new state.new }
{
    bare_kind_form(lowerer, state, bindings, node)
}

fn whole_bare<I: StoreSink, P: LowerExprs<I>>(
    lowerer: &Lowerer<P>,
    state: &mut BodyBuilder<I>,
    node: &ast::Pat,
) -> Result<PatId, StoreError>
    requires { (P.can lowerer.now.parts).pat (P.rctx lowerer.now.parts).place node.now }
    ensures { LowersTop (tree.some_pat (bare_pat (resolved_pat (P.rctx lowerer.now.parts) node.now))) state.old result state.new }
{
    let mut bindings = Bindings::new(lowerer.alloc);
    let id = bare_form(lowerer, state, &mut bindings, node)?;
    bindings.settle(state);
    Ok(id)
}

/// The pattern of a parameter that may only be a plain name or `_`, missing where it is absent.
///
/// `Full` where an arena has reached its limit; `Memory` where a growth was refused. What was stored by then stays stored.
pub fn bare_top<I: StoreSink, P: LowerExprs<I>>(
    lowerer: &Lowerer<P>,
    state: &mut BodyBuilder<I>,
    part: &Option<Boxed<ast::Pat>>,
) -> Result<PatId, StoreError>
    requires { IfPresent ((P.can lowerer.now.parts).pat (P.rctx lowerer.now.parts).place) part.now }
    ensures { LowersTop (bare_part (pat_part (P.rctx lowerer.now.parts) part.now)) state.old result state.new }
{
    match part {
        None => state.missing_pat(),
        Some(part) => whole_bare(lowerer, state, part.get()),
    }
}
