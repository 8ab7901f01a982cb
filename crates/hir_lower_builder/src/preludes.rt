//! What stands in front of the body of a coroutine that a closure or a function has.

ghost use Rattle.std.specs.Prelude.{◌≡◌, Ok, IfOk, [], ◌∷◌, slice_get};
ghost use Rattle.hir_store.specs.Past.{join, past_statements};
ghost use Rattle.hir_store.specs.Range.{HasBindingId, HasExpr, HasPat, HasPatParts, HasPats, HasStatements};
ghost use Rattle.hir_lower_builder.specs.Lowering.{Lowers};
ghost use Rattle.hir_lower_builder.specs.Methods.{HasPrelude, HasRead, HasRebound, HasSelf, HasSelfPrelude};
ghost use Rattle.hir_lower_builder.specs.Preludes as spec;

use crate::builder::BodyBuilder;
use crate::store_sink::StoreSink;
use hir_base::node::{AstPtr, InFile};
use hir_store::error::StoreError;
use hir_store::hir::{
    Binding, BindingAnnotation, CaptureBy, ClosureKind, CoroutineKind, CoroutineSource, Expr, Pat,
    Statement,
};
use hir_store::ids::{BindingId, ExprId, HygieneId, PatId, TypeRefId};
use hir_store::lists::{append_statements, push_pat, push_statement};
use hir_store::name::Name;
use hir_store::path::{ModPath, Path, PathKind};
use hir_syntax::Seq;
use std::alloc::{AllocError, Global};

/// The name by which a parameter is handed in, and the parameter's own pattern.
#[derive(Drop)]
pub struct Handed {
    pub name: Name,
    pub hygiene: HygieneId,
    pub pat: PatId,
}

/// The written name that a pattern is as a whole, and whether it is that name alone, plain or `mut`.
#[derive(Drop)]
pub struct OwnName {
    pub name: Name,
    pub hygiene: HygieneId,
    pub is_alone: bool,
}

/// The `let`s of the parameters so far, and how each is handed in.
#[derive(Drop)]
pub struct Prelude {
    pub handed: Seq<Handed>,
    pub lets: Seq<Statement>,
}

/// What is in a closure whose body is a coroutine: the types of its parameters and what it returns, how each parameter is handed in,
/// and the coroutine.
#[derive(Drop)]
pub struct Within {
    pub arg_types: Seq<Option<TypeRefId>>,
    pub ret: Option<TypeRefId>,
    pub handed: Seq<Handed>,
    pub coroutine: ExprId,
}

impl Prelude {
    /// Of no parameters. It takes no memory.
    pub fn new(alloc: Global) -> Prelude
        ensures { result ≡ spec.no_prelude }
    {
        Prelude {
            handed: Seq::new(alloc),
            lets: Seq::new(alloc),
        }
    }

    /// One parameter more, handed in like this, with its `let`s.
    #[inline(never)]
    fn with_handed(self, one: Handed, more: Seq<Statement>) -> Result<Prelude, AllocError>
        ensures value { IfOk result (λ l. l ≡ spec.add_handed self one more) }
        ensures past { IfOk result (λ l. past_statements l.lets ≡ join (past_statements self.lets) (past_statements more)) }
    {
        let Prelude {
            mut handed,
            mut lets,
        } = self;
        append_statements(&mut lets, more)?;
        handed.push(one)?;
        Ok(Prelude { handed, lets })
    }
}

/// The path of this name.
fn name_path(alloc: Global, name: &Name) -> Result<Path, AllocError>
    ensures { IfOk result (λ p. p ≡ spec.name_path name.now) }
{
    let copy = name.clone()?;
    let mut segments = Seq::new(alloc);
    segments.push(copy)?;
    Ok(Path::BarePath(ModPath {
        kind: PathKind::Plain,
        segments,
    }))
}

/// A `let` of the pattern with this value.
fn let_from(pat: PatId, value: ExprId) -> Statement
    ensures { result ≡ spec.let_from pat value }
{
    Statement::Let {
        pat,
        type_ref: None,
        initializer: Some(value),
        else_branch: None,
    }
}

/// A `let` alone.
fn one_let(alloc: Global, pat: PatId, value: ExprId) -> Result<Seq<Statement>, AllocError>
    ensures { IfOk result (λ ss. ss ≡ spec.let_from pat value ∷ []) }
{
    let mut lets = Seq::new(alloc);
    push_statement(&mut lets, let_from(pat, value))?;
    Ok(lets)
}

/// A `let`, and another one behind it.
fn two_lets(
    alloc: Global,
    between: PatId,
    first: ExprId,
    pat: PatId,
    second: ExprId,
) -> Result<Seq<Statement>, AllocError>
    ensures { IfOk result (λ ss. ss ≡ spec.let_from between first ∷ spec.let_from pat second ∷ []) }
{
    let mut lets = one_let(alloc, between, first)?;
    push_statement(&mut lets, let_from(pat, second))?;
    Ok(lets)
}

/// Whether a name that is bound like this, with this behind `@`, is bound as it is handed in.
fn is_plain(mode: BindingAnnotation, subpat: Option<PatId>) -> bool
    ensures { result ≡ spec.is_plain mode subpat }
{
    match (mode, subpat) {
        (BindingAnnotation::Unannotated, None) => true,
        (BindingAnnotation::Mutable, None) => true,
        _ => false,
    }
}

/// The written name of the binding that is made by a pattern with this behind `@`.
fn own_of(subpat: Option<PatId>, binding: &Binding) -> Result<Option<OwnName>, AllocError>
    ensures { IfOk result (λ own. own ≡ spec.own_of subpat binding.now) }
{
    let hygiene = binding.hygiene;
    let is_alone = is_plain(binding.mode, subpat);
    match &binding.name {
        Name::Text(text) => {
            let name = Name::Text(text.clone()?);
            Ok(Some(OwnName {
                name,
                hygiene,
                is_alone,
            }))
        }
        Name::Missing => Ok(Some(OwnName {
            name: Name::Missing,
            hygiene,
            is_alone,
        })),
        Name::Generated(_) => Ok(None),
    }
}

/// A binding of this name, mode and hygiene, in which nothing is wrong.
fn bound_anew(binding: &Binding) -> Result<Binding, AllocError>
    ensures { IfOk result (λ b. b ≡ spec.bound_anew binding.now) }
{
    Ok(Binding {
        name: binding.name.clone()?,
        mode: binding.mode,
        hygiene: binding.hygiene,
        problems: None,
    })
}

/// The coroutine around the block that is its body, which takes by reference what it uses of the outside.
fn coroutine_of(alloc: Global, kind: CoroutineKind, source: CoroutineSource, body: ExprId) -> Expr
    ensures { result ≡ spec.coroutine_of kind source body }
{
    Expr::Closure {
        args: Seq::new(alloc),
        arg_types: Seq::new(alloc),
        ret_type: None,
        body,
        closure_kind: ClosureKind::Coroutine { kind, source },
        capture_by: CaptureBy::Ref,
    }
}

impl<I: StoreSink> BodyBuilder<I> {
    /// Stores a path of this name, which comes from no node.
    #[tactic(auto, unfolding(crate::specs::Preludes::name_form))]
    #[inline(never)]
    fn read_name(
        &mut self,
        alloc: Global,
        name: &Name,
        hygiene: HygieneId,
    ) -> Result<ExprId, StoreError>
        ensures { Lowers HasExpr (spec.name_form name.now hygiene) self.old result self.new }
    {
        let path = name_path(alloc, name)?;
        self.alloc_expr(Expr::Path { path, hygiene }, None)
    }

    /// The node that the pattern came from, where it came from one.
    #[tactic(auto, unfolding(crate::specs::Preludes::pat_source))]
    fn pat_source(&self, pat: PatId) -> Option<InFile<AstPtr>>
        ensures { Lowers HasRead (spec.pat_source pat) self.now (Ok result) self.now }
    {
        self.store.pat_source(pat)
    }

    /// Stores a pattern from the node that this one came from, which doesn't lead to it.
    #[tactic(auto, unfolding(crate::specs::Preludes::alloc_beside))]
    fn alloc_beside(&mut self, pat: Pat, own: PatId) -> Result<PatId, StoreError>
        requires { HasPatParts self.old.stored pat }
        ensures { Lowers HasPat (spec.alloc_beside pat own) self.old result self.new }
    {
        let source = self.pat_source(own);
        self.alloc_desugared_pat(pat, source)
    }

    /// Stores a pattern that binds the name by which a parameter is handed in.
    #[tactic(auto, unfolding(crate::specs::Preludes::handed_form))]
    #[inline(never)]
    fn handed_pat(&mut self, handed: &Handed) -> Result<PatId, StoreError>
        ensures { Lowers HasPat (spec.handed_form handed.now) self.old result self.new }
    {
        let binding = Binding {
            name: handed.name.clone()?,
            mode: BindingAnnotation::Mutable,
            hygiene: handed.hygiene,
            problems: None,
        };
        let id = self.alloc_binding(binding)?;
        let pat = self.alloc_beside(Pat::Bind { id, subpat: None }, handed.pat)?;
        self.define(id, pat)?;
        Ok(pat)
    }

    /// A `let` of the pattern with the name by which it is handed in.
    #[tactic(auto, unfolding(crate::specs::Preludes::let_form))]
    fn let_form(
        &mut self,
        alloc: Global,
        handed: &Handed,
        pat: PatId,
    ) -> Result<Seq<Statement>, StoreError>
        requires { HasPat self.old.stored pat }
        ensures { Lowers HasStatements (spec.let_form handed.now pat) self.old result self.new }
    {
        let value = self.read_name(alloc, &handed.name, handed.hygiene)?;
        Ok(one_let(alloc, pat, value)?)
    }

    /// A `let` of a name in between, and one of the pattern with that.
    #[tactic(auto, unfolding(crate::specs::Preludes::two_lets_form))]
    fn two_lets_form(
        &mut self,
        alloc: Global,
        handed: &Handed,
        pat: PatId,
    ) -> Result<Seq<Statement>, StoreError>
        requires { HasPat self.old.stored pat }
        ensures { Lowers HasStatements (spec.two_lets_form handed.now pat) self.old result self.new }
    {
        let between = self.handed_pat(handed)?;
        let first = self.read_name(alloc, &handed.name, handed.hygiene)?;
        let second = self.read_name(alloc, &handed.name, handed.hygiene)?;
        Ok(two_lets(alloc, between, first, pat, second)?)
    }

    /// The written name of the binding, where there is one of that number, of a pattern with this behind `@`.
    fn own_bound(&self, id: BindingId, subpat: Option<PatId>) -> Result<Option<OwnName>, AllocError>
        ensures { IfOk result (λ own. own ≡ spec.own_bound subpat (slice_get self.now.stored.bindings.entries id.0)) }
    {
        match self.store.binding(id) {
            None => Ok(None),
            Some(binding) => own_of(subpat, binding),
        }
    }

    /// The name that the pattern is as a whole, where it is one that is written.
    #[tactic(auto, unfolding(crate::specs::Preludes::own_name_of))]
    fn own_name_of(&self, pat: PatId) -> Result<Option<OwnName>, StoreError>
        ensures { Lowers HasRead (spec.own_name_of pat) self.now result self.now }
    {
        match self.store.pat(pat) {
            Some(Pat::Bind { id, subpat }) => Ok(self.own_bound(*id, *subpat)?),
            _ => Ok(None),
        }
    }

    /// The parameter of this pattern is handed in by the name that the pattern is.
    ///
    /// ```text
    /// |mut x| async { let x = x; .. }     // of `async |x| ..`
    /// ```
    #[tactic(auto, unfolding(crate::specs::Preludes::handed_by_name))]
    fn handed_by_name(
        &mut self,
        alloc: Global,
        prelude: Prelude,
        pat: PatId,
        handed: Handed,
    ) -> Result<Prelude, StoreError>
        requires prelude { HasPrelude self.old.stored prelude }
        requires pat { HasPat self.old.stored pat }
        ensures { Lowers HasPrelude (spec.handed_by_name prelude pat handed) self.old result self.new }
    {
        let lets = self.let_form(alloc, &handed, pat)?;
        Ok(prelude.with_handed(handed, lets)?)
    }

    /// The parameter of this pattern is handed in by a name in between.
    ///
    /// ```text
    /// |mut made| async { let mut made = made; let (a, b) = made; .. }     // of `async |(a, b)| ..`
    /// ```
    #[tactic(auto, unfolding(crate::specs::Preludes::handed_between))]
    fn handed_between(
        &mut self,
        alloc: Global,
        prelude: Prelude,
        pat: PatId,
        handed: Handed,
    ) -> Result<Prelude, StoreError>
        requires prelude { HasPrelude self.old.stored prelude }
        requires pat { HasPat self.old.stored pat }
        ensures { Lowers HasPrelude (spec.handed_between prelude pat handed) self.old result self.new }
    {
        let lets = self.two_lets_form(alloc, &handed, pat)?;
        Ok(prelude.with_handed(handed, lets)?)
    }

    /// The parameter of this pattern is handed in by the name that the pattern is, or by one that is made up.
    #[tactic(auto, unfolding(crate::specs::Preludes::handed_in))]
    fn handed_in(
        &mut self,
        alloc: Global,
        prelude: Prelude,
        pat: PatId,
        own: Option<OwnName>,
    ) -> Result<Prelude, StoreError>
        requires prelude { HasPrelude self.old.stored prelude }
        requires pat { HasPat self.old.stored pat }
        ensures { Lowers HasPrelude (spec.handed_in prelude pat own) self.old result self.new }
    {
        match own {
            Some(
                OwnName {
                    name,
                    hygiene,
                    is_alone,
                },
            ) => {
                let handed = Handed { name, hygiene, pat };
                if is_alone {
                    self.handed_by_name(alloc, prelude, pat, handed)
                } else {
                    self.handed_between(alloc, prelude, pat, handed)
                }
            }
            None => {
                let handed = Handed {
                    name: Name::Generated(self.made_number()?),
                    hygiene: HygieneId::ROOT,
                    pat,
                };
                self.handed_between(alloc, prelude, pat, handed)
            }
        }
    }

    /// The prelude with what hands in the parameter of this pattern.
    #[tactic(auto, unfolding(crate::specs::Preludes::let_param))]
    #[inline(never)]
    fn let_param(
        &mut self,
        alloc: Global,
        prelude: Prelude,
        pat: PatId,
    ) -> Result<Prelude, StoreError>
        requires prelude { HasPrelude self.old.stored prelude }
        requires pat { HasPat self.old.stored pat }
        ensures { Lowers HasPrelude (spec.let_param prelude pat) self.old result self.new }
    {
        let own = self.own_name_of(pat)?;
        self.handed_in(alloc, prelude, pat, own)
    }

    /// Stores a pattern that binds anew what this binds, and `let`s it be that.
    ///
    /// ```text
    /// async { let self = self; .. }     // of `async fn f(self) { .. }`
    /// ```
    #[tactic(auto, unfolding(crate::specs::Preludes::rebind_form))]
    #[inline(never)]
    fn rebind(
        &mut self,
        alloc: Global,
        binding: Binding,
    ) -> Result<(BindingId, Seq<Statement>), StoreError>
        ensures { Lowers HasRebound (spec.rebind_form binding) self.old result self.new }
    {
        let anew = bound_anew(&binding)?;
        let id = self.alloc_binding(anew)?;
        let pat = self.alloc_pat(Pat::Bind { id, subpat: None }, None)?;
        self.define(id, pat)?;
        let value = self.read_name(alloc, &binding.name, binding.hygiene)?;
        Ok((id, one_let(alloc, pat, value)?))
    }

    /// The binding once more, where there is one of that number.
    #[tactic(auto, unfolding(crate::specs::Preludes::binding_of))]
    fn binding_of(&self, id: BindingId) -> Result<Option<Binding>, StoreError>
        ensures { Lowers HasRead (spec.binding_of id) self.now result self.now }
    {
        let Some(binding) = self.store.binding(id) else {
            return Ok(None);
        };
        Ok(Some(Binding {
            name: binding.name.clone()?,
            mode: binding.mode,
            hygiene: binding.hygiene,
            problems: binding.problems,
        }))
    }

    /// What a binding is from here on, with the `let` of it.
    fn rebound(
        &mut self,
        alloc: Global,
        id: BindingId,
        binding: Option<Binding>,
    ) -> Result<(BindingId, Seq<Statement>), StoreError>
        requires { HasBindingId self.old.stored id }
        ensures { Lowers HasRebound (spec.rebound id binding) self.old result self.new }
    {
        match binding {
            None => Ok((id, Seq::new(alloc))),
            Some(binding) => self.rebind(alloc, binding),
        }
    }

    /// Begins a prelude: what `self` is in the body, where there is one, with the `let` of it.
    #[tactic(auto, unfolding(crate::specs::Preludes::let_self))]
    #[inline(never)]
    pub fn let_self(
        &mut self,
        alloc: Global,
        receiver: Option<BindingId>,
    ) -> Result<(Option<BindingId>, Prelude), StoreError>
        requires { HasSelf self.old.stored receiver }
        ensures { Lowers HasSelfPrelude (spec.let_self receiver) self.old result self.new }
    {
        let Some(id) = receiver else {
            return Ok((None, Prelude::new(alloc)));
        };
        let binding = self.binding_of(id)?;
        let (id, lets) = self.rebound(alloc, id, binding)?;
        let handed = Seq::new(alloc);
        Ok((Some(id), Prelude { handed, lets }))
    }

    /// Stores the block with these `let`s in front of the body, and the coroutine around it, which both come from no node.
    ///
    /// ```text
    /// async { let x = x; .. body }
    /// ```
    #[tactic(auto, unfolding(crate::specs::Preludes::made_coroutine_form))]
    #[inline(never)]
    pub fn made_coroutine(
        &mut self,
        alloc: Global,
        kind: CoroutineKind,
        source: CoroutineSource,
        lets: Seq<Statement>,
        body: ExprId,
    ) -> Result<ExprId, StoreError>
        requires lets { HasStatements self.old.stored lets }
        requires body { HasExpr self.old.stored body }
        ensures { Lowers HasExpr (spec.made_coroutine_form kind source lets body) self.old result self.new }
    {
        let block = Expr::Block {
            is_unsafe: false,
            label: None,
            id: None,
            statements: lets,
            tail: Some(body),
        };
        let id = self.alloc_expr(block, None)?;
        self.alloc_expr(coroutine_of(alloc, kind, source, id), None)
    }
}

/// The prelude with what hands in the parameters of these patterns.
#[inline(never)]
pub fn let_params<I: StoreSink>(
    alloc: Global,
    state: &mut BodyBuilder<I>,
    mut prelude: Prelude,
    mut left: &[PatId],
) -> Result<Prelude, StoreError>
    requires prelude { HasPrelude state.old.stored prelude }
    requires left { HasPats state.old.stored left.now }
    ensures { Lowers HasPrelude (spec.let_params prelude left.entry.now) state.old result state.new }
{
    while let [one, rest @ ..] = left {
        prelude = state.let_param(alloc, prelude, *one)?;
        left = rest;
    }
    Ok(prelude)
}

/// Stores what the outside hands these parameters to.
#[inline(never)]
pub fn lower_handed<I: StoreSink>(
    alloc: Global,
    state: &mut BodyBuilder<I>,
    mut left: &[Handed],
) -> Result<Seq<PatId>, StoreError>
    ensures { Lowers HasPats (spec.lower_handed [] left.entry.now) state.old result state.new }
{
    let mut done = Seq::new(alloc);
    while let [one, rest @ ..] = left {
        let pat = state.handed_pat(one)?;
        push_pat(&mut done, pat)?;
        left = rest;
    }
    Ok(done)
}
