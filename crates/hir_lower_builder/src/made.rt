//! Nodes that lowering makes up: names by number, the patterns that bind them, lang items, and what is called with one
//! argument.

ghost use Rattle.std.specs.Prelude.{◌≡◌, [], ◌∷◌, None, Some, IfOk};
ghost use Rattle.hir_store.specs.Range.{HasExpr, HasExprOption, HasPat, HasType};
ghost use Rattle.hir_lower_builder.specs.Lowering.{Lowers};
ghost use Rattle.hir_lower_builder.specs.Lowering as step;
ghost use Rattle.hir_lower_builder.specs.Made as spec;

use crate::builder::BodyBuilder;
use crate::store_sink::StoreSink;
use hir_base::node::{AstPtr, InFile};
use hir_store::error::StoreError;
use hir_store::hir::{Binding, BindingAnnotation, Expr, Mutability, Pat, Rawness, Statement};
use hir_store::ids::{ExprId, HygieneId, LangItemId, PatId, TypeRefId};
use hir_store::lists::{push_id, push_pat, push_statement};
use hir_store::name::Name;
use hir_store::path::{ModPath, Path, PathKind};
use hir_syntax::Seq;
use std::alloc::{AllocError, Global};

/// The path of the made name of this number.
fn made_path(alloc: Global, number: u32) -> Result<Path, AllocError>
    ensures { IfOk result (λ p. p ≡ spec.made_path number) }
{
    let mut segments = Seq::new(alloc);
    segments.push(Name::Generated(number))?;
    Ok(Path::BarePath(ModPath {
        kind: PathKind::Plain,
        segments,
    }))
}

/// The item as an expression, which is missing where the item isn't there.
fn item_or_missing(item: Option<LangItemId>) -> Expr
    ensures { result ≡ spec.item_or_missing item }
{
    match item {
        None => Expr::Missing,
        Some(item) => Expr::Path {
            path: Path::LangItem(item),
            hygiene: HygieneId::ROOT,
        },
    }
}

/// The one argument of a call.
fn one_argument(alloc: Global, id: ExprId) -> Result<Seq<ExprId>, AllocError>
    ensures { IfOk result (λ ids. ids ≡ id ∷ []) }
{
    let mut ids = Seq::new(alloc);
    push_id(&mut ids, id)?;
    Ok(ids)
}

/// The one part of a pattern.
fn one_part(alloc: Global, id: PatId) -> Result<Seq<PatId>, AllocError>
    ensures { IfOk result (λ ids. ids ≡ id ∷ []) }
{
    let mut ids = Seq::new(alloc);
    push_pat(&mut ids, id)?;
    Ok(ids)
}

/// The statements of a block that only binds a value of this type.
fn bound(
    alloc: Global,
    pat: PatId,
    type_ref: TypeRefId,
    value: ExprId,
) -> Result<Seq<Statement>, AllocError>
    ensures { IfOk result (λ ss. ss ≡ spec.bound pat type_ref value ∷ []) }
{
    let mut statements = Seq::new(alloc);
    let statement = Statement::Let {
        pat,
        type_ref: Some(type_ref),
        initializer: Some(value),
        else_branch: None,
    };
    push_statement(&mut statements, statement)?;
    Ok(statements)
}

/// The statements of a block that only binds a value.
fn held(alloc: Global, pat: PatId, value: ExprId) -> Result<Seq<Statement>, AllocError>
    ensures { IfOk result (λ ss. ss ≡ spec.held pat value ∷ []) }
{
    let mut statements = Seq::new(alloc);
    let statement = Statement::Let {
        pat,
        type_ref: None,
        initializer: Some(value),
        else_branch: None,
    };
    push_statement(&mut statements, statement)?;
    Ok(statements)
}

impl<I: StoreSink> BodyBuilder<I> {
    /// Stores the made name of this number, as a path.
    #[tactic(auto, unfolding(crate::specs::Made::made_path_form))]
    #[inline(never)]
    pub fn made_path(
        &mut self,
        alloc: Global,
        at: InFile<AstPtr>,
        number: u32,
    ) -> Result<ExprId, StoreError>
        ensures { Lowers HasExpr (spec.made_path_form at number) self.old result self.new }
    {
        let path = made_path(alloc, number)?;
        let hygiene = HygieneId::ROOT;
        self.alloc_desugared(Expr::Path { path, hygiene }, Some(at))
    }

    /// Stores a pattern that binds the made name of this number.
    #[tactic(auto, unfolding(crate::specs::Made::made_bind_form))]
    #[inline(never)]
    pub fn made_bind(&mut self, mode: BindingAnnotation, number: u32) -> Result<PatId, StoreError>
        ensures { Lowers HasPat (spec.made_bind_form mode number) self.old result self.new }
    {
        let binding = Binding {
            name: Name::Generated(number),
            mode,
            hygiene: HygieneId::ROOT,
            problems: None,
        };
        let id = self.alloc_binding(binding)?;
        let pat = self.alloc_pat(Pat::Bind { id, subpat: None }, None)?;
        self.define(id, pat)?;
        Ok(pat)
    }

    /// Stores a pattern that the item fits which holds what this one fits.
    #[inline(never)]
    pub fn item_pat(
        &mut self,
        alloc: Global,
        item: LangItemId,
        part: PatId,
    ) -> Result<PatId, StoreError>
        requires { HasPat self.old.stored part }
        ensures { Lowers HasPat (step.alloc_pat (spec.item_pat item part) None) self.old result self.new }
    {
        let args = one_part(alloc, part)?;
        let path = Path::LangItem(item);
        let ellipsis = None;
        self.alloc_pat(
            Pat::TupleStruct {
                path,
                ellipsis,
                args,
            },
            None,
        )
    }

    /// Stores the item.
    #[inline(never)]
    pub fn made_item(
        &mut self,
        at: InFile<AstPtr>,
        item: Option<LangItemId>,
    ) -> Result<ExprId, StoreError>
        ensures { Lowers HasExpr (step.alloc_desugared (spec.item_or_missing item) (Some at)) self.old result self.new }
    {
        self.alloc_desugared(item_or_missing(item), Some(at))
    }

    /// Stores a mutable reference to what the made name of this number stands for.
    ///
    /// ```text
    /// loop { match next(&mut made) { .. } }     // of `for`
    /// ```
    #[tactic(auto, unfolding(crate::specs::Made::made_reference_form))]
    #[inline(never)]
    pub fn made_reference(
        &mut self,
        alloc: Global,
        at: InFile<AstPtr>,
        number: u32,
    ) -> Result<ExprId, StoreError>
        ensures { Lowers HasExpr (spec.made_reference_form at number) self.old result self.new }
    {
        let expr = self.made_path(alloc, at, number)?;
        let rawness = Rawness::Ref;
        let mutability = Mutability::Mut;
        self.alloc_desugared(
            Expr::Ref {
                rawness,
                mutability,
                expr,
            },
            Some(at),
        )
    }

    /// Stores a call with one argument.
    #[inline(never)]
    pub fn made_call(
        &mut self,
        alloc: Global,
        at: InFile<AstPtr>,
        callee: ExprId,
        argument: ExprId,
    ) -> Result<ExprId, StoreError>
        requires callee { HasExpr self.old.stored callee }
        requires argument { HasExpr self.old.stored argument }
        ensures { Lowers HasExpr (step.alloc_desugared (spec.made_call callee argument) (Some at)) self.old result self.new }
    {
        let args = one_argument(alloc, argument)?;
        self.alloc_desugared(Expr::Call { callee, args }, Some(at))
    }

    /// Stores a call of the item with one argument.
    ///
    /// ```text
    /// match into_iter(head) { .. }     // of `for`
    /// match branch(e) { .. }           // of `e?`
    /// ```
    #[tactic(auto, unfolding(crate::specs::Made::item_call_form))]
    #[inline(never)]
    pub fn item_call(
        &mut self,
        alloc: Global,
        at: InFile<AstPtr>,
        item: Option<LangItemId>,
        argument: ExprId,
    ) -> Result<ExprId, StoreError>
        requires { HasExpr self.old.stored argument }
        ensures { Lowers HasExpr (spec.item_call_form at item argument) self.old result self.new }
    {
        let callee = self.made_item(at, item)?;
        self.made_call(alloc, at, callee, argument)
    }

    /// The value of a block, which is `()` where it has no tail.
    #[tactic(auto, unfolding(crate::specs::Made::value_or_unit))]
    #[inline(never)]
    fn value_or_unit(
        &mut self,
        alloc: Global,
        at: InFile<AstPtr>,
        tail: Option<ExprId>,
    ) -> Result<ExprId, StoreError>
        requires { HasExprOption self.old.stored tail }
        ensures { Lowers HasExpr (spec.value_or_unit at tail) self.old result self.new }
    {
        match tail {
            Some(id) => Ok(id),
            None => {
                let exprs = Seq::new(alloc);
                self.alloc_desugared(Expr::Tuple { exprs }, Some(at))
            }
        }
    }

    /// Stores a call of the item with the value of a block.
    ///
    /// ```text
    /// 'made: { .. from_output(tail) }     // of `try { .. tail }`
    /// ```
    #[tactic(auto, unfolding(crate::specs::Made::wrapped_form))]
    #[inline(never)]
    pub fn wrapped(
        &mut self,
        alloc: Global,
        at: InFile<AstPtr>,
        item: Option<LangItemId>,
        tail: Option<ExprId>,
    ) -> Result<ExprId, StoreError>
        requires { HasExprOption self.old.stored tail }
        ensures { Lowers HasExpr (spec.wrapped_form at item tail) self.old result self.new }
    {
        let callee = self.made_item(at, item)?;
        let value = self.value_or_unit(alloc, at, tail)?;
        self.made_call(alloc, at, callee, value)
    }

    /// Stores a block that binds a value of this type by the pattern, and then is what stands behind it.
    ///
    /// ```text
    /// { let made: T = 'made: { .. }; made }     // of `try bikeshed T { .. }`
    /// ```
    #[inline(never)]
    pub fn bound_block(
        &mut self,
        alloc: Global,
        at: InFile<AstPtr>,
        pat: PatId,
        type_ref: TypeRefId,
        value: ExprId,
        tail: ExprId,
    ) -> Result<ExprId, StoreError>
        requires pat { HasPat self.old.stored pat }
        requires type_ref { HasType self.old.stored type_ref }
        requires value { HasExpr self.old.stored value }
        requires tail { HasExpr self.old.stored tail }
        ensures { Lowers HasExpr (step.alloc_desugared (spec.bound_block pat type_ref value tail) (Some at)) self.old result self.new }
    {
        let statements = bound(alloc, pat, type_ref, value)?;
        let expr = Expr::Block {
            is_unsafe: false,
            label: None,
            id: None,
            statements,
            tail: Some(tail),
        };
        self.alloc_desugared(expr, Some(at))
    }

    /// Stores a block that binds a value by the pattern, and then is what stands behind it.
    pub fn held_block(
        &mut self,
        alloc: Global,
        at: InFile<AstPtr>,
        pat: PatId,
        value: ExprId,
        tail: ExprId,
    ) -> Result<ExprId, StoreError>
        requires pat { HasPat self.old.stored pat }
        requires value { HasExpr self.old.stored value }
        requires tail { HasExpr self.old.stored tail }
        ensures { Lowers HasExpr (step.alloc_desugared (spec.held_block pat value tail) (Some at)) self.old result self.new }
    {
        let statements = held(alloc, pat, value)?;
        let expr = Expr::Block {
            is_unsafe: false,
            label: None,
            id: None,
            statements,
            tail: Some(tail),
        };
        self.alloc_desugared(expr, Some(at))
    }

    /// Stores a block that binds a value by a made name, and then is that name.
    ///
    /// ```text
    /// { let made = condition; made }     // of `while condition { .. }`
    /// ```
    #[tactic(auto, unfolding(crate::specs::Made::hold_form))]
    #[inline(never)]
    pub fn hold(
        &mut self,
        alloc: Global,
        at: InFile<AstPtr>,
        value: ExprId,
    ) -> Result<ExprId, StoreError>
        requires { HasExpr self.old.stored value }
        ensures { Lowers HasExpr (spec.hold_form at value) self.old result self.new }
    {
        let number = self.made_number()?;
        let pat = self.made_bind(BindingAnnotation::Unannotated, number)?;
        let tail = self.made_path(alloc, at, number)?;
        self.held_block(alloc, at, pat, value, tail)
    }
}
