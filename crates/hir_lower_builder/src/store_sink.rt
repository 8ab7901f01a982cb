//! What a builder needs of the store that it stores into, which is a type parameter: what names the types of a store pays for them all.

ghost use Rattle.std.specs.Prelude.{◌≡◌, length, slice_get, option_copied, Ok};
ghost use Rattle.hir_store.specs.Pointers.{flat_option};
ghost use Rattle.hir_store.specs.Range.{HasBindingId, HasExpr, HasLabel, HasLifetime, HasNone, HasParts, HasPat, HasPatParts, HasType};
ghost use Rattle.hir_store.specs.Range.{HasTypeParts};
ghost use Rattle.hir_store.specs.Stored.{Stored};
ghost use Rattle.hir_store.specs.StoreSink as spec;
ghost use Rattle.hir_store.specs.StoreSink.{Extends, Stores};

use hir_base::node::{AstPtr, InFile};
use hir_store::builder::ExpressionStoreBuilder;
use hir_store::diagnostics::ExpressionStoreDiagnostics;
use hir_store::error::StoreError;
use hir_store::expansions::ExpandedCall;
use hir_store::hir::{Binding, BindingProblems, Expr, Label, Pat};
use hir_store::ids::{BindingId, BlockId, ExprId, LabelId, LifetimeRefId, PatId, TypeRefId};
use hir_store::type_ref::{LifetimeRef, TypeRef};

/// A store that grows. Each call means what it means to `ExpressionStoreBuilder`, which says so, too.
pub trait StoreSink {
    /// What is stored.
    ghost held: { Self → Stored };

    /// Stores an expression. The node that it came from, where it came from one, leads to it from now on.
    fn alloc_expr(
        &mut self,
        expr: Expr,
        source: Option<InFile<AstPtr>>,
    ) -> Result<ExprId, StoreError>
        requires { HasParts (held self.old) expr }
        ensures stored { Stores HasExpr (spec.alloc_expr expr source) (held self.old) result (held self.new) }
        ensures stays { Extends (held self.old) (held self.new) };

    /// Stores an expression that was made up for the node that it is said to come from, which doesn't lead to it.
    fn alloc_desugared(
        &mut self,
        expr: Expr,
        source: Option<InFile<AstPtr>>,
    ) -> Result<ExprId, StoreError>
        requires { HasParts (held self.old) expr }
        ensures stored { Stores HasExpr (spec.alloc_desugared expr source) (held self.old) result (held self.new) }
        ensures stays { Extends (held self.old) (held self.new) };

    /// Stores a label, to which its node leads from now on.
    fn alloc_label(
        &mut self,
        label: Label,
        source: Option<InFile<AstPtr>>,
    ) -> Result<LabelId, StoreError>
        ensures stored { Stores HasLabel (spec.alloc_label label source) (held self.old) result (held self.new) }
        ensures stays { Extends (held self.old) (held self.new) };

    /// Stores a pattern. The node that it came from, where it came from one, leads to it from now on.
    fn alloc_pat(&mut self, pat: Pat, source: Option<InFile<AstPtr>>) -> Result<PatId, StoreError>
        requires { HasPatParts (held self.old) pat }
        ensures stored { Stores HasPat (spec.alloc_pat pat source) (held self.old) result (held self.new) }
        ensures stays { Extends (held self.old) (held self.new) };

    /// Stores a pattern that was made up for the node that it is said to come from, which doesn't lead to it.
    fn alloc_desugared_pat(
        &mut self,
        pat: Pat,
        source: Option<InFile<AstPtr>>,
    ) -> Result<PatId, StoreError>
        requires { HasPatParts (held self.old) pat }
        ensures stored { Stores HasPat (spec.alloc_desugared_pat pat source) (held self.old) result (held self.new) }
        ensures stays { Extends (held self.old) (held self.new) };

    /// Stores a binding, which no pattern makes yet.
    fn alloc_binding(&mut self, binding: Binding) -> Result<BindingId, StoreError>
        ensures stored { Stores HasBindingId (spec.alloc_binding binding) (held self.old) result (held self.new) }
        ensures stays { Extends (held self.old) (held self.new) };

    /// Says of a pattern that it makes a binding.
    fn define(&mut self, binding: BindingId, pat: PatId) -> Result<(), StoreError>
        requires { HasBindingId (held self.old) binding × HasPat (held self.old) pat }
        ensures stored { Stores HasNone (spec.define binding pat) (held self.old) result (held self.new) }
        ensures stays { Extends (held self.old) (held self.new) };

    /// Notes what is wrong with a binding, where something is.
    fn set_problem(&mut self, binding: BindingId, problem: Option<BindingProblems>)
        requires { HasBindingId (held self.old) binding }
        ensures stored { spec.set_problem binding problem (held self.old) ≡ (Ok tt, (held self.new)) }
        ensures stays { Extends (held self.old) (held self.new) };

    /// From this binding on the expression owns each that nothing owned.
    fn own(&mut self, start: BindingId, owner: ExprId)
        requires { HasExpr (held self.old) owner }
        ensures stored { spec.own start owner (held self.old) ≡ (Ok tt, (held self.new)) }
        ensures stays { Extends (held self.old) (held self.new) };

    /// Stores a type. The node that it came from, where it came from one, leads to it from now on.
    fn alloc_type(
        &mut self,
        ty: TypeRef,
        source: Option<InFile<AstPtr>>,
    ) -> Result<TypeRefId, StoreError>
        requires { HasTypeParts (held self.old) ty }
        ensures stored { Stores HasType (spec.alloc_type ty source) (held self.old) result (held self.new) }
        ensures stays { Extends (held self.old) (held self.new) };

    /// Stores a lifetime, to which its node leads from now on, where it came from one.
    fn alloc_lifetime(
        &mut self,
        lifetime: LifetimeRef,
        source: Option<InFile<AstPtr>>,
    ) -> Result<LifetimeRefId, StoreError>
        ensures stored { Stores HasLifetime (spec.alloc_lifetime lifetime source) (held self.old) result (held self.new) }
        ensures stays { Extends (held self.old) (held self.new) };

    /// Lets a further node lead to an expression.
    fn point(&mut self, node: InFile<AstPtr>, id: ExprId) -> Result<(), StoreError>
        requires { HasExpr (held self.old) id }
        ensures stored { Stores HasNone (spec.point node id) (held self.old) result (held self.new) }
        ensures stays { Extends (held self.old) (held self.new) };

    /// Says of an expression that it is that of a written field of a record. The first that is said of one counts.
    fn point_field(&mut self, expr: ExprId, field: InFile<AstPtr>) -> Result<(), StoreError>
        requires { HasExpr (held self.old) expr }
        ensures stored { Stores HasNone (spec.point_field expr field) (held self.old) result (held self.new) }
        ensures stays { Extends (held self.old) (held self.new) };

    /// Lets a further node lead to a pattern.
    fn point_pat(&mut self, node: InFile<AstPtr>, id: PatId) -> Result<(), StoreError>
        requires { HasPat (held self.old) id }
        ensures stored { Stores HasNone (spec.point_pat node id) (held self.old) result (held self.new) }
        ensures stays { Extends (held self.old) (held self.new) };

    /// Lets a node of the assignee expression lead to a pattern. The last that is said of a node counts. Where memory is refused nothing
    /// changes.
    fn point_target(&mut self, node: InFile<AstPtr>, id: PatId) -> Result<(), StoreError>
        requires { HasPat (held self.old) id }
        ensures stored { Stores HasNone (spec.point_target node id) (held self.old) result (held self.new) }
        ensures stays { Extends (held self.old) (held self.new) };

    /// Lets a further node lead to a type.
    fn point_type(&mut self, node: InFile<AstPtr>, id: TypeRefId) -> Result<(), StoreError>
        requires { HasType (held self.old) id }
        ensures stored { Stores HasNone (spec.point_type node id) (held self.old) result (held self.new) }
        ensures stays { Extends (held self.old) (held self.new) };

    /// Says of a pattern that it is that of a written field of a record. The first that is said of one counts.
    fn point_pat_field(&mut self, pat: PatId, field: InFile<AstPtr>) -> Result<(), StoreError>
        requires { HasPat (held self.old) pat }
        ensures stored { Stores HasNone (spec.point_pat_field pat field) (held self.old) result (held self.new) }
        ensures stays { Extends (held self.old) (held self.new) };

    /// Notes a fault, behind those before it.
    fn report(&mut self, fault: ExpressionStoreDiagnostics) -> Result<(), StoreError>
        ensures stored { Stores HasNone (spec.report fault) (held self.old) result (held self.new) }
        ensures stays { Extends (held self.old) (held self.new) };

    /// Notes what a call was expanded to.
    fn record_expansion(&mut self, call: ExpandedCall) -> Result<(), StoreError>
        ensures stored { Stores HasNone (spec.record_expansion call) (held self.old) result (held self.new) }
        ensures stays { Extends (held self.old) (held self.new) };

    /// Notes the number of a block that lowering enters.
    fn enter_block(&mut self, block: BlockId) -> Result<(), StoreError>
        ensures stored { Stores HasNone (spec.enter_block block) (held self.old) result (held self.new) }
        ensures stays { Extends (held self.old) (held self.new) };

    /// Records a root, to which all belongs that no root before it has.
    fn record_root(&mut self, root: ExprId) -> Result<(), StoreError>
        requires { HasExpr (held self.old) root }
        ensures stored { Stores HasNone (spec.record_root root) (held self.old) result (held self.new) }
        ensures stays { Extends (held self.old) (held self.new) };

    /// The pattern, where there is one of that number.
    fn pat(&self, id: PatId) -> Option<&Pat>
        ensures { option_copied result ≡ slice_get (held self.now).pats.entries id.0 };

    /// The node that the pattern came from; none where it came from none, or where there is no such pattern.
    fn pat_source(&self, id: PatId) -> Option<InFile<AstPtr>>
        ensures { result ≡ flat_option (slice_get (held self.now).pats.sources id.0) };

    /// The lifetime, where there is one of that number.
    fn lifetime(&self, id: LifetimeRefId) -> Option<&LifetimeRef>
        ensures { option_copied result ≡ slice_get (held self.now).lifetimes.entries id.0 };

    /// The binding, where there is one of that number.
    fn binding(&self, id: BindingId) -> Option<&Binding>
        ensures { option_copied result ≡ slice_get (held self.now).bindings.entries id.0 };

    /// How many bindings there are.
    fn bindings_len(&self) -> u32
        ensures { result ≡ length (held self.now).bindings.entries };
}

impl StoreSink for ExpressionStoreBuilder {
    ghost held = { λ store. store };

    fn alloc_expr(
        &mut self,
        expr: Expr,
        source: Option<InFile<AstPtr>>,
    ) -> Result<ExprId, StoreError> {
        self.alloc_expr(expr, source)
    }

    fn alloc_desugared(
        &mut self,
        expr: Expr,
        source: Option<InFile<AstPtr>>,
    ) -> Result<ExprId, StoreError> {
        self.alloc_desugared(expr, source)
    }

    fn alloc_label(
        &mut self,
        label: Label,
        source: Option<InFile<AstPtr>>,
    ) -> Result<LabelId, StoreError> {
        self.alloc_label(label, source)
    }

    fn alloc_pat(&mut self, pat: Pat, source: Option<InFile<AstPtr>>) -> Result<PatId, StoreError> {
        self.alloc_pat(pat, source)
    }

    fn alloc_desugared_pat(
        &mut self,
        pat: Pat,
        source: Option<InFile<AstPtr>>,
    ) -> Result<PatId, StoreError> {
        self.alloc_desugared_pat(pat, source)
    }

    fn alloc_binding(&mut self, binding: Binding) -> Result<BindingId, StoreError> {
        self.alloc_binding(binding)
    }

    fn define(&mut self, binding: BindingId, pat: PatId) -> Result<(), StoreError> {
        self.define(binding, pat)
    }

    fn set_problem(&mut self, binding: BindingId, problem: Option<BindingProblems>) {
        self.set_problem(binding, problem);
    }

    fn own(&mut self, start: BindingId, owner: ExprId) {
        self.own(start, owner);
    }

    fn alloc_type(
        &mut self,
        ty: TypeRef,
        source: Option<InFile<AstPtr>>,
    ) -> Result<TypeRefId, StoreError> {
        self.alloc_type(ty, source)
    }

    fn alloc_lifetime(
        &mut self,
        lifetime: LifetimeRef,
        source: Option<InFile<AstPtr>>,
    ) -> Result<LifetimeRefId, StoreError> {
        self.alloc_lifetime(lifetime, source)
    }

    fn point(&mut self, node: InFile<AstPtr>, id: ExprId) -> Result<(), StoreError> {
        self.point(node, id)
    }

    fn point_field(&mut self, expr: ExprId, field: InFile<AstPtr>) -> Result<(), StoreError> {
        self.point_field(expr, field)
    }

    fn point_pat(&mut self, node: InFile<AstPtr>, id: PatId) -> Result<(), StoreError> {
        self.point_pat(node, id)
    }

    fn point_target(&mut self, node: InFile<AstPtr>, id: PatId) -> Result<(), StoreError> {
        self.point_target(node, id)
    }

    fn point_type(&mut self, node: InFile<AstPtr>, id: TypeRefId) -> Result<(), StoreError> {
        self.point_type(node, id)
    }

    fn point_pat_field(&mut self, pat: PatId, field: InFile<AstPtr>) -> Result<(), StoreError> {
        self.point_pat_field(pat, field)
    }

    fn report(&mut self, fault: ExpressionStoreDiagnostics) -> Result<(), StoreError> {
        self.report(fault)
    }

    fn record_expansion(&mut self, call: ExpandedCall) -> Result<(), StoreError> {
        self.record_expansion(call)
    }

    fn enter_block(&mut self, block: BlockId) -> Result<(), StoreError> {
        self.enter_block(block)
    }

    fn record_root(&mut self, root: ExprId) -> Result<(), StoreError> {
        self.record_root(root)
    }

    fn pat(&self, id: PatId) -> Option<&Pat> {
        self.pat(id)
    }

    fn pat_source(&self, id: PatId) -> Option<InFile<AstPtr>> {
        self.pat_source(id)
    }

    fn lifetime(&self, id: LifetimeRefId) -> Option<&LifetimeRef> {
        self.lifetime(id)
    }

    fn binding(&self, id: BindingId) -> Option<&Binding> {
        self.binding(id)
    }

    fn bindings_len(&self) -> u32 {
        self.bindings_len()
    }
}
