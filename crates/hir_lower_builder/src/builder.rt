//! What lowering works on.

ghost use Rattle.std.specs.Prelude.{◌≡◌, Ok, Some, true};
ghost use Rattle.hir_store.specs.Range.{HasBindingId, HasExpr, HasLabel, HasLabelOption, HasLifetime, HasNone, HasParts};
ghost use Rattle.hir_store.specs.Range.{HasPat, HasPatParts, HasType, HasTypeParts};
ghost use Rattle.hir_store.specs.declared.error.StoreError.TheVariants.{Full};
ghost use Rattle.hir_env.specs.Answering.{jump};
ghost use Rattle.hir_lower_builder.specs.Builder.{new_builder};
ghost use Rattle.hir_lower_builder.specs.Lowering as spec;
ghost use Rattle.hir_lower_scope.specs.Found.{try_of};
ghost use Rattle.hir_lower_builder.specs.Lowering.{HasFlag, HasNumber, HasStart, HasTry, Lowers};

use crate::generics::SideOutput;
use crate::labels::jump_fault;
use crate::parts::LowerParts;
use crate::store_sink::StoreSink;
use hir_base::node::{AstPtr, HirFileId, InFile, NodeId, TextRange};
use hir_lower_scope::labels::{NoTarget, TryLabel};
use hir_lower_scope::stacks::LabelStacks;
use hir_store::builder::ExpressionStoreBuilder;
use hir_store::diagnostics::{AwaitLocation, ExpressionStoreDiagnostics};
use hir_store::error::StoreError;
use hir_store::expansions::ExpandedCall;
use hir_store::hir::{Binding, BindingProblems, Expr, Label, Pat};
use hir_store::ids::{
    BindingId, BlockId, ExprId, HygieneId, LabelId, LifetimeRefId, MacroDefId, PatId, TypeRefId,
};
use hir_store::name::Name;
use hir_store::type_ref::{LifetimeRef, TypeRef};
use std::alloc::Global;
use std::marker::Model;

/// What is stored so far, and the labels that are open, over what it is stored into.
/// Each call answers `Full` exactly where its arena has reached its limit, or its counter the end, and `Memory` where a growth was refused.
pub struct BodyBuilder<I: StoreSink> {
    pub(crate) store: I,
    scopes: LabelStacks,
    /// How many names were made up.
    names: u32,
    counted_out: bool,
    in_root: bool,
    /// Whether a kept `yield` stood in the body that is being lowered, so far, and in none inside of it.
    yields: bool,
    pub(crate) tracks: SideOutput,
}

/// A builder over the store that there is. Each number in it is in range, whatever happens.
pub type StoredBody = BodyBuilder<ExpressionStoreBuilder>;

impl<I: StoreSink + Drop> Drop for BodyBuilder<I> {
    fn drop(self) {
        let BodyBuilder {
            store: _,
            scopes: _,
            names: _,
            counted_out: _,
            in_root: _,
            yields: _,
            tracks: _,
        } = self;
    }
}

impl<I: StoreSink> Model for BodyBuilder<I> {
    ghost use Rattle.hir_lower_builder.specs.Builder.{Builder, RibsOf};
    ghost use Rattle.hir_store.specs.contracts.path.GenericArgs as generic_args;
    ghost use Rattle.std.specs.Coded.{codes};

    ghost Value = { Builder };

    ghost coded = { Prim.hlevel (codes, generic_args.the_row.coded) };

    ghost view = { λ b. record {
      stored = I.held b.store;
      scopes = b.scopes;
      names = b.names;
      counted_out = b.counted_out;
      in_root = b.in_root;
      yields = b.yields;
      tracks = b.tracks;
    } };

    ghost invariant = { λ b. RibsOf (I.held b.store) b.scopes };
}

impl<I: StoreSink> BodyBuilder<I> {
    /// Stores an expression, to which its node, where it came from one, leads from now on.
    #[tactic(auto, unfolding(crate::specs::Lowering::alloc_expr))]
    #[inline(never)]
    pub fn alloc_expr(
        &mut self,
        expr: Expr,
        source: Option<InFile<AstPtr>>,
    ) -> Result<ExprId, StoreError>
        requires { HasParts self.old.stored expr }
        ensures { Lowers HasExpr (spec.alloc_expr expr source) self.old result self.new }
    {
        self.store.alloc_expr(expr, source)
    }

    /// Stores an expression that lowering makes up, with the node that it came from, which doesn't lead to it.
    #[tactic(auto, unfolding(crate::specs::Lowering::alloc_desugared))]
    #[inline(never)]
    pub fn alloc_desugared(
        &mut self,
        expr: Expr,
        source: Option<InFile<AstPtr>>,
    ) -> Result<ExprId, StoreError>
        requires { HasParts self.old.stored expr }
        ensures { Lowers HasExpr (spec.alloc_desugared expr source) self.old result self.new }
    {
        self.store.alloc_desugared(expr, source)
    }

    /// Stores a pattern, to which its node, where it came from one, leads from now on.
    #[tactic(auto, unfolding(crate::specs::Lowering::alloc_pat))]
    #[inline(never)]
    pub fn alloc_pat(
        &mut self,
        pat: Pat,
        source: Option<InFile<AstPtr>>,
    ) -> Result<PatId, StoreError>
        requires { HasPatParts self.old.stored pat }
        ensures { Lowers HasPat (spec.alloc_pat pat source) self.old result self.new }
    {
        self.store.alloc_pat(pat, source)
    }

    /// Stores a pattern that lowering makes up, with the node that it came from, which doesn't lead to it.
    #[tactic(auto, unfolding(crate::specs::Lowering::alloc_desugared_pat))]
    #[inline(never)]
    pub fn alloc_desugared_pat(
        &mut self,
        pat: Pat,
        source: Option<InFile<AstPtr>>,
    ) -> Result<PatId, StoreError>
        requires { HasPatParts self.old.stored pat }
        ensures { Lowers HasPat (spec.alloc_desugared_pat pat source) self.old result self.new }
    {
        self.store.alloc_desugared_pat(pat, source)
    }

    /// Stores a binding, which no pattern makes yet.
    #[tactic(auto, unfolding(crate::specs::Lowering::alloc_binding))]
    #[inline(never)]
    pub fn alloc_binding(&mut self, binding: Binding) -> Result<BindingId, StoreError>
        ensures { Lowers HasBindingId (spec.alloc_binding binding) self.old result self.new }
    {
        self.store.alloc_binding(binding)
    }

    /// Says of a pattern that it makes a binding.
    #[tactic(auto, unfolding(crate::specs::Lowering::define))]
    #[inline(never)]
    pub fn define(&mut self, binding: BindingId, pat: PatId) -> Result<(), StoreError>
        requires { HasBindingId self.old.stored binding × HasPat self.old.stored pat }
        ensures { Lowers HasNone (spec.define binding pat) self.old result self.new }
    {
        self.store.define(binding, pat)
    }

    /// Notes what is wrong with a binding, where something is.
    #[tactic(auto, using(hir_store::proofs::BindingLemmas::length_at), unfolding(crate::specs::Lowering::set_problem))]
    #[inline(never)]
    pub fn set_problem(&mut self, binding: BindingId, problem: Option<BindingProblems>)
        requires { HasBindingId self.old.stored binding }
        ensures { Lowers HasNone (spec.set_problem binding problem) self.old (Ok tt) self.new }
    {
        self.store.set_problem(binding, problem);
    }

    /// The number that the next binding gets.
    #[tactic(auto, unfolding(crate::specs::Lowering::bindings_end))]
    pub fn bindings_end(&self) -> BindingId
        ensures { Lowers HasStart spec.bindings_end self.now (Ok result) self.now }
    {
        BindingId(self.store.bindings_len())
    }

    /// From this binding on the expression owns each that nothing owned.
    #[tactic(auto, unfolding(crate::specs::Lowering::own))]
    #[inline(never)]
    pub fn own(&mut self, start: BindingId, owner: ExprId)
        requires { HasExpr self.old.stored owner }
        ensures { Lowers HasNone (spec.own start owner) self.old (Ok tt) self.new }
    {
        self.store.own(start, owner);
    }

    /// Stores a type, to which its node, where it came from one, leads from now on.
    #[tactic(auto, unfolding(crate::specs::Lowering::alloc_type))]
    #[inline(never)]
    pub fn alloc_type(
        &mut self,
        ty: TypeRef,
        source: Option<InFile<AstPtr>>,
    ) -> Result<TypeRefId, StoreError>
        requires { HasTypeParts self.old.stored ty }
        ensures { Lowers HasType (spec.alloc_type ty source) self.old result self.new }
    {
        self.store.alloc_type(ty, source)
    }

    /// Stores a lifetime, to which its node, where it came from one, leads from now on.
    #[tactic(auto, unfolding(crate::specs::Lowering::alloc_lifetime))]
    #[inline(never)]
    pub fn alloc_lifetime(
        &mut self,
        lifetime: LifetimeRef,
        source: Option<InFile<AstPtr>>,
    ) -> Result<LifetimeRefId, StoreError>
        ensures { Lowers HasLifetime (spec.alloc_lifetime lifetime source) self.old result self.new }
    {
        self.store.alloc_lifetime(lifetime, source)
    }

    /// Lets a further node lead to an expression.
    #[tactic(auto, unfolding(crate::specs::Lowering::point))]
    #[inline(never)]
    pub fn point(&mut self, node: InFile<AstPtr>, id: ExprId) -> Result<(), StoreError>
        requires { HasExpr self.old.stored id }
        ensures { Lowers HasNone (spec.point node id) self.old result self.new }
    {
        self.store.point(node, id)
    }

    /// Notes the field that an expression is the value of.
    #[tactic(auto, unfolding(crate::specs::Lowering::point_field))]
    #[inline(never)]
    pub fn point_field(&mut self, id: ExprId, node: InFile<AstPtr>) -> Result<(), StoreError>
        requires { HasExpr self.old.stored id }
        ensures { Lowers HasNone (spec.point_field id node) self.old result self.new }
    {
        self.store.point_field(id, node)
    }

    /// Lets a further node lead to a pattern.
    #[tactic(auto, unfolding(crate::specs::Lowering::point_pat))]
    #[inline(never)]
    pub fn point_pat(&mut self, node: InFile<AstPtr>, id: PatId) -> Result<(), StoreError>
        requires { HasPat self.old.stored id }
        ensures { Lowers HasNone (spec.point_pat node id) self.old result self.new }
    {
        self.store.point_pat(node, id)
    }

    /// Lets a further node lead to a pattern of the assignee expression.
    #[tactic(auto, unfolding(crate::specs::Lowering::point_target))]
    #[inline(never)]
    pub fn point_target(&mut self, node: InFile<AstPtr>, id: PatId) -> Result<(), StoreError>
        requires { HasPat self.old.stored id }
        ensures { Lowers HasNone (spec.point_target node id) self.old result self.new }
    {
        self.store.point_target(node, id)
    }

    /// Lets a further node lead to a type.
    #[tactic(auto, unfolding(crate::specs::Lowering::point_type))]
    #[inline(never)]
    pub fn point_type(&mut self, node: InFile<AstPtr>, id: TypeRefId) -> Result<(), StoreError>
        requires { HasType self.old.stored id }
        ensures { Lowers HasNone (spec.point_type node id) self.old result self.new }
    {
        self.store.point_type(node, id)
    }

    /// Notes the field that a pattern is the part of.
    #[tactic(auto, unfolding(crate::specs::Lowering::point_pat_field))]
    #[inline(never)]
    pub fn point_pat_field(&mut self, id: PatId, node: InFile<AstPtr>) -> Result<(), StoreError>
        requires { HasPat self.old.stored id }
        ensures { Lowers HasNone (spec.point_pat_field id node) self.old result self.new }
    {
        self.store.point_pat_field(id, node)
    }

    /// Notes a fault, behind those before it.
    #[tactic(auto, unfolding(crate::specs::Lowering::report))]
    #[inline(never)]
    pub fn report(&mut self, fault: ExpressionStoreDiagnostics) -> Result<(), StoreError>
        ensures { Lowers HasNone (spec.report fault) self.old result self.new }
    {
        self.store.report(fault)
    }

    /// Notes that the call was expanded to the file.
    #[tactic(auto, unfolding(crate::specs::Lowering::record_expansion))]
    #[inline(never)]
    pub fn record_expansion(
        &mut self,
        call: InFile<NodeId>,
        range: Option<TextRange>,
        file: HirFileId,
    ) -> Result<(), StoreError>
        ensures { Lowers HasNone (spec.record_expansion call range file) self.old result self.new }
    {
        self.store
            .record_expansion(ExpandedCall { call, range, file })
    }

    /// Reports that the node awaits in this, which isn't async.
    #[tactic(auto, unfolding(crate::specs::Lowering::report_await))]
    #[inline(never)]
    pub fn report_await(
        &mut self,
        node: InFile<AstPtr>,
        location: Option<AwaitLocation>,
    ) -> Result<(), StoreError>
        ensures { Lowers HasNone (spec.report_await node location) self.old result self.new }
    {
        match location {
            None => Ok(()),
            Some(location) => {
                self.report(ExpressionStoreDiagnostics::AwaitOutsideOfAsync { node, location })
            }
        }
    }

    /// Notes the number of a block that lowering enters, where it has one.
    #[tactic(auto, unfolding(crate::specs::Lowering::enter_block))]
    #[inline(never)]
    pub fn enter_block(&mut self, block: Option<BlockId>) -> Result<(), StoreError>
        ensures { Lowers HasNone (spec.enter_block block) self.old result self.new }
    {
        match block {
            None => Ok(()),
            Some(block) => self.store.enter_block(block),
        }
    }

    /// Records a root, to which all belongs that no root before it has.
    #[tactic(auto, unfolding(crate::specs::Lowering::record_root))]
    #[inline(never)]
    pub fn record_root(&mut self, root: ExprId) -> Result<(), StoreError>
        requires { HasExpr self.old.stored root }
        ensures { Lowers HasNone (spec.record_root root) self.old result self.new }
    {
        self.store.record_root(root)
    }

    /// From here on a root is being lowered. It answers whether one was before.
    #[tactic(auto, unfolding(crate::specs::Lowering::enter_root))]
    pub fn enter_root(&mut self) -> bool
        ensures { Lowers HasFlag spec.enter_root self.old (Ok result) self.new }
    {
        let outer = self.in_root;
        self.in_root = true;
        outer
    }

    /// From here on no root is being lowered.
    #[tactic(auto, unfolding(crate::specs::Lowering::outside_root))]
    pub fn outside_root(&mut self)
        ensures { Lowers HasNone spec.outside_root self.old (Ok tt) self.new }
    {
        self.in_root = false;
    }

    /// Records a root and is outside of it again, unless it stands inside of another one.
    #[tactic(auto, unfolding(crate::specs::Lowering::leave_root))]
    pub fn leave_root(&mut self, outer: bool, root: ExprId) -> Result<(), StoreError>
        requires { HasExpr self.old.stored root }
        ensures { Lowers HasNone (spec.leave_root outer root) self.old result self.new }
    {
        if outer {
            return Ok(());
        }
        self.record_root(root)?;
        self.outside_root();
        Ok(())
    }

    /// Notes that a counter is at its end, and answers `Full`.
    #[inline(never)]
    pub fn count_out(&mut self) -> StoreError
        ensures fault { result ≡ Full }
        ensures tracked { self.new ≡ record self.old { counted_out = true } }
    {
        self.counted_out = true;
        StoreError::Full
    }

    /// The number of a name that was not made up before.
    #[tactic(auto, unfolding(crate::specs::Lowering::made_number, crate::specs::Lowering::count_out))]
    #[inline(never)]
    pub fn made_number(&mut self) -> Result<u32, StoreError>
        ensures { Lowers HasNumber spec.made_number self.old result self.new }
    {
        let number = self.names;
        match number.checked_add(1) {
            Some(next) => {
                self.names = next;
                Ok(number)
            }
            None => Err(self.count_out()),
        }
    }

    /// Counts the definition of a macro behind so many of its name, and stores nothing. It answers `Full`, and notes that a counter is
    /// at its end, where 4294967295 stand before it.
    #[tactic(auto, unfolding(crate::specs::Lowering::count_def, crate::specs::Lowering::count_out))]
    #[inline(never)]
    pub fn count_def(&mut self, before: u32) -> Result<(), StoreError>
        ensures { Lowers HasNone (spec.count_def before) self.old result self.new }
    {
        match before.checked_add(1) {
            Some(_) => Ok(()),
            None => Err(self.count_out()),
        }
    }

    /// Opens the definition of a macro, inside all that are open: what follows it stands in it.
    #[tactic(auto, unfolding(crate::specs::Lowering::open_macro))]
    #[inline(never)]
    pub fn open_macro(&mut self, def: MacroDefId) -> Result<(), StoreError>
        ensures { Lowers HasNone (spec.open_macro def) self.old result self.new }
    {
        self.scopes.enter_macro(def)?;
        Ok(())
    }

    /// Stores a label and opens it inside all that are open.
    #[tactic(auto, unfolding(crate::specs::Lowering::open_label))]
    #[inline(never)]
    pub fn open_label(
        &mut self,
        name: Name,
        hygiene: HygieneId,
        source: InFile<AstPtr>,
    ) -> Result<LabelId, StoreError>
        ensures { Lowers HasLabel (spec.open_label (record { pointer = source; name = name; hygiene = hygiene })) self.old result self.new }
    {
        let copy = name.clone()?;
        let label = self.store.alloc_label(Label { name }, Some(source))?;
        self.scopes.enter_label(copy, hygiene, label)?;
        Ok(label)
    }

    /// Stores a label of the made name of this number for a `try`, and opens that inside all that are open.
    #[inline(never)]
    fn open_try_named(
        &mut self,
        number: u32,
        at: InFile<AstPtr>,
        typed: bool,
    ) -> Result<LabelId, StoreError>
        ensures { Lowers HasLabel (spec.open_try_named at typed number) self.old result self.new }
    {
        let name = Name::Generated(number);
        let label = self.store.alloc_label(Label { name }, Some(at))?;
        self.scopes.enter_try(label, typed)?;
        Ok(label)
    }

    /// Opens a `try`, whose type is written or isn't, with a label of a name that lowering makes up.
    #[tactic(auto, unfolding(crate::specs::Lowering::open_try))]
    pub fn open_try(&mut self, at: InFile<AstPtr>, typed: bool) -> Result<LabelId, StoreError>
        ensures { Lowers HasLabel (spec.open_try at typed) self.old result self.new }
    {
        let number = self.made_number()?;
        self.open_try_named(number, at, typed)
    }

    /// The innermost `try`, which exists.
    #[tactic(auto, using(crate::proofs::Ribs::try_exists), unfolding(crate::specs::Lowering::try_target))]
    pub fn try_target(&self) -> Option<TryLabel>
        ensures { Lowers HasTry spec.try_target self.now (Ok (try_of result)) self.now }
    {
        self.scopes.find_try()
    }

    /// Opens the border of a constant, a closure or a coroutine: until it is closed no jump reaches what is open around it. It answers
    /// whether a `yield` stood around it, for `close_barrier`.
    #[tactic(auto, unfolding(crate::specs::Lowering::open_barrier))]
    #[inline(never)]
    pub fn open_barrier(&mut self) -> Result<bool, StoreError>
        ensures { Lowers HasFlag spec.open_barrier self.old result self.new }
    {
        self.scopes.enter_barrier()?;
        let outside = self.yields;
        self.yields = false;
        Ok(outside)
    }

    /// Closes a border that was opened last, around which a `yield` stood or none did. It answers whether one stood in it.
    #[tactic(auto, unfolding(crate::specs::Lowering::close_barrier, crate::specs::Lowering::close))]
    pub fn close_barrier(&mut self, outside: bool) -> bool
        ensures { Lowers HasFlag (spec.close_barrier outside) self.old (Ok result) self.new }
    {
        self.close();
        let inside = self.yields;
        self.yields = outside;
        inside
    }

    /// Notes that a `yield` stands here.
    #[tactic(auto, unfolding(crate::specs::Lowering::track_yield))]
    pub fn track_yield(&mut self)
        ensures { Lowers HasNone spec.track_yield self.old (Ok tt) self.new }
    {
        self.yields = true;
    }

    /// Closes what was opened last.
    #[tactic(auto, unfolding(crate::specs::Lowering::close))]
    pub fn close(&mut self)
        ensures { Lowers HasNone spec.close self.old (Ok tt) self.new }
    {
        self.scopes.leave();
    }

    /// Closes all labels: a root is reached by no jump from outside.
    #[tactic(auto, unfolding(crate::specs::Lowering::close_labels))]
    #[inline(never)]
    pub fn close_labels(&mut self, alloc: Global)
        ensures { Lowers HasNone spec.close_labels self.old (Ok tt) self.new }
    {
        self.scopes = LabelStacks::new(alloc);
    }

    /// Reports that a jump of this name has no target.
    #[inline(never)]
    fn no_target(
        &mut self,
        cause: NoTarget,
        name: Name,
        source: InFile<AstPtr>,
    ) -> Result<Option<LabelId>, StoreError>
        ensures { Lowers HasLabelOption (spec.no_target cause source name) self.old result self.new }
    {
        self.report(jump_fault(cause, name, source))?;
        Ok(None)
    }

    /// The label that a jump of this name and this hygiene is for, or none and a fault at the node.
    #[inline(never)]
    pub fn jump_target<P: LowerParts>(
        &mut self,
        parts: &P,
        name: Name,
        hygiene: HygieneId,
        source: InFile<AstPtr>,
    ) -> Result<Option<LabelId>, StoreError>
        ensures { Lowers HasLabelOption (spec.jump_target
            (Some (jump (P.rctx parts.now).answers source name hygiene))) self.old result self.new }
    {
        match parts.find_label(&self.scopes, &name, hygiene) {
            Ok(label) => Ok(Some(label)),
            Err(cause) => self.no_target(cause, name, source),
        }
    }
}

impl StoredBody {
    /// A builder that has stored nothing, with this limit for each arena, and this key to hash names by. It takes no memory.
    pub fn new(alloc: Global, limit: u32, hash_key: u128) -> StoredBody
        ensures { result ≡ new_builder limit }
    {
        BodyBuilder {
            store: ExpressionStoreBuilder::new(alloc, limit),
            scopes: LabelStacks::new(alloc),
            names: 0,
            counted_out: false,
            in_root: false,
            yields: false,
            tracks: SideOutput::new(alloc, hash_key),
        }
    }

    /// What is stored.
    pub fn store(&self) -> &ExpressionStoreBuilder
        ensures { result.now ≡ self.now.stored }
    {
        &self.store
    }

    /// What is stored, without the scopes and what is noted. It takes no memory.
    pub fn into_store(self) -> ExpressionStoreBuilder
        ensures { result ≡ self.stored }
    {
        self.into_parts().0
    }

    /// What is stored, and what is noted beside it. It takes no memory.
    pub fn into_parts(self) -> (ExpressionStoreBuilder, SideOutput)
        ensures stored { result.0 ≡ self.stored }
        ensures tracks { result.1 ≡ self.tracks }
    {
        let BodyBuilder {
            store,
            scopes: _,
            names: _,
            counted_out: _,
            in_root: _,
            yields: _,
            tracks,
        } = self;
        (store, tracks)
    }
}
