//! An environment of tables.

ghost use Rattle.std.specs.Prelude.{◌≡◌, OnOk, OnErr, is_some};
ghost use Rattle.hir_env.specs.Answers.{Expanding};
ghost use Rattle.hir_env.specs.Lent.{expanding_of};
ghost use Rattle.hir_tables.specs.Tables as spec;
ghost use Rattle.hir_tables.specs.Tables.{site_value, with_alias, with_first, with_pred, with_context, with_path, with_definition};
ghost use Rattle.hir_tables.specs.Tables.{with_legacy};

use crate::first_below::FirstBelow;
use crate::first_of::FirstOf;
use hir_alias::signature::AliasSignature;
use hir_base::Seq;
use hir_base::node::{HirFileId, InFile, NodeId, PredId};
use hir_env::env::LowerEnv;
use hir_env::expand::{Expansion, FragmentKind, OuterMacro};
use hir_env::lang::LangItems;
use hir_env::resolved::{BuiltinShadowMode, Resolved};
use hir_store::ids::{
    BlockId, CfgId, CrateId, CtxId, DefWithBodyId, HygieneId, ItemContainerId, MacroDefId,
    ModuleId, TypeAliasId,
};
use hir_store::name::Name;
use hir_store::path::ModPath;
use hir_syntax::ast::{self, Fragment};
use std::alloc::{AllocError, Global};
use std::marker::Model;

/// What is said of a context: the one that it was made in, the hygiene of a name of it, the definition of the macro that
/// it came from and whether that is local to its crate, and the root of its crate.
#[derive(Clone, Copy, PartialEq, Eq)]
pub struct Context {
    pub parent: CtxId,
    pub opaque: HygieneId,
    pub outer_macro: Option<MacroDefId>,
    pub local_inner: bool,
    pub crate_root: Option<CrateId>,
}

/// What is said of a macro call.
#[derive(Drop)]
pub enum MacroAnswer {
    Unresolved(ModPath),
    NoExpansion,
    Expanded {
        file: HirFileId,
        root: Option<Fragment>,
        eager: Seq<(InFile<NodeId>, HirFileId)>,
    },
}

/// What may be said of a macro call.
pub trait ExpandsTo {
    /// What the call is expanded to.
    ghost expanding: { Self → Expanding };

    /// Lends what the call is expanded to.
    fn expansion(&self) -> Expansion<'_>
        ensures { expanding_of result ≡ expanding self.now };
}

impl ExpandsTo for MacroAnswer {
    ghost use Rattle.hir_tables.specs.Tables.{expanded_to};

    ghost expanding = { expanded_to };

    fn expansion(&self) -> Expansion<'_> {
        match self {
            MacroAnswer::NoExpansion => Expansion::NoExpansion,
            MacroAnswer::Unresolved(path) => Expansion::Unresolved(path),
            MacroAnswer::Expanded { file, root, eager } => {
                Expansion::Expanded(*file, root.as_ref(), eager.as_slice())
            }
        }
    }
}

/// An environment that answers all from tables. A node that stands in none is enabled, has root hygiene and no
/// block, and a call that stands in none has no expansion. A name's context has the number of its hygiene. A context that
/// stands in no table was made in the root, has the hygiene of its own number, came from no macro, and its crate has no root. A
/// path that stands in none stands for nothing, and one that does stands for the same in every way that it is looked up. An alias that
/// stands in none has no answer. Of two entries for one node, one context, one call, one path, one alias or one name the first counts.
///
/// A node is known by the numbers of its file and its own, all else by number, path or name.
///
/// What is said of a call is a type parameter, since it holds trees: what names none of their types is cheap to check.
pub struct TablesOf<M> {
    disabled: FirstOf<(u32, u32), CfgId>,
    preds: FirstOf<u32, Option<bool>>,
    hygiene: FirstOf<(u32, u32), HygieneId>,
    contexts: FirstOf<u32, Context>,
    blocks: FirstOf<(u32, u32), (BlockId, ModuleId)>,
    skip: bool,
    container: ItemContainerId,
    paths: FirstBelow<ModPath, u32, Resolved>,
    aliases: FirstOf<u32, AliasSignature>,
    lang_items: LangItems,
    new_range: bool,
    macros: FirstOf<(u32, u32), M>,
    macro_defs: FirstBelow<Name, u32, MacroDefId>,
    legacy: FirstBelow<Name, (u32, u32), MacroDefId>,
    limit: u32,
    /// It is no answer, so contracts don't see it.
    hash_key: u128,
}

/// Tables that say of a call what it is expanded to.
pub type TableEnv = TablesOf<MacroAnswer>;

/// The numbers that a node is known by.
fn place(node: InFile<NodeId>) -> (u32, u32)
    ensures { result ≡ spec.place node }
{
    (node.file_id.0, node.value.0)
}

impl<M: Drop> Drop for TablesOf<M> {
    fn drop(self) {
        let TablesOf {
            disabled: _,
            preds: _,
            hygiene: _,
            contexts: _,
            blocks: _,
            skip: _,
            container: _,
            paths: _,
            aliases: _,
            lang_items: _,
            new_range: _,
            macros: _,
            macro_defs: _,
            legacy: _,
            limit: _,
            hash_key: _,
        } = self;
    }
}

impl<M> Model for TablesOf<M> {
    ghost use Rattle.hir_tables.specs.Tables.{Saying};
    ghost use Rattle.std.specs.Coded.{codes};
    ghost use Rattle.hir_store.specs.contracts.path.GenericArgs as generic_args;

    ghost Value = { Saying M };

    ghost coded = { Prim.hlevel (codes, generic_args.the_row.coded, M.code) };

    ghost view = { λ t. record {
      disabled = t.disabled;
      preds = t.preds;
      hygiene = t.hygiene;
      contexts = t.contexts;
      blocks = t.blocks;
      skip = t.skip;
      container = t.container;
      paths = t.paths;
      aliases = t.aliases;
      lang_items = t.lang_items;
      new_range = t.new_range;
      macros = t.macros;
      macro_defs = t.macro_defs;
      legacy = t.legacy;
      limit = t.limit;
    } };
}

impl<M> TablesOf<M> {
    /// Tables without entries, of a body that is not skipped and stands in the container. All lang items are
    /// there, numbered in their order, and ranges are made as the older ones.
    pub fn new(alloc: Global, container: ItemContainerId) -> TablesOf<M>
        ensures { result ≡ spec.empty container }
    {
        TablesOf {
            disabled: FirstOf::new(alloc),
            preds: FirstOf::new(alloc),
            hygiene: FirstOf::new(alloc),
            contexts: FirstOf::new(alloc),
            blocks: FirstOf::new(alloc),
            skip: false,
            container,
            paths: FirstBelow::new(alloc),
            aliases: FirstOf::new(alloc),
            lang_items: LangItems::numbered(),
            new_range: false,
            macros: FirstOf::new(alloc),
            macro_defs: FirstBelow::new(alloc),
            legacy: FirstBelow::new(alloc),
            limit: 16,
            hash_key: 0,
        }
    }

    /// Disables a node. Where memory is refused the tables are unchanged, here and below.
    pub fn disable(&mut self, node: InFile<NodeId>, by: CfgId) -> Result<(), AllocError>
        ensures ok { OnOk result (self.new ≡ record self.old { disabled = with_first self.old.disabled node by }) }
        ensures err { OnErr result (self.new ≡ self.old) }
    {
        self.disabled.insert(place(node), by)
    }

    /// Says whether a predicate holds, or that it is undecided.
    pub fn decide(&mut self, pred: PredId, holds: Option<bool>) -> Result<(), AllocError>
        ensures ok { OnOk result (self.new ≡ record self.old { preds = with_pred self.old.preds pred holds }) }
        ensures err { OnErr result (self.new ≡ self.old) }
    {
        self.preds.insert(pred.0, holds)
    }

    /// Gives the name at a node a hygiene.
    pub fn set_hygiene(
        &mut self,
        node: InFile<NodeId>,
        hygiene: HygieneId,
    ) -> Result<(), AllocError>
        ensures ok { OnOk result (self.new ≡ record self.old { hygiene = with_first self.old.hygiene node hygiene }) }
        ensures err { OnErr result (self.new ≡ self.old) }
    {
        self.hygiene.insert(place(node), hygiene)
    }

    /// Says all that is answered of a context.
    pub fn set_context(&mut self, context: CtxId, of: Context) -> Result<(), AllocError>
        ensures ok { OnOk result (self.new ≡ record self.old { contexts = with_context self.old.contexts context of }) }
        ensures err { OnErr result (self.new ≡ self.old) }
    {
        self.contexts.insert(context.0, of)
    }

    /// What is answered of a context.
    fn context_of(&self, context: CtxId) -> Context
        ensures { result ≡ spec.context_in self.now.contexts context }
    {
        let unsaid = Context {
            parent: CtxId(0),
            opaque: HygieneId(context.0),
            outer_macro: None,
            local_inner: false,
            crate_root: None,
        };
        self.contexts.get(context.0).copied().unwrap_or(unsaid)
    }

    /// Makes the block at a node a scope of items.
    pub fn number_block(
        &mut self,
        node: InFile<NodeId>,
        block: BlockId,
        inside: ModuleId,
    ) -> Result<(), AllocError>
        ensures ok { OnOk result (self.new ≡ record self.old { blocks = with_first self.old.blocks node (block, inside) }) }
        ensures err { OnErr result (self.new ≡ self.old) }
    {
        self.blocks.insert(place(node), (block, inside))
    }

    /// Marks the body to be skipped, or not.
    pub fn set_skip(&mut self, skip: bool)
        ensures { self.new ≡ record self.old { skip = skip } }
    {
        self.skip = skip;
    }

    /// Says what a path stands for in a module.
    pub fn set_resolved(
        &mut self,
        inside: ModuleId,
        path: ModPath,
        resolved: Resolved,
    ) -> Result<(), AllocError>
        ensures ok { OnOk result (self.new ≡ record self.old { paths = with_path self.old.paths inside path resolved }) }
        ensures err { OnErr result (self.new ≡ self.old) }
    {
        self.paths.insert(path, inside.0, resolved)
    }

    /// Says what is answered of an alias.
    pub fn set_alias(&mut self, id: TypeAliasId, alias: AliasSignature) -> Result<(), AllocError>
        ensures ok { OnOk result (self.new ≡ record self.old { aliases = with_alias self.old.aliases id alias }) }
        ensures err { OnErr result (self.new ≡ self.old) }
    {
        self.aliases.insert(id.0, alias)
    }

    /// Says which lang items are there.
    pub fn set_lang_items(&mut self, items: LangItems)
        ensures { self.new ≡ record self.old { lang_items = items } }
    {
        self.lang_items = items;
    }

    /// Whether something is said of the call at a node.
    pub fn has_macro(&self, call: InFile<NodeId>) -> bool
        ensures { result ≡ is_some (site_value self.now.macros call) }
    {
        self.macros.has(place(call))
    }

    /// Gives a macro of a module its number.
    pub fn set_macro_def(
        &mut self,
        inside: ModuleId,
        name: Name,
        def: MacroDefId,
    ) -> Result<(), AllocError>
        ensures ok { OnOk result (self.new ≡ record self.old { macro_defs = with_definition self.old.macro_defs inside name def }) }
        ensures err { OnErr result (self.new ≡ self.old) }
    {
        self.macro_defs.insert(name, inside.0, def)
    }

    /// Gives a macro that `macro_rules` has defined its number.
    pub fn set_legacy(
        &mut self,
        inside: ModuleId,
        name: Name,
        place: u32,
        def: MacroDefId,
    ) -> Result<(), AllocError>
        ensures ok { OnOk result (self.new ≡ record self.old { legacy = with_legacy self.old.legacy inside name place def }) }
        ensures err { OnErr result (self.new ≡ self.old) }
    {
        self.legacy.insert(name, (inside.0, place), def)
    }

    /// Says how many calls may be entered one in the other.
    pub fn set_limit(&mut self, limit: u32)
        ensures { self.new ≡ record self.old { limit = limit } }
    {
        self.limit = limit;
    }

    /// Says by which key names are hashed, which is 0 before. It is no answer: all that is said stays as it is.
    pub fn set_hash_key(&mut self, key: u128)
        ensures { self.new ≡ self.old }
    {
        self.hash_key = key;
    }

    /// Says whether ranges are made as the newer items.
    pub fn set_new_range(&mut self, new_range: bool)
        ensures { self.new ≡ record self.old { new_range = new_range } }
    {
        self.new_range = new_range;
    }
}

impl TableEnv {
    /// Says what the call at a node is expanded to.
    pub fn set_macro(&mut self, call: InFile<NodeId>, answer: MacroAnswer) -> Result<(), AllocError>
        ensures ok { OnOk result (self.new ≡ record self.old { macros = with_first self.old.macros call answer }) }
        ensures err { OnErr result (self.new ≡ self.old) }
    {
        self.macros.insert(place(call), answer)
    }
}

impl<M: ExpandsTo> LowerEnv for TablesOf<M> {
    ghost use Rattle.hir_tables.specs.Tables.{answers_by};

    ghost answers = { answers_by M.expanding };

    fn cfg(&self, node: InFile<NodeId>) -> Result<(), CfgId> {
        match self.disabled.get(place(node)) {
            Some(by) => Err(*by),
            None => Ok(()),
        }
    }

    fn cfg_pred(&self, pred: Option<PredId>) -> Option<bool> {
        match pred {
            Some(pred) => match self.preds.get(pred.0) {
                Some(holds) => *holds,
                None => None,
            },
            None => None,
        }
    }

    fn hygiene(&self, node: InFile<NodeId>) -> HygieneId {
        self.hygiene
            .get(place(node))
            .copied()
            .unwrap_or(HygieneId::ROOT)
    }

    fn context(&self, node: InFile<NodeId>) -> CtxId {
        CtxId(self.hygiene(node).0)
    }

    fn crate_root(&self, context: CtxId) -> Option<CrateId> {
        self.context_of(context).crate_root
    }

    fn context_parent(&self, context: CtxId) -> CtxId {
        self.context_of(context).parent
    }

    fn opaque(&self, context: CtxId) -> HygieneId {
        self.context_of(context).opaque
    }

    fn outer_macro(&self, context: CtxId) -> Option<OuterMacro> {
        let of = self.context_of(context);
        match of.outer_macro {
            Some(def) => Some(OuterMacro {
                def,
                local_inner: of.local_inner,
            }),
            None => None,
        }
    }

    fn block(&self, node: InFile<NodeId>, _inside: ModuleId) -> Option<(BlockId, ModuleId)> {
        self.blocks.get(place(node)).copied()
    }

    fn skip(&self, _owner: DefWithBodyId) -> bool {
        self.skip
    }

    fn container(&self, _owner: DefWithBodyId) -> ItemContainerId {
        self.container
    }

    fn module_of(&self, container: ItemContainerId) -> ModuleId {
        match container {
            ItemContainerId::ModuleId(inside) => inside,
            _ => ModuleId(0),
        }
    }

    fn resolve(&self, inside: ModuleId, path: &ModPath, _shadow: BuiltinShadowMode) -> Resolved {
        let unsaid = Resolved {
            types: None,
            values: None,
            rest: None,
        };
        self.paths.get(path, inside.0).unwrap_or(unsaid)
    }

    fn alias(&self, id: TypeAliasId) -> Option<&AliasSignature> {
        self.aliases.get(id.0)
    }

    fn lang_items(&self) -> &LangItems {
        &self.lang_items
    }

    fn new_range(&self, _inside: ModuleId) -> bool {
        self.new_range
    }

    fn expand(
        &self,
        node: InFile<NodeId>,
        _call: &ast::MacroCall,
        _inside: ModuleId,
        _kind: FragmentKind,
    ) -> Expansion<'_> {
        match self.macros.get(place(node)) {
            None => Expansion::NoExpansion,
            Some(answer) => answer.expansion(),
        }
    }

    fn macro_def(&self, inside: ModuleId, name: &Name) -> Option<MacroDefId> {
        self.macro_defs.get(name, inside.0)
    }

    fn legacy_macro(&self, inside: ModuleId, name: &Name, place: u32) -> Option<MacroDefId> {
        self.legacy.get(name, (inside.0, place))
    }

    fn expansion_limit(&self) -> u32 {
        self.limit
    }

    fn hash_key(&self) -> u128 {
        self.hash_key
    }
}
