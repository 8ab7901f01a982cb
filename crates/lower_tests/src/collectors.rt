//! Collectors: how their calls are answered, and the stores that they hand out.

use crate::documents::{
    AskOfDocument, Said, constant_in, own_if, path_in, said_by_error, said_of, type_in,
};
use crate::in_range::in_range;
use crate::listings::{said_of_listing, said_of_type_listing};
use crate::owners::{Owners, are_owners};
use hir_base::Seq;
use hir_base::node::{AstPtr, HirFileId, NodeId, TextRange};
use hir_env::ctx::LoweringMode;
use hir_env::env::LowerEnv;
use hir_lower::{
    ErrorImplTrait, ExprCollector, ImplTraitLower, LowerError, OpaqueImplTrait,
    impl_trait_error_allocator,
};
use hir_store::builder::ExpressionStoreBuilder;
use hir_store::ids::{BindingId, ExprId, ModuleId, PatId, TypeRefId};
use hir_store::roots::ExprRoot;
use hir_store::source_map::ExpressionStoreSourceMap;
use hir_store::store::ExpressionStore;
use lower_json::document::{Document, Root};
use std::alloc::Global;

/// A call of a collector: of the document's constant or type, absent where it has none, of its path, or of an `impl` without bounds. An
/// `impl` in a type or a path is an error or stays.
#[derive(Clone, Copy)]
pub enum Call {
    Constant,
    Path,
    OpaquePath,
    Type,
    OpaqueType,
    Allocator,
    ErrorImpl,
    OpaqueImpl,
}

const ALL_CALLS: [Call; 8] = [
    Call::Constant,
    Call::Path,
    Call::OpaquePath,
    Call::Type,
    Call::OpaqueType,
    Call::Allocator,
    Call::ErrorImpl,
    Call::OpaqueImpl,
];

/// What a call is answered: of a path whether it has a lowered form.
pub type Answer = Result<bool, LowerError>;

/// Where the expressions, the patterns and the bindings of a root end.
pub type Ends = (ExprId, PatId, BindingId);

/// What a collector hands out behind its calls.
#[derive(Clone, Copy)]
pub enum Holds {
    /// No store, since a call had an error; this many expressions are stored, if that is known.
    Failed {
        exprs: Option<u32>,
    },
    /// The ends of the only root; none where no root is recorded.
    OnlyEnds(Option<Ends>),
    /// The first three roots: the expression of each, and where those end that belong to it.
    Roots([Option<(ExprId, ExprId)>; 3]),
    Owners(Owners),
    Sizes {
        exprs: u32,
        labels: u32,
        expansions: usize,
        faults: usize,
    },
    /// The listing of the first type.
    FirstType(&'static str),
    /// How many types are stored, and the listing of the last.
    Types(u32, &'static str),
    /// The listing of all roots, with sources.
    Listing(&'static str),
}

/// The calls of a collector that has room for so many entries of each kind, each with its answer, and what it hands out behind them.
#[derive(Clone, Copy)]
pub struct Script<'a> {
    pub limit: u32,
    pub calls: &'a [(Call, Answer)],
    pub holds: Holds,
}

const POINTER: AstPtr = AstPtr {
    node: NodeId(4),
    range: TextRange { start: 4, end: 5 },
};

/// A collector of the first module and file, for analysis, whose arenas have this limit.
pub fn collector<E: LowerEnv>(alloc: Global, env: &E, limit: u32) -> ExprCollector<'_, E> {
    ExprCollector::with_limit(
        alloc,
        env,
        ModuleId(0),
        HirFileId(0),
        LoweringMode::Analysis,
        limit,
    )
}

/// What the calls of a collector are made of. Whatever hands it on knows nothing of trees, which are dear to prove anything about.
trait Subject {
    /// Lowers the constant.
    fn constant<E: LowerEnv>(&self, collector: &mut ExprCollector<'_, E>) -> Answer;

    /// Lowers the path. Where there is none no call is made, and it isn't answered that one fails.
    fn path<E: LowerEnv, I: ImplTraitLower>(
        &self,
        collector: &mut ExprCollector<'_, E>,
        choice: &mut I,
    ) -> Answer;

    /// Lowers the type.
    fn type_ref<E: LowerEnv, I: ImplTraitLower>(
        &self,
        collector: &mut ExprCollector<'_, E>,
        choice: &mut I,
    ) -> Answer;
}

impl Subject for Document {
    fn constant<E: LowerEnv>(&self, collector: &mut ExprCollector<'_, E>) -> Answer {
        let _lowered = collector.lower_const_arg(constant_in(self).unwrap_or(&None))?;
        Ok(true)
    }

    fn path<E: LowerEnv, I: ImplTraitLower>(
        &self,
        collector: &mut ExprCollector<'_, E>,
        choice: &mut I,
    ) -> Answer {
        match path_in(self) {
            Some(path) => {
                let lowered = collector.lower_path(path, choice)?;
                let is_some = lowered.is_some();
                drop(lowered);
                Ok(is_some)
            }
            None => Ok(false),
        }
    }

    fn type_ref<E: LowerEnv, I: ImplTraitLower>(
        &self,
        collector: &mut ExprCollector<'_, E>,
        choice: &mut I,
    ) -> Answer {
        let _lowered = collector.lower_type_ref_opt(type_in(self), choice)?;
        Ok(true)
    }
}

fn impl_alone<E: LowerEnv, I: ImplTraitLower>(
    alloc: Global,
    collector: &mut ExprCollector<'_, E>,
    choice: &mut I,
) -> Answer {
    let _stored = choice.lower(collector, POINTER, Seq::new(alloc))?;
    Ok(true)
}

fn impl_error<E: LowerEnv>(alloc: Global, collector: &mut ExprCollector<'_, E>) -> Answer {
    let _stored = impl_trait_error_allocator(collector, POINTER, Seq::new(alloc))?;
    Ok(true)
}

fn called<E: LowerEnv, S: Subject>(
    alloc: Global,
    collector: &mut ExprCollector<'_, E>,
    call: Call,
    subject: &S,
) -> Answer {
    match call {
        Call::Constant => subject.constant(collector),
        Call::Path => subject.path(collector, &mut ErrorImplTrait),
        Call::OpaquePath => subject.path(collector, &mut OpaqueImplTrait),
        Call::Type => subject.type_ref(collector, &mut ErrorImplTrait),
        Call::OpaqueType => subject.type_ref(collector, &mut OpaqueImplTrait),
        Call::Allocator => impl_error(alloc, collector),
        Call::ErrorImpl => impl_alone(alloc, collector, &mut ErrorImplTrait),
        Call::OpaqueImpl => impl_alone(alloc, collector, &mut OpaqueImplTrait),
    }
}

/// How a call is answered that has to be answered so. One that fails in any case asks for no memory.
fn said_of_answer(answer: Answer, own: Answer) -> Said {
    match answer {
        _ if answer == own => Said::Own,
        Err(LowerError::Memory) if own != Err(LowerError::Failed) => Said::Memory,
        _ => Said::Other,
    }
}

/// How the first of the calls is answered that isn't answered as it has to be.
fn answers<E: LowerEnv, S: Subject>(
    alloc: Global,
    collector: &mut ExprCollector<'_, E>,
    calls: &[(Call, Answer)],
    subject: &S,
) -> Said {
    for next in calls {
        let (call, own) = *next;
        let said = said_of_answer(called(alloc, collector, call, subject), own);
        if said != Said::Own {
            return said;
        }
    }
    Said::Own
}

/// How much is stored of each kind, and how many roots are recorded.
fn sizes(store: &ExpressionStoreBuilder) -> ([u32; 6], usize) {
    let sizes = [
        store.exprs_len(),
        store.pats_len(),
        store.bindings_len(),
        store.types_len(),
        store.lifetimes_len(),
        store.labels_len(),
    ];
    (sizes, store.expr_roots().len())
}

/// Whether each call is answered `Failed`, and none changes how much is stored.
fn fails_for_good<E: LowerEnv, S: Subject>(
    alloc: Global,
    collector: &mut ExprCollector<'_, E>,
    subject: &S,
) -> bool {
    let own = sizes(collector.store());
    for call in ALL_CALLS.iter() {
        if called(alloc, collector, *call, subject) != Err(LowerError::Failed) {
            return false;
        }
    }
    sizes(collector.store()) == own
}

/// Whether the numbers in the store are in range, and where there was an error each later call fails.
fn is_sound<E: LowerEnv, S: Subject>(
    alloc: Global,
    collector: &mut ExprCollector<'_, E>,
    holds: Holds,
    subject: &S,
) -> bool {
    let Holds::Failed { exprs } = holds else {
        return in_range(collector.store());
    };
    let stored = collector.store().exprs_len();
    exprs.unwrap_or(stored) == stored
        && in_range(collector.store())
        && fails_for_good(alloc, collector, subject)
}

fn ends_of(root: &ExprRoot) -> Ends {
    (root.exprs_end, root.pats_end, root.bindings_end)
}

fn expr_and_end(root: &ExprRoot) -> (ExprId, ExprId) {
    (root.root, root.exprs_end)
}

/// The first three roots.
fn roots_in(roots: &[ExprRoot]) -> [Option<(ExprId, ExprId)>; 3] {
    [
        roots.first().map(expr_and_end),
        roots.get(1).map(expr_and_end),
        roots.get(2).map(expr_and_end),
    ]
}

fn said_of_store(
    alloc: Global,
    store: &ExpressionStore,
    source_map: &ExpressionStoreSourceMap,
    holds: Holds,
) -> Said {
    let roots = store.expr_roots();
    match holds {
        Holds::Failed { .. } => Said::Other,
        Holds::OnlyEnds(own) => own_if(roots.len() <= 1 && roots.first().map(ends_of) == own),
        Holds::Roots(own) => own_if(roots_in(roots) == own),
        Holds::Owners(own) => own_if(are_owners(store, own)),
        Holds::Sizes {
            exprs,
            labels,
            expansions,
            faults,
        } => {
            let is_so = store.exprs_len() == exprs
                && store.labels_len() == labels
                && source_map.expansions().len() == expansions
                && source_map.diagnostics().len() == faults;
            own_if(is_so)
        }
        Holds::FirstType(text) => {
            said_of_type_listing(alloc, store, source_map, TypeRefId(0), text)
        }
        Holds::Types(number, text) if store.types_len() == number && number > 0 => {
            said_of_type_listing(alloc, store, source_map, TypeRefId(number - 1), text)
        }
        Holds::Types(..) => Said::Other,
        Holds::Listing(text) => said_of_listing(alloc, store, source_map, text),
    }
}

/// What a collector hands out. No other function owns a store that one handed out.
pub fn handed_out<E: LowerEnv>(
    alloc: Global,
    collector: ExprCollector<'_, E>,
    holds: Holds,
) -> Said {
    match collector.into_store() {
        Ok((store, source_map)) => {
            let said = said_of_store(alloc, &store, &source_map, holds);
            drop(store);
            drop(source_map);
            said
        }
        Err(error) => own_if(error == LowerError::Failed && matches!(holds, Holds::Failed { .. })),
    }
}

/// How the calls of a script are answered. Behind a refusal of memory a collector fails for good.
fn said_in<E: LowerEnv, S: Subject>(
    alloc: Global,
    env: &E,
    script: &Script<'_>,
    subject: &S,
) -> Said {
    let mut collector = collector(alloc, env, script.limit);
    let said = answers(alloc, &mut collector, script.calls, subject);
    let holds = match said {
        Said::Memory => Holds::Failed { exprs: None },
        Said::Own | Said::Beside | Said::Other => script.holds,
    };
    let is_sound = is_sound(alloc, &mut collector, holds, subject);
    match handed_out(alloc, collector, holds) {
        Said::Own if is_sound => said,
        Said::Beside if is_sound && said == Said::Own => Said::Beside,
        _ => Said::Other,
    }
}

impl AskOfDocument for Script<'_> {
    fn said(&self, alloc: Global, document: &mut Document) -> Said {
        said_in(alloc, &document.env, self, &*document)
    }
}

/// How the calls of a collector are answered that have to do with the path of a text.
pub fn said_of_calls(alloc: Global, text: &str, script: &Script<'_>) -> Said {
    said_of(alloc, Root::Path, text, script)
}
