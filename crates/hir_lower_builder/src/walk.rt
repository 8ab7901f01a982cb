//! What is read of a path so far.

ghost use Rattle.std.specs.Prelude.{◌≡◌, map, reverse, IfOk, None};
ghost use Rattle.hir_store.specs.Past.{join, past_generic, past_present};
ghost use Rattle.hir_lower_builder.specs.Walks as spec;

use hir_store::ids::{CrateId, TypeRefId};
use hir_store::lists::push_args;
use hir_store::name::Name;
use hir_store::path::{GenericArgs, ModPath, NormalPath, Path, PathKind};
use hir_syntax::Seq;
use std::alloc::{AllocError, Global};

/// What the segments that are read say, in the order in which they are read: from the last.
#[derive(Drop)]
pub struct PathWalk {
    pub kind: PathKind,
    pub type_anchor: Option<TypeRefId>,
    pub names: Seq<Name>,
    /// What stands beside each name.
    pub args: Seq<Option<GenericArgs>>,
    pub found_args: bool,
}

/// What follows a segment: the path is refused, it ends there, or it goes on.
#[derive(Drop)]
pub enum Reading {
    Refused,
    Ended(PathWalk),
    Open(PathWalk),
}

/// The kind that `$crate` gives in a context with this root.
pub fn crate_kind(root: Option<CrateId>) -> PathKind
    ensures { result ≡ spec.crate_kind root }
{
    match root {
        Some(root) => PathKind::DollarCrate(root),
        None => PathKind::Crate,
    }
}

/// The kind with one `super` more, or none where there are as many as are counted.
fn one_more_super(kind: PathKind) -> Option<PathKind>
    ensures { result ≡ spec.one_more_super kind }
{
    let count = match kind {
        PathKind::Super(count) => count,
        _ => 0,
    };
    match count.checked_add(1) {
        Some(count) => Some(PathKind::Super(count)),
        None => None,
    }
}

/// None beside each name.
#[tactic(auto, using(crate::proofs::Walked::no_args_push))]
fn absent_args(alloc: Global, names: &Seq<Name>) -> Result<Seq<Option<GenericArgs>>, AllocError>
    ensures { IfOk result (λ args. args ≡ map (λ n. None) names.now) }
{
    let mut args = Seq::new(alloc);
    let mut left = names.as_slice();
    while let [_, rest @ ..] = left {
        args.push(None)?;
        left = rest;
    }
    Ok(args)
}

/// The names of a path and what stands beside each. An item of the language has none.
fn segments_of(alloc: Global, path: Path) -> Result<(ModPath, Seq<Option<GenericArgs>>), AllocError>
    ensures { IfOk result (λ it. it ≡ (spec.mod_path path, spec.args_of path)) }
{
    match path {
        Path::BarePath(mod_path) => {
            let args = absent_args(alloc, &mod_path.segments)?;
            Ok((mod_path, args))
        }
        Path::Normal(
            NormalPath {
                type_anchor: _,
                mod_path,
                generic_args,
            },
        ) => Ok((mod_path, generic_args)),
        Path::LangItem(_) => {
            let mod_path = ModPath {
                kind: PathKind::Plain,
                segments: Seq::new(alloc),
            };
            Ok((mod_path, Seq::new(alloc)))
        }
    }
}

/// The arguments from the last to the first, the last behind one for `Self`.
#[tactic(auto, using(crate::proofs::Walked::with_self_last))]
fn args_with_self(
    alloc: Global,
    ty: TypeRefId,
    mut args: Seq<Option<GenericArgs>>,
) -> Result<Seq<Option<GenericArgs>>, AllocError>
    ensures { IfOk result (λ all. all ≡ spec.with_self ty (reverse args)) }
{
    let last = match args.pop() {
        Some(last) => last,
        None => None,
    };
    let mut all = Seq::new(alloc);
    all.push(Some(GenericArgs::with_self(alloc, last, ty)?))?;
    args.reverse();
    all.append(args)?;
    Ok(all)
}

impl PathWalk {
    /// Nothing is read.
    pub fn new(alloc: Global) -> PathWalk
        ensures { result ≡ spec.start }
    {
        PathWalk {
            kind: PathKind::Plain,
            type_anchor: None,
            names: Seq::new(alloc),
            args: Seq::new(alloc),
            found_args: false,
        }
    }

    /// The walk at a first segment, which may bear a `::`.
    #[inline(never)]
    pub fn at_first(self, leading: bool) -> PathWalk
        ensures value { result ≡ spec.at_first leading self }
        ensures past { spec.past_walk result ≡ spec.past_walk self }
    {
        if leading {
            PathWalk {
                kind: PathKind::Abs,
                ..self
            }
        } else {
            self
        }
    }

    /// A further name, before those that are read, with what stands beside it.
    #[tactic(auto, using(hir_store::proofs::Past::join_assoc))]
    #[inline(never)]
    pub fn named(mut self, name: Name, args: Option<GenericArgs>) -> Result<Reading, AllocError>
        ensures value { IfOk result (λ r. r ≡ spec.named name args self) }
        ensures past { IfOk result (λ r. spec.past_reading r ≡ join (spec.past_walk self) (past_present past_generic args)) }
    {
        self.found_args = self.found_args || args.is_some();
        self.names.push(name)?;
        push_args(&mut self.args, args)?;
        Ok(Reading::Open(self))
    }

    /// The path begins here, with this kind.
    #[inline(never)]
    pub fn ended(self, kind: PathKind) -> Reading
        ensures { result ≡ spec.ended kind self }
    {
        Reading::Ended(PathWalk { kind, ..self })
    }

    /// `self` as a first segment: it ends the path where a name was read.
    #[inline(never)]
    pub fn self_read(self) -> Reading
        ensures { result ≡ spec.self_read self }
    {
        if self.names.is_empty() {
            return Reading::Open(self);
        }
        let kind = match self.kind {
            PathKind::Super(count) => PathKind::Super(count),
            _ => PathKind::Super(0),
        };
        self.ended(kind)
    }

    /// One `super` more, or none where there are as many as are counted.
    #[inline(never)]
    pub fn super_read(self) -> Option<Reading>
        ensures { result ≡ spec.super_read self }
    {
        match one_more_super(self.kind) {
            Some(kind) => Some(Reading::Open(PathWalk { kind, ..self })),
            None => None,
        }
    }

    /// `<T>`.
    #[inline(never)]
    pub fn anchored(self, ty: TypeRefId) -> Reading
        ensures { result ≡ spec.anchored ty self }
    {
        Reading::Open(PathWalk {
            kind: PathKind::Plain,
            type_anchor: Some(ty),
            ..self
        })
    }

    /// `<T as Trait>`: the trait's names, with `T` before the arguments of the last.
    #[inline(never)]
    pub fn projected(
        mut self,
        alloc: Global,
        ty: TypeRefId,
        path: Path,
    ) -> Result<Reading, AllocError>
        ensures { IfOk result (λ r. r ≡ spec.projected ty path self) }
    {
        let (ModPath { kind, mut segments }, args) = segments_of(alloc, path)?;
        if segments.is_empty() {
            return Ok(Reading::Refused);
        }
        segments.reverse();
        self.names.append(segments)?;
        self.args.append(args_with_self(alloc, ty, args)?)?;
        self.kind = kind;
        self.found_args = true;
        Ok(Reading::Open(self))
    }

    /// The path, all of whose segments are read.
    #[inline(never)]
    pub fn finished(self) -> Path
        ensures { result ≡ spec.finished self }
    {
        let PathWalk {
            kind,
            type_anchor,
            mut names,
            mut args,
            found_args,
        } = self;
        let kind = if names.is_empty() && kind == PathKind::Plain && type_anchor.is_none() {
            PathKind::Super(0)
        } else {
            kind
        };
        names.reverse();
        let mod_path = ModPath {
            kind,
            segments: names,
        };
        if type_anchor.is_none() && !found_args {
            return Path::BarePath(mod_path);
        }
        drop_last_self(&mut args);
        args.reverse();
        Path::Normal(NormalPath {
            type_anchor,
            mod_path,
            generic_args: args,
        })
    }
}

/// Nothing stands behind `<T as Trait>`, so its arguments go.
fn drop_last_self(args: &mut Seq<Option<GenericArgs>>)
    ensures { args.new ≡ spec.without_last_self args.old }
{
    let goes = match args.as_slice() {
        [Some(last), ..] => last.has_self_type,
        _ => false,
    };
    if goes {
        args.set(0, None);
    }
}

/// The path that was read, or none where it is refused.
#[inline(never)]
pub fn path_read(reading: Reading) -> Option<Path>
    ensures { result ≡ spec.path_read reading }
{
    match reading {
        Reading::Refused => None,
        Reading::Ended(walk) => Some(walk.finished()),
        Reading::Open(walk) => Some(walk.finished()),
    }
}
