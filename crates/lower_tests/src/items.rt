//! Items that no document has as its root: traits, implementations, parameters by themselves, and aliases, whole and without each part.
//! Their parts are those of the aliases in a document.

use crate::documents::{AskOfDocument, Said, said_by_error, said_of};
use crate::listings::said_of_text;
use hir_base::node::{HirFileId, InFile};
use hir_env::ctx::LoweringMode;
use hir_env::env::LowerEnv;
use hir_env::lang::LangItems;
use hir_lower::{lower_generic_params, lower_impl, lower_trait, lower_type_alias};
use hir_store::generics::GenericParams;
use hir_store::ids::{
    ExternBlockId, GenericDefId, ImplId, ItemContainerId, ModuleId, TraitId, TypeAliasId, TypeRefId,
};
use hir_store::source_map::ExpressionStoreSourceMap;
use hir_store::store::ExpressionStore;
use hir_syntax::ast::Type_;
use hir_syntax::items::{GenericParamList, Impl, Trait, TypeAlias, WhereClause};
use hir_syntax::{Boxed, Seq};
use lower_json::document::{Document, Root, Tree};
use lower_listing::{Listed, Signature, function_listing};
use std::alloc::{AllocError, Global};
use std::mem;

/// A document with three aliases, whose fields stand between these parts. Each of its other nodes belongs to one of the three:
/// `A`, which bounds an item, `<T>`, `where T: A`, `U` and `Tr<T>`.
const BEFORE: &str = r#"{"nodes": [{"k": "Fn"}, {"k": "TypeAlias""#;

const BETWEEN: &str = r#"}, {"k": "TypeAlias""#;

const BEHIND: &str = r#"},
    {"k": "TypeBound", "b": "path", "ty": 5},
    {"k": "PathType", "path": 6},
    {"k": "Path", "segs": [7]},
    {"k": "PathSegment", "seg": "name", "name": "A"},
    {"k": "GenericParamList", "params": [9]},
    {"k": "TypeParam", "name": "T"},
    {"k": "WhereClause", "preds": [11]},
    {"k": "WherePred", "ty": 12, "bounds": [15]},
    {"k": "PathType", "path": 13},
    {"k": "Path", "segs": [14]},
    {"k": "PathSegment", "seg": "name", "name": "T"},
    {"k": "TypeBound", "b": "path", "ty": 16},
    {"k": "PathType", "path": 17},
    {"k": "Path", "segs": [18]},
    {"k": "PathSegment", "seg": "name", "name": "A"},
    {"k": "PathType", "path": 20},
    {"k": "Path", "segs": [21]},
    {"k": "PathSegment", "seg": "name", "name": "U"},
    {"k": "PathType", "path": 23},
    {"k": "Path", "segs": [24]},
    {"k": "PathSegment", "seg": "name", "name": "Tr", "generics": 25},
    {"k": "GenericArgList", "args": [26]},
    {"k": "TypeArg", "ty": 27},
    {"k": "PathType", "path": 28},
    {"k": "Path", "segs": [29]},
    {"k": "PathSegment", "seg": "name", "name": "T"}
], "env": {"aliases": [[2, 3], [1, 2], [0, 1]]}}"#;

/// The fields of the three aliases.
type Fields = [&'static str; 3];

fn text_of(alloc: Global, fields: Fields) -> Result<String, AllocError> {
    let [first, second, third] = fields;
    format!(in alloc;
        "{}{}{}{}{}{}{}",
        BEFORE, first, BETWEEN, second, BETWEEN, third, BEHIND
    )
}

/// An item that is made of the first alias.
#[derive(Clone, Copy)]
pub enum Item {
    Trait,
    /// Its trait is the type of the second alias.
    Impl,
    /// Where it stands.
    Alias(ItemContainerId),
}

/// An item with its listing.
#[derive(Clone, Copy)]
pub struct ItemIs<'a> {
    pub item: Item,
    pub listed: &'a str,
}

/// How parameters and types are listed, as those of a function are.
fn said_of_listing(
    alloc: Global,
    store: &ExpressionStore,
    source_map: &ExpressionStoreSourceMap,
    params: &GenericParams,
    args: &[TypeRefId],
    ret: Option<TypeRefId>,
    own: &str,
) -> Said {
    let items = LangItems::numbered();
    let listed = Listed {
        store,
        source_map,
        lang_items: &items,
        sources: false,
        params: Some(params),
    };
    let signature = Signature {
        params,
        args,
        ret,
        has_self: false,
        has_variadic: false,
    };
    said_of_text(function_listing(alloc, listed, signature), own)
}

fn said_of_trait<E: LowerEnv>(alloc: Global, env: &E, item: &Trait, own: &str) -> Said {
    let written = InFile {
        file_id: HirFileId(0),
        value: item,
    };
    match lower_trait(alloc, env, ModuleId(0), written, TraitId(0)) {
        Ok((store, source_map, params)) => {
            let said = said_of_listing(alloc, &store, &source_map, &params, &[], None, own);
            drop(store);
            drop(source_map);
            drop(params);
            said
        }
        Err(error) => said_by_error(error),
    }
}

/// Its type for `Self` comes from a node just where one is written.
fn said_of_impl<E: LowerEnv>(alloc: Global, env: &E, item: &Impl, own: &str) -> Said {
    let has_type = item.self_ty.is_some();
    let written = InFile {
        file_id: HirFileId(0),
        value: item,
    };
    match lower_impl(alloc, env, ModuleId(0), written, ImplId(0)) {
        Ok((store, source_map, self_type, trait_, params)) => {
            let has_node = source_map.type_syntax(self_type).is_some();
            let said = match trait_ {
                Some(trait_) => {
                    let types = [self_type, trait_.path];
                    said_of_listing(alloc, &store, &source_map, &params, &types, None, own)
                }
                None => said_of_listing(
                    alloc,
                    &store,
                    &source_map,
                    &params,
                    &[self_type],
                    None,
                    own,
                ),
            };
            drop(store);
            drop(source_map);
            drop(params);
            if has_node == has_type {
                said
            } else {
                Said::Other
            }
        }
        Err(error) => said_by_error(error),
    }
}

/// It has as many bounds as are written.
fn said_of_alias<E: LowerEnv>(
    alloc: Global,
    env: &E,
    container: ItemContainerId,
    item: &TypeAlias,
    own: &str,
) -> Said {
    let written_bounds = item.bounds.len();
    let written = InFile {
        file_id: HirFileId(0),
        value: item,
    };
    match lower_type_alias(alloc, env, container, written, TypeAliasId(0)) {
        Ok((store, source_map, params, bounds, ty)) => {
            let said = said_of_listing(alloc, &store, &source_map, &params, &[], ty, own);
            let has_bounds = bounds.len() == written_bounds;
            drop(store);
            drop(source_map);
            drop(params);
            drop(bounds);
            if has_bounds { said } else { Said::Other }
        }
        Err(error) => said_by_error(error),
    }
}

fn said_of_params<E: LowerEnv>(
    alloc: Global,
    env: &E,
    list: Option<&GenericParamList>,
    clause: Option<&WhereClause>,
    own: &str,
) -> Said {
    let lowered = lower_generic_params(
        alloc,
        env,
        ModuleId(0),
        GenericDefId::TraitId(TraitId(0)),
        HirFileId(0),
        list,
        clause,
        LoweringMode::Analysis,
    );
    match lowered {
        Ok((store, params, source_map)) => {
            let said = said_of_listing(alloc, &store, &source_map, &params, &[], None, own);
            drop(store);
            drop(params);
            drop(source_map);
            said
        }
        Err(error) => said_by_error(error),
    }
}

/// The parts of an alias become those of the item, and it has them no longer then.
fn said_of_made<E: LowerEnv>(
    alloc: Global,
    env: &E,
    ask: ItemIs<'_>,
    alias: &mut TypeAlias,
    trait_: &mut Option<Boxed<Type_>>,
) -> Said {
    match ask.item {
        Item::Trait => {
            let item = Trait {
                id: alias.id,
                range: alias.range,
                bounds: mem::replace(&mut alias.bounds, Seq::new(alloc)),
                generics: alias.generics.take(),
                where_: alias.where_.take(),
            };
            let said = said_of_trait(alloc, env, &item, ask.listed);
            drop(item);
            said
        }
        Item::Impl => {
            let item = Impl {
                id: alias.id,
                range: alias.range,
                self_ty: alias.ty.take(),
                trait_: trait_.take(),
                generics: alias.generics.take(),
                where_: alias.where_.take(),
            };
            let said = said_of_impl(alloc, env, &item, ask.listed);
            drop(item);
            said
        }
        Item::Alias(container) => said_of_alias(alloc, env, container, alias, ask.listed),
    }
}

impl AskOfDocument for ItemIs<'_> {
    fn said(&self, alloc: Global, document: &mut Document) -> Said {
        match (document.aliases.pop(), document.aliases.pop()) {
            (Some(first), Some(second)) => {
                let mut first = first;
                let mut second = second;
                let trait_ = &mut second.item.ty;
                let said = said_of_made(alloc, &document.env, *self, &mut first.item, trait_);
                drop(first);
                drop(second);
                said
            }
            _ => Said::Other,
        }
    }
}

/// What the three aliases of a document have, and what is listed of the item.
#[derive(Clone, Copy)]
pub struct Row {
    fields: Fields,
    listed: &'static str,
}

/// How an item is lowered that is made of the aliases in a document.
pub fn said_of_item(alloc: Global, item: Item, row: Row) -> Said {
    match text_of(alloc, row.fields) {
        Ok(text) => {
            let ask = ItemIs {
                item,
                listed: row.listed,
            };
            let said = said_of(alloc, Root::Fn, text.as_str(), &ask);
            drop(text);
            said
        }
        Err(_) => Said::Beside,
    }
}

/// Whole, and without its bounds, its parameters and its conditions.
pub const TRAITS: [Row; 4] = [
    Row {
        fields: [
            r#", "bounds": [4], "generics": 8, "where": 10"#,
            r#", "ty": 22"#,
            r#", "ty": 19"#,
        ],
        listed: "type 0 Self list\ntype 1 T list\nwhere Self: A\nwhere T: A\nret -\n",
    },
    Row {
        fields: [
            r#", "generics": 8, "where": 10"#,
            r#", "ty": 22"#,
            r#", "bounds": [4], "ty": 19"#,
        ],
        listed: "type 0 Self list\ntype 1 T list\nwhere T: A\nret -\n",
    },
    Row {
        fields: [
            r#", "bounds": [4], "where": 10"#,
            r#", "ty": 22"#,
            r#", "generics": 8, "ty": 19"#,
        ],
        listed: "type 0 Self list\nwhere Self: A\nwhere T: A\nret -\n",
    },
    Row {
        fields: [
            r#", "bounds": [4], "generics": 8"#,
            r#", "ty": 22"#,
            r#", "where": 10, "ty": 19"#,
        ],
        listed: "type 0 Self list\ntype 1 T list\nwhere Self: A\nret -\n",
    },
];

#[test]
fn self_is_the_first_parameter_of_a_trait(rt: HostRuntime) {
    for row in TRAITS.iter() {
        assert!(rt; said_of_item(rt.alloc(), Item::Trait, *row) == Said::Own);
    }
}

/// Whole, and without its type, its trait, its parameters and its conditions.
pub const IMPLS: [Row; 5] = [
    Row {
        fields: [
            r#", "generics": 8, "where": 10, "ty": 19"#,
            r#", "ty": 22"#,
            r#", "bounds": [4]"#,
        ],
        listed: "type 0 T list\nwhere T: A\narg U\narg Tr::<T>\nret -\n",
    },
    Row {
        fields: [
            r#", "generics": 8, "where": 10"#,
            r#", "ty": 22"#,
            r#", "bounds": [4], "ty": 19"#,
        ],
        listed: "type 0 T list\nwhere T: A\narg {error}\narg Tr::<T>\nret -\n",
    },
    Row {
        fields: [
            r#", "generics": 8, "where": 10, "ty": 19"#,
            "",
            r#", "bounds": [4], "ty": 22"#,
        ],
        listed: "type 0 T list\nwhere T: A\narg U\nret -\n",
    },
    Row {
        fields: [
            r#", "where": 10, "ty": 19"#,
            r#", "ty": 22"#,
            r#", "bounds": [4], "generics": 8"#,
        ],
        listed: "where T: A\narg U\narg Tr::<T>\nret -\n",
    },
    Row {
        fields: [
            r#", "generics": 8, "ty": 19"#,
            r#", "ty": 22"#,
            r#", "bounds": [4], "where": 10"#,
        ],
        listed: "type 0 T list\narg U\narg Tr::<T>\nret -\n",
    },
];

#[test]
fn impl_has_its_type_and_its_trait(rt: HostRuntime) {
    for row in IMPLS.iter() {
        assert!(rt; said_of_item(rt.alloc(), Item::Impl, *row) == Said::Own);
    }
}

/// `fn f<T: A>() where T: B;`
pub const BOUNDED: &str = r#"{"nodes": [
    {"k": "Fn", "generics": 1, "where": 7},
    {"k": "GenericParamList", "params": [2]},
    {"k": "TypeParam", "name": "T", "bounds": [3]},
    {"k": "TypeBound", "b": "path", "ty": 4},
    {"k": "PathType", "path": 5},
    {"k": "Path", "segs": [6]},
    {"k": "PathSegment", "seg": "name", "name": "A"},
    {"k": "WhereClause", "preds": [8]},
    {"k": "WherePred", "ty": 9, "bounds": [12]},
    {"k": "PathType", "path": 10},
    {"k": "Path", "segs": [11]},
    {"k": "PathSegment", "seg": "name", "name": "T"},
    {"k": "TypeBound", "b": "path", "ty": 13},
    {"k": "PathType", "path": 14},
    {"k": "Path", "segs": [15]},
    {"k": "PathSegment", "seg": "name", "name": "B"}
]}"#;

/// The parameters of a function and its conditions, or one of both alone, with their listing.
#[derive(Clone, Copy)]
pub struct Params {
    has_list: bool,
    has_clause: bool,
    listed: &'static str,
}

impl AskOfDocument for Params {
    fn said(&self, alloc: Global, document: &mut Document) -> Said {
        let Tree::Fn(item) = &document.tree else {
            return Said::Other;
        };
        let list = if self.has_list {
            item.generics.as_ref()
        } else {
            None
        };
        let clause = if self.has_clause {
            item.where_.as_ref()
        } else {
            None
        };
        said_of_params(alloc, &document.env, list, clause, self.listed)
    }
}

pub const PARAMS: [Params; 3] = [
    Params {
        has_list: true,
        has_clause: true,
        listed: "type 0 T list\nwhere T: A\nwhere T: B\nret -\n",
    },
    Params {
        has_list: true,
        has_clause: false,
        listed: "type 0 T list\nwhere T: A\nret -\n",
    },
    Params {
        has_list: false,
        has_clause: true,
        listed: "where T: B\nret -\n",
    },
];

#[test]
fn parameters_by_themselves(rt: HostRuntime) {
    for params in PARAMS.iter() {
        assert!(rt; said_of(rt.alloc(), Root::Fn, BOUNDED, params) == Said::Own);
    }
}

/// Whole, and without its bounds, its parameters, its conditions and its type.
pub const ALIASES: [Row; 5] = [
    Row {
        fields: [
            r#", "bounds": [4], "generics": 8, "where": 10, "ty": 19"#,
            r#", "ty": 22"#,
            "",
        ],
        listed: "type 0 T list\nwhere T: A\nret U\n",
    },
    Row {
        fields: [
            r#", "generics": 8, "where": 10, "ty": 19"#,
            r#", "ty": 22"#,
            r#", "bounds": [4]"#,
        ],
        listed: "type 0 T list\nwhere T: A\nret U\n",
    },
    Row {
        fields: [
            r#", "bounds": [4], "where": 10, "ty": 19"#,
            r#", "ty": 22"#,
            r#", "generics": 8"#,
        ],
        listed: "where T: A\nret U\n",
    },
    Row {
        fields: [
            r#", "bounds": [4], "generics": 8, "ty": 19"#,
            r#", "ty": 22"#,
            r#", "where": 10"#,
        ],
        listed: "type 0 T list\nret U\n",
    },
    Row {
        fields: [
            r#", "bounds": [4], "generics": 8, "where": 10"#,
            r#", "ty": 22"#,
            r#", "ty": 19"#,
        ],
        listed: "type 0 T list\nwhere T: A\nret -\ndiag MissingBody TypeAlias\n",
    },
];

pub const MODULE: ItemContainerId = ItemContainerId::ModuleId(ModuleId(0));

#[test]
fn alias_has_its_bounds_and_its_type(rt: HostRuntime) {
    for row in ALIASES.iter() {
        assert!(rt; said_of_item(rt.alloc(), Item::Alias(MODULE), *row) == Said::Own);
    }
}

/// The fields of an alias of which nothing is written.
const BARE: Fields = [
    "",
    r#", "ty": 22"#,
    r#", "bounds": [4], "generics": 8, "where": 10, "ty": 19"#,
];

/// What is listed of it, where it stands in this.
pub const BARE_ALIASES: [(ItemContainerId, Row); 4] = [
    (
        MODULE,
        Row {
            fields: BARE,
            listed: "ret -\ndiag MissingBody TypeAlias\n",
        },
    ),
    (
        ItemContainerId::ImplId(ImplId(0)),
        Row {
            fields: BARE,
            listed: "ret -\ndiag MissingBody AssocType\n",
        },
    ),
    (
        ItemContainerId::TraitId(TraitId(0)),
        Row {
            fields: BARE,
            listed: "ret -\n",
        },
    ),
    (
        ItemContainerId::ExternBlockId(ExternBlockId(0)),
        Row {
            fields: BARE,
            listed: "ret -\n",
        },
    ),
];

#[test]
fn alias_of_a_module_or_an_impl_owes_a_type(rt: HostRuntime) {
    for (container, row) in BARE_ALIASES.iter() {
        assert!(rt; said_of_item(rt.alloc(), Item::Alias(*container), *row) == Said::Own);
    }
}
