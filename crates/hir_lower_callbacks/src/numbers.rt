//! The numbers of blocks, and where the parts of a block are read.

ghost use Rattle.std.specs.Prelude.{◌≡◌, option_map};
ghost use Rattle.hir_env.specs.Answering.{inside as place_inside, numbered as number_at};

use hir_base::node::{InFile, NodeId};
use hir_env::ctx::{LowerCtx, LoweringMode};
use hir_env::env::LowerEnv;
use hir_store::ids::{BlockId, ModuleId};

/// The number and the module of a block, where numbers are asked for.
#[inline(never)]
pub fn number<E: LowerEnv>(env: &E, place: LowerCtx, node: NodeId) -> Option<(BlockId, ModuleId)>
    ensures { result ≡ number_at (E.answers env.now) place node }
{
    match place.mode {
        LoweringMode::Untracked => None,
        LoweringMode::Analysis => env.block(
            InFile {
                file_id: place.file_id,
                value: node,
            },
            place.module_id,
        ),
    }
}

/// Where the parts of a block are read.
pub fn inside(place: LowerCtx, number: Option<(BlockId, ModuleId)>) -> LowerCtx
    ensures { result ≡ place_inside number place }
{
    match number {
        None => place,
        Some((_, module_id)) => LowerCtx { module_id, ..place },
    }
}

/// The number of a block without its module, none where there is none.
pub fn block_number(number: Option<(BlockId, ModuleId)>) -> Option<BlockId>
    ensures { result ≡ option_map (λ n. n.0) number }
{
    match number {
        None => None,
        Some((block, _)) => Some(block),
    }
}

/// Turns the place to where the parts of the block are read, and answers its number.
#[inline(never)]
pub fn enter<E: LowerEnv>(env: &E, place: &mut LowerCtx, node: NodeId) -> Option<BlockId>
    ensures place { place.new ≡ place_inside (number_at (E.answers env.now) place.old node) place.old }
    ensures number { result ≡ option_map (λ n. n.0) (number_at (E.answers env.now) place.old node) }
{
    let found = number(env, *place, node);
    *place = inside(*place, found);
    block_number(found)
}
