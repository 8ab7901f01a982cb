//! Lowering for C and for what calls C: `include/laxirbon.h` and `docs/EMBEDDING.md`.
#![tactic(auto)]

ghost use Rattle.lower_c.specs.Answers.{Answers, IsListing, mode_of};
ghost use Rattle.lower_c.specs.Results.{IsResult};

mod border;
mod modes;
mod result;

use crate::border::hand_over_result;
use crate::modes::{lower, lower_json, mode_with};
use std::alloc::Global;

/// Lowers a document, and writes the listing to `out`. The answer is a status: 0, or as the program's 2 or 3, where what the program says
/// on standard error is written in place of the listing, or 4 where `out` is too short for either, and stays as it was. `needed` is the
/// length of what there is to write.
///
/// All that was read and lowered is dropped before it returns.
#[unsafe(no_mangle)]
pub extern "C" fn laxirbon_lower(
    alloc: Global,
    mode: u32,
    document: &[u8],
    out: &mut [u8],
    needed: &mut usize,
) -> u32
    ensures { Answers IsListing (mode_of mode) document.now result needed.new out.old out.new }
{
    let came = lower(alloc, mode_with(mode), document);
    hand_over_result(alloc, came, out, needed)
}

/// The same with all that a document is lowered to, as JSON, in place of the listing.
#[unsafe(no_mangle)]
pub extern "C" fn laxirbon_lower_json(
    alloc: Global,
    mode: u32,
    document: &[u8],
    out: &mut [u8],
    needed: &mut usize,
) -> u32
    ensures { Answers IsResult (mode_of mode) document.now result needed.new out.old out.new }
{
    let came = lower_json(alloc, mode_with(mode), document);
    hand_over_result(alloc, came, out, needed)
}
