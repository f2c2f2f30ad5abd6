//! Blocks of a text, and lists of them.
ghost use Rattle.std.specs.Prelude.{ℕ, List, IfOk, IfErr};
ghost use Rattle.drt_evidence.specs.Blocks.{AreSoMany, IsStop, ReadsBlock, count_and_blocks, in_turn};
ghost use Rattle.drt_evidence.specs.LineForms.{AreItemsCounted};
ghost use Rattle.drt_file.specs.trusted.Cutting.{HasNoFeed};

use crate::reading::forms::read_count;
use crate::reading::text::{Stop, Text};
use drt_model::Row;
use std::alloc::Global;

// A value that has a block of lines of its own.
pub(crate) trait Block: Sized + Drop {
    // The block of a value.
    ghost block: { Self → List ℕ };

    // The values that have a block.
    ghost is_stated: { Self → Type 0 };

    // The value whose block stands at the front of a text.
    fn read(alloc: Global, text: &mut Text) -> Result<Self, Stop>
        ensures read { IfOk result (λ x. ReadsBlock block is_stated text.old.rest.now x text.new.rest.now) }
        ensures stops { IfErr result (IsStop block is_stated text.old.rest.now) };

    // Some value has a block.
    ghost some: { (x : Self) × is_stated x };
}

// A list without room takes room for so many at its first item.
const FIRST_ROOM: u32 = 4;

// So many blocks, one after another. Where they are few the list has room for no more than these.
pub(crate) fn read_each<B: Block>(
    alloc: Global,
    text: &mut Text,
    count: u32,
) -> Result<Vec<B>, Stop>
    ensures read { IfOk result (λ xs. ReadsBlock (in_turn B.block) (AreSoMany count B.is_stated) text.old.rest.now xs.items text.new.rest.now) }
    ensures stops { IfErr result (IsStop (in_turn B.block) (AreSoMany count B.is_stated) text.old.rest.now) }
{
    let mut blocks = Vec::with_capacity(alloc, count.min(FIRST_ROOM) as usize)?;
    for _ in 0..count {
        let block = B::read(alloc, text)?;
        blocks.push(block)?;
    }
    Ok(blocks)
}

// The line of a count, and so many blocks below it.
pub(crate) fn read_counted<B: Block>(
    alloc: Global,
    text: &mut Text,
    word: &[u8],
) -> Result<Row<B>, Stop>
    requires { HasNoFeed word.now }
    ensures read { IfOk result (λ xs. ReadsBlock (count_and_blocks word.now B.block) (AreItemsCounted B.is_stated) text.old.rest.now xs text.new.rest.now) }
    ensures stops { IfErr result (IsStop (count_and_blocks word.now B.block) (AreItemsCounted B.is_stated) text.old.rest.now) }
{
    let count = read_count(text, word)?;
    let blocks = read_each(alloc, text, count)?;
    Ok(Row::from_vec(blocks))
}
