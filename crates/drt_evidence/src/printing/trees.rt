//! The block of trees.
ghost use Rattle.std.specs.Prelude.{◌≡◌, ◌++◌, map, OnOk};
ghost use Rattle.drt_file.specs.trusted.Canonical.{written, written_line};
ghost use Rattle.drt_evidence.specs.Text.{pair_line, tree_block, tree_lines, walk_line};

use crate::lines::{push_count, push_numbers};
use drt_claims::{Pair, TreeClaim};
use drt_file::push_line;
use drt_model::{Memory, Row};
use itoa::Buffer;

// Adds how many trees there are, and the lines of each.
pub(crate) fn push_trees(text: &mut Vec<u8>, trees: &[TreeClaim]) -> Result<(), Memory>
    ensures { OnOk result (text.new.items ≡ text.old.items ++ written (tree_block trees.now)) }
{
    push_count(text, b"trees", trees.len())?;
    for tree in trees {
        push_tree(text, tree)?;
    }
    Ok(())
}

// Adds how many walks a tree has, the line of each, how many pairs, and the line of each.
fn push_tree(text: &mut Vec<u8>, tree: &TreeClaim) -> Result<(), Memory>
    ensures { OnOk result (text.new.items ≡ text.old.items ++ written (tree_lines tree.now)) }
{
    let walks = tree.walks.as_slice();
    let pairs = tree.pairs.as_slice();
    push_count(text, b"tree", walks.len())?;
    push_walks(text, walks)?;
    push_count(text, b"pairs", pairs.len())?;
    push_pairs(text, pairs)
}

fn push_walks(text: &mut Vec<u8>, walks: &[Row<u32>]) -> Result<(), Memory>
    ensures { OnOk result (text.new.items ≡ text.old.items ++ written (map walk_line walks.now)) }
{
    for walk in walks {
        push_numbers(text, b"walk", walk.as_slice())?;
    }
    Ok(())
}

fn push_pairs(text: &mut Vec<u8>, pairs: &[Pair]) -> Result<(), Memory>
    ensures { OnOk result (text.new.items ≡ text.old.items ++ written (map pair_line pairs.now)) }
{
    for pair in pairs {
        push_pair(text, *pair)?;
    }
    Ok(())
}

fn push_pair(text: &mut Vec<u8>, pair: Pair) -> Result<(), Memory>
    ensures { OnOk result (text.new.items ≡ text.old.items ++ written_line (pair_line pair)) }
{
    let mut left = Buffer::new();
    let mut right = Buffer::new();
    push_line(
        text,
        &[
            b"pair".as_slice(),
            left.format(pair.left).as_bytes(),
            right.format(pair.right).as_bytes(),
        ],
    )
}
