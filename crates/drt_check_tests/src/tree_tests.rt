//! A claimed tree that no dossier brings to the rule on shapes: where no walk is written, none is covered.
use drt_check_trees::are_trees;
use drt_claims::TreeClaim;
use drt_model::Row;
use std::test::Fail;

#[test]
fn a_tree_has_a_walk(rt: HostRuntime) -> Result<(), Fail> {
    let alloc = rt.alloc();
    let mut trees = Vec::new(alloc);
    trees.push(TreeClaim {
        walks: Row::from_vec(Vec::new(alloc)),
        pairs: Row::from_vec(Vec::new(alloc)),
    })?;
    assert!(rt; !are_trees(alloc, trees.as_slice())?);
    Ok(())
}
