//! Worked values, as laws.
ghost use Rattle.std.specs.Prelude.{◌≡◌, [], ◌∷◌};
ghost use Rattle.drt_claims.specs.Ranges.{IsInRangeTree};
ghost use Rattle.drt_claims.specs.Trees.{HasShortWalks, IsTree, node_values};
ghost use Rattle.drt_check_tests.specs.Worked.{chain, task_graph, tree};

/// The values of the worked tree's nodes at 5 and at 4: a release at 4 counts at 5 and not at 4.
pub fn tree_values()
    ensures at_5 { node_values task_graph tree 5 ≡ 2 ∷ 3 ∷ 4 ∷ 3 ∷ 4 ∷ [] }
    ensures at_4 { node_values task_graph tree 4 ≡ 2 ∷ 3 ∷ 2 ∷ 3 ∷ 3 ∷ [] }
    ensures at_0 { node_values task_graph tree 0 ≡ 0 ∷ 0 ∷ 0 ∷ 0 ∷ 0 ∷ [] }
{}

/// It is a tree of walks that span less than 5.
pub fn tree_is_claimed()
    ensures tree { IsTree tree }
    ensures short { HasShortWalks 5 task_graph tree }
    ensures ranges { IsInRangeTree tree }
{}

/// The values of a chain of pairs at 1 and at 5.
pub fn chain_values()
    ensures at_1 { node_values task_graph chain 1 ≡ 2 ∷ 2 ∷ 3 ∷ 2 ∷ 2 ∷ 2 ∷ 3 ∷ [] }
    ensures at_5 { node_values task_graph chain 5 ≡ 4 ∷ 2 ∷ 3 ∷ 4 ∷ 4 ∷ 4 ∷ 4 ∷ [] }
{}
