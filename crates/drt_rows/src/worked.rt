//! The rows, as the definitions compute them.

ghost use Rattle.std.specs.Prelude.{◌≡◌, Some, None, [], ◌∷◌, map, length};
ghost use Rattle.drt_demand.specs.Demand.{demand_algebra};
ghost use Rattle.drt_demand.specs.Dbf.{dbf_at};
ghost use Rattle.drt_table.specs.Machine.{opening_state, replay_from};
ghost use Rattle.drt_rows.specs.Row.{graph, setting, replies, dropped_by, kept_labels, calls_of_three, replies_to_three, calls_of_one, replies_to_one, after_three, after_one};

/// Three workers on one small graph with the bound 5. A node is added by one of them and dropped by another while it
/// waits, a worker finds the table busy, and one finds it finished. The function does nothing: its contract is the row.
pub fn three_workers()
    ensures replies { replies setting (opening_state demand_algebra setting) calls_of_three ≡ replies_to_three }
    ensures log { length after_three.log ≡ 15 }
    ensures dropped { map dropped_by after_three.nodes ≡ None ∷ None ∷ None ∷ Some 4 ∷ None ∷ None ∷ [] }
    ensures demand { dbf_at graph (kept_labels after_three) 5 ≡ 4 }
{}

/// One worker on the same graph. It takes the nodes 0, 1, 2, 4, 5.
pub fn one_worker()
    ensures replies { replies setting (opening_state demand_algebra setting) calls_of_one ≡ replies_to_one }
    ensures log { length after_one.log ≡ 15 }
    ensures dropped { map dropped_by after_one.nodes ≡ None ∷ None ∷ None ∷ Some 4 ∷ None ∷ None ∷ [] }
    ensures demand { dbf_at graph (kept_labels after_one) 5 ≡ 4 }
{}
