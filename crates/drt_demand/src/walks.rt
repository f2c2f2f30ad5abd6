//! The law of the labels of walks.
ghost use Rattle.std.specs.Prelude.{◌≡◌};
ghost use Rattle.drt_model.specs.Digraph.{Digraph};
ghost use Rattle.drt_demand.specs.WalkLabel.{AreWalkLabels};

/// The law that the label of a walk has the walk's last vertex, the sum of its separations and the sum of its
/// execution times: the opening label is that of the walk of one vertex, and each extension keeps this.
pub fn labels_of_walks()
    ensures { (g : Digraph) → AreWalkLabels g }
{}
