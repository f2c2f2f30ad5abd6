//! The rules of a lane and of the claim words, and the five kinds of step.
ghost use Rattle.drt_wave.specs.Claims.{InClaims, fresh_claims, spent_claims, claims_left, claims_right, claims_joined, claim_said};
ghost use Rattle.drt_wave.specs.Lanes.{InLane, fresh_lane, spent_lane, lane_left, lane_right, lane_joined, glanced, raises};
ghost use Rattle.drt_wave.specs.Keys.{lane_net, lane_first, lane_count};

use crate::view::{ClaimView, LaneKey, LaneView};
use atomic_table::{Join, Play, Split, TableRule};

/// What holds of a lane between any two steps.
pub struct LaneRule;

impl<S> TableRule<S, LaneView<LaneKey>, LaneKey> for LaneRule {
    ghost holds = { λ key. InLane lane_net lane_first lane_count key };

    ghost first = { λ key. fresh_lane key 1024 };
}

/// What holds of the claim words between any two steps.
pub struct ClaimRule;

impl<S> TableRule<S, ClaimView, u32> for ClaimRule {
    ghost holds = { λ waves. InClaims waves };

    ghost first = { λ waves. fresh_claims 1024 };
}

/// A number of a wave is drawn.
pub struct Claim;

impl<S> Play<S, ClaimView> for Claim {
    ghost then = { claim_said };
}

/// A cell is read.
pub struct Glance;

impl<S> Play<S, LaneView<LaneKey>> for Glance {
    ghost then = { glanced lane_net lane_first lane_count };
}

/// A cell is made at least a work.
pub struct Raise;

impl<S, F> Play<S, LaneView<F>> for Raise {
    ghost then = { raises };
}

/// One part goes to a new seat.
pub struct Cut;

impl<F> Split<LaneView<F>> for Cut {
    ghost left = { lane_left };

    ghost right = { lane_right };
}

impl Split<ClaimView> for Cut {
    ghost left = { claims_left };

    ghost right = { claims_right };
}

/// One seat takes in another.
pub struct Glue;

impl<F> Join<LaneView<F>> for Glue {
    ghost both = { lane_joined };

    ghost spent = { spent_lane };
}

impl Join<ClaimView> for Glue {
    ghost both = { claims_joined };

    ghost spent = { spent_claims };
}
