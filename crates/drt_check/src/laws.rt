//! What the checker's judgements rest on, as laws.
ghost use Rattle.drt_check.specs.Laws.{AcceptedIsSound, JudgedOnce};

use drt_busy::{deadlines_decide, times_decide};
use drt_states_laws::states_pass;

/// Where the evidence is accepted, what it claims holds, whoever made the dossier: legal releases with a job that misses refute
/// schedulability; ratios that keep their rules are those of the tasks; closed fronts with room within the horizon imply
/// schedulability under EDF (Stigge, Ekberg, Guan and Yi, RTAS 2011); and trees that cover all walks, with a proof for each vertex
/// that ends all combinations of them at times that pass, imply schedulability under fixed priorities (Stigge and Yi, RTSS 2013).
pub fn accepted_is_sound()
    ensures { AcceptedIsSound }
{
    deadlines_decide();
    times_decide();
    states_pass();
}

/// A statement has one judgement, so that none is both accepted and rejected, nor rejected with two numbers.
pub fn judged_once()
    ensures { JudgedOnce }
{}
