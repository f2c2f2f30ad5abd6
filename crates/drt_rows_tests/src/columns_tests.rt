//! Labels in columns: which of them a look names.
ghost use Rattle.std.specs.Prelude.{◌≡◌, ◌<◌, IfOk};

use drt_columns::Columns;
use drt_label::SAMPLES;
use std::alloc::Global;
use std::test::Fail;

// How many labels there are, more than two blocks of them.
const LABELS: u32 = 130;

// Samples that are all the same but for the one at a place.
fn samples(value: u16, place: usize, here: u16) -> [u16; SAMPLES] {
    let mut samples = [value; SAMPLES];
    if place < SAMPLES {
        samples[place] = here;
    }
    samples
}

// Labels 0 to 129, of two vertices in turn, whose samples are their numbers, but for the last one, which is 7.
fn labels(alloc: Global) -> Result<Columns, Fail>
    ensures { IfOk result (λ c. c.vertices ≡ 2) }
{
    let mut columns = Columns::new(alloc, 2, LABELS as usize)?;
    for number in 0..LABELS {
        columns.push(number % 2, number, samples(number as u16, SAMPLES - 1, 7));
    }
    Ok(columns)
}

// The two first numbers that a look at a vertex names.
fn first_two(columns: &Columns, vertex: u32, samples: [u16; SAMPLES]) -> (Option<u32>, Option<u32>)
    requires { vertex < columns.now.vertices }
{
    let mut seek = columns.seek(vertex, samples);
    let first = columns.next(&mut seek);
    match first {
        Some(_) => (first, columns.next(&mut seek)),
        None => (None, None),
    }
}

// At vertex 0 are the even numbers, at vertex 1 the odd ones. A label is named where none of its samples is less.
#[test]
fn a_look_names_the_labels_without_a_lesser_sample(rt: HostRuntime) -> Result<(), Fail> {
    let columns = labels(rt.alloc())?;
    assert!(rt; first_two(&columns, 0, samples(0, SAMPLES - 1, 7)) == (Some(0), Some(2)));
    assert!(rt; first_two(&columns, 1, samples(3, SAMPLES - 1, 7)) == (Some(3), Some(5)));
    assert!(rt; first_two(&columns, 0, samples(127, SAMPLES - 1, 7)) == (Some(128), None));
    assert!(rt; first_two(&columns, 1, samples(129, SAMPLES - 1, 0)) == (Some(129), None));
    assert!(rt; first_two(&columns, 0, samples(129, SAMPLES - 1, 7)) == (None, None));
    assert!(rt; first_two(&columns, 1, samples(0, SAMPLES - 1, 8)) == (None, None));
    assert!(rt; first_two(&columns, 1, samples(0, 3, 100)) == (Some(101), Some(103)));
    Ok(())
}
