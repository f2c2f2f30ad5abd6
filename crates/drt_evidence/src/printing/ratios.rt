//! The block of ratios.
ghost use Rattle.std.specs.Prelude.{◌≡◌, ◌++◌, OnOk};
ghost use Rattle.drt_file.specs.trusted.Canonical.{written, written_line};
ghost use Rattle.drt_evidence.specs.Text.{ratio_block, ratio_line, ratio_lines};

use crate::lines::{push_count, push_numbers, push_signed};
use drt_claims::RatioClaim;
use drt_file::push_line;
use drt_model::Memory;
use itoa::Buffer;

// Adds how many ratios there are, and the lines of each.
pub(crate) fn push_ratios(text: &mut Vec<u8>, ratios: &[RatioClaim]) -> Result<(), Memory>
    ensures { OnOk result (text.new.items ≡ text.old.items ++ written (ratio_block ratios.now)) }
{
    push_count(text, b"ratios", ratios.len())?;
    for ratio in ratios {
        push_ratio(text, ratio)?;
    }
    Ok(())
}

// Adds a ratio, its cycle and its potentials.
fn push_ratio(text: &mut Vec<u8>, ratio: &RatioClaim) -> Result<(), Memory>
    ensures { OnOk result (text.new.items ≡ text.old.items ++ written (ratio_lines ratio.now)) }
{
    push_fraction(text, ratio)?;
    push_numbers(text, b"cycle", ratio.cycle.as_slice())?;
    push_signed(text, b"potentials", ratio.potentials.as_slice())?;
    Ok(())
}

fn push_fraction(text: &mut Vec<u8>, ratio: &RatioClaim) -> Result<(), Memory>
    ensures { OnOk result (text.new.items ≡ text.old.items ++ written_line (ratio_line ratio.now)) }
{
    let mut num = Buffer::new();
    let mut den = Buffer::new();
    push_line(
        text,
        &[
            b"ratio".as_slice(),
            num.format(ratio.num).as_bytes(),
            den.format(ratio.den).as_bytes(),
        ],
    )
}
