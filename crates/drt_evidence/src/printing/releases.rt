//! The block of releases.
ghost use Rattle.std.specs.Prelude.{◌≡◌, ◌++◌, map, OnOk};
ghost use Rattle.drt_file.specs.trusted.Canonical.{written, written_line};
ghost use Rattle.drt_evidence.specs.Text.{miss_line, release_block, release_line, release_lines};

use crate::lines::push_count;
use drt_file::push_line;
use drt_model::{Memory, Miss, Release};
use itoa::Buffer;

// Adds how many releases there are, the line of each, and that of the miss.
pub(crate) fn push_releases(
    text: &mut Vec<u8>,
    releases: &[Release],
    miss: Miss,
) -> Result<(), Memory>
    ensures { OnOk result (text.new.items ≡ text.old.items ++ written (release_block releases.now miss)) }
{
    push_release_lines(text, releases)?;
    push_miss(text, miss)
}

/// Adds how many releases there are, and the line of each.
pub fn push_release_lines(text: &mut Vec<u8>, releases: &[Release]) -> Result<(), Memory>
    ensures { OnOk result (text.new.items ≡ text.old.items ++ written (release_lines releases.now)) }
{
    push_count(text, b"releases", releases.len())?;
    push_each_release(text, releases)
}

// Adds the line of each release.
fn push_each_release(text: &mut Vec<u8>, releases: &[Release]) -> Result<(), Memory>
    ensures { OnOk result (text.new.items ≡ text.old.items ++ written (map release_line releases.now)) }
{
    for release in releases {
        push_release(text, *release)?;
    }
    Ok(())
}

fn push_release(text: &mut Vec<u8>, release: Release) -> Result<(), Memory>
    ensures { OnOk result (text.new.items ≡ text.old.items ++ written_line (release_line release)) }
{
    let mut task = Buffer::new();
    let mut vertex = Buffer::new();
    let mut time = Buffer::new();
    let mut need = Buffer::new();
    push_line(
        text,
        &[
            b"release".as_slice(),
            task.format(release.task).as_bytes(),
            vertex.format(release.vertex).as_bytes(),
            time.format(release.time).as_bytes(),
            need.format(release.need).as_bytes(),
        ],
    )
}

fn push_miss(text: &mut Vec<u8>, miss: Miss) -> Result<(), Memory>
    ensures { OnOk result (text.new.items ≡ text.old.items ++ written_line (miss_line miss)) }
{
    let mut task = Buffer::new();
    let mut index = Buffer::new();
    let mut deadline = Buffer::new();
    push_line(
        text,
        &[
            b"miss".as_slice(),
            task.format(miss.task).as_bytes(),
            index.format(miss.index).as_bytes(),
            deadline.format(miss.deadline).as_bytes(),
        ],
    )
}
