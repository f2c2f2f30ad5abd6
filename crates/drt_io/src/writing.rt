//! Writing all of some bytes.
ghost use Rattle.std.specs.Prelude.{OnOk};
ghost use Rattle.drt_io.specs.Causes.{HasCause};
ghost use Rattle.drt_io.specs.Writing.{GrowsBy, GrowsByPrefix};

use crate::device::{Failed, Sink};

/// Writes all of the bytes. After `Failed` a prefix of them was taken, and `faults` rose. It
/// takes no memory.
pub fn write_all<K: Sink>(sink: &mut K, bytes: &[u8]) -> Result<(), Failed>
    ensures all { OnOk result (GrowsBy (K.held sink.old) (K.held sink.new) bytes.now) }
    ensures prefix { GrowsByPrefix (K.held sink.old) (K.held sink.new) bytes.now }
    ensures cause { HasCause (K.faults sink.old) (K.faults sink.new) result }
{
    let mut at = 0usize;
    while at < bytes.len() {
        match sink.write(&bytes[at..]) {
            Ok(count) => at += count,
            Err(failed) => return Err(failed),
        }
    }
    Ok(())
}
