//! Standard writers that tell the bytes they hold always, or never.
ghost use Rattle.std.specs.Prelude.{◌≡◌, None, refl};
ghost use Rattle.std.proofs.Common.{rules};

use std::alloc::Allocator;
use std::io::{Cursor, Stderr, Stdout, Write};

/// A writer of std that tells the bytes it holds always, or never. Those of the system never do,
/// and a list of bytes always does.
pub trait Steady: Write {
    /// A writer that has told no bytes tells none later.
    ghost never_begins: { (before after : Self) → Self.Write.contents before ≡ None → Self.Write.contents after ≡ None };
}

impl Steady for Stdout {
    ghost never_begins = { λ _ _ _. refl };
}

impl Steady for Stderr {
    ghost never_begins = { λ _ _ _. refl };
}

impl Steady for Cursor<&mut [u8]> {
    ghost never_begins = { λ _ _ _. refl };
}

impl<A: Allocator> Steady for Vec<u8, A> {
    ghost never_begins = { Prim.search rules };
}

impl<W: Steady> Steady for &mut W {
    ghost never_begins = { λ before after untold. W.never_begins before.now after.now untold };
}
