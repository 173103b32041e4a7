// The unequal pairs of a window by the names of their classes, as one word of 64 bits (SPEC 5.7).
#![tactic(auto)]

ghost use Rattle.std.specs.Prelude.{◌≡◌};
ghost use Rattle.semantics.specs.Terms.{State};
ghost use Rattle.semantics.specs.Facts.{Valid};
ghost use Rattle.window.specs.Layout.{registers};
ghost use Rattle.window.specs.Step.{IsWindow};
ghost use Rattle.unequal_flags.specs.Flags.{WordOfState};
ghost use Rattle.unequal_flags.specs.Words.{named_rows, unequal_word};

use window::{Mask, REGISTERS, Window, joined_rows, names, part};

// The rows of the registers that name a class, with the flags of such registers alone.
fn named_rows(class: &[Mask; REGISTERS], unequal: &[Mask; REGISTERS]) -> [Mask; REGISTERS]
    ensures { result ≡ named_rows registers class.now unequal.now }
{
    let named = names(class);
    let mut rows: [Mask; REGISTERS] = [0; REGISTERS];
    for (a, row) in rows.iter_mut().enumerate() {
        *row = part(named, unequal[a] & named, a);
    }
    rows
}

/// The unequal pairs as one word: its bit REGISTERS a + b is set exactly where a and b name classes that are known to be unequal.
pub fn unequal_word(w: Window) -> u64
    ensures value { result ≡ unequal_word registers w 0 }
    ensures means { (σ : State) → Valid σ → IsWindow σ w → WordOfState σ result }
{
    joined_rows(&named_rows(&w.class, &w.unequal))
}
