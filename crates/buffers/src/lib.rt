// Bytes stored as words.
#![tactic(auto)]

ghost use Rattle.std.specs.Prelude.{◌≡◌, ◌+◌, ◌≤◌, length};
ghost use Rattle.std.proofs.lemmas.List.Edits.{sets};

// The bytes of `from` as words into `to`, from number `at` on.
pub fn widen_bytes(to: &mut [u32], at: usize, from: &[u8])
    requires { at + length from.now ≤ length to.old }
    ensures { to.new ≡ sets to.old at from.now }
{
    // By index: of words written through `iter_mut` with `zip` a proof knows none afterwards.
    for (i, byte) in from.iter().enumerate() {
        to[at + i] = u32::from(*byte);
    }
}
