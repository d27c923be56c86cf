// The touch word of a state: which registers a cycle of it may change.
ghost use Rattle.std.specs.Prelude.{◌≡◌, not, ◌+◌, ◌*◌, ◌^◌, ◌≤◌, ◌<◌, length, eqb};
ghost use Rattle.word.specs.Word.{truth};
ghost use Rattle.fsmd.specs.Layout.{max_registers};
ghost use Rattle.fsmd.specs.Touch.{touch_word};

// The bits of the registers after i, made those from i on: register i's next reference is x.
pub fn with_bit(bits: u32, i: usize, x: u32) -> u32
    requires bits_bound { bits < 2 ^ max_registers }
    requires i_lt_max_registers { i < max_registers }
    ensures { result ≡ truth (not (eqb x i)) + 2 * bits }
{
    2 * bits + u32::from(x != i as u32)
}

// The touch word of these next references. The last one comes first, so that each step makes room for the next bit.
pub fn touch_word(next: &[u32]) -> u32
    requires { length next.now ≤ max_registers }
    ensures { result ≡ touch_word next.now }
{
    let mut word: u32 = 0;
    for i in (0..next.len()).rev() {
        word = with_bit(word, i, next[i]);
    }
    word
}
