// The digest of a sequence: a number that depends on its length and on every element.
ghost use Rattle.std.specs.Prelude.{◌≡◌, ◌<◌};
ghost use Rattle.cases.specs.Digest.{modulus, digest_step, IsDigestOf};

// One element more.
fn step(h: u64, x: u32) -> u64
    requires { h < modulus }
    ensures { (result ≡ digest_step h x) × (result < modulus) }
{
    (h * 1000003 + u64::from(x)) % 4294967291
}

// That of the numbers which the elements are converted to.
#[tactic(auto, using(crate::proofs::Digests::none_done, crate::proofs::Digests::one_done))]
pub fn of<T: Copy + Into<u32>>(elements: &[T]) -> u32
    ensures { IsDigestOf T.converts elements.now result }
{
    let mut h = elements.len() as u64 % 4294967291;
    for element in elements {
        h = step(h, (*element).into());
    }
    h as u32
}
