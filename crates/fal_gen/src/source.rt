ghost use Rattle.std.specs.Prelude.{◌≡◌};
ghost use Rattle.fal_gen.specs.Source.{source_of as generator_of};

use rand_pcg::Lcg64Xsh32;

const STREAM: u64 = 54;

// The generator of a seed.
#[tactic(auto, unfolding(crate::specs::Source::source_of))]
pub fn source_of(seed: u64) -> Lcg64Xsh32
    ensures { result ≡ generator_of seed }
{
    Lcg64Xsh32::new(seed, STREAM)
}
