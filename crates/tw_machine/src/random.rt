//! Random numbers: how they begin, how one follows another, and what a program sees of them.
ghost use Rattle.std.specs.Prelude.{◌≡◌};
ghost use Rattle.rand_pcg.specs.Pcg.{output_xsh_rr};
ghost use Rattle.tw_machine.specs.Random.{split_mix, drawn};

/// The multiplier of the random numbers.
pub(crate) const MULTIPLIER: u64 = 6364136223846793005;

/// The summand of the random numbers.
pub(crate) const SUMMAND: u64 = 1442695040888963407;

/// The random number at the start: the seed, mixed as by SplitMix64 (Steele, Lea and Flood 2014), so that near seeds give
/// streams that are not alike.
pub(crate) fn split_mix(seed: u64) -> u64
    ensures { result ≡ split_mix seed }
{
    let z = seed.wrapping_add(0x9e37_79b9_7f4a_7c15);
    let z = (z ^ (z >> 30)).wrapping_mul(0xbf58_476d_1ce4_e5b9);
    let z = (z ^ (z >> 27)).wrapping_mul(0x94d0_49bb_1331_11eb);
    z ^ (z >> 31)
}

/// The next random number.
pub(crate) fn drawn(x: u64) -> u64
    ensures { result ≡ drawn x }
{
    MULTIPLIER.wrapping_mul(x).wrapping_add(SUMMAND)
}

/// The 32 bits that a program sees of a random number: the output function PCG XSH RR 64/32 (O'Neill 2014).
pub(crate) fn output_of(x: u64) -> u32
    ensures { result ≡ output_xsh_rr x }
{
    let bits = ((((x >> 18) ^ x) >> 27) & 0xffff_ffff) as u32;
    bits.rotate_right((x >> 59) as u32)
}
