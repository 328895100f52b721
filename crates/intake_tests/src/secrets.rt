//! Secrets, drawn from a generator.

use crate::expect::same;
use rand::SeedableRng;
use rand::rngs::Xoshiro256PlusPlus;
use upload_intake::{DrawnSecrets, Secrets};

/// The words are those of the generator's reference code at the state 1, 2, 3, 4: 41943041, 58720359,
/// 3588806011781223 and 3591011842654386. Of the second and the fourth the upper 32 bits are drawn.
#[test]
fn a_secret_is_a_word_and_half_a_word(rt: HostRuntime) {
    let mut seed = [0; 32];
    (seed[0], seed[8], seed[16], seed[24]) = (1, 2, 3, 4);
    let mut secrets = DrawnSecrets::new(Xoshiro256PlusPlus::from_seed(seed));
    let first = [0, 0, 0, 0, 2, 128, 0, 1, 0, 0, 0, 0];
    same(&rt, secrets.draw(), first, &"the first");
    let second = [0, 12, 192, 0, 3, 128, 0, 103, 0, 12, 194, 1];
    same(&rt, secrets.draw(), second, &"the second");
}
