// The order in which rounds take the round keys.
ghost use Rattle.std.specs.Prelude.{◌≡◌, ◌<◌};
ghost use Rattle.fox_rounds.specs.Skeleton.{place};

// The number of the round key that round number i takes, both counted from 0: i in sealing, and counted from the last round key in opening.
// The direction is a parameter of the definition.
pub(crate) fn place(sealing: bool, rounds: usize, i: usize) -> usize
    requires { i < rounds }
    ensures { (result ≡ place sealing rounds i) × (result < rounds) }
{
    if sealing { i } else { rounds - 1 - i }
}
