// What a block of a cipher, as the words that its rounds work on, has to do for an engine: its size, and its rounds, computed without large tables.
ghost use Rattle.std.specs.Prelude.{◌≡◌, ◌+◌, ◌*◌, ◌^◌, true, false};
ghost use Rattle.fox_rounds.specs.Skeleton.{size, round, between};
ghost use Rattle.fox_rounds.specs.Xor.{xor_states};
ghost use Rattle.fox_rounds.specs.declared.state.State.{State};

pub trait Block: Copy {
    // The block as a state of either cipher, which the definitions speak of.
    ghost state: { Self → State };

    // Bytes in the block.
    fn size(self) -> usize
        ensures { result ≡ size (state self) };

    // A round without "or" or "io". The round key is two words of 64 bits; FOX64 takes the right one.
    fn round(self, left: u64, right: u64) -> Self
        ensures { state result ≡ round (left * 2 ^ 64 + right) (state self) };

    // "or" of 001 §2.2.1 and §2.2.2, which follows a round in sealing.
    fn or(self) -> Self
        ensures { state result ≡ between true (state self) };

    // "io", which follows a round in opening.
    fn io(self) -> Self
        ensures { state result ≡ between false (state self) };

    // What follows every round but the last: "or" in sealing, "io" in opening. The direction is a parameter of the definition.
    fn between(self, sealing: bool) -> Self
        ensures { state result ≡ between sealing (state self) }
    {
        if sealing { self.or() } else { self.io() }
    }

    // This block XORed with another of the same cipher.
    fn xor(self, other: Self) -> Self
        ensures { state result ≡ xor_states (state self) (state other) };
}
