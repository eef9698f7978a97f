// The register of 24 bits (001 §2.3.9): its first value, and its steps forward and back.
ghost use Rattle.std.specs.Prelude.{◌≡◌, ◌%◌, ◌<◌, ◌^◌};
ghost use Rattle.fox_key_register.specs.Register.{seed, clocked, clocked_back, stepped};

use std::marker::Model;

// The register, which contracts see as the number that its bits are.
#[derive(Clone, Copy)]
pub struct Register {
    bits: u32,
}

impl Model for Register {
    ghost use Rattle.std.specs.Prelude.{ℕ, ◌^◌, ◌<◌};

    ghost Value = { ℕ };

    ghost view = { λ r. r.bits };

    ghost inverse = { λ n. record { bits = n } };

    ghost invariant = { λ r. r.bits < 2 ^ 24 };
}

impl From<Register> for u32 {
    fn from(register: Register) -> u32
        ensures { (result ≡ register) × (result < 2 ^ 24) }
    {
        register.bits
    }
}

impl Register {
    // The register's first value.
    pub fn seed(rounds: u8) -> Register
        ensures { result ≡ seed rounds }
    {
        let bits = u32::from_be_bytes([0, 0x6A, rounds, rounds ^ 0xFF]);
        Register { bits }
    }

    // The 24 lowest bits of a number. No `From`, since bits are lost.
    pub fn of(number: u32) -> Register
        ensures { result ≡ number % 2 ^ 24 }
    {
        Register {
            bits: number % 0x100_0000,
        }
    }

    // One step: doubling modulo 100001B.
    pub fn clocked(self) -> Register
        ensures { result ≡ clocked self }
    {
        let Register { bits } = self;
        if bits < 0x80_0000 {
            Register { bits: bits * 2 }
        } else {
            let over = bits * 2 - 0x100_0000;
            Register { bits: over ^ 0x1B }
        }
    }

    // One step back: halving modulo 100001B.
    fn clocked_back(self) -> Register
        ensures { result ≡ clocked_back self }
    {
        let Register { bits } = self;
        if bits % 2 == 0 {
            Register { bits: bits / 2 }
        } else {
            let under = bits / 2;
            Register {
                bits: under ^ 0x80_000D,
            }
        }
    }

    // So many steps on, or back.
    pub fn stepped(self, on: bool, steps: u32) -> Register
        ensures { result ≡ stepped on steps self }
    {
        if on {
            (0..steps).fold(self, |now, _| now.clocked())
        } else {
            (0..steps).fold(self, |now, _| now.clocked_back())
        }
    }
}
