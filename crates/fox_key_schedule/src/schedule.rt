// The key schedule of either cipher (001 §2.3.1 to §2.3.4): the mixed key, with whether the key has ek bytes. The card engine and the prepared key both take
// round keys from here, and with each of them the register's value for the next and for the one before.
ghost use Rattle.std.specs.Prelude.{◌≡◌, ◌*◌, ◌≤◌, length};
ghost use Rattle.fox_key_register.specs.Register.{stepped};
ghost use Rattle.fox_key_schedule.specs.Step.{KeyAt, RoundKeyAt, onward, steps, Scheduled, RegisterAt};

use fox_key_mixing::key::Key;
use fox_key_nonlinear::nl64::nl64;
use fox_key_nonlinear::nl64h::nl64h;
use fox_key_nonlinear::nl128::{Key128, nl128};
use fox_key_register::register::Register;
use fox_rounds::fox64::Fox64;
use fox_rounds::fox128::Fox128;

// A round key, as two words of 64 bits, of which FOX64 takes the right one and has 0 in the left, and the register's value for the next round key and for the
// one before.
#[derive(Clone, Copy)]
pub struct RoundKey {
    pub key: Key128,
    pub next: Register,
    pub before: Register,
}

impl RoundKey {
    // The register's value for the next round: `next` in sealing, `before` in opening. The direction is a parameter of the definition.
    pub fn onward(self, sealing: bool) -> Register
        ensures { result ≡ onward sealing self }
    {
        if sealing { self.next } else { self.before }
    }
}

// KS64, KS64h or KS128, and whether the key has ek bytes.
#[derive(Clone, Copy)]
pub enum Schedule {
    Ks64(Key<2>, bool),
    Ks64h(Key<4>, bool),
    Ks128(Key<4>, bool),
}

impl Schedule {
    // The cipher stays a number: `Scheduled` answers for every one, and any but 64 is taken as 128.
    pub fn of(cipher: u32, key: &[u8]) -> Schedule
        requires { length key.now ≤ 32 }
        ensures { Scheduled cipher key.now result }
    {
        if cipher != 64 {
            Schedule::Ks128(Key::mkey(key), key.len() == Fox128::EK)
        } else if key.len() <= Fox64::EK {
            Schedule::Ks64(Key::mkey(key), key.len() == Fox64::EK)
        } else {
            Schedule::Ks64h(Key::mkey(key), key.len() == Fox64::EK_LONG)
        }
    }

    // Register steps from one round key to the next, which are a step block.
    fn steps(self) -> u32
        ensures { result ≡ steps self }
    {
        match self {
            Schedule::Ks64(_, _) => Fox64::STEPS,
            Schedule::Ks64h(_, _) => Fox64::STEPS_LONG,
            Schedule::Ks128(_, _) => Fox128::STEPS,
        }
    }

    // The register so many step blocks on, or back. Nothing else moves it from one round key to another.
    fn moved(self, on: bool, blocks: u8, reg: Register) -> Register
        ensures { result ≡ stepped on (blocks * steps self) reg }
    {
        reg.stepped(on, (blocks as u32) * self.steps())
    }

    // The round key's words at the register value reg.
    fn key_at(self, reg: Register) -> Key128
        ensures { KeyAt self reg result }
    {
        match self {
            Schedule::Ks64(m, flip) => Key128 {
                left: 0,
                right: nl64(m.dkey(reg), flip),
            },
            Schedule::Ks64h(m, flip) => Key128 {
                left: 0,
                right: nl64h(m.dkey(reg), flip),
            },
            Schedule::Ks128(m, flip) => nl128(m.dkey(reg), flip),
        }
    }

    // The round key at the register value reg, which is any, also one before the first round key or beyond the last.
    pub fn round_key(self, reg: Register) -> RoundKey
        ensures { RoundKeyAt self reg result }
    {
        let key = self.key_at(reg);
        let next = self.moved(true, 1, reg);
        let before = self.moved(false, 1, reg);
        RoundKey { key, next, before }
    }

    // The register's value for the first round: in sealing the seed, in opening the value for the last round key.
    // `rounds` stays a byte with a clause: of a NonZeroU8 each contract would read the number through a function, and each caller would unwrap it.
    pub fn first(self, sealing: bool, rounds: u8) -> Register
        requires { 1 ≤ rounds }
        ensures { RegisterAt (steps self) sealing rounds 0 result }
    {
        let start = Register::seed(rounds);
        if sealing {
            start
        } else {
            self.moved(true, rounds - 1, start)
        }
    }
}
