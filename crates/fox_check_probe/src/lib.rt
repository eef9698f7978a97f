// Exported functions whose instructions the gate counts (tests/instructions.sh, tests/measure.sh), part of a block's rounds (tests/part.sh), and the bench
// sheet for a fuzzer to call (tests/fuzz.sh).
// No product uses this crate.
#![tactic(auto)]

ghost use Rattle.std.specs.Prelude.{◌≡◌, true, length};
ghost use Rattle.fox_layers.specs.Tables.{picked};
ghost use Rattle.fox_rounds.specs.Skeleton.{turned, seal64, seal128};
ghost use Rattle.fox_rounds.specs.RoundKeys.{round_keys_in64, round_keys_in128};
ghost use Rattle.fox_server_rounds.specs.Keys.{keys_by};
ghost use Rattle.fox_key_register.specs.Register.{iterate};
ghost use Rattle.fox_sheet.specs.Answer.{Answers};
ghost use Rattle.fox_refusals.specs.Handed.{answer as handed};
ghost use Rattle.fox_card_block.specs.Part.{TurnsPart, TurnsInTwo};
ghost use Rattle.fox_check_probe.specs.Unpacked.{asks_to_seal, unpacked};

use fox_card_block::part::{turn_in_two, turn_part};
use fox_refusals::refusal::number_in;
use fox_rounds::fox64::Fox64;
use fox_rounds::fox128::Fox128;
use fox_server_rounds::engine::{Engine, Tabled};
use fox_server_rounds::tables::Tables;
use fox_server_tables::tbs;
use fox_sheet_answer::answer;

// The lookups, with a mask that is a constant here.
#[unsafe(no_mangle)]
pub extern "C" fn fox_probe_pick4(t: &[u32; 1024], w: u32) -> u32
    ensures { result ≡ picked 4 t.now w }
{
    fox_server_lookups::lookups::pick4(t, 255, w)
}

#[unsafe(no_mangle)]
pub extern "C" fn fox_probe_pick8(t: &[u64; 2048], w: u64) -> u64
    ensures { result ≡ picked 8 t.now w }
{
    fox_server_lookups::lookups::pick8(t, 255, w)
}

// A block sealed `blocks` times with the first 16 of the round keys passed by reference. The engine is built here, as in `turn_of` of fox_server_block,
// where the reason stands.
fn again<B: Tabled>(keys: &[u64; 510], blocks: u32, x: B) -> B
    ensures { B.state result ≡ iterate blocks (turned true (keys_by B.key_in keys.now 16)) (B.state x) }
{
    let tables = Tables {
        s: &tbs::tbs(),
        t: &B::joined(),
    };
    let engine = Engine {
        tables: &tables,
        keys,
        rounds: 16,
    };
    sealed_by(&engine, blocks, x)
}

// It by the engine. Apart from `again`, whose engine lends a key and tables of two lifetimes: a check does not cover a closure that borrows such an engine.
fn sealed_by<B: Tabled>(engine: &Engine<'_, B>, blocks: u32, x: B) -> B
    ensures { B.state result ≡ iterate blocks (turned true (keys_by B.key_in engine.now.keys.now engine.now.rounds)) (B.state x) }
{
    (0..blocks).fold(x, |y, _| engine.turn(true, y))
}

// Its left word.
#[unsafe(no_mangle)]
pub extern "C" fn fox_probe_again64(keys: &[u64; 510], blocks: u32, l: u32, r: u32) -> u32
    ensures { result ≡ (iterate blocks (seal64 (round_keys_in64 keys.now 16)) (record { l = l; r = r })).l }
{
    again(keys, blocks, Fox64 { l, r }).l
}

#[unsafe(no_mangle)]
pub extern "C" fn fox_probe_again128(
    keys: &[u64; 510],
    blocks: u32,
    a: u32,
    b: u32,
    c: u32,
    d: u32,
) -> u32
    ensures { result ≡ (iterate blocks (seal128 (round_keys_in128 keys.now 16)) (record { ll = a; lr = b; rl = c; rr = d })).ll }
{
    let x = Fox128 {
        ll: a,
        lr: b,
        rl: c,
        rr: d,
    };
    again(keys, blocks, x).ll
}

#[unsafe(no_mangle)]
pub extern "C" fn fox_probe_sheet(sheet: &[u8], out: &mut [u8; 128]) -> usize
    ensures { Answers sheet.now out.old out.new result }
{
    answer::answer(sheet, out)
}

// Part of a block's rounds by the card engine, sealed or, where `sealing` is 0, opened: the refusal number times 2 to the 32, and the register's value.
#[unsafe(no_mangle)]
pub extern "C" fn fox_probe_part(
    sealing: u32,
    cipher: u32,
    rounds: u32,
    key: &[u8],
    from: u32,
    until: u32,
    reg: u32,
    block: &[u8],
    out: &mut [u8],
) -> u64
    ensures { TurnsPart (asks_to_seal sealing) cipher rounds key.now from until reg block.now out.old out.new
        (unpacked result (length out.old)) }
{
    let part = turn_part(
        sealing != 0,
        cipher,
        rounds,
        key,
        from,
        until,
        reg,
        block,
        out,
    );
    match part {
        Ok(reg) => u64::from(reg),
        Err(refusal) => u64::from(refusal.number()) * 0x1_0000_0000,
    }
}

// A block in two parts by the card engine, with the state kept in `held` between them: the refusal number.
#[unsafe(no_mangle)]
pub extern "C" fn fox_probe_in_two(
    sealing: u32,
    cipher: u32,
    rounds: u32,
    key: &[u8],
    stop: u32,
    block: &[u8],
    held: &mut [u8],
    out: &mut [u8],
) -> u32
    ensures { TurnsInTwo (asks_to_seal sealing) cipher rounds key.now stop block.now held.old held.new
        out.old out.new (handed result (length out.old)) }
{
    number_in(turn_in_two(sealing != 0, cipher, rounds, key, stop, block, held, out))
}
