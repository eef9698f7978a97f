// The engines that a row is run by: the card, the server from key bytes, and the server from a prepared key.
use fox_card_block::block as card;
use fox_refusals::refusal::Refusal;
use fox_server_block::block as server;
use fox_server_key::prepared::prepare;

#[derive(Clone, Copy)]
pub(crate) enum Engine {
    Card,
    ServerFromKey,
    ServerPrepared,
}

impl Engine {
    pub(crate) const ALL: [Engine; 3] = [
        Engine::Card,
        Engine::ServerFromKey,
        Engine::ServerPrepared,
    ];

    pub(crate) fn name(self) -> &'static [u8] {
        match self {
            Engine::Card => b" card",
            Engine::ServerFromKey => b" server-from-key",
            Engine::ServerPrepared => b" server-prepared",
        }
    }

    // Seals or opens a block. A key that cannot be prepared is refused before it is sealed or opened with.
    pub(crate) fn turn(
        self,
        seals: bool,
        cipher: u32,
        rounds: u32,
        key: &[u8],
        block: &[u8],
        out: &mut [u8],
    ) -> Result<usize, Refusal> {
        match self {
            Engine::Card => card::turn(seals, cipher, rounds, key, block, out),
            Engine::ServerFromKey => server::turn_from_key(seals, cipher, rounds, key, block, out),
            Engine::ServerPrepared => server::turn(
                seals,
                prepare(cipher, rounds, key)?,
                block,
                out,
            ),
        }
    }
}
