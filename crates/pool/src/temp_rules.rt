// 01's rules of the temp buffers, as a walk is lent them.
ghost use Rattle.std.specs.Prelude.{◌<◌};
ghost use Rattle.pool.specs.Plain.{PlainGoesOn};

use callees::Sources;

// The sizes that a body is decoded by, and what an instruction's word is read from. Whatever is plain there goes on, so that a turn need not ask how;
// 35 has been tested, so that a weight past the pool is a number of 16 bits.
#[derive(Drop)]
pub struct TempRules<'a> {
    pub sizes: &'a [u8; 256],
    pub sources: Sources<'a>,
    ghost goes_on: { PlainGoesOn sources.words.now },
    ghost pool_bounded: { sources.program.pool < 65535 },
}
