// The rules of the program in hand, as the walk reads them.
ghost use Rattle.tables.specs.Stored.{GoesOn};

use effects::Sources;

// Where the effects of its instructions are read: the packed table there is one in which whatever is plain goes on to the next instruction.
#[derive(Clone, Copy)]
pub struct Rules<'a> {
    pub sizes: &'a [u8; 256],
    pub sources: Sources<'a>,
    ghost goes_on: { GoesOn sources.words.now },
}
