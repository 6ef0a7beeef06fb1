// The columns of a program, and the refusals of an input: 30 to 35.

#![tactic(auto)]

mod bodies;
mod counts;
mod seen;

ghost use Rattle.std.specs.Prelude.{◌≡◌, ◌≤◌, length};
ghost use Rattle.codes.specs.Lookup.{place_of};
ghost use Rattle.program.specs.Stated.{program_in, pool_program_in, room_in};
ghost use Rattle.program.specs.Refusals.{refusal_number, refusal_place, input_number, input_place, scratch_short, directory_of, contents_of, on_pool, input_of, stack_input, pool_input};
ghost use Rattle.program.specs.Seat.{seat_of};

use codes::CodeList;

// Functions: id, parameter count, declared maximum depth, body offset and body length. Columns and no records: 01 refuses columns of one table that
// differ in length.
#[derive(Clone, Copy)]
pub struct Functions<'a> {
    pub ids: &'a [u16],
    pub parameters: &'a [u16],
    pub maxima: &'a [u16],
    pub offsets: &'a [usize],
    pub lengths: &'a [usize],
}

// What the stack call looks at.
#[derive(Clone, Copy)]
pub struct Program<'a> {
    pub functions: Functions<'a>,
    pub list: CodeList<'a>,
    pub code: &'a [u8],
}

// Function-block descriptors: type id and function id.
#[derive(Clone, Copy)]
pub struct Descriptors<'a> {
    pub types: &'a [u16],
    pub callees: &'a [u16],
}

// What the pool call looks at: descriptors, entry ids and the declared pool besides.
#[derive(Clone, Copy)]
pub struct PoolProgram<'a> {
    pub program: Program<'a>,
    pub descriptors: Descriptors<'a>,
    pub entries: &'a [u16],
    pub pool: u16,
}

// Why an input is refused, before anything is checked.
#[derive(Clone, Copy, PartialEq, Eq, Debug)]
pub enum Refusal {
    TooMany,
    ScratchShort,
    ListFault(usize),
    IdRepeated(usize),
    BodyOutside(usize),
    PoolTooLarge,
}

// The cells of the lent scratch columns that both checks use.
#[derive(Clone, Copy, PartialEq, Eq, Debug)]
pub struct Room {
    pub marks: usize,
    pub depths: usize,
    pub queue: usize,
    pub queue_depths: usize,
}

// The scratch that both checks are lent: start marks, depths and two queue columns.
#[derive(Drop)]
pub struct Scratch<'a> {
    pub marks: &'a mut [u8],
    pub depths: &'a mut [u32],
    pub queue: &'a mut [u16],
    pub queue_depths: &'a mut [u16],
}

impl Scratch<'_> {
    pub fn room(&self) -> Room
        ensures { result ≡ room_in self.now }
    {
        Room {
            marks: self.marks.len(),
            depths: self.depths.len(),
            queue: self.queue.len(),
            queue_depths: self.queue_depths.len(),
        }
    }
}

impl Refusal {
    // 01's number: the variants have none.
    pub fn number(self) -> u32
        ensures { result ≡ refusal_number self }
    {
        match self {
            Refusal::TooMany => 31,
            Refusal::ScratchShort => 30,
            Refusal::ListFault(_) => 34,
            Refusal::IdRepeated(_) => 32,
            Refusal::BodyOutside(_) => 33,
            Refusal::PoolTooLarge => 35,
        }
    }

    pub fn place(self) -> usize
        ensures { result ≡ refusal_place self }
    {
        match self {
            Refusal::ListFault(row) | Refusal::IdRepeated(row) => row,
            Refusal::BodyOutside(row) => row,
            Refusal::TooMany | Refusal::ScratchShort | Refusal::PoolTooLarge => 0,
        }
    }
}

// The number of what is said of an input; 0 is no refusal.
pub fn number(input: Result<(), Refusal>) -> u32
    ensures { result ≡ input_number input }
{
    match input {
        Ok(()) => 0,
        Err(refusal) => refusal.number(),
    }
}

pub fn place(input: Result<(), Refusal>) -> usize
    ensures { result ≡ input_place input }
{
    match input {
        Ok(()) => 0,
        Err(refusal) => refusal.place(),
    }
}

// 30. The count of code bytes has been tested, so that nothing here wraps.
fn scratch_short(code: usize, room: Room) -> bool
    requires { code ≤ 12288 }
    ensures { result ≡ scratch_short code room }
{
    if room.marks < code {
        return true;
    }
    if room.depths < code + 1 {
        return true;
    }
    if room.queue < 2 * code + 2 {
        return true;
    }
    room.queue_depths < 2 * code + 2
}

// 32 and 33, and then `rest`.
fn directory(
    functions: &Functions<'_>,
    code: usize,
    rest: Result<(), Refusal>,
) -> Result<(), Refusal>
    ensures { result ≡ directory_of functions.now.ids.now functions.now.offsets.now functions.now.lengths.now code rest }
{
    if let Some(row) = seen::repeated(functions.ids) {
        return Err(Refusal::IdRepeated(row));
    }
    if let Some(row) = bodies::outside_row(functions, code) {
        return Err(Refusal::BodyOutside(row));
    }
    rest
}

// 34, then 32 and 33, and then `rest`.
#[tactic(auto, unfolding(crate::specs::Refusals::contents_of))]
fn contents(program: &Program<'_>, rest: Result<(), Refusal>) -> Result<(), Refusal>
    ensures { result ≡ contents_of (program_in program.now).list (program_in program.now).functions (length program.now.code.now) rest }
{
    codes::check_rows(program.list.ids, program.list.flags).map_err(Refusal::ListFault)?;
    directory(&program.functions, program.code.len(), rest)
}

fn pool_rest(pool: u16) -> Result<(), Refusal>
    ensures { result ≡ on_pool pool }
{
    if pool == 65535 {
        return Err(Refusal::PoolTooLarge);
    }
    Ok(())
}

// Both calls' input in 01's order. `many` and `short` are what a call has to say of 31 and 30 besides, `rest` what comes after 33.
fn ordered(
    program: &Program<'_>,
    room: Room,
    many: bool,
    short: bool,
    rest: Result<(), Refusal>,
) -> Result<(), Refusal>
    ensures { result ≡ input_of (program_in program.now) room many short rest }
{
    if counts::too_many(program) || many {
        return Err(Refusal::TooMany);
    }
    if scratch_short(program.code.len(), room) || short {
        return Err(Refusal::ScratchShort);
    }
    contents(program, rest)
}

// The stack call's input: it looks at no descriptor, entry or pool.
pub fn stack_input(program: &Program<'_>, room: Room) -> Result<(), Refusal>
    ensures { result ≡ stack_input (program_in program.now) room }
{
    ordered(program, room, false, false, Ok(()))
}

// The pool call's input: descriptors, entries, callee cells and pool besides.
pub fn pool_input(program: &PoolProgram<'_>, room: Room, cells: usize) -> Result<(), Refusal>
    ensures { result ≡ pool_input (pool_program_in program.now) room cells }
{
    let many = counts::pool_too_many(&program.descriptors, program.entries);
    let short = cells < 16384;
    ordered(&program.program, room, many, short, pool_rest(program.pool))
}

// The first row with an id.
pub fn first_row(ids: &[u16], id: u16) -> Option<usize>
    ensures { result ≡ place_of ids.now id }
{
    ids.iter().position(|found| *found == id)
}

// The row of a function: most directories have each id at its own number.
pub fn function_row(ids: &[u16], id: u16) -> Option<usize>
    ensures { result ≡ seat_of ids.now id }
{
    let own = id as usize;
    if own < ids.len() {
        if ids[own] == id {
            return Some(own);
        }
    }
    first_row(ids, id)
}
