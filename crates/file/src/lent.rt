// Whether lent columns have a cell for each row that 01 allows.
ghost use Rattle.std.specs.Prelude.{◌≡◌};
ghost use Rattle.file.specs.Stated.{below, short_room};

use crate::Room;

#[tactic(auto, using(std::proofs::lemmas::Bool::Decides::nat_tests), unfolding(crate::specs::Stated::below))]
fn below(limit: usize, a: usize, b: usize, c: usize) -> bool
    ensures { result ≡ below limit a b c }
{
    a < limit || b < limit || c < limit
}

// A column has fewer cells than its table's limit.
#[tactic(auto, using(std::proofs::lemmas::Bool::Decides::nat_tests), unfolding(crate::specs::Stated::short_room))]
pub fn short(room: &Room) -> bool
    ensures { result ≡ short_room room.now }
{
    below(6144, room.list_ids, room.list_counts, room.list_flags)
        || below(128, room.function_ids, room.parameters, room.maxima)
        || below(128, room.offsets, room.lengths, room.lengths)
        || below(
            256,
            room.type_ids,
            room.descriptor_functions,
            room.descriptor_functions,
        )
        || room.entries < 32
        || room.code < 12288
}
