// The bench file for the tests of other languages. The caller lends every column and the buffer, so that it can look at each cell
// afterwards; tests/driver/file_probe.h says what the numbers mean. Nothing here is part of the product.

#![tactic(auto)]

use file::{Columns, Refused, Sizes};
use file_writer::{Tables, Unwritten};

// No count and no place is as high as 2 to the power of 30.
fn narrow(n: usize) -> u32 {
    (n % 0x4000_0000) as u32
}

// A length, shifted by two bits to make room for a kind. (`probe` has this too: neither library stands on the other.)
fn packed(length: usize) -> u32 {
    (length % 0x4000_0000) as u32 * 4
}

fn put_sizes(answer: &mut [u32], sizes: Sizes) {
    cells::put(answer, 2, u32::from(sizes.pool));
    cells::put(answer, 3, narrow(sizes.rows));
    cells::put(answer, 4, narrow(sizes.functions));
    cells::put(answer, 5, narrow(sizes.descriptors));
    cells::put(answer, 6, narrow(sizes.entries));
    cells::put(answer, 7, narrow(sizes.code));
}

// The number, 0 for a file that was read; number, place and sizes go into the answer.
fn put_outcome(answer: &mut [u32], outcome: Result<Sizes, Refused>) -> u32 {
    match outcome {
        Ok(sizes) => {
            cells::put(answer, 0, 0);
            cells::put(answer, 1, 0);
            put_sizes(answer, sizes);
            0
        }
        Err(Refused { number, place }) => {
            cells::put(answer, 0, number);
            cells::put(answer, 1, narrow(place));
            number
        }
    }
}

#[unsafe(no_mangle)]
pub extern "C" fn file_probe_read(
    answer: &mut [u32],
    list_ids: &mut [u16],
    list_counts: &mut [u16],
    list_flags: &mut [u16],
    function_ids: &mut [u16],
    parameters: &mut [u16],
    maxima: &mut [u16],
    offsets: &mut [usize],
    lengths: &mut [usize],
    type_ids: &mut [u16],
    descriptor_functions: &mut [u16],
    entries: &mut [u16],
    code: &mut [u8],
    file: &[u8],
) -> u32 {
    let mut columns = Columns {
        list_ids,
        list_counts,
        list_flags,
        function_ids,
        parameters,
        maxima,
        offsets,
        lengths,
        type_ids,
        descriptor_functions,
        entries,
        code,
    };
    put_outcome(answer, file::read_file(&mut columns, file))
}

#[unsafe(no_mangle)]
pub extern "C" fn file_probe_write(
    out: &mut [u8],
    pool: u16,
    list_ids: &[u16],
    list_counts: &[u16],
    list_flags: &[u16],
    function_ids: &[u16],
    parameters: &[u16],
    maxima: &[u16],
    offsets: &[usize],
    lengths: &[usize],
    type_ids: &[u16],
    descriptor_functions: &[u16],
    entries: &[u16],
    code: &[u8],
) -> u32 {
    let tables = Tables {
        list_ids,
        list_counts,
        list_flags,
        function_ids,
        parameters,
        maxima,
        offsets,
        lengths,
        type_ids,
        descriptor_functions,
        entries,
        code,
    };
    match file_writer::write_file(out, pool, &tables) {
        Ok(size) => packed(size),
        Err(Unwritten::Refused { number }) => number % 0x4000_0000 * 4 + 1,
        Err(Unwritten::NoRoom) => 2,
    }
}
