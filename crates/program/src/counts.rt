// Refusal 31: a count above its limit, or columns of one table that differ in length.
ghost use Rattle.std.specs.Prelude.{◌≡◌, length};
ghost use Rattle.program.specs.Stated.{program_in};
ghost use Rattle.program.specs.Refusals.{lengths_of, table_refused, too_many, pool_too_many};

use crate::{Descriptors, Program};

// A table by its limit, the length of its first column and the lengths of its others.
pub fn table_refused(limit: usize, rows: usize, others: &[usize]) -> bool
    ensures { result ≡ table_refused limit rows others.now }
{
    rows > limit || others.iter().any(|column| *column != rows)
}

pub fn too_many(program: &Program<'_>) -> bool
    ensures { result ≡ too_many (lengths_of (program_in program.now)) }
{
    let f = &program.functions;
    let functions = [
        f.parameters.len(),
        f.maxima.len(),
        f.offsets.len(),
        f.lengths.len(),
    ];
    if table_refused(128, f.ids.len(), &functions) {
        return true;
    }
    let list = [program.list.counts.len(), program.list.flags.len()];
    if table_refused(6144, program.list.ids.len(), &list) {
        return true;
    }
    program.code.len() > 12288
}

pub fn pool_too_many(descriptors: &Descriptors<'_>, entries: &[u16]) -> bool
    ensures { result ≡ pool_too_many (length descriptors.now.types.now) (length descriptors.now.callees.now) (length entries.now) }
{
    let others = [descriptors.callees.len()];
    if table_refused(256, descriptors.types.len(), &others) {
        return true;
    }
    entries.len() > 32
}
