// The second pass: the columns from the numbers of the tables.
ghost use Rattle.std.specs.Prelude.{ℕ, ◌≡◌, ◌+◌, ◌*◌, ◌≤◌, ◌<◌, length, map, take, drop};
ghost use Rattle.file.specs.Columns.{column_of, over};
ghost use Rattle.file.specs.Stated.{SameColumns, columns_in, laid_over};
ghost use Rattle.file.specs.Measured.{Ready, tables_from};

use crate::measure::Numbers;
use crate::{Columns, Layout, Table};

// A cell of a column, and the number of the file that it holds.
trait Holds: Copy {
    ghost number: { Self → ℕ };

    fn holding(n: u16) -> Self
        ensures { number result ≡ n };
}

impl Holds for u16 {
    ghost number = { λ n. n };

    fn holding(n: u16) -> u16 {
        n
    }
}

impl Holds for usize {
    ghost number = { λ n. n };

    fn holding(n: u16) -> usize {
        usize::from(n)
    }
}

// A column of a table whose rows have `width` numbers, from the number at `index` of each.
fn into_column<T: Holds>(
    column: &mut [T],
    numbers: &[u16],
    width: usize,
    index: usize,
    count: usize,
)
    requires column { count ≤ length column.old }
    requires numbers { (index < width) × (count * width ≤ length numbers.now) }
    ensures { map T.number column.new ≡ over (column_of width index count numbers.now) (map T.number column.old) }
{
    for i in 0..count {
        column[i] = T::holding(numbers[i * width + index]);
    }
}

fn into_code(code: &mut [u8], file: &[u8], table: &Table)
    requires code { table.now.count ≤ length code.old }
    requires file { table.now.start + table.now.count ≤ length file.now }
    ensures { code.new ≡ over (take table.now.count (drop table.now.start file.now)) code.old }
{
    let count = usize::from(table.count);
    code[..count].copy_from_slice(&file[table.start..table.start + count]);
}

#[tactic(auto, using(crate::proofs::LaidLaws::column_laid), unfolding(crate::specs::Stated::laid_over, crate::specs::Measured::tables_from))]
pub(crate) fn fill_columns(
    columns: &mut Columns<'_>,
    numbers: &Numbers,
    file: &[u8],
    layout: &Layout,
)
    requires { Ready file.now layout.now (columns_in columns.old) }
    ensures same { SameColumns columns.old columns.new }
    ensures filled { columns_in columns.new ≡ laid_over (tables_from numbers.now file.now layout.now) (columns_in columns.old) }
{
    let count = usize::from(layout.rows.count);
    into_column(columns.list_ids, &numbers.rows, 3, 0, count);
    into_column(columns.list_counts, &numbers.rows, 3, 1, count);
    into_column(columns.list_flags, &numbers.rows, 3, 2, count);
    let count = usize::from(layout.functions.count);
    into_column(columns.function_ids, &numbers.functions, 5, 0, count);
    into_column(columns.parameters, &numbers.functions, 5, 1, count);
    into_column(columns.maxima, &numbers.functions, 5, 2, count);
    into_column(columns.offsets, &numbers.functions, 5, 3, count);
    into_column(columns.lengths, &numbers.functions, 5, 4, count);
    let count = usize::from(layout.descriptors.count);
    into_column(columns.type_ids, &numbers.descriptors, 2, 0, count);
    into_column(
        columns.descriptor_functions,
        &numbers.descriptors,
        2,
        1,
        count,
    );
    let count = usize::from(layout.entries.count);
    into_column(columns.entries, &numbers.entries, 1, 0, count);
    into_code(columns.code, file, &layout.code);
}
