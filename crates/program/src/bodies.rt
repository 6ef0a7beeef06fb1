// Refusal 33: a body that is not within the code.
ghost use Rattle.std.specs.Prelude.{◌≡◌};
ghost use Rattle.program.specs.Refusals.{outside_of};

use crate::Functions;

// The first row whose body is not within `code` bytes. The length is held against what is left after the offset: their sum could wrap.
pub fn outside_row(functions: &Functions<'_>, code: usize) -> Option<usize>
    ensures { result ≡ outside_of functions.now.offsets.now functions.now.lengths.now code }
{
    for i in 0..functions.offsets.len() {
        let offset = functions.offsets[i];
        if offset > code {
            return Some(i);
        }
        let left = code - offset;
        if cells::at(functions.lengths, i) > left {
            return Some(i);
        }
    }
    None
}
