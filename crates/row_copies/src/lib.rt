// A row that is filled with one number, and one that becomes another. Rows are parts of the caller's slices, read and written where they stand.
#![tactic(auto)]

ghost use Rattle.std.specs.Prelude.{◌≡◌, length, replicate};

// Every element becomes x. `row.fill(x)` was tried and is slower: 1,329 instructions in place of 1,300 at 2,048 elements, 59 in place of 30 at 16.
pub fn fill_row(row: &mut [f32], x: f32)
    ensures { row.new ≡ replicate (length row.old) x }
{
    for e in row.iter_mut() {
        *e = x;
    }
}

// The elements become those of another row of the same length. No `copy_from_slice`: of a length that is not known it is a call of `memmove`, and the archive for C would need it from outside.
pub fn copy_row(from: &[f32], to: &mut [f32])
    requires { length to.old ≡ length from.now }
    ensures { to.new ≡ from.now }
{
    for (i, x) in to.iter_mut().enumerate() {
        *x = from[i];
    }
}
