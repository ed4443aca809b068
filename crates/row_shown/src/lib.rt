// What is shown of a row of scores.
#![tactic(auto)]

ghost use Rattle.std.specs.Prelude.{◌≡◌, ◌≤◌, true, length};
ghost use Rattle.row_steps.specs.Steps.{shows_of, shown_where};

// Whether the score mode is one of those from low to high.
pub fn shows(mode: Option<usize>, low: usize, high: usize) -> bool
    ensures { result ≡ shows_of mode low high }
{
    mode.is_some_and(|m| (low..=high).contains(&m))
}

// The elements become those of another row, and the rest of them x, where `on` holds.
pub fn show(on: bool, row: &[f32], x: f32, shown: &mut [f32])
    requires { (on ≡ true) → length row.now ≤ length shown.old }
    ensures { shown.new ≡ shown_where on x row.now shown.old }
{
    if on {
        let (first, rest) = shown.split_at_mut(row.len());
        row_copies::copy_row(row, first);
        row_copies::fill_row(rest, x);
    }
}
