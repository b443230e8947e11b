//! The six colours in which keys are shown.
ghost use Rattle.std.specs.Prelude.{◌≡◌};
ghost use Rattle.marked_lines.specs.Colours.{colour_digit};

pub(crate) fn colour_digit(key: usize) -> char
    ensures { result ≡ colour_digit key }
{
    match key % 6 {
        0 => '6',
        1 => '2',
        2 => '3',
        3 => '5',
        4 => '4',
        _ => '1',
    }
}
