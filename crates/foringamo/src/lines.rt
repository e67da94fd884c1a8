// The lines of a bulletin.
ghost use Rattle.std.specs.Prelude.{◌≡◌};
ghost use Rattle.lexical.specs.Line.{lines};

use lexical::line::count_lines;

// How many lines a text has: as many flags as a bulletin takes.
#[unsafe(no_mangle)]
pub extern "C" fn foringamo_count_lines(text: &[u8]) -> usize
    ensures { result ≡ lines text.now }
{
    count_lines(text)
}
