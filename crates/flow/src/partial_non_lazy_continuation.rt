// partial_non_lazy_continuation.rs: the flags of lines. A lazy line goes on with no block.
ghost use Rattle.std.specs.Prelude.{◌≡◌, suc, ltb, length, drop, get_or};
ghost use Rattle.lexical.specs.Text.{pick};
ghost use Rattle.rules.specs.Lines.{isLazy, isInterrupt};

// Whether a line is lazy, by its flag.
pub(crate) fn is_lazy(flag: u8) -> bool
    ensures { result ≡ isLazy flag }
{
    (flag == 1) | (flag == 3)
}

// Whether a line begins no block of kind 7, by its flag.
pub(crate) fn is_interrupt(flag: u8) -> bool
    ensures { result ≡ isInterrupt flag }
{
    (flag == 2) | (flag == 3)
}

// The flag of a line. Past the end: 0.
pub(crate) fn flag_at(flags: &[u8], number: usize) -> u8
    ensures { result ≡ get_or (drop number flags.now) 0 0 }
{
    flags.get(number).copied().unwrap_or(0)
}

// The number of the next line. Behind the last line with a flag it stays, since there all lines have flag 0.
pub fn next_number(flags: &[u8], number: usize) -> usize
    ensures { result ≡ pick (ltb number (length flags.now)) (suc number) number }
{
    if number < flags.len() {
        return number + 1;
    }
    number
}
