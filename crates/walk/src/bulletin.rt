// A bulletin with the flag of each line, and the rules that it is read by.
use rules::Rules;

#[derive(Clone, Copy)]
pub struct Bulletin<'a> {
    pub rules: Rules,
    pub text: &'a [u8],
    pub flags: &'a [u8],
}
