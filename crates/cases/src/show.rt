// What answers of several kinds have in common.

// `yes` or `no`.
pub fn yes_or_no(test: bool) -> &'static str {
    if test { "yes" } else { "no" }
}
