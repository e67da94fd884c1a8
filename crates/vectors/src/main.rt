// The cases that are made by hand; what a line asks, and the form of its answer, stand in crates/cases. In their order:
//
// 687 of a line (`n`): every name of both lists in small letters, in capitals and in both, and with a letter more, one fewer, and the last or first one changed; more
// that are near to a name; lines with tabs or blank; each letter alone, small and capital, and what is no letter, alone and as the first byte of a name; none; and
// every name with its first letter one earlier or later. The places are those of the lists in constant.rs of the Rust crate markdown 1.0.0.
//
// 432 of both scans: of the 103 inline cases (`i`) 69 are the rows of SCOPE for html_text.rs, more of the same kinds, and the refusals 4, 5 and 6; of the 329 block cases
// (`b`) 271 are its rows for html_flow.rs, more of the same kinds, and the refusals 2, 3 and 4. The last 92 are from CommonMark 0.31.2 (CC BY-SA 4.0): each `<` of
// the 20 examples of Raw HTML (34 cases; a paragraph is a text), and in 42 of the 44 examples of HTML blocks, those without containers, each line outside a block that
// begins with `<` behind spaces (58 cases; the flag is 2 behind a line of a paragraph, else 0). The answers are those of the Rust crate markdown 1.0.0; the refusals
// are the table of SCOPE.
//
// 311 of the name that a block carries (`N`): every name in an open and a closing tag, before `/>` and with a letter more, and the rows of SCOPE, Which name it was; each kind, none,
// and the refusals 2, 3 and 4. The kinds are the numbers of SCOPE, the places as above.
//
// 437 of where the closer begins: 353 by the block scan (`C`), the rows of *Where the closer stands*, and more ends of blocks of kinds 1 to 5, each as it stands, indented, on a further
// line, behind CR LF and CR, on a lazy line, behind a paragraph, and without its last byte; kinds 6 and 7, none, and the refusals 2, 3 and 4. Kind, stop and closer
// are those of the Rust crate markdown 1.0.0, from compare. 84 by the standard (`c`): the first place in the lines that 4.6 of CommonMark 0.31.2 says.
//
// 91 of traces: the bytes of written traces (`I`, `B`) are those of the Rust crate markdown 1.0.0, from compare; records read (`e`) and refusals are worked out by hand.
// Of the records 8 have fields above 65,535, and 5 are cut off in the fourth byte of a field.
//
// 263 of both forms in crates/reader: the texts of `r` and `t` and their answers are those of the inline scan above, but that the run does not refuse; the
// index and byte behind them are counted from the text. The texts of `p` are paragraphs of CommonMark 0.31.2 (CC BY-SA 4.0), 6.6, and the answers of `T` and `F` are
// what its 6.6 and 4.6 say of the text; those of `f` for CDATA are F1 of SCOPE.
//
// 296 of withholding (`w`): the row of *The added screen*; the refusals 1, 2, 3 and 7, and room that just suffices; bulletins of 1,000,000 bytes; blocks of each kind,
// with and without their closers, lazy and interrupting lines, the three line endings, tabs, blank lines and the empty last line; paragraphs next to blocks; inline
// pieces over several lines; openings that no closer follows, and closed ones behind them and in the next paragraph; and bulletins that differ in a private piece. The
// pieces are those that the Rust crate markdown 1.0.0 finds, from compare, where the paragraph on withholding has it scan, but in the two of 1,000,000 bytes, where they are
// counted; the refusals are the table of SCOPE.
//
// 252 of the tag filter (`g`): the pieces are those of the Rust crate markdown 1.0.0, and the tags in them were found by a regular expression.
//
// 874 by the standard: every text of `i`, `b` and `w` above, CommonMark's examples among them, through the inline scan (`j`), the block scan (`d`) and
// withholding (`W`); then each of the eight places where the readings part (also by `c`), `<a>` with flags 0 to 3, `<![` and what begins so with carries 0 to 6, and
// the refusals. The answers are those of a model of 4.6 and 6.6 of CommonMark 0.31.2 that was made for them, of regular expressions and the flags and stops of SCOPE; of
// the first 728 they are the answers above but in 36, where one of the eight applies.
//
// 416 of backslashes: 180 of withholding in either reading (`w`, `W`), runs of 0 to 5 before a tag, a comment and `<![CDATA[`, at the start of a
// bulletin, behind a blank line, CR, CR LF, LF, a word and a piece; before the other forms; what breaks a run; backslashes inside of pieces, and pieces inside of a
// tag that is not tried; and block openings. 56 of the tag filter (`g`), runs in a paragraph and in blocks. The answers are those of a model that was made for them, of
// regular expressions and a count of the backslashes back to the paragraph's start or the last piece.
//
// 217 of old traces: 87 taken wide (`x`) and 130 taken narrow (`X`). The trace of `<b>`, and others of one record to thirteen; 65,535 in each field, and
// in one alone 65,536 and more; traces with no final record, with two, and with one in the middle; a trace of two records cut off at every length; kinds 0, 15 and 255
// first, in the middle, behind the last and alone; vs, carry and block kind 0 and 255; which refusal comes first; and buffers of the exact length, longer, one byte
// short and of none. The answers are those of a model that was made for them from the words of the ask.
//
// 345 of spans: 33 of finding (`u`) and 24 of finding by the standard (`U`), lists of every length about what is needed, pieces that touch, at either end and none,
// flags, backslashes and the refusals 1, 2, 3 and 7; 143 of showing beside spans (`o`) and 145 of a stretch (`q`), with each condition of refusal 12 alone and with
// others. The spans found are counted in the text; the answers of `o` and `q` are those of a model that was made for them from the words of SCOPE.
//
// 98 of two runs (`k`, `K`): 49 pairs of bulletins, each in either reading. 37 are editions, of two private pieces and more: bodies of each form in paragraphs, in the
// values of a tag, in remarks and in blocks of each kind; lines in blocks of kinds 1 to 5, apart, one right behind the other, and beside bodies; bodies that become
// empty, long, or both in one pair; backslashes, line endings and flags; three where the readings part; a bulletin twice, and the empty one twice. Six miss a premise,
// one of them in the standard reading alone, and there the two answers differ. In six one run or both are refused, by 2 or 3. The answers are those of a model that was
// made for them, of regular expressions and the flags and stops of SCOPE.
#![tactic(auto)]

use std::io;

fn main(rt: HostRuntime) -> io::Result<()> {
    cases::run::all(&rt)
}
